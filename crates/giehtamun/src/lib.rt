// The library as functions with packed answers, which giehtamun_c exports to C. An answer is one number of 64 bits: see specs/Packed.antt.
#![tactic(auto)]

ghost use Rattle.std.specs.Prelude.{◌≡◌};
ghost use Rattle.rules.specs.Widths.{Fits, FitsExtra, FitsHalves};
ghost use Rattle.rules.specs.Answers.{listing, listing_up_to, step as step_at, token_text as token_text_of, shown_text as shown_text_of, masked_copy, place_at};
ghost use Rattle.rules.specs.Statements.{first_statement};
ghost use Rattle.rules.specs.Saved.{saving, loading, saved_text as saved_text_of};
ghost use Rattle.rules.specs.Cases.{refusal_number, refusal_value, number_of, value_of, part};
ghost use Rattle.giehtamun.specs.Packed.{packed, packed_written, packed_step, packed_part, packed_halves, packed_place, packed_first, packed_text, packed_loaded};

use lists::listing::{Settings, tokenize, tokenize_up_to_position};
use masking::copy::mask;
use rules::refusal::Refusal;
use saved::loader::{load, saved_text_answer};
use saved::saver::save;
use spans::parts::{shown_text_answer, token_text_answer};
use spans::places::place;
use statements::first_statement;
use steps::step;

fn pack(number: u32, extra: u32, value: usize) -> u64
    requires { FitsExtra number extra value }
    ensures { result ≡ packed number extra value }
{
    (number as u64) * 0x100_0000_0000_0000 + (extra as u64) * 0x1_0000_0000_0000 + (value as u64)
}

fn pack_refusal(refusal: Refusal) -> u64
    requires { Fits (refusal_number refusal) (refusal_value refusal) }
    ensures { result ≡ packed (refusal_number refusal) 0 (refusal_value refusal) }
{
    pack(refusal.number(), 0, refusal.value())
}

fn pack_answer(answer: Result<usize, Refusal>) -> u64
    requires { Fits (number_of answer) (value_of answer) }
    ensures { result ≡ packed (number_of answer) 0 (value_of answer) }
{
    match answer {
        Ok(value) => pack(0, 0, value),
        Err(refusal) => pack_refusal(refusal),
    }
}

fn pack_part(answer: Result<&[u8], Refusal>) -> u64
    requires { let p = part answer (λ bytes. bytes.now) in Fits p.number p.value }
    ensures { result ≡ packed_part (part answer.entry (λ bytes. bytes.now)) }
{
    match answer {
        Ok(bytes) => pack(0, 0, bytes.len()),
        Err(refusal) => pack_refusal(refusal),
    }
}

fn pack_halves(number: u32, first: usize, second: usize) -> u64
    requires { FitsHalves number first second }
    ensures { result ≡ packed_halves number first second }
{
    (number as u64) * 0x100_0000_0000_0000 + (first as u64) * 0x1000_0000 + (second as u64)
}

pub fn giehtamun_list(text: &[u8], mode: u32, list: &mut [u8]) -> u64
    ensures { packed_written result list.new (listing mode text.now list.old) }
{
    pack_answer(tokenize(Settings::new().set_mode(mode), text, list))
}

pub fn giehtamun_list_up_to(text: &[u8], mode: u32, position: usize, list: &mut [u8]) -> u64
    ensures { packed_written result list.new (listing_up_to mode position text.now list.old) }
{
    pack_answer(tokenize_up_to_position(
        Settings::new().set_mode(mode).set_position(position),
        text,
        list,
    ))
}

pub fn giehtamun_step(text: &[u8], cursor: usize) -> u64
    ensures { result ≡ packed_step (step_at text.now cursor) }
{
    match step(text, cursor) {
        Ok(token) => pack(0, token.kind, token.end as usize),
        Err(refusal) => pack_refusal(refusal),
    }
}

pub fn giehtamun_mask(text: &[u8], copy: &mut [u8]) -> u64
    ensures { packed_written result copy.new (masked_copy text.now copy.old) }
{
    pack_answer(mask(text, copy))
}

pub fn giehtamun_token_text(text: &[u8], start: usize, end: usize) -> u64
    ensures { result ≡ packed_part (token_text_of text.now start end) }
{
    pack_part(token_text_answer(text, start, end))
}

pub fn giehtamun_shown_text(text: &[u8], copy: &[u8], kind: u32, start: usize, end: usize) -> u64
    ensures { result ≡ packed_part (shown_text_of text.now copy.now kind start end) }
{
    pack_part(shown_text_answer(text, copy, kind, start, end))
}

pub fn giehtamun_place(text: &[u8], offset: usize) -> u64
    ensures { result ≡ packed_place (place_at text.now offset) }
{
    match place(text, offset) {
        Ok(position) => pack_halves(0, position.line, position.column),
        Err(refusal) => pack_halves(refusal.number(), 0, 0),
    }
}

pub fn giehtamun_first_statement(text: &[u8]) -> u64
    ensures { result ≡ packed_first (first_statement text.now) }
{
    match first_statement(text) {
        Ok(first) => pack_halves(0, first.tokens, first.end),
        Err(refusal) => pack_halves(refusal.number(), 0, 0),
    }
}

pub fn giehtamun_statement_text(text: &[u8]) -> u64
    ensures { result ≡ packed_text (first_statement text.now) }
{
    match first_statement(text) {
        Ok(first) => pack(0, 0, first.bytes),
        Err(refusal) => pack_refusal(refusal),
    }
}

pub fn giehtamun_save(text: &[u8], list: &[u8], flag: u32, file: &mut [u8]) -> u64
    ensures { packed_written result file.new (saving text.now list.now flag file.old) }
{
    pack_answer(save(text, list, flag, file))
}

pub fn giehtamun_load(file: &[u8], list: &mut [u8]) -> u64
    ensures { packed_loaded result list.new (loading file.now list.old) }
{
    match load(file, list) {
        Ok(loaded) => pack(0, loaded.flag, loaded.tokens),
        Err(refusal) => pack_refusal(refusal),
    }
}

pub fn giehtamun_saved_text(file: &[u8]) -> u64
    ensures { result ≡ packed_part (saved_text_of file.now) }
{
    pack_part(saved_text_answer(file))
}
