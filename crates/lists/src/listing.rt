// The listings: all tokens of a text, or those that start before a position, as a packed list in lent bytes.
ghost use Rattle.std.specs.Prelude.{◌≡◌, cond, ◌+◌, ◌-◌, ◌*◌, ◌≤◌, ◌<◌, ◌^◌, length};
ghost use Rattle.rules.specs.Limits.{max_query_size, token_bytes};
ghost use Rattle.rules.specs.Listing.{full, lean, pack};
ghost use Rattle.rules.specs.Answers.{Done, TooLong, filled, stored, too_long_list, listing, listing_up_to};
ghost use Rattle.rules.specs.Records.{whole_plan, up_to_plan, packed_by};
ghost use Rattle.rules.specs.Cases.{written};
ghost use Rattle.ahead.specs.Marks.{Marked};
ghost use Rattle.lists.specs.Choices.{keeps, chosen, chosen_plan};
ghost use Rattle.lists.specs.Walks.{CountedOn, StoredOn};
ghost use Rattle.lists.specs.Plans.{plan_of, Follows, Planned};

use crate::packed::put_token;
use ahead::{Marks, look_ahead};
use edges::walk::Walk;
use lexer::syntax_kind::SyntaxKind;
use rules::refusal::Refusal;
use rules::{max_query_size, token_bytes};
use utf8::valid_length;

// What a listing is asked for. `tokenize` does not look at the position. Each setter hands the settings back changed, so calls chain.
#[derive(Clone, Copy)]
pub struct Settings {
    pub mode: u32,
    pub position: usize,
}

impl Settings {
    pub const FULL: u32 = 0;

    pub const LEAN: u32 = 1;

    // The full list, and no limit: no text is as long as the last number.
    pub fn new() -> Self
        ensures { (result.mode ≡ full) × (result.position ≡ 2 ^ 64 - 1) }
    {
        Self {
            mode: Self::FULL,
            position: usize::MAX,
        }
    }

    // Any number is taken: the listings refuse a mode that is none.
    pub fn set_mode(mut self, mode: u32) -> Self
        ensures { (result.mode ≡ mode) × (result.position ≡ self.position) }
    {
        self.mode = mode;
        self
    }

    pub fn set_include_whitespace(mut self, include: bool) -> Self
        ensures { (result.mode ≡ cond include full lean) × (result.position ≡ self.position) }
    {
        self.mode = if include { Self::FULL } else { Self::LEAN };
        self
    }

    pub fn set_position(mut self, position: usize) -> Self
        ensures { (result.mode ≡ self.mode) × (result.position ≡ position) }
    {
        self.position = position;
        self
    }
}

// Which tokens a list has: those that start before the position, without the kinds that it drops.
#[derive(Clone, Copy)]
pub struct Choice {
    pub position: usize,
    pub drop_whitespace: bool,
    pub drop_comment: bool,
}

// What a listing that is not refused is to do, as far as the room does not decide it. No Option of a choice: `TooLong` is a list of two tokens.
#[derive(Clone, Copy)]
pub enum Plan {
    // Nothing is stored, of any text, and this is answered. No listing is planned so; a caller who plans by himself may.
    Answered(usize),
    // The list that `tokenize` gives of a text that is too long.
    TooLong,
    // Tokens of the text, which is not too long.
    List(Choice),
}

impl Choice {
    // By the bits of the kinds that are dropped, which do not change in a loop: it makes them once, and a token takes one test.
    pub fn keeps(self, kind: u32) -> bool
        ensures { result ≡ keeps self kind }
    {
        let dropped = bit_if(self.drop_whitespace, 2) + bit_if(self.drop_comment, 4);
        (kind >= 64) | ((dropped >> (kind % 64)) % 2 == 0)
    }
}

fn bit_if(test: bool, bit: u64) -> u64
    ensures { (result ≡ cond test bit 0) × (result ≤ bit) }
{
    if test { bit } else { 0 }
}

// A text that is not too long, and which of its tokens a list has. The position lies in the text.
#[derive(Clone, Copy)]
pub struct Chosen<'a> {
    pub text: &'a [u8],
    pub choice: Choice,
    ghost short: { length text.now ≤ max_query_size },
    ghost inside: { choice.position ≤ length text.now },
}

// How far a text is counted: the tokens that are kept before a cursor.
#[derive(Clone, Copy, Default)]
pub struct Counted {
    pub cursor: usize,
    pub tokens: usize,
}

// Counts on to the end, or until it pays to look ahead.
fn count_some(of: Chosen, from: Counted, marks: Marks) -> Counted
    requires { (from.cursor ≤ length of.text.now) × (from.tokens ≤ from.cursor) × Marked of.text.now from.cursor marks.until marks.lone.now }
    ensures { CountedOn of.entry.choice of.entry.text.now from result }
{
    let mut walk = Walk::new(of.text, from.cursor, of.choice.position, marks);
    let mut tokens = from.tokens;
    while let Some(token) = walk.next() {
        if of.choice.keeps(token.kind) {
            tokens += 1;
        }
    }
    Counted {
        cursor: walk.cursor,
        tokens,
    }
}

// Looks ahead, and counts on. Each of the four walks has its own: one function for all would take a closure, and of the bytes of a list or a copy
// that it captures nothing is known afterwards. The edits counted_anew, stored_anew, read_anew and masked_anew are of their loops.
#[cold]
#[inline(never)]
fn count_more(of: Chosen, from: Counted) -> Counted
    requires { (from.cursor ≤ length of.text.now) × (from.tokens ≤ from.cursor) }
    ensures { CountedOn of.entry.choice of.entry.text.now from result }
{
    let mut lone = [0; 4096];
    let until = look_ahead(of.text, from.cursor, &mut lone);
    count_some(of, from, Marks { until, lone: &lone })
}

// The list's length.
pub fn count(of: Chosen) -> usize
    ensures { result ≡ length (chosen of.entry.choice of.entry.text.now 0) }
{
    let mut at = count_some(of, Counted::default(), Marks::none());
    while at.cursor < of.choice.position {
        at = count_more(of, at);
    }
    at.tokens
}

// The list's length, or more where it fits all the same: a token has at least one byte, so with room for a token a byte nothing is counted.
pub fn needed(of: Chosen, room: usize) -> usize
    ensures { let n = length (chosen of.entry.choice of.entry.text.now 0) in (n ≤ result) × (room < result → result ≡ n) }
{
    let most = of.text.len();
    if most <= room {
        return most;
    }
    count(of)
}

// How far a list is stored: the bytes of the tokens that are kept before a cursor. Bytes and not tokens, so it is no `Counted`.
#[derive(Clone, Copy, Default)]
pub struct Stored {
    pub cursor: usize,
    pub bytes: usize,
}

// Stores on to the end, or until it pays to look ahead.
fn fill_some(of: Chosen, list: &mut [u8], from: Stored, marks: Marks) -> Stored
    requires { (from.cursor ≤ length of.text.now) × (from.bytes + length (chosen of.choice of.text.now from.cursor) * token_bytes ≤ length list.old) × Marked of.text.now from.cursor marks.until marks.lone.now }
    ensures { StoredOn of.entry.choice of.entry.text.now from list.old result list.new }
{
    let mut walk = Walk::new(of.text, from.cursor, of.choice.position, marks);
    let mut bytes = from.bytes;
    while let Some(token) = walk.next() {
        if of.choice.keeps(token.kind) {
            bytes = put_token(list, bytes, token.kind, token.start, token.end);
        }
    }
    Stored {
        cursor: walk.cursor,
        bytes,
    }
}

// Looks ahead, and stores on. Each walk has its own, as at `count_more`: of the bytes of a list that a closure captures nothing is known afterwards.
#[cold]
#[inline(never)]
fn fill_more(of: Chosen, list: &mut [u8], from: Stored) -> Stored
    requires { (from.cursor ≤ length of.text.now) × (from.bytes + length (chosen of.choice of.text.now from.cursor) * token_bytes ≤ length list.old) }
    ensures { StoredOn of.entry.choice of.entry.text.now from list.old result list.new }
{
    let mut lone = [0; 4096];
    let until = look_ahead(of.text, from.cursor, &mut lone);
    fill_some(of, list, from, Marks { until, lone: &lone })
}

// Stores the list, for which there is room, and answers its length.
fn fill(of: Chosen, list: &mut [u8]) -> usize
    requires { length (chosen of.choice of.text.now 0) * token_bytes ≤ length list.old }
    ensures { let ts = chosen of.entry.choice of.entry.text.now 0 in (result ≡ length ts) × (list.new ≡ filled (pack ts) list.old) }
{
    let mut at = fill_some(of, list, Stored::default(), Marks::none());
    while at.cursor < of.choice.position {
        at = fill_more(of, list, at);
    }
    at.bytes / token_bytes()
}

// Stores the list, unless the room is too small.
fn store_chosen(of: Chosen, list: &mut [u8]) -> Result<usize, Refusal>
    ensures { written result list.new ≡ stored (chosen of.entry.choice of.entry.text.now 0) Done list.old }
{
    let room = list.len() / token_bytes();
    let tokens = needed(of, room);
    if room < tokens {
        return Err(Refusal::NoRoom(tokens));
    }
    Ok(fill(of, list))
}

// The list that `tokenize` gives of a text that is too long.
fn store_too_long(list: &mut [u8]) -> Result<usize, Refusal>
    ensures { written result list.new ≡ stored too_long_list TooLong list.old }
{
    if list.len() / token_bytes() < 2 {
        return Err(Refusal::NoRoom(2));
    }
    let at = put_token(list, 0, SyntaxKind::ErrorMaxQuerySizeExceeded, 0, 0);
    put_token(list, at, SyntaxKind::EndOfStream, 0, 0);
    Err(Refusal::TooLong(2))
}

fn store(text: &[u8], plan: Plan, list: &mut [u8]) -> Result<usize, Refusal>
    requires { Follows (Ok plan) text.now }
    ensures { written result list.new ≡ packed_by (plan_of (Ok plan) text.now) list.old }
{
    match plan {
        Plan::Answered(value) => Ok(value),
        Plan::TooLong => store_too_long(list),
        Plan::List(choice) => store_chosen(Chosen { text, choice }, list),
    }
}

// The choice, of a text that is not too long, unless the text is not valid.
fn plan_chosen(of: Chosen) -> Result<Plan, Refusal>
    ensures { Planned result of.entry.text.now (chosen_plan of.entry.choice of.entry.text.now) }
{
    let valid = valid_length(of.text);
    if valid != of.text.len() {
        return Err(Refusal::NotUtf8(valid));
    }
    Ok(Plan::List(of.choice))
}

// The whole listing. Lean drops white space and comments. No twin of `plan_up_to`: this one is `whole_plan`, that one `up_to_plan`, and they refuse
// and drop different things.
pub fn plan_whole(settings: Settings, text: &[u8]) -> Result<Plan, Refusal>
    ensures { Planned result text.now (whole_plan settings.mode text.now) }
{
    if settings.mode > Settings::LEAN {
        return Err(Refusal::NoMode);
    }
    if text.len() > max_query_size() {
        return Ok(Plan::TooLong);
    }
    let lean = settings.mode == Settings::LEAN;
    let choice = Choice {
        position: text.len(),
        drop_whitespace: lean,
        drop_comment: lean,
    };
    plan_chosen(Chosen { text, choice })
}

// The tokens that start before the position. Lean drops white space and keeps comments.
pub fn plan_up_to(settings: Settings, text: &[u8]) -> Result<Plan, Refusal>
    ensures { Planned result text.now (up_to_plan settings.mode settings.position text.now) }
{
    if settings.mode > Settings::LEAN {
        return Err(Refusal::NoMode);
    }
    if text.len() > max_query_size() {
        return Err(Refusal::TooLong(0));
    }
    let lean = settings.mode == Settings::LEAN;
    let choice = Choice {
        position: usize::min(settings.position, text.len()),
        drop_whitespace: lean,
        drop_comment: false,
    };
    plan_chosen(Chosen { text, choice })
}

pub fn tokenize(settings: Settings, text: &[u8], list: &mut [u8]) -> Result<usize, Refusal>
    ensures { written result list.new ≡ listing settings.mode text.now list.old }
{
    let plan = plan_whole(settings, text)?;
    store(text, plan, list)
}

pub fn tokenize_up_to_position(
    settings: Settings,
    text: &[u8],
    list: &mut [u8],
) -> Result<usize, Refusal>
    ensures { written result list.new ≡ listing_up_to settings.mode settings.position text.now list.old }
{
    let plan = plan_up_to(settings, text)?;
    store(text, plan, list)
}
