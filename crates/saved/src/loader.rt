// The reader: a file's packed list in lent bytes, and its text, which is the file's front.
ghost use Rattle.std.specs.Prelude.{◌≡◌, ◌+◌, ◌*◌, ◌≤◌, length, drop};
ghost use Rattle.rules.specs.Limits.{max_query_size, token_bytes};
ghost use Rattle.rules.specs.Listing.{pack};
ghost use Rattle.rules.specs.Answers.{filled};
ghost use Rattle.rules.specs.Cases.{part};
ghost use Rattle.rules.specs.Saved.{end_bytes, record_bytes, trailer_bytes, offset_in, tokens_in, readable, loading, saved_text};
ghost use Rattle.saved.specs.Answered.{loaded};

use crate::checks::records_fit;
use crate::layout::{
    COUNT_AT, FIRST_ZERO_AT, FLAG_AT, RECORD_BYTES, SECOND_ZERO_AT, TRAILER_BYTES, VERSION,
    VERSION_AT, get_record,
};
use lists::packed::{get_u32, put_token};
use rules::refusal::Refusal;
use rules::{max_query_size, token_bytes};
use utf8::valid_length;

// A list that is read: how many tokens are stored, and the file's flag.
#[derive(Clone, Copy, PartialEq, Eq, Debug)]
pub struct Loaded {
    pub tokens: usize,
    pub flag: u32,
}

fn is_readable(file: &[u8]) -> bool
    requires { (trailer_bytes ≤ length file.now) × (offset_in file.now ≤ max_query_size) }
    ensures { result ≡ readable file.now }
{
    let at = file.len() - TRAILER_BYTES;
    let offset = get_u32(file, at);
    let from = offset as usize;
    let records = get_u32(file, at + COUNT_AT) as usize;
    if file.len() != from + records * RECORD_BYTES + TRAILER_BYTES {
        return false;
    }
    if file[at + FIRST_ZERO_AT] != 0 {
        return false;
    }
    if file[at + SECOND_ZERO_AT] != 0 {
        return false;
    }
    records_fit(file, from, records, offset, u32::from(file[at + FLAG_AT]))
}

// The text of a file, or why it has none, by every test but that for room.
pub fn saved_text_answer<'a>(file: &'a [u8]) -> Result<&'a [u8], Refusal>
    ensures { part result (λ bytes. bytes.now) ≡ saved_text file.now }
{
    if file.len() < TRAILER_BYTES {
        return Err(Refusal::Malformed);
    }
    let at = file.len() - TRAILER_BYTES;
    if file[at + VERSION_AT] != VERSION {
        return Err(Refusal::NoVersion);
    }
    let size = get_u32(file, at) as usize;
    if size > max_query_size() {
        return Err(Refusal::TooLong(0));
    }
    if !is_readable(file) {
        return Err(Refusal::Malformed);
    }
    let text = &file[..size];
    let valid = valid_length(text);
    if valid != size {
        return Err(Refusal::NotUtf8(valid));
    }
    Ok(text)
}

// The text of a file; empty where it is refused.
pub fn saved_text<'a>(file: &'a [u8]) -> &'a [u8]
    ensures { result.now ≡ (saved_text file.now).bytes }
{
    match saved_text_answer(file) {
        Ok(text) => text,
        Err(_) => &file[..0],
    }
}

// The packed list of so many records from a place in a file on.
fn put_tokens(file: &[u8], from: usize, records: usize, list: &mut [u8])
    requires { (from + records * record_bytes end_bytes ≤ length file.now) × (records * token_bytes ≤ length list.old) }
    ensures { list.new ≡ filled (pack (tokens_in end_bytes records 0 (drop from file.now))) list.old }
{
    let mut end = 0;
    for i in 0..records {
        let token = get_record(file, from + i * RECORD_BYTES, end);
        put_token(list, i * token_bytes(), token.kind, token.start, token.end);
        end = token.end;
    }
}

pub fn load(file: &[u8], list: &mut [u8]) -> Result<Loaded, Refusal>
    ensures { loaded result list.new ≡ loading file.now list.old }
{
    let text = saved_text_answer(file)?;
    let at = file.len() - TRAILER_BYTES;
    let records = get_u32(file, at + COUNT_AT) as usize;
    if list.len() / token_bytes() < records {
        return Err(Refusal::NoRoom(records));
    }
    put_tokens(file, text.len(), records, list);
    Ok(Loaded {
        tokens: records,
        flag: u32::from(file[at + FLAG_AT]),
    })
}
