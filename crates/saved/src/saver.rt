// The writer: a text, its packed list and a flag as one file in lent bytes.
ghost use Rattle.std.specs.Prelude.{◌≡◌, ◌+◌, ◌*◌, ◌≤◌, ◌<◌, length};
ghost use Rattle.std.proofs.lemmas.List.Edits.{sets};
ghost use Rattle.rules.specs.Limits.{max_query_size, token_bytes};
ghost use Rattle.rules.specs.Listing.{room, unpack};
ghost use Rattle.rules.specs.Answers.{filled};
ghost use Rattle.rules.specs.Saved.{end_bytes, record_bytes, records_of, trailer_bytes, file_of, tokens_of, writable, saving};
ghost use Rattle.rules.specs.Cases.{written};

use crate::checks::list_fits;
use crate::layout::{RECORD_BYTES, TRAILER_BYTES, put_record, put_trailer};
use lists::packed::get_token;
use rules::refusal::Refusal;
use rules::{max_query_size, token_bytes};
use runs::copy_front;
use utf8::valid_length;

fn is_writable(text: &[u8], list: &[u8], flag: u32) -> bool
    requires { length text.now ≤ max_query_size }
    ensures { result ≡ writable text.now list.now flag }
{
    if list.len() % token_bytes() != 0 {
        return false;
    }
    list_fits(list, list.len() / token_bytes(), text.len() as u32, flag)
}

// The records of so many tokens of a packed list.
fn put_records(list: &[u8], tokens: usize, file: &mut [u8], from: usize) -> usize
    requires { (tokens * token_bytes ≤ length list.now) × (from + tokens * record_bytes end_bytes ≤ length file.old) }
    ensures { (result ≡ from + tokens * record_bytes end_bytes) × (file.new ≡ sets file.old from (records_of end_bytes (unpack tokens list.now))) }
{
    for i in 0..tokens {
        let token = get_token(list, i * token_bytes());
        put_record(file, from + i * RECORD_BYTES, token.kind, token.end);
    }
    from + tokens * RECORD_BYTES
}

// The whole file, for which there is room.
fn put_file(text: &[u8], list: &[u8], flag: u32, file: &mut [u8])
    requires { (length text.now ≤ max_query_size) × (room list.now ≤ max_query_size) × (flag < 256) × (length text.now + room list.now * record_bytes end_bytes + trailer_bytes ≤ length file.old) }
    ensures { file.new ≡ filled (file_of text.now (tokens_of list.now) flag) file.old }
{
    let size = text.len();
    let tokens = list.len() / token_bytes();
    copy_front(text, file);
    let at = put_records(list, tokens, file, size);
    put_trailer(file, at, size as u32, tokens as u32, flag);
}

pub fn save(text: &[u8], list: &[u8], flag: u32, file: &mut [u8]) -> Result<usize, Refusal>
    ensures { written result file.new ≡ saving text.now list.now flag file.old }
{
    let size = text.len();
    if size > max_query_size() {
        return Err(Refusal::TooLong(0));
    }
    if !is_writable(text, list, flag) {
        return Err(Refusal::Malformed);
    }
    let valid = valid_length(text);
    if valid != size {
        return Err(Refusal::NotUtf8(valid));
    }
    let bytes = size + list.len() / token_bytes() * RECORD_BYTES + TRAILER_BYTES;
    if file.len() < bytes {
        return Err(Refusal::NoRoom(bytes));
    }
    put_file(text, list, flag, file);
    Ok(bytes)
}
