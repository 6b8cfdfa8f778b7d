// Lists some texts in records and by a reader, and compares each list with the packed one. It prints a line a text: its bytes, number and value that `tokenize` answers, those of the reader, and how many lists differ.
#![tactic(auto)]

ghost use Rattle.std.specs.Prelude.{◌≡◌, ◌*◌, ◌≤◌, length, IfOk};
ghost use Rattle.rules.specs.Limits.{token_bytes};

use forms::reader::read_all;
use forms::records::{records_64, records_64_up_to};
use lexer::token::Token;
use lists::listing::{Settings, tokenize, tokenize_up_to_position};
use lists::packed::put_token;
use rules::refusal::Refusal;
use rules::{TOKEN_BYTES, token_bytes};
use std::io;

// The room of 64 tokens: an array, and its length beside it, since there is no heap, as in the library.
const SPACE: usize = 64 * TOKEN_BYTES;

fn space() -> [u8; SPACE]
    ensures { 64 * token_bytes ≡ length result }
{
    [0; SPACE]
}

// A record of kind 0 packs to zeros, as which a place past a packed list is left.
fn pack_records(records: [Token; 64], list: &mut [u8])
    requires { 64 * token_bytes ≤ length list.old }
{
    for (i, token) in records.iter().enumerate() {
        put_token(list, i * token_bytes(), token.kind, token.start, token.end);
    }
}

// Whether a listing into packed bytes and one into records give the same list.
fn agrees<L: FnOnce(&mut [u8]) -> Result<usize, Refusal>>(list_in: L, records: [Token; 64]) -> bool
    requires { L.IsAlwaysCallable list_in }
{
    let mut list = space();
    let _ = list_in(&mut list);
    let mut own = space();
    pack_records(records, &mut own);
    list == own
}

fn whole_agrees(settings: Settings, text: &[u8]) -> bool {
    agrees(
        |list| tokenize(settings, text, list),
        records_64(settings, text),
    )
}

fn up_to_agrees(settings: Settings, text: &[u8]) -> bool {
    agrees(
        |list| tokenize_up_to_position(settings, text, list),
        records_64_up_to(settings, text),
    )
}

// As a number and a value, which are compared as they stand in the program's lines.
fn numbers(answer: Result<usize, Refusal>) -> (u32, usize) {
    match answer {
        Ok(value) => (0, value),
        Err(refusal) => (refusal.number(), refusal.value()),
    }
}

// The reader does not test for UTF-8, and refuses a text that is too long without its two tokens: its list is compared where `tokenize` answers neither 1 nor 2.
fn compare_reader(rt: &impl Print, text: &[u8]) -> io::Result<usize>
    ensures { IfOk result (λ n. n ≤ 1) }
{
    let mut list = space();
    let answer = tokenize(Settings::new(), text, &mut list);
    let mut own = space();
    let read = read_all(text, &mut own);
    let (number, value) = numbers(answer);
    let (own_number, own_value) = numbers(read);
    print!(rt; "{number} {value}, reader {own_number} {own_value}, ")?;
    if let Err(Refusal::TooLong(_) | Refusal::NotUtf8(_)) = answer {
        return Ok(0);
    }
    Ok(usize::from(answer != read || list != own))
}

fn compare(rt: &impl Print, text: &[u8]) -> io::Result<()> {
    print!(rt; "{} bytes: ", text.len())?;
    let full = Settings::new().set_position(3);
    let lean = full.set_include_whitespace(false);
    let mut differences = compare_reader(rt, text)?;
    differences += usize::from(!whole_agrees(full, text));
    differences += usize::from(!whole_agrees(lean, text));
    differences += usize::from(!whole_agrees(full.set_mode(2), text));
    differences += usize::from(!up_to_agrees(full, text));
    differences += usize::from(!up_to_agrees(lean, text));
    println!(rt; "{differences} differences")
}

// A tag for each letter, which nothing closes, and a long word: after thirteen searches in vain it pays to look ahead.
fn tags() -> [u8; 10000] {
    let mut text = [b'x'; 10000];
    for i in 0..26u8 {
        text[i as usize * 2] = b'$';
        text[i as usize * 2 + 1] = b'A' + i;
    }
    text
}

fn main(rt: HostRuntime) -> io::Result<()> {
    compare(&rt, b"")?;
    compare(&rt, b"x.1 <='\xC3\xA9'")?;
    compare(&rt, b"a /*c*/ b")?;
    compare(&rt, b"SELECT 'a''b', $a$b$a$ -- end\n")?;
    // 64 tokens, and one more than there is room for.
    compare(
        &rt,
        b"a b c d e f g h i j k l m n o p q r s t u v w x y z a b c d e f ",
    )?;
    compare(
        &rt,
        b"a b c d e f g h i j k l m n o p q r s t u v w x y z a b c d e f g",
    )?;
    compare(&rt, b"a\xC0\x80")?;
    compare(&rt, &tags())
}
