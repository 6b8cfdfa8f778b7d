// Prints the full list of the text on standard input, or why there is none.
#![tactic(auto)]

ghost use Rattle.std.specs.Prelude.{◌≡◌, ◌*◌, ◌≤◌, length};
ghost use Rattle.rules.specs.Limits.{token_bytes};
ghost use Rattle.lister.specs.Input.{count_of, ReadSome, ReadText};

use lists::listing::{Settings, tokenize};
use lists::packed::get_token;
use rules::refusal::Refusal;
use rules::{TOKEN_BYTES, token_bytes};
use std::io;
use std::io::Read;

const MOST_BYTES: usize = 65536;

// One byte more than a text may have, which shows that there is more.
const TEXT_SPACE: usize = MOST_BYTES + 1;

// Room for a token a byte.
const LIST_SPACE: usize = MOST_BYTES * TOKEN_BYTES;

// As replay has it: two programs, with no crate of theirs in common.
fn zeros<const N: usize>() -> [u8; N]
    ensures { N ≡ length result }
{
    [0; N]
}

// How many bytes one read gave, or nothing where it failed.
fn read_some<R: Read>(input: &mut R, part: &mut [u8]) -> Option<usize>
    ensures bound { count_of result ≤ length part.new }
    ensures bytes { ReadSome (R.remaining input.old) (R.remaining input.new) result part.new }
{
    input.read(part).ok()
}

// Reads until the text is full or the input ends: a pipe gives its bytes in pieces. It answers nothing where a read fails.
// As replay's `read_full`, of which less is said: two programs, with no crate of theirs in common.
fn read_text<R: Read>(input: &mut R, text: &mut [u8]) -> Option<usize>
    ensures bound { count_of result ≤ length text.new }
    ensures bytes { ReadText (R.remaining input.old) (R.remaining input.new) result text.new }
{
    let mut n = 0;
    // A turn goes on by what the read gave.
    while n < text.len() {
        let more = read_some(input, &mut text[n..])?;
        if more == 0 {
            break;
        }
        n += more;
    }
    Some(n)
}

fn print_tokens(rt: &impl Print, list: &[u8], tokens: usize) -> io::Result<()>
    requires { tokens * token_bytes ≤ length list.now }
{
    for i in 0..tokens {
        let token = get_token(list, i * token_bytes());
        println!(rt; "{token}")?;
    }
    Ok(())
}

fn print_end(rt: &impl Print, tokens: usize, bytes: usize) -> io::Result<()> {
    println!(rt; "end {tokens} {bytes}")
}

fn print_refusal(rt: &impl Print, refusal: Refusal) -> io::Result<()> {
    println!(rt; "refused {refusal}")
}

fn print_list(rt: &impl Print, text: &[u8]) -> io::Result<()> {
    // An array, and its length beside it: no heap, as in the library. So with the text in `main`.
    let mut list = zeros::<LIST_SPACE>();
    match tokenize(Settings::new(), text, &mut list) {
        Ok(tokens) => {
            print_tokens(rt, &list, tokens)?;
            print_end(rt, tokens, text.len())
        }
        Err(refusal) => print_refusal(rt, refusal),
    }
}

fn main(rt: HostRuntime) -> io::Result<()> {
    let mut text = zeros::<TEXT_SPACE>();
    let Some(n) = read_text(&mut rt.stdin(), &mut text) else {
        return rt.eprintln("lister: standard input can't be read");
    };
    if n > MOST_BYTES {
        return print_refusal(&rt, Refusal::TooLong(0));
    }
    print_list(&rt, &text[..n])
}
