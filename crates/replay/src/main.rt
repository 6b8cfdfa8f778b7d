// Lists each text of the file `answers` and compares with the list that the Rust tokenizer gave, which the file has after it.
//
// The file is cases with nothing before, between or after them: the length of the text, the text, the number of its tokens, and its full list, packed. Both numbers have four bytes, low byte first. Cases count from 1.
#![tactic(auto)]

mod cases;

ghost use Rattle.std.specs.Prelude.{◌≡◌, ◌≤◌, length, IfSome};

use cases::read_case;
use std::fs::File;
use std::io;
use std::io::Read;
use std::rt::Files;

// More than the file has, so that its end is seen.
const SPACE: usize = 524288;

// As lister has it: two programs, with no crate of theirs in common.
fn zeros<const N: usize>() -> [u8; N]
    ensures { N ≡ length result }
{
    [0; N]
}

fn print_damaged(rt: &impl Print, texts: usize) -> io::Result<()> {
    println!(rt; "damaged after case {texts}")
}

fn print_difference(rt: &impl Print, text: usize) -> io::Result<()> {
    println!(rt; "case {text} differs")
}

fn print_result(
    rt: &impl Print,
    texts: usize,
    tokens: usize,
    differences: usize,
) -> io::Result<()> {
    println!(rt; "{texts} texts, {tokens} tokens, {differences} differences")
}

fn replay(rt: &impl Print, file: &[u8]) -> io::Result<()> {
    let mut rest = file;
    let mut texts = 0;
    let mut tokens = 0;
    let mut differences = 0;
    while !rest.is_empty() {
        let Some(case) = read_case(rest) else {
            return print_damaged(rt, texts);
        };
        rest = &rest[case.size..];
        texts += 1;
        tokens += case.tokens;
        if !case.agrees {
            differences += 1;
            if differences <= 10 {
                print_difference(rt, texts)?;
            }
        }
    }
    print_result(rt, texts, tokens, differences)
}

// Reads until the space is full or the input ends, and answers how many bytes came. It answers nothing where a read fails.
// As lister's `read_text`, of which more is said: two programs, with no crate of theirs in common.
fn read_full(input: &mut impl Read, space: &mut [u8]) -> Option<usize>
    ensures { IfSome result (λ n. n ≤ length space.new) }
{
    let mut n = 0;
    // A turn goes on by what the read gave.
    while n < space.len() {
        let more = input.read(&mut space[n..]).ok()?;
        if more == 0 {
            break;
        }
        n += more;
    }
    Some(n)
}

// Not so where a read fails, or where the file has more than the space.
fn at_end(input: &mut impl Read) -> bool {
    let mut more = [0u8; 1];
    matches!(input.read(&mut more), Ok(0))
}

// How many bytes of the space the file has. It answers nothing where the file can't be opened, a read fails or there is more.
fn read_file(rt: &impl Files, space: &mut [u8]) -> Option<usize>
    ensures { IfSome result (λ n. n ≤ length space.new) }
{
    let mut file = File::open(rt, "answers").ok()?;
    let n = read_full(&mut file, space)?;
    if at_end(&mut file) { Some(n) } else { None }
}

fn main(rt: HostRuntime) -> io::Result<()> {
    // An array, and its length beside it: no heap, as in the library.
    let mut file = zeros::<SPACE>();
    let Some(n) = read_file(&rt, &mut file) else {
        return print_damaged(&rt, 0);
    };
    replay(&rt, &file[..n])
}
