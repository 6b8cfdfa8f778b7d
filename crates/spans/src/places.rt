// The place of a byte offset: its line, and its column in that line in UTF-16 code units, both from 0.
//
// Both are sums over bytes, so that they are added up by blocks, wherever a block begins. A line ends with a byte by that byte and the next. A
// column is the bytes since the line's start less what each character has more of bytes than of units, which stands at its first byte.
ghost use Rattle.std.specs.Prelude.{◌≡◌, false, ℕ, ◌+◌, ◌≤◌, ◌<◌, length, get_or};
ghost use Rattle.rules.specs.Utf8.{utf8_two};
ghost use Rattle.rules.specs.Limits.{max_query_size};
ghost use Rattle.rules.specs.Places.{ends_line};
ghost use Rattle.rules.specs.Answers.{place_at};
ghost use Rattle.spans.specs.Placed.{placed};
ghost use Rattle.spans.specs.Sums.{between, goes_on, surplus_by, marked, mark_at, end_at, surplus_at, Within, Starts, Edge};

use rules::max_query_size;
use rules::refusal::Refusal;
use utf8::{byte_at, is_tail, len_at};

// Of an offset: its line, and its column in that line.
#[derive(Clone, Copy, PartialEq, Eq, Debug)]
pub struct Position {
    pub line: usize,
    pub column: usize,
}

// What is counted in a block, told by a byte and the two after it. No closure tells it: `marked` in specs/Sums has the five marks, and
// the edits block_with_a_line and tail_after_two are of its cases.
#[derive(Clone, Copy, PartialEq, Eq, Debug)]
pub enum Mark {
    // A line end, at the byte that it ends with.
    End,
    // A byte from C2 on, which begins two bytes or more, or nothing.
    Lead,
    // A character of two bytes.
    Two,
    // A byte from E1 on, but for ED, with two tails after it: three bytes, where none is above EF.
    Three,
    // F0 with a second byte and a third after it.
    Four,
}

// The line that an index is in: where it starts, and what its characters before the index have more of bytes than of units.
#[derive(Clone, Copy, PartialEq, Eq, Debug)]
pub struct Line {
    pub start: usize,
    pub surplus: usize,
}

fn ends_line(a: u8, next: u8) -> bool
    ensures { result ≡ ends_line a next }
{
    (a == b'\n') | ((a == b'\r') & !(next == b'\n'))
}

fn is_two(a: u8, b: u8) -> bool
    ensures { result ≡ utf8_two a b }
{
    matches!(a, 0xC2..=0xDF) & is_tail(b)
}

// No test is a jump, here and in the others of a block, so that a block's become one.
#[tactic(auto, unfolding(crate::specs::Sums::marked))]
fn is_marked(mark: Mark, a: u8, b: u8, c: u8) -> bool
    ensures { result ≡ marked mark a b c }
{
    match mark {
        Mark::End => ends_line(a, b),
        Mark::Lead => 0xC2 <= a,
        Mark::Two => is_two(a, b),
        Mark::Three => ((0xE1 <= a) & (a != 0xED)) & (is_tail(b) & is_tail(c)),
        Mark::Four => ((a == 0xF0) & matches!(b, 0x90..=0xBF)) & is_tail(c),
    }
}

// How many there are in the 128 bytes of a block, so that a byte holds it: the compiler adds 16 of these at once. It knows the mark at each
// call. The two bytes after the block are read too, and its index goes into the sums: so `from + 130` here and below, and no array of 130 bytes.
#[tactic(auto, using(crate::proofs::Sums::sum_start, crate::proofs::Sums::sum_more, crate::proofs::Surplus::byte_bit, crate::proofs::Surplus::bit_most))]
fn count(text: &[u8], from: usize, mark: Mark) -> u8
    requires { from + 130 ≤ length text.now }
    ensures { result ≡ between (mark_at mark text.now) from (from + 128) }
{
    let mut n = 0;
    for k in 0..128 {
        n += u8::from(is_marked(mark, text[from + k], text[from + k + 1], text[from + k + 2]));
    }
    n
}

// The least and the greatest byte of a block, or beyond.
fn extent_of_block(text: &[u8], from: usize) -> (u8, u8)
    requires { from + 128 ≤ length text.now }
    ensures { Within text.now from (from + 128) result.0 result.1 }
{
    let mut least = 0xFF;
    let mut most = 0;
    for a in &text[from..from + 128] {
        least = least.min(*a);
        most = most.max(*a);
    }
    (least, most)
}

// What the character at i has more of bytes than of units.
#[tactic(auto, using(utf8::proofs::Units::unit_width, rules::proofs::Decoding::some_left, rules::proofs::Decoding::fits_at, crate::proofs::Surplus::surplus_wide, crate::proofs::Surplus::surplus_other))]
fn surplus_at(text: &[u8], i: usize) -> usize
    requires { i < length text.now }
    ensures { result ≡ surplus_at text.now i }
{
    let len = len_at(text, i);
    if len == 4 { 2 } else { len - 1 }
}

// The second byte goes on with what the first begins: a character, whole or cut. Without `four` no first byte is above EF.
fn goes_on(a: u8, b: u8, four: bool) -> bool
    requires { four ≡ false → a < 0xF0 }
    ensures { result ≡ goes_on a b }
{
    let high = 0xA0 <= b;
    let three = ((a != 0xE0) | high) & ((a != 0xED) | !high);
    let some = 0x90 <= b;
    let last = (a <= 0xF4) & (((a != 0xF0) | some) & ((a != 0xF4) | !some));
    ((0xC2 <= a) & is_tail(b)) & (three & (!four | last))
}

// The same as `surplus_at`, by the first three bytes: one for a second byte of the character, and one for a third. A fourth has a unit of its own.
fn surplus_by(a: u8, b: u8, c: u8, four: bool) -> u8
    requires { four ≡ false → a < 0xF0 }
    ensures { result ≡ surplus_by a b c }
{
    let second = goes_on(a, b, four);
    let third = (second & (0xE0 <= a)) & is_tail(c);
    u8::from(second) + u8::from(third)
}

// Over a block of any characters. After a byte that adds to it comes one that does not, so a byte holds it. The compiler knows `four` at each call.
#[tactic(auto, using(crate::proofs::Sums::sum_start, crate::proofs::Sums::sum_more, crate::proofs::Surplus::surplus_parts, crate::proofs::Blocks::block_few))]
fn surplus_of_any(text: &[u8], from: usize, four: bool) -> u8
    requires { (from + 130 ≤ length text.now) × (four ≡ false → (k : ℕ) → from ≤ k → k < from + 128 → get_or text.now k 0 < 0xF0) }
    ensures { result ≡ between (surplus_at text.now) from (from + 128) }
{
    let mut n = 0;
    for k in 0..128 {
        n += surplus_by(text[from + k], text[from + k + 1], text[from + k + 2], four);
    }
    n
}

// The same in a shorter way, where each byte that begins more has two after it that need no other test: then such bytes are counted.
#[tactic(auto, using(crate::proofs::Blocks::block_low, crate::proofs::Blocks::block_two, crate::proofs::Blocks::block_three, crate::proofs::Blocks::block_four))]
fn surplus_of_block(text: &[u8], from: usize, most: u8) -> usize
    requires { (from + 130 ≤ length text.now) × ((k : ℕ) → from ≤ k → k < from + 128 → get_or text.now k 0 ≤ most) }
    ensures { result ≡ between (surplus_at text.now) from (from + 128) }
{
    if most < 0xC2 {
        return 0;
    }
    if most < 0xE0 {
        return count(text, from, Mark::Two) as usize;
    }
    let leads = count(text, from, Mark::Lead);
    if most < 0xF0 {
        if count(text, from, Mark::Three) == leads {
            return 2 * leads as usize;
        }
        return surplus_of_any(text, from, false) as usize;
    }
    if count(text, from, Mark::Four) == leads {
        return 2 * leads as usize;
    }
    surplus_of_any(text, from, true) as usize
}

// A line ends with the byte at i.
fn end_at(text: &[u8], i: usize) -> bool
    requires { i < length text.now }
    ensures { result ≡ ends_line (get_or text.now i 0) (get_or text.now (i + 1) 0) }
{
    ends_line(text[i], byte_at(text, i + 1))
}

// The line ends before an index, by blocks as far as the two bytes that a block is read with lie before it too, and then byte by byte.
fn line_ends(text: &[u8], upto: usize) -> usize
    requires { upto ≤ length text.now }
    ensures { result ≡ between (end_at text.now) 0 upto }
{
    let blocks = upto.saturating_sub(2) / 128;
    let mut n = 0;
    for k in 0..blocks {
        n += usize::from(count(text, 128 * k, Mark::End));
    }
    for i in 128 * blocks..upto {
        n += usize::from(end_at(text, i));
    }
    n
}

// The line that an index is in, sought backwards as far as another index, byte by byte.
#[tactic(auto, using(crate::proofs::Sums::sum_none, crate::proofs::Sums::sum_before, crate::proofs::Blocks::block_most))]
fn line_by_byte(text: &[u8], from: usize, upto: usize) -> Line
    requires { (from ≤ upto) × (upto ≤ length text.now) × (length text.now ≤ max_query_size) }
    ensures { Starts text.now from upto result.start result.surplus }
{
    let mut surplus = 0;
    for i in (from..upto).rev() {
        if end_at(text, i) {
            return Line {
                start: i + 1,
                surplus,
            };
        }
        surplus += surplus_at(text, i);
    }
    Line {
        start: from,
        surplus,
    }
}

// The same as far as the text's start, by blocks. A block is read with the two bytes after it, so a text's last two come first. The blocks
// are a `while`, since the search byte by byte goes on from where they leave off.
fn line_before(text: &[u8], upto: usize) -> Line
    requires { (upto ≤ length text.now) × (length text.now ≤ max_query_size) }
    ensures { Starts text.now 0 upto result.start result.surplus }
{
    let mut n = 0;
    let mut i = upto;
    if text.len() - upto < 2 {
        let from = upto.saturating_sub(2);
        let last = line_by_byte(text, from, upto);
        if from < last.start {
            return last;
        }
        n = last.surplus;
        i = from;
    }
    // Backwards, from where the bytes before left off, and byte by byte from where this stops.
    while i >= 128 {
        let (least, most) = extent_of_block(text, i - 128);
        if least <= b'\r' && count(text, i - 128, Mark::End) != 0 {
            break;
        }
        n += surplus_of_block(text, i - 128, most);
        i -= 128;
    }
    let first = line_by_byte(text, 0, i);
    Line {
        start: first.start,
        surplus: n + first.surplus,
    }
}

// The start of the character that the offset is inside of, or the offset.
fn edge_of(text: &[u8], offset: usize) -> usize
    requires { offset ≤ length text.now }
    ensures { Edge text.now offset result }
{
    for i in (offset.saturating_sub(3)..offset).rev() {
        if len_at(text, i) > offset - i {
            return i;
        }
    }
    offset
}

#[tactic(auto, unfolding(rules::specs::Answers::place_at))]
pub fn place(text: &[u8], offset: usize) -> Result<Position, Refusal>
    ensures { placed result offset ≡ place_at text.now offset }
{
    if text.len() > max_query_size() {
        return Err(Refusal::TooLong(0));
    }
    if text.len() < offset {
        return Err(Refusal::Beyond);
    }
    let edge = edge_of(text, offset);
    let line = line_before(text, edge);
    Ok(Position {
        line: line_ends(text, line.start),
        column: edge - line.start - line.surplus,
    })
}
