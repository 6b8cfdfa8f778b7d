// The tokens of a text from edge to edge, as far as a token's first byte and the byte after it tell that it is one.
#![tactic(auto)]

pub mod walk;

ghost use Rattle.std.specs.Prelude.{◌≡◌, ℕ, ◌-◌, ◌≤◌, ◌<◌, leb, length, get_or, drop, List, IfSome};
ghost use Rattle.rules.specs.Characters.{quote};
ghost use Rattle.rules.specs.Limits.{max_query_size};
ghost use Rattle.lexer.specs.Ends.{ends_at};
ghost use Rattle.rules.specs.Tokens.{lexeme, after_dot_at};
ghost use Rattle.ahead.specs.Marks.{Marked, Lexes};
ghost use Rattle.edges.specs.Leads.{lead, told};
ghost use Rattle.edges.specs.Left.{Left, Taken};

use ahead::{Found, Marks, read_dollar};
use blocks::edges;
use lexer::syntax_kind::SyntaxKind;
use lexer::token::Lexed;
use lexer::tokenizer::{next_token, read_string};

// What each byte tells, as specs/Leads.antt has it: one number, so that one load tells all of it.
static LEADS: [u16; 256] = [
    0x002F, 0x002F, 0x002F, 0x002F, 0x002F, 0x002F, 0x002F, 0x002F, 0x002F, 0x0401, 0x0401, 0x0401,
    0x0401, 0x0401, 0x002F, 0x002F, 0x002F, 0x002F, 0x002F, 0x002F, 0x002F, 0x002F, 0x002F, 0x002F,
    0x002F, 0x002F, 0x002F, 0x002F, 0x002F, 0x002F, 0x002F, 0x002F, 0x0401, 0x102D, 0x1FC0, 0x002F,
    0xD892, 0x0017, 0x002F, 0x1FC0, 0x0008, 0x0009, 0x6011, 0x0013, 0x000E, 0x6314, 0x4010, 0x0216,
    0xA583, 0xA583, 0xA583, 0xA583, 0xA583, 0xA583, 0xA583, 0xA583, 0xA583, 0xA583, 0x6219, 0x000F,
    0x111F, 0xD11C, 0x5021, 0x0018, 0x6224, 0x2484, 0x2484, 0x2484, 0x2484, 0x2484, 0x2484, 0x2484,
    0x2484, 0x2484, 0x2484, 0x2484, 0x2484, 0x2484, 0x2484, 0x2484, 0x2484, 0x2484, 0x2484, 0x2484,
    0x2484, 0x2484, 0x2484, 0x2484, 0x2484, 0x2484, 0x2484, 0x000A, 0x1FEF, 0x000B, 0x001B, 0x2484,
    0x1FC0, 0x2484, 0x2484, 0x2484, 0x2484, 0x2484, 0x2484, 0x2484, 0x2484, 0x2484, 0x2484, 0x2484,
    0x2484, 0x2484, 0x2484, 0x2484, 0x2484, 0x2484, 0x2484, 0x2484, 0x2484, 0x2484, 0x2484, 0x2484,
    0x2484, 0x2484, 0x2484, 0x000C, 0x622E, 0x000D, 0x002F, 0x002F, 0x9FC0, 0x9FC0, 0x9FC0, 0x9FC0,
    0x9FC0, 0x9FC0, 0x9FC0, 0x9FC0, 0x9FC0, 0x9FC0, 0x9FC0, 0x9FC0, 0x9FC0, 0x9FC0, 0x9FC0, 0x9FC0,
    0x9FC0, 0x9FC0, 0x9FC0, 0x9FC0, 0x9FC0, 0x9FC0, 0x9FC0, 0x9FC0, 0x9FC0, 0x9FC0, 0x9FC0, 0x9FC0,
    0x9FC0, 0x9FC0, 0x9FC0, 0x9FC0, 0x9FC0, 0x9FC0, 0x9FC0, 0x9FC0, 0x9FC0, 0x9FC0, 0x9FC0, 0x9FC0,
    0x9FC0, 0x9FC0, 0x9FC0, 0x9FC0, 0x9FC0, 0x9FC0, 0x9FC0, 0x9FC0, 0x9FC0, 0x9FC0, 0x9FC0, 0x9FC0,
    0x9FC0, 0x9FC0, 0x9FC0, 0x9FC0, 0x9FC0, 0x9FC0, 0x9FC0, 0x9FC0, 0x9FC0, 0x9FC0, 0x9FC0, 0x9FC0,
    0x9FC0, 0x9FC0, 0x9FC0, 0x9FC0, 0x9FC0, 0x9FC0, 0x9FC0, 0x9FC0, 0x9FC0, 0x9FC0, 0x9FC0, 0x9FC0,
    0x9FC0, 0x9FC0, 0x9FC0, 0x9FC0, 0x9FC0, 0x9FC0, 0x9FC0, 0x9FC0, 0x9FC0, 0x9FC0, 0x9FC0, 0x9FC0,
    0x9FC0, 0x9FC0, 0x9FC0, 0x9FC0, 0x9FC0, 0x9FC0, 0x9FC0, 0x9FC0, 0x9FC0, 0x9FC0, 0x9FC0, 0x9FC0,
    0x9FC0, 0x9FC0, 0x9FC0, 0x9FC0, 0x9FC0, 0x9FC0, 0x9FC0, 0x9FC0, 0x9FC0, 0x9FC0, 0x9FC0, 0x9FC0,
    0x9FC0, 0x9FC0, 0x9FC0, 0x9FC0, 0x9FC0, 0x9FC0, 0x9FC0, 0x9FC0, 0x9FC0, 0x9FC0, 0x9FC0, 0x9FC0,
    0x9FC0, 0x9FC0, 0x9FC0, 0x9FC0,
];

// A set of bytes as bits, since a match of so many becomes a chain of jumps. Whether the byte is past ASCII, or its bit is set: in `low` by its number, or from 64 on in `high` by its number less 64.
fn is_among(b: u8, low: u64, high: u64) -> bool {
    let mask = if b >= 64 { high } else { low };
    (b >= 0x80) | ((mask >> (b % 64)) % 2 == 1)
}

// The edges after `at` in the 64 bytes from there on; none where the text's end is near, or where they would not pay: at a quote, a backslash
// or a byte past ASCII, or before a byte past ASCII. After a long token (`shy`) others of its kind may come: then also before a quote,
// a `$` or a byte that may open a comment.
#[inline(always)]
pub fn find(text: &[u8], at: usize, shy: bool) -> Rest
    requires { at ≤ length text.now }
    ensures left { Left text.now at result }
    ensures base { result.base ≡ at }
{
    let pays = text.len() - at >= 72
        && (text[at] | text[at + 1]) < 0x80
        && !is_among(text[at], 0x0000_0084_0000_0000, 0x0000_0001_1000_0000)
        && !(shy && is_among(text[at + 1], 0x0000_A094_0000_0000, 0x0000_0001_1000_0000));
    Rest {
        base: at,
        bits: if pays { edges(text, at) } else { 0 },
    }
}

// Whether a token is so long that little is left of a block after it.
pub fn is_long(start: usize, end: usize) -> bool
    requires { start ≤ end }
    ensures { result ≡ leb 48 (end - start) }
{
    end - start >= 48
}

// What is left after `end`.
fn left(rest: Rest, end: usize) -> Rest
    ensures base { result.base ≡ rest.base }
    ensures left { (s : List ℕ) (start : ℕ) → start < end → Left s start rest → Left s end result }
{
    let base = rest.base;
    if end < base || end - base >= 63 {
        return Rest { base, bits: 0 };
    }
    let n = end - base;
    Rest {
        base,
        bits: (rest.bits >> (n + 1)) << (n + 1),
    }
}

fn lead_of(b: u8) -> u32
    ensures { result ≡ lead b }
{
    LEADS[b as usize] as u32
}

// Whether a token whose first byte has the number `v` ends before a byte that has the number `u`.
fn is_told(v: u32, u: u32) -> bool
    requires { u < 0x2_0000 }
    ensures { result ≡ told v u }
{
    ((v >> 6) >> (u >> 13)) % 2 == 0
}

// What is left of a block of 64 bytes: where it begins, and its edges as bits.
#[derive(Clone, Copy)]
pub struct Rest {
    pub base: usize,
    pub bits: u64,
}

// A token, and the edges that are left after it.
#[derive(Clone, Copy)]
pub struct Next {
    pub token: Lexed,
    pub rest: Rest,
}

// A string.
#[inline(never)]
fn read_quoted(text: &[u8], start: usize) -> Lexed
    requires { (start < length text.now) × (get_or text.now start 0 ≡ quote) }
    ensures { result ≡ ends_at start (lexeme (after_dot_at text.now start) (drop start text.now)) }
{
    read_string(
        text,
        start + 1,
        b'\'',
        SyntaxKind::StringToken,
        SyntaxKind::ErrorSingleQuoteIsNotClosed,
    )
}

// The token at `start` by its readers.
#[inline(always)]
pub fn read(text: &[u8], start: usize, marks: Marks) -> Found
    requires { (length text.now ≤ max_query_size) × (start < length text.now) × Marked text.now start marks.until marks.lone.now }
    ensures { Lexes text.now start result }
{
    if text[start] == b'$' {
        return read_dollar(text, start, marks);
    }
    let token = if text[start] == b'\'' {
        read_quoted(text, start)
    } else {
        next_token(text, start)
    };
    Found { token, vain: false }
}

// What was read, with the edges that are left of a block.
#[inline(always)]
pub fn taken(token: Lexed, rest: Rest) -> Next
    ensures base { result.rest.base ≡ rest.base }
    ensures taken { (s : List ℕ) (start : ℕ) → start < length s → token ≡ ends_at start (lexeme (after_dot_at s start) (drop start s)) → Left s start rest → Taken s start result }
{
    Next {
        token,
        rest: left(rest, token.end),
    }
}

// The token at `start`, where its first byte and the byte after it tell it. The edges after `start` are left.
#[inline(always)]
pub fn plain(text: &[u8], start: usize, rest: Rest) -> Option<Next>
    requires { (length text.now ≤ max_query_size) × (start < length text.now) × Left text.now start rest }
    ensures base { IfSome result (λ n. n.rest.base ≡ rest.base) }
    ensures taken { IfSome result (λ n. Taken text.now start n) }
{
    if rest.bits == 0 {
        return None;
    }
    let end = rest.base + rest.bits.trailing_zeros() as usize;
    let v = lead_of(text[start]);
    if !is_told(v, lead_of(text[end])) {
        return None;
    }
    Some(Next {
        token: Lexed::new(v % 64, end),
        rest: Rest {
            base: rest.base,
            bits: rest.bits & (rest.bits - 1),
        },
    })
}
