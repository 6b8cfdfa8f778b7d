// A token by its first few bytes, where they tell it. What they leave undecided is for the readers.
ghost use Rattle.std.specs.Prelude.{◌≡◌, true, false, ◌+◌, ◌≤◌, ◌<◌, length, get_or, drop, IfSome};
ghost use Rattle.rules.specs.Utf8.{chars};
ghost use Rattle.rules.specs.Classes.{white_space, digit};
ghost use Rattle.rules.specs.Kinds.{Number};
ghost use Rattle.rules.specs.Lexeme.{run};
ghost use Rattle.rules.specs.Numbers.{number};
ghost use Rattle.rules.specs.Operators.{single};
ghost use Rattle.rules.specs.Words.{word_character};
ghost use Rattle.rules.specs.Tokens.{lexeme, after_dot_at};
ghost use Rattle.lexer.specs.Ends.{ends_at, Unruled};
ghost use Rattle.lexer.specs.FirstBytes.{first_byte_kind, Operates};

use crate::bytes::{after_dot, is_ascii_space, is_spaceship, is_word_byte, pair, skip_digits};
use crate::syntax_kind::SyntaxKind;
use crate::token::Lexed;

// What each byte tells of the kind of a token that it starts: the kind; past 0x80, the kind of the byte alone, where there may be more to it.
// One byte holds both, so that one load tells, and one test parts the first from the second.
static FIRST_BYTE_KINDS: [u8; 256] = [
    0x2F, 0x2F, 0x2F, 0x2F, 0x2F, 0x2F, 0x2F, 0x2F, 0x2F, 0x01, 0x01, 0x01, 0x01, 0x01, 0x2F, 0x2F,
    0x2F, 0x2F, 0x2F, 0x2F, 0x2F, 0x2F, 0x2F, 0x2F, 0x2F, 0x2F, 0x2F, 0x2F, 0x2F, 0x2F, 0x2F, 0x2F,
    0x01, 0xAD, 0x00, 0x2F, 0x00, 0x17, 0x2F, 0x00, 0x08, 0x09, 0x11, 0x13, 0x0E, 0x94, 0x10, 0x96,
    0x03, 0x03, 0x03, 0x03, 0x03, 0x03, 0x03, 0x03, 0x03, 0x03, 0x99, 0x0F, 0x9F, 0x9C, 0xA1, 0x18,
    0xA4, 0x04, 0x04, 0x04, 0x04, 0x04, 0x04, 0x04, 0x04, 0x04, 0x04, 0x04, 0x04, 0x04, 0x04, 0x04,
    0x04, 0x04, 0x04, 0x04, 0x04, 0x04, 0x04, 0x04, 0x04, 0x04, 0x04, 0x0A, 0xAF, 0x0B, 0x1B, 0x04,
    0x00, 0x04, 0x04, 0x04, 0x04, 0x04, 0x04, 0x04, 0x04, 0x04, 0x04, 0x04, 0x04, 0x04, 0x04, 0x04,
    0x04, 0x04, 0x04, 0x04, 0x04, 0x04, 0x04, 0x04, 0x04, 0x04, 0x04, 0x0C, 0xAE, 0x0D, 0x2F, 0x2F,
    0x00, 0x00, 0x00, 0x00, 0x00, 0x00, 0x00, 0x00, 0x00, 0x00, 0x00, 0x00, 0x00, 0x00, 0x00, 0x00,
    0x00, 0x00, 0x00, 0x00, 0x00, 0x00, 0x00, 0x00, 0x00, 0x00, 0x00, 0x00, 0x00, 0x00, 0x00, 0x00,
    0x00, 0x00, 0x00, 0x00, 0x00, 0x00, 0x00, 0x00, 0x00, 0x00, 0x00, 0x00, 0x00, 0x00, 0x00, 0x00,
    0x00, 0x00, 0x00, 0x00, 0x00, 0x00, 0x00, 0x00, 0x00, 0x00, 0x00, 0x00, 0x00, 0x00, 0x00, 0x00,
    0x00, 0x00, 0x00, 0x00, 0x00, 0x00, 0x00, 0x00, 0x00, 0x00, 0x00, 0x00, 0x00, 0x00, 0x00, 0x00,
    0x00, 0x00, 0x00, 0x00, 0x00, 0x00, 0x00, 0x00, 0x00, 0x00, 0x00, 0x00, 0x00, 0x00, 0x00, 0x00,
    0x00, 0x00, 0x00, 0x00, 0x00, 0x00, 0x00, 0x00, 0x00, 0x00, 0x00, 0x00, 0x00, 0x00, 0x00, 0x00,
    0x00, 0x00, 0x00, 0x00, 0x00, 0x00, 0x00, 0x00, 0x00, 0x00, 0x00, 0x00, 0x00, 0x00, 0x00, 0x00,
];

// What a token's first byte tells of its kind.
pub(crate) fn first_byte_kind(a: u8) -> u32
    ensures { result ≡ first_byte_kind a }
{
    FIRST_BYTE_KINDS[a as usize] as u32
}

// True only if the white space at `start` is one byte: what follows is of ASCII and no white space, or `other_len` tells it.
pub(crate) fn is_short_space(text: &[u8], start: usize) -> bool
    requires { (start + 4 ≤ length text.now) × (get_or text.now start 0 < 0x80) × (white_space (get_or text.now start 0) ≡ true) }
    ensures { result ≡ true → 1 ≡ run white_space (chars (drop start text.now)) }
{
    let b = text[start + 1];
    if b < 0x80 {
        return !is_ascii_space(b);
    }
    other_len(text, start + 1).is_some()
}

// The bytes of a character past ASCII at which no rule starts a token, where a few bytes tell that: letters from U+00C0 on, but not those
// from U+1680 to U+3000, among which are white space, quotes and the minus.
pub(crate) fn other_len(text: &[u8], at: usize) -> Option<usize>
    requires { at + 3 ≤ length text.now }
    ensures { IfSome result (λ n. Unruled text.now at n) }
{
    match (text[at], text[at + 1], text[at + 2]) {
        (0xC3..=0xDF, 0x80..=0xBF, _) => Some(2),
        (a @ 0xE1..=0xEC, b @ 0x80..=0xBF, c @ 0x80..=0xBF) => {
            let code = a as u32 % 16 * 4096 + b as u32 % 64 * 64 + c as u32 % 64;
            if code < 0x1680 || 0x3000 < code {
                Some(3)
            } else {
                None
            }
        }
        _ => None,
    }
}

// One or two characters, where neither a comment nor a third character is meant; `kind` is that of the first alone.
pub(crate) fn fast_operator(text: &[u8], start: usize, kind: u32) -> Option<Lexed>
    requires { (start + 3 ≤ length text.now) × Operates (get_or text.now start 0) × (single (get_or text.now start 0) ≡ kind) }
    ensures { IfSome result (λ l. l ≡ ends_at start (lexeme (after_dot_at text.now start) (drop start text.now))) }
{
    let a = text[start];
    let b = text[start + 1];
    if is_spaceship(a, b, text[start + 2]) | (a == b'-') & (b == b'-') | (a == b'/') & (b == b'*') {
        return None;
    }
    let l = match pair(a, b) {
        Some(kind) => Lexed::new(kind, start + 2),
        None => Lexed::new(kind, start + 1),
    };
    Some(l)
}

// A number of one or two runs of digits that ends at a byte of ASCII at which none goes on.
pub(crate) fn fast_number(text: &[u8], start: usize) -> Option<Lexed>
    requires { (start < length text.now) × (digit (get_or text.now start 0) ≡ true) }
    ensures { IfSome result (λ l. l ≡ ends_at start (number (after_dot_at text.now start) (chars (drop start text.now)))) }
{
    let j = skip_digits(text, start + 1);
    if text.len() - j < 8 {
        return None;
    }
    if text[j] != b'.' {
        return number_if_ended(text[j], j);
    }
    if after_dot(text, start) {
        return None;
    }
    let i = skip_digits(text, j + 1);
    if text.len() - i < 8 {
        return None;
    }
    number_if_ended(text[i], i)
}

// The number up to `end`, where the byte `b` there is of ASCII and no word's.
pub(crate) fn number_if_ended(b: u8, end: usize) -> Option<Lexed>
    ensures { IfSome result (λ l. (l ≡ record { kind = Number; end = «end» }) × (b < 0x80) × (word_character b ≡ false)) }
{
    ((b < 0x80) & !is_word_byte(b, false)).then_some(Lexed::new(SyntaxKind::Number, end))
}
