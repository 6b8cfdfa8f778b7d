// What bytes are, alone or with the ones beside them, and runs of them.
ghost use Rattle.std.specs.Prelude.{◌≡◌, not, ◌&&◌, ◌+◌, ◌≤◌, ◌<◌, length, ltb, eqb, [], ◌∷◌, ◌≢◌, MatchOption};
ghost use Rattle.rules.specs.Classes.{white_space, digit, hex_digit};
ghost use Rattle.rules.specs.Kinds.{NoToken};
ghost use Rattle.rules.specs.Operators.{pair, spaceship};
ghost use Rattle.runs.specs.Classes.{Skips};
ghost use Rattle.rules.specs.Dollars.{tag_byte};
ghost use Rattle.rules.specs.Numbers.{radix_digit, exponent_mark, sign_length};
ghost use Rattle.rules.specs.Tokens.{after_dot_at};
ghost use Rattle.lexer.specs.Words.{ascii_word, word_with, word_mask};

use crate::syntax_kind::SyntaxKind;
use runs::Class;
use utf8::byte_at;

// Of a byte. That of a code stands in `classes`: the library has none for a u32, and no type that both are.
pub(crate) fn is_digit(b: u8) -> bool
    ensures { result ≡ digit b }
{
    b.is_ascii_digit()
}

pub(crate) fn is_hex_digit(b: u8) -> bool
    ensures { result ≡ hex_digit b }
{
    b.is_ascii_hexdigit()
}

pub(crate) fn is_radix_digit(hex: bool, b: u8) -> bool
    ensures { result ≡ radix_digit hex b }
{
    if hex { is_hex_digit(b) } else { is_digit(b) }
}

#[tactic(auto, using(std::proofs::lemmas::Bool::Decides::nat_tests, crate::proofs::Classes::space_byte))]
pub(crate) fn is_ascii_space(b: u8) -> bool
    ensures { result ≡ (ltb b 0x80 && white_space b) }
{
    matches!(b, b' ' | b'\t'..=b'\r')
}

// The bits of a word's bytes: those below 64 by their number, and those from 64 on by their number less 64.
fn word_mask(b: u8, dollar: bool) -> u64
    ensures { result ≡ word_mask dollar b }
{
    if b >= 64 {
        return 0x07FF_FFFE_87FF_FFFE;
    }
    if dollar {
        return 0x03FF_0010_0000_0000;
    }
    0x03FF_0000_0000_0000
}

// One bit of a mask is a third faster than comparisons on words of mixed case.
#[tactic(auto, using(crate::proofs::Classes::word_bit))]
pub(crate) fn is_word_byte(b: u8, dollar: bool) -> bool
    ensures { result ≡ (ltb b 0x80 && word_with dollar b) }
{
    let mask = word_mask(b, dollar);
    (b < 0x80) & ((mask >> (b % 64)) % 2 == 1)
}

#[tactic(auto, using(crate::proofs::Classes::tag_word))]
pub fn is_tag_byte(b: u8) -> bool
    ensures { result ≡ tag_byte b }
{
    is_word_byte(b, false)
}

pub(crate) fn is_exponent_mark(hex: bool, b: u8) -> bool
    ensures { result ≡ exponent_mark hex b }
{
    matches!((hex, b), (true, b'p' | b'P') | (false, b'e' | b'E'))
}

// The bytes of a sign: 1 or 0.
pub(crate) fn sign_len(b: u8) -> usize
    ensures { result ≡ sign_length b }
{
    usize::from(matches!(b, b'+' | b'-'))
}

// The byte before `start` is a dot: the number is then a place in a tuple, as in `x.1.1`.
pub(crate) fn after_dot(text: &[u8], start: usize) -> bool
    requires { start < length text.now }
    ensures { result ≡ after_dot_at text.now start }
{
    start > 0 && text[start - 1] == b'.'
}

// The kind of two characters together, where they are one operator.
#[tactic(auto, using(std::proofs::lemmas::Bool::Decides::nat_tests), unfolding(rules::specs::Operators::pair))]
pub(crate) fn pair(a: u8, b: u8) -> Option<u32>
    ensures { MatchOption result (pair a b ≡ NoToken) (λ k. (k ≡ pair a b) × (k ≢ NoToken)) }
{
    let kind = match (a, b) {
        (b'-', b'>') => SyntaxKind::Arrow,
        (b':', b':') => SyntaxKind::DoubleColon,
        (b'|', b'|') => SyntaxKind::Concatenation,
        (b'@', b'@') => SyntaxKind::DoubleAt,
        (b'!', b'=') | (b'<', b'>') => SyntaxKind::NotEquals,
        (b'=', b'=' | b'>') => SyntaxKind::Equals,
        (b'<', b'=') => SyntaxKind::LessOrEquals,
        (b'>', b'=') => SyntaxKind::GreaterOrEquals,
        (b'\\', b'G' | b'g') => SyntaxKind::VerticalDelimiter,
        _ => return None,
    };
    Some(kind)
}

pub(crate) fn is_spaceship(a: u8, b: u8, c: u8) -> bool
    ensures { result ≡ spaceship a b c }
{
    matches!((a, b, c), (b'<', b'=', b'>') | (b'=', b'>', b'<'))
}

// The class of one byte.
pub(crate) fn only(a: u8) -> Class
    requires { a < 0x80 }
    ensures { result.edges ≡ a ∷ (a + 1) ∷ 0 ∷ 0 ∷ 0 ∷ 0 ∷ 0 ∷ 0 ∷ [] }
{
    Class {
        edges: [a, a + 1, 0, 0, 0, 0, 0, 0],
    }
}

// Over the bytes of ASCII from `at` on that a word has, by eights: the last seven bytes of the text may be left. Here and below each is one call, by the name of the
// rule that its clause has.
pub(crate) fn skip_words(text: &[u8], at: usize) -> usize
    requires { at ≤ length text.now }
    ensures { Skips ascii_word text.now at result }
{
    runs::skip(text, at, false, Class::WORDS)
}

// The same over digits.
pub(crate) fn skip_digits(text: &[u8], at: usize) -> usize
    requires { at ≤ length text.now }
    ensures { Skips digit text.now at result }
{
    runs::skip(text, at, false, Class::DIGITS)
}

// The same over white space of ASCII.
pub(crate) fn skip_spaces(text: &[u8], at: usize) -> usize
    requires { at ≤ length text.now }
    ensures { Skips (λ b. ltb b 0x80 && white_space b) text.now at result }
{
    runs::skip(text, at, false, Class::SPACES)
}

// The same up to a byte `a`.
pub(crate) fn skip_to(text: &[u8], at: usize, a: u8) -> usize
    requires { (at ≤ length text.now) × (a < 0x80) }
    ensures { Skips (λ x. not (eqb x a)) text.now at result }
{
    if byte_at(text, at) == a {
        return at;
    }
    runs::skip(text, at, true, only(a))
}

// The same up to a byte `a` or `b`.
pub(crate) fn skip_to_either(text: &[u8], at: usize, a: u8, b: u8) -> usize
    requires { (at ≤ length text.now) × (a < 0x80) × (b < 0x80) × (a ≡ b → ⊥) }
    ensures { Skips (λ x. not (eqb x a) && not (eqb x b)) text.now at result }
{
    let x = byte_at(text, at);
    if (x == a) | (x == b) {
        return at;
    }
    let either = Class {
        edges: [a, a + 1, b, b + 1, 0, 0, 0, 0],
    };
    runs::skip(text, at, true, either)
}
