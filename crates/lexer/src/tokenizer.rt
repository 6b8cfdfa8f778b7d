// The readers, under the Rust's names and in its order. Each takes the text and an offset, in two registers: a struct of the three words would go
// through memory. None needs the text to be UTF-8.
ghost use Rattle.std.specs.Prelude.{◌≡◌, Bool, true, false, ◌&&◌, ◌+◌, ◌-◌, ◌≤◌, ◌<◌, length, get_or, take, drop, eqb, ◌≢◌, MatchOption};
ghost use Rattle.rules.specs.Utf8.{chars};
ghost use Rattle.rules.specs.Classes.{white_space, alphabetic, digit};
ghost use Rattle.rules.specs.Characters.{dollar, underscore, backslash};
ghost use Rattle.rules.specs.Kinds.{NoToken, Comment, ErrorMultilineCommentIsNotClosed};
ghost use Rattle.rules.specs.Lexeme.{first, run, enclosed};
ghost use Rattle.rules.specs.Spaces.{not_line_feed, comment_body};
ghost use Rattle.rules.specs.Operators.{single};
ghost use Rattle.rules.specs.Words.{word_character};
ghost use Rattle.rules.specs.Quotes.{quoted_body, up_to};
ghost use Rattle.rules.specs.Dollars.{begins, find, here_doc, dollar_lexeme};
ghost use Rattle.rules.specs.Numbers.{digits, radix_digit, opening, fraction, exponent, number_word, starts_suffix, all_chars, closing, number};
ghost use Rattle.rules.specs.Tokens.{lexeme, after_dot_at};
ghost use Rattle.lexer.specs.Ends.{ends_at, opened, part_at, operator_at, AsciiTo};
ghost use Rattle.lexer.specs.Steps.{Step};
ghost use Rattle.lexer.specs.Words.{word_with};
ghost use Rattle.lexer.specs.FirstBytes.{first_byte_kind, Operates};
ghost use Rattle.lexer.specs.Quotes.{curly_close};
ghost use Rattle.lexer.specs.HereDocs.{Ascii, Delimiter, TagEnd, found_end};

use crate::bytes::{
    after_dot, is_ascii_space, is_digit, is_exponent_mark, is_hex_digit, is_radix_digit,
    is_spaceship, is_tag_byte, is_word_byte, only, pair, sign_len, skip_spaces, skip_to,
    skip_to_either, skip_words,
};
use crate::fast::{
    fast_number, fast_operator, first_byte_kind, is_short_space, number_if_ended, other_len,
};
use crate::syntax_kind::SyntaxKind;
use crate::token::Lexed;
use runs::skip_pairs;
use utf8::{byte_at, is_tail, unit_at, unit_code, unit_len};

// The token at `start`.
pub fn next_token(text: &[u8], start: usize) -> Lexed
    ensures { result ≡ ends_at start (lexeme (after_dot_at text.now start) (drop start text.now)) }
{
    if start >= text.len() {
        return Lexed::new(SyntaxKind::EndOfStream, start);
    }
    if text.len() - start < 4 {
        return last_token(text, start);
    }
    match first_byte_kind(text[start]) {
        SyntaxKind::BareWord => Lexed::new(SyntaxKind::BareWord, read_bare_word(text, start)),
        SyntaxKind::Whitespace => {
            if is_short_space(text, start) {
                return Lexed::new(SyntaxKind::Whitespace, start + 1);
            }
            Lexed::new(SyntaxKind::Whitespace, read_whitespace(text, start))
        }
        SyntaxKind::Number => read_number(text, start),
        SyntaxKind::NoToken => match other_len(text, start) {
            Some(n) => Lexed::new(SyntaxKind::ErrorToken, start + n),
            None => read_other(text, start),
        },
        kind if kind < 0x80 => Lexed::new(kind, start + 1),
        more => match fast_operator(text, start, more - 0x80) {
            Some(l) => l,
            None => read_longer(text, start, more - 0x80),
        },
    }
}

// The token at `start` among the last three bytes. A function of its own, so that `next_token` need not ask for each token whether they are there.
fn last_token(text: &[u8], start: usize) -> Lexed
    requires { start < length text.now }
    ensures { result ≡ ends_at start (lexeme (after_dot_at text.now start) (drop start text.now)) }
{
    match first_byte_kind(text[start]) {
        SyntaxKind::BareWord => Lexed::new(SyntaxKind::BareWord, read_bare_word(text, start)),
        SyntaxKind::Whitespace => Lexed::new(SyntaxKind::Whitespace, read_whitespace(text, start)),
        SyntaxKind::Number => read_number(text, start),
        SyntaxKind::NoToken => read_other(text, start),
        kind if kind < 0x80 => Lexed::new(kind, start + 1),
        more => read_longer(text, start, more - 0x80),
    }
}

// A token that starts with a character past ASCII, or with a byte that begins none.
fn read_non_ascii(text: &[u8], start: usize) -> Lexed
    requires { (start < length text.now) × (0x80 ≤ get_or text.now start 0) }
    ensures { result ≡ ends_at start (lexeme (after_dot_at text.now start) (drop start text.now)) }
{
    let u = unit_at(text, start);
    let c = unit_code(u);
    let after = start + unit_len(u);
    // Nothing but an ErrorToken starts with a character past U+3000, or with a broken one, whose code is past all.
    if 0x3000 < c {
        return Lexed::new(SyntaxKind::ErrorToken, after);
    }
    if classes::is_white_space(c) {
        return Lexed::new(SyntaxKind::Whitespace, read_whitespace(text, start));
    }
    match c {
        0x2018 => read_unicode_quoted(
            text,
            after,
            0x99,
            SyntaxKind::StringToken,
            SyntaxKind::ErrorSingleQuoteIsNotClosed,
        ),
        0x201C => read_unicode_quoted(
            text,
            after,
            0x9D,
            SyntaxKind::QuotedIdentifier,
            SyntaxKind::ErrorDoubleQuoteIsNotClosed,
        ),
        0x2212 => Lexed::new(SyntaxKind::Minus, after),
        _ => Lexed::new(SyntaxKind::ErrorToken, after),
    }
}

// A token that starts with a quote, a `$`, or a byte past ASCII.
fn read_other(text: &[u8], start: usize) -> Lexed
    requires { (start < length text.now) × (first_byte_kind (get_or text.now start 0) ≡ NoToken) }
    ensures { result ≡ ends_at start (lexeme (after_dot_at text.now start) (drop start text.now)) }
{
    match text[start] {
        b'\'' => read_string(
            text,
            start + 1,
            b'\'',
            SyntaxKind::StringToken,
            SyntaxKind::ErrorSingleQuoteIsNotClosed,
        ),
        b'"' => read_string(
            text,
            start + 1,
            b'"',
            SyntaxKind::QuotedIdentifier,
            SyntaxKind::ErrorDoubleQuoteIsNotClosed,
        ),
        b'`' => read_string(
            text,
            start + 1,
            b'`',
            SyntaxKind::QuotedIdentifier,
            SyntaxKind::ErrorBackQuoteIsNotClosed,
        ),
        b'$' => read_dollar(text, start),
        _ => read_non_ascii(text, start),
    }
}

// A comment, or the longest of the operators; `kind` is that of the first byte alone.
fn read_longer(text: &[u8], start: usize, kind: u32) -> Lexed
    requires { (start < length text.now) × Operates (get_or text.now start 0) × (single (get_or text.now start 0) ≡ kind) }
    ensures { result ≡ ends_at start (lexeme (after_dot_at text.now start) (drop start text.now)) }
{
    match (text[start], byte_at(text, start + 1)) {
        (b'-', b'-') => Lexed::new(SyntaxKind::Comment, read_single_line_comment(text, start)),
        (b'/', b'*') => read_multi_line_comment(text, start + 2),
        _ => read_operator(text, start, kind),
    }
}

// The longest of the choices at a character of ASCII; `kind` is that of the first byte alone.
fn read_operator(text: &[u8], start: usize, kind: u32) -> Lexed
    requires { (start < length text.now) × (get_or text.now start 0 < 0x80) × (single (get_or text.now start 0) ≡ kind) }
    ensures { result ≡ ends_at start (operator_at (chars (drop start text.now))) }
{
    let a = text[start];
    let b = byte_at(text, start + 1);
    let c = byte_at(text, start + 2);
    if is_spaceship(a, b, c) {
        return Lexed::new(SyntaxKind::Spaceship, start + 3);
    }
    match pair(a, b) {
        Some(kind) => Lexed::new(kind, start + 2),
        None => Lexed::new(kind, start + 1),
    }
}

// The bytes of the White_Space character at `at`, if there is one.
fn space_len(text: &[u8], at: usize) -> Option<usize>
    ensures { MatchOption result (Step white_space text.now at 0) (λ n. (n ≢ 0) × Step white_space text.now at n) }
{
    let u = unit_at(text, at);
    classes::is_white_space(unit_code(u)).then_some(unit_len(u))
}

fn read_whitespace(text: &[u8], at: usize) -> usize
    requires { at ≤ length text.now }
    ensures { result ≡ at + run white_space (chars (drop at text.now)) }
{
    // A turn goes on by one byte or by a character's, so it is no `for`.
    let mut j = skip_spaces(text, at);
    while j < text.len() {
        let b = text[j];
        if is_ascii_space(b) {
            j += 1;
            continue;
        }
        if b < 0x80 {
            return j;
        }
        match space_len(text, j) {
            Some(n) => j += n,
            None => return j,
        }
    }
    j
}

// No byte of a longer character is a line feed, so bytes do.
fn read_single_line_comment(text: &[u8], at: usize) -> usize
    requires { at ≤ length text.now }
    ensures { result ≡ at + run not_line_feed (chars (drop at text.now)) }
{
    let from = skip_to(text, at, b'\n');
    let rest = &text[from..];
    from + rest.iter().position(|b| *b == b'\n').unwrap_or(rest.len())
}

// `deeper` comments are open inside the outermost one. Only ASCII counts here, so bytes do.
fn read_multi_line_comment(text: &[u8], at: usize) -> Lexed
    requires { at ≤ length text.now }
    ensures { result ≡ ends_at at (enclosed 0 (comment_body 0 false (chars (drop at text.now))) Comment ErrorMultilineCommentIsNotClosed) }
{
    // A turn goes on by two bytes or to where the next star or slash is.
    let mut j = skip_to_either(text, at, b'*', b'/');
    let mut deeper: usize = 0;
    while j < text.len() {
        // The second byte is asked for only where the first is there: a match of both takes a twentieth more instructions.
        if text[j] == b'*' && byte_at(text, j + 1) == b'/' {
            if deeper == 0 {
                return Lexed::new(SyntaxKind::Comment, j + 2);
            }
            deeper -= 1;
            j += 2;
            continue;
        }
        if text[j] == b'/' && byte_at(text, j + 1) == b'*' {
            deeper += 1;
            j += 2;
            continue;
        }
        j = skip_to_either(text, j + 1, b'*', b'/');
    }
    Lexed::new(SyntaxKind::ErrorMultilineCommentIsNotClosed, j)
}

// How a number opens: whether its digits are hex, and how many bytes stand before the first run. Neither tells the other: `0b` has two, and
// decimal digits.
#[derive(Clone, Copy)]
pub struct Opened {
    pub hex: bool,
    pub size: usize,
}

// `0x` before a hex digit, `0b` before 0 or 1, or the digit that starts the token, which belongs to no run.
#[tactic(auto, using(std::proofs::lemmas::Bool::Decides::nat_tests, crate::proofs::Numbers::opened_at))]
fn read_opening(text: &[u8], start: usize) -> Opened
    requires { (start < length text.now) × (get_or text.now start 0 < 0x80) }
    ensures fits { start + result.size ≤ length text.now }
    ensures opens { result ≡ opened (opening (chars (drop start text.now))) }
{
    match (
        text[start],
        byte_at(text, start + 1),
        byte_at(text, start + 2),
    ) {
        (b'0', b'x' | b'X', c) if is_hex_digit(c) => Opened { hex: true, size: 2 },
        (b'0', b'b' | b'B', b'0' | b'1') => Opened {
            hex: false,
            size: 2,
        },
        _ => Opened {
            hex: false,
            size: 1,
        },
    }
}

// A `.` with the digits after it, if there are any.
fn read_fraction(text: &[u8], at: usize, hex: bool) -> usize
    ensures { result ≡ at + fraction (radix_digit hex) 0 (chars (drop at text.now)) }
{
    if byte_at(text, at) == b'.' {
        read_digits(text, at + 1, hex)
    } else {
        at
    }
}

// The exponent, if its letter comes next: where it ends, as an `Err` where it has no digit.
fn read_exponent(text: &[u8], at: usize, hex: bool) -> Result<usize, usize>
    ensures { result ≡ part_at at (exponent hex (chars (drop at text.now))) }
{
    if !is_exponent_mark(hex, byte_at(text, at)) {
        return Ok(at);
    }
    let j = at + (1 + sign_len(byte_at(text, at + 1)));
    if is_digit(byte_at(text, j)) {
        Ok(read_digits(text, j, false))
    } else {
        Err(j)
    }
}

fn read_number(text: &[u8], start: usize) -> Lexed
    requires { (start < length text.now) × (digit (get_or text.now start 0) ≡ true) }
    ensures { result ≡ ends_at start (number (after_dot_at text.now start) (chars (drop start text.now))) }
{
    if let Some(l) = fast_number(text, start) {
        return l;
    }
    if after_dot(text, start) {
        return read_identifier_starting_with_number(
            text,
            start,
            read_digits(text, start + 1, false),
        );
    }
    let Opened { hex, size } = read_opening(text, start);
    let whole = read_digits(text, start + size, hex);
    match read_exponent(text, read_fraction(text, whole, hex), hex) {
        Ok(end) => read_identifier_starting_with_number(text, start, end),
        Err(end) => Lexed::new(SyntaxKind::ErrorWrongNumber, end),
    }
}

// The byte at j is a `_` that joins two digits.
fn is_separator(text: &[u8], j: usize, hex: bool, after: bool) -> bool
    requires { j < length text.now }
    ensures { result ≡ (eqb (get_or text.now j 0) underscore && after && radix_digit hex (get_or text.now (j + 1) 0)) }
{
    (text[j] == b'_') & after & is_radix_digit(hex, byte_at(text, j + 1))
}

// A run of digits of either radix, with a `_` between any two. `after`: the byte before is a digit of this run.
fn read_digits(text: &[u8], at: usize, hex: bool) -> usize
    requires { at ≤ length text.now }
    ensures { result ≡ at + digits (radix_digit hex) false (chars (drop at text.now)) }
{
    let mut after = false;
    for j in at..text.len() {
        let digit = is_radix_digit(hex, text[j]);
        if !digit && !is_separator(text, j, hex, after) {
            return j;
        }
        after = digit;
    }
    text.len()
}

// The character at `at` makes a word of the number before it.
fn starts_suffix(text: &[u8], at: usize) -> bool
    ensures { result ≡ starts_suffix (first (chars (drop at text.now))) }
{
    let c = unit_code(unit_at(text, at));
    classes::is_alphabetic(c) | (c == 0x5F)
}

// The bytes from `start` to `end`, which are ASCII, are all a word's.
fn is_word(text: &[u8], start: usize, end: usize) -> bool
    requires { AsciiTo text.now start end }
    ensures { result ≡ all_chars number_word (take (end - start) (chars (drop start text.now))) }
{
    text[start..end].iter().all(|b| is_word_byte(*b, true))
}

// The number from `start` to `at`, or the word that it is the start of.
fn read_identifier_starting_with_number(text: &[u8], start: usize, at: usize) -> Lexed
    requires { AsciiTo text.now start at }
    ensures { result ≡ ends_at start (closing (at - start) (chars (drop start text.now))) }
{
    if at < text.len() {
        if let Some(l) = number_if_ended(text[at], at) {
            return l;
        }
    }
    number_word(text, start, at)
}

// The same by the character there, whatever it is.
#[inline(never)]
fn number_word(text: &[u8], start: usize, at: usize) -> Lexed
    requires { AsciiTo text.now start at }
    ensures { result ≡ ends_at start (closing (at - start) (chars (drop start text.now))) }
{
    if !starts_suffix(text, at) {
        return Lexed::new(SyntaxKind::Number, at);
    }
    let end = read_word(text, at, true);
    let kind = if is_word(text, start, at) {
        SyntaxKind::BareWord
    } else {
        SyntaxKind::ErrorWrongNumber
    };
    Lexed::new(kind, end)
}

// A string or an identifier, from after its opening quote, by bytes: no byte of ASCII lies inside a character. Of a character that is
// taken, the bytes after the first pass as any others do.
pub fn read_string(text: &[u8], at: usize, quote: u8, success_type: u32, error_type: u32) -> Lexed
    requires { (0 < quote) × (quote < 0x80) × (quote ≡ backslash → ⊥) }
    ensures { result ≡ ends_at at (enclosed 0 (quoted_body quote false (chars (drop at text.now))) success_type error_type) }
{
    // A turn goes on by two bytes or to where the next quote or backslash is.
    let mut i = at;
    while i < text.len() {
        let b = text[i];
        if b == b'\\' {
            if i + 1 == text.len() {
                return Lexed::new(error_type, i + 1);
            }
            i += 2;
            continue;
        }
        if b == quote {
            if byte_at(text, i + 1) != quote {
                return Lexed::new(success_type, i + 1);
            }
            i += 2;
            continue;
        }
        i = skip_to_either(text, i + 1, quote, b'\\');
    }
    Lexed::new(error_type, i)
}

// A string or an identifier in Unicode quotes, from after the opening one: the closing quote is E2 80 last.
fn read_unicode_quoted(
    text: &[u8],
    at: usize,
    last: u8,
    success_type: u32,
    error_type: u32,
) -> Lexed
    requires { (at ≤ length text.now) × (0x80 ≤ last) × (last ≤ 0xBF) }
    ensures { result ≡ ends_at at (enclosed 0 (up_to (curly_close last) (chars (drop at text.now))) success_type error_type) }
{
    for i in at..text.len() {
        // Most bytes are no 0xE2, so that one test does for them.
        if text[i] == 0xE2 && (byte_at(text, i + 1), byte_at(text, i + 2)) == (0x80, last) {
            return Lexed::new(success_type, i + 3);
        }
    }
    Lexed::new(error_type, text.len())
}

// Where the tag bytes from `at` on end.
fn tag_end(text: &[u8], at: usize) -> usize
    requires { at ≤ length text.now }
    ensures { TagEnd text.now at result }
{
    let from = skip_words(text, at);
    let rest = &text[from..];
    from + rest
        .iter()
        .position(|b| !is_tag_byte(*b))
        .unwrap_or(rest.len())
}

// Whether the delimiter stands at `at`.
fn matches(text: &[u8], at: usize, delimiter: &[u8]) -> bool
    requires { (at ≤ length text.now) × Ascii delimiter.now }
    ensures { result ≡ begins delimiter.now (chars (drop at text.now)) }
{
    // By the bytes up to the first that differs, which most often is the second: `starts_with` is slower on so few, and takes the registers that
    // `find_delimiter` goes over the rest with.
    for k in 0..delimiter.len() {
        if byte_at(text, at + k) != delimiter[k] {
            return false;
        }
    }
    true
}

// Where the first delimiter from `at` on ends, if there is one. Bytes among which no `$` stands before the delimiter's second byte are gone over by eights.
fn find_delimiter(text: &[u8], at: usize, delimiter: &[u8]) -> Option<usize>
    requires { Delimiter delimiter.now × (1 < length delimiter.now) }
    ensures { result ≡ found_end at (length delimiter.now) (find delimiter.now (chars (drop at text.now))) }
{
    // A turn goes on to the next `$`.
    let second = delimiter[1];
    let mut i = at;
    while i < text.len() {
        i = skip_pairs(text, i, only(b'$'), only(second));
        i = skip_to(text, i, b'$');
        if i == text.len() {
            break;
        }
        if text[i] == b'$' && matches(text, i, delimiter) {
            return Some(i + delimiter.len());
        }
        i += 1;
    }
    None
}

// A here-document, or the `$` at `start` alone.
fn read_dollar(text: &[u8], start: usize) -> Lexed
    requires { (start < length text.now) × (get_or text.now start 0 ≡ dollar) }
    ensures { result ≡ ends_at start (dollar_lexeme (here_doc (chars (drop (start + 1) text.now)))) }
{
    let lone = Lexed::new(SyntaxKind::DollarSign, start + 1);
    let tag = tag_end(text, start + 1);
    if byte_at(text, tag) != b'$' {
        return lone;
    }
    // The closing delimiter is sought after the opening one, which it may not overlap.
    let body = tag + 1;
    match find_delimiter(text, body, &text[start..body]) {
        Some(end) => Lexed::new(SyntaxKind::HereDoc, end),
        None => lone,
    }
}

fn is_word_in(c: u32, dollar: bool) -> bool
    ensures { result ≡ word_with dollar c }
{
    if c < 0x80 {
        return is_word_byte(c as u8, dollar);
    }
    classes::is_alphanumeric(c)
}

// The bytes of the word character at `at`, or 0 where there is none: the number of bytes gone over, as `Step` has it, and no Option of one.
fn word_len(text: &[u8], at: usize, dollar: bool) -> usize
    ensures { Step (word_with dollar) text.now at result }
{
    let u = unit_at(text, at);
    if is_word_in(unit_code(u), dollar) {
        unit_len(u)
    } else {
        0
    }
}

// True only if `c` is a letter of Latin past ASCII up to U+02C1, of Cyrillic, Hebrew or Arabic. By comparisons, so that a word of such
// letters asks no table.
fn is_common_letter(c: u32) -> bool
    ensures { result ≡ true → alphabetic c ≡ true }
{
    matches!(
        c,
        0xC0..0xD7
            | 0xD8..0xF7
            | 0xF8..0x2C2
            | 0x400..0x482
            | 0x5D0..0x5EB
            | 0x620..0x658
            | 0x66E..0x6D4
    )
}

// Such a letter stands at `at`: it has two bytes.
fn is_common_at(text: &[u8], at: usize) -> bool
    requires { at < length text.now }
    ensures { result ≡ true → (d : Bool) → Step (word_with d) text.now at 2 }
{
    let a = text[at];
    let b = byte_at(text, at + 1);
    if a < 0xC2 || 0xDF < a || !is_tail(b) {
        return false;
    }
    is_common_letter(a as u32 % 32 * 64 + b as u32 % 64)
}

// A word from its first character on that needs the table, for all that is left: a loop of its own reads a long word of CJK letters in two thirds
// of the time.
#[inline(never)]
fn read_word_by_table(text: &[u8], at: usize, dollar: bool) -> usize
    ensures { result ≡ at + run (word_with dollar) (chars (drop at text.now)) }
{
    let mut j = at;
    loop {
        let n = word_len(text, j, dollar);
        if n == 0 {
            return j;
        }
        j += n;
    }
}

// The characters that a word goes on over; `dollar`: with `$`, as a word that starts with a number has it.
fn read_word(text: &[u8], at: usize, dollar: bool) -> usize
    ensures { result ≡ at + run (word_with dollar) (chars (drop at text.now)) }
{
    // A turn goes on by one byte or two.
    let mut j = at;
    while j < text.len() {
        let b = text[j];
        if is_word_byte(b, dollar) {
            j += 1;
            continue;
        }
        if b < 0x80 {
            return j;
        }
        if !is_common_at(text, j) {
            return read_word_by_table(text, j, dollar);
        }
        j += 2;
    }
    j
}

fn read_bare_word(text: &[u8], at: usize) -> usize
    requires { at ≤ length text.now }
    ensures { result ≡ at + run word_character (chars (drop at text.now)) }
{
    let j = skip_words(text, at);
    if text.len() - j >= 8 {
        if text[j] < 0x80 {
            return j;
        }
    }
    read_word(text, j, false)
}
