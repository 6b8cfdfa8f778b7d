// The masked copy: the text with each hidden byte replaced, in lent bytes. It has the text's tokens.
ghost use Rattle.std.specs.Prelude.{◌≡◌, ◌+◌, ◌-◌, ◌≤◌, ◌<◌, length, drop};
ghost use Rattle.rules.specs.Masking.{quote_width, tag_width, front, back, hide, masked};
ghost use Rattle.rules.specs.Limits.{max_query_size};
ghost use Rattle.rules.specs.Answers.{filled, masked_copy};
ghost use Rattle.rules.specs.Cases.{written};
ghost use Rattle.ahead.specs.Marks.{Marked};
ghost use Rattle.masking.specs.Spans.{bytes_of, Span, Hiding};
ghost use Rattle.masking.specs.Walks.{MaskedOn};

use ahead::{Marks, look_ahead};
use edges::walk::Walk;
use lexer::syntax_kind::SyntaxKind;
use lexer::token::Token;
use rules::refusal::Refusal;
use rules::{mask_byte, max_query_size};
use runs::copy_front;
use spans::parts::hides;
use utf8::{byte_at, valid_length};

// The bytes of the quote at `start`.
#[tactic(auto, using(crate::proofs::Spans::first_byte), unfolding(rules::specs::Masking::quote_width))]
fn quote_width(text: &[u8], start: usize) -> usize
    ensures { result ≡ quote_width (drop start text.now) }
{
    if byte_at(text, start) >= 0x80 { 3 } else { 1 }
}

// The bytes of the `$tag$` that a token begins with.
fn tag_width(text: &[u8], token: Token) -> usize
    requires { Span text.now token.start token.end }
    ensures { result ≡ tag_width (bytes_of text.now token.start token.end) }
{
    let rest = &text[token.start as usize + 1..token.end as usize];
    rest.iter().position(|b| *b == b'$').unwrap_or(rest.len()) + 2
}

// How many bytes a token of a hiding kind keeps at its front.
#[tactic(auto, using(crate::proofs::Spans::span_quote, crate::proofs::Kept::front_comment, crate::proofs::Kept::front_open_comment, crate::proofs::Kept::front_here, crate::proofs::Kept::front_quote))]
fn keeps_front(text: &[u8], token: Token) -> usize
    requires { Hiding token.kind text.now token.start token.end }
    ensures { result ≡ front token.kind (bytes_of text.now token.start token.end) }
{
    match token.kind {
        SyntaxKind::Comment | SyntaxKind::ErrorMultilineCommentIsNotClosed => 2,
        SyntaxKind::HereDoc => tag_width(text, token),
        _ => quote_width(text, token.start as usize),
    }
}

// How many at its back.
#[tactic(auto, using(crate::proofs::Spans::span_quote, crate::proofs::Kept::back_string, crate::proofs::Kept::back_here, crate::proofs::Kept::back_none))]
fn keeps_back(text: &[u8], token: Token) -> usize
    requires { Hiding token.kind text.now token.start token.end }
    ensures { result ≡ back token.kind (bytes_of text.now token.start token.end) }
{
    match token.kind {
        // Told without a jump, since comments of both kinds may come in turn.
        SyntaxKind::Comment => 2 * usize::from(byte_at(text, token.start as usize + 1) == b'*'),
        SyntaxKind::StringToken => quote_width(text, token.start as usize),
        SyntaxKind::HereDoc => tag_width(text, token),
        _ => 0,
    }
}

// Hides the bytes from `from` on, before `to`. A `fill` would write the last byte by itself, after a jump that short comments mislead.
fn hide(copy: &mut [u8], from: usize, to: usize)
    requires { (from ≤ to) × (to ≤ length copy.old) }
    ensures { copy.new ≡ hide from to copy.old }
{
    for byte in copy[from..to].iter_mut() {
        *byte = mask_byte();
    }
}

// Hides what a token of a hiding kind hides.
fn mask_token(text: &[u8], copy: &mut [u8], token: Token)
    requires { Hiding token.kind text.now token.start token.end × (length text.now ≤ length copy.old) }
    ensures { let bs = bytes_of text.now token.start token.end in copy.new ≡ hide (token.start + front token.kind bs) (token.end - back token.kind bs) copy.old }
{
    let from = token.start as usize + keeps_front(text, token);
    let to = token.end as usize - keeps_back(text, token);
    hide(copy, from, to);
}

// Masks on from a cursor to the end, or until it pays to look ahead, and gives the cursor then.
fn mask_some(text: &[u8], copy: &mut [u8], from: usize, marks: Marks) -> usize
    requires { (length text.now ≤ max_query_size) × (from ≤ length text.now) × (length text.now ≤ length copy.old) × Marked text.now from marks.until marks.lone.now }
    ensures { MaskedOn text.now from copy.old result copy.new }
{
    let mut walk = Walk::new(text, from, text.len(), marks);
    while let Some(token) = walk.next() {
        if hides(token.kind) {
            mask_token(text, copy, token);
        }
    }
    walk.cursor
}

// Looks ahead, and masks on. Each walk has its own, and masked_anew is an edit of its loop: one function for all four would take a closure, and of
// the bytes of the copy that it captures nothing is known afterwards (tried: the invariant of the loop in `mask_tokens` does not close).
#[cold]
#[inline(never)]
fn mask_more(text: &[u8], copy: &mut [u8], from: usize) -> usize
    requires { (length text.now ≤ max_query_size) × (from ≤ length text.now) × (length text.now ≤ length copy.old) }
    ensures { MaskedOn text.now from copy.old result copy.new }
{
    let mut lone = [0; 4096];
    let until = look_ahead(text, from, &mut lone);
    mask_some(text, copy, from, Marks { until, lone: &lone })
}

// Masks the tokens of a text in a copy that begins with it.
fn mask_tokens(text: &[u8], copy: &mut [u8])
    requires { (length text.now ≤ max_query_size) × (copy.old ≡ filled text.now copy.old) }
    ensures { copy.new ≡ filled (masked text.now) copy.old }
{
    let mut at = mask_some(text, copy, 0, Marks::none());
    while at < text.len() {
        at = mask_more(text, copy, at);
    }
}

// The masked copy of a text. It is as long as the text.
#[tactic(auto, unfolding(rules::specs::Answers::masked_copy))]
pub fn mask(text: &[u8], copy: &mut [u8]) -> Result<usize, Refusal>
    ensures { written result copy.new ≡ masked_copy text.now copy.old }
{
    let size = text.len();
    if size > max_query_size() {
        return Err(Refusal::TooLong(0));
    }
    let valid = valid_length(text);
    if valid != size {
        return Err(Refusal::NotUtf8(valid));
    }
    if copy.len() < size {
        return Err(Refusal::NoRoom(size));
    }
    copy_front(text, copy);
    mask_tokens(text, copy);
    Ok(size)
}
