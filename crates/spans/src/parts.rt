// Token text and shown text. Each is two functions: one answers the part or why there is none, and one gives the part alone, which is empty where it is refused.
ghost use Rattle.std.specs.Prelude.{◌≡◌};
ghost use Rattle.rules.specs.Kinds.{hiding_kind, some_kind};
ghost use Rattle.rules.specs.Answers.{no_part, token_text, shown_text};
ghost use Rattle.rules.specs.Cases.{part};
ghost use Rattle.spans.specs.Parts.{checked_part};

use lexer::syntax_kind::SyntaxKind;
use rules::max_query_size;
use rules::refusal::Refusal;
use utf8::{byte_at, is_tail};

// Whether the text of a token of this kind is shown masked.
pub fn hides(kind: u32) -> bool
    ensures { result ≡ hiding_kind kind }
{
    matches!(
        kind,
        SyntaxKind::Comment
            | SyntaxKind::StringToken
            | SyntaxKind::HereDoc
            | SyntaxKind::ErrorMultilineCommentIsNotClosed..=SyntaxKind::ErrorBackQuoteIsNotClosed
    )
}

fn is_kind(kind: u32) -> bool
    ensures { result ≡ some_kind kind }
{
    matches!(
        kind,
        SyntaxKind::Whitespace..=SyntaxKind::ErrorMaxQuerySizeExceeded
    )
}

// The part is none: out of order, past the end, or cut inside a character.
fn no_part(text: &[u8], start: usize, end: usize) -> bool
    ensures { result ≡ no_part text.now start end }
{
    (end < start) | (text.len() < end) | is_tail(byte_at(text, start)) | is_tail(byte_at(text, end))
}

// What token text and shown text both refuse.
fn check_part(text: &[u8], start: usize, end: usize) -> Result<(), Refusal>
    ensures { result ≡ checked_part text.now start end }
{
    if text.len() > max_query_size() {
        return Err(Refusal::TooLong(0));
    }
    if no_part(text, start, end) {
        return Err(Refusal::NoPart);
    }
    Ok(())
}

// The part of the text from start to end, or why there is none.
#[tactic(auto, unfolding(rules::specs::Answers::token_text))]
pub fn token_text_answer<'a>(text: &'a [u8], start: usize, end: usize) -> Result<&'a [u8], Refusal>
    ensures { part result (λ bytes. bytes.now) ≡ token_text text.now start end }
{
    check_part(text, start, end)?;
    Ok(&text[start..end])
}

// The part of the text from start to end; empty where it is refused.
pub fn token_text<'a>(text: &'a [u8], start: usize, end: usize) -> &'a [u8]
    ensures { result.now ≡ (token_text text.now start end).bytes }
{
    match token_text_answer(text, start, end) {
        Ok(bytes) => bytes,
        Err(_) => &text[..0],
    }
}

// The part of the masked copy for a hiding kind, and the part of the text otherwise, or why there is none.
#[tactic(auto, unfolding(rules::specs::Answers::shown_text))]
pub fn shown_text_answer<'a>(
    text: &'a [u8],
    copy: &'a [u8],
    kind: u32,
    start: usize,
    end: usize,
) -> Result<&'a [u8], Refusal>
    ensures { part result (λ bytes. bytes.now) ≡ shown_text text.now copy.now kind start end }
{
    check_part(text, start, end)?;
    if !is_kind(kind) {
        return Err(Refusal::NoPart);
    }
    if copy.len() != text.len() {
        return Err(Refusal::OtherLength);
    }
    let shown = if hides(kind) { copy } else { text };
    Ok(&shown[start..end])
}

// The same part; empty where it is refused.
pub fn shown_text<'a>(
    text: &'a [u8],
    copy: &'a [u8],
    kind: u32,
    start: usize,
    end: usize,
) -> &'a [u8]
    ensures { result.now ≡ (shown_text text.now copy.now kind start end).bytes }
{
    match shown_text_answer(text, copy, kind, start, end) {
        Ok(bytes) => bytes,
        Err(_) => &text[..0],
    }
}
