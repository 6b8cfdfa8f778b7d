// What writer and reader both check of a list: that its tokens chain, and that a full one ends with the text. Nothing is lexed.
// The loops go on where a token does not fit: without a branch for it the compiler tests eight tokens at a time.
ghost use Rattle.std.specs.Prelude.{◌≡◌, ◌&&◌, ◌||◌, ◌+◌, ◌*◌, ◌≤◌, leb, eqb, length, drop};
ghost use Rattle.rules.specs.Limits.{token_bytes};
ghost use Rattle.rules.specs.Tokens.{token};
ghost use Rattle.rules.specs.Listing.{unpack};
ghost use Rattle.rules.specs.Saved.{partial_flag, end_bytes, record_bytes, tokens_in, saved_kind, goes_on, accepted};

use crate::layout::{RECORD_BYTES, get_record};
use lexer::syntax_kind::SyntaxKind;
use lexer::token::Token;
use lists::packed::get_token;
use rules::token_bytes;

// A number: a caller may give any, and one above it is refused.
pub const PARTIAL: u32 = 1;

fn is_saved_kind(kind: u32) -> bool
    ensures { result ≡ saved_kind kind }
{
    (SyntaxKind::Whitespace <= kind)
        & (kind <= SyntaxKind::ErrorToken)
        & !(kind == SyntaxKind::EndOfStream)
}

// Whether a token may come after one that ended at `at`, in a text of some length.
fn goes_on(size: u32, at: u32, next: Token) -> bool
    ensures { result ≡ goes_on size at (token next.kind next.start next.end) }
{
    (next.start == at) & (at < next.end) & (next.end <= size) & is_saved_kind(next.kind)
}

// Whether a list is accepted that ends there, and whose tokens fit or do not.
fn is_accepted(fits: bool, size: u32, at: u32, flag: u32) -> bool
    ensures { result ≡ (leb flag partial_flag && fits && (eqb flag partial_flag || eqb at size)) }
{
    (flag <= PARTIAL) & fits & ((flag == PARTIAL) | (at == size))
}

// The two below differ in what a token is read from, and a record's start is the end before it: one function of both would need a trait or a closure, and
// laws for it, and be longer than the loop that it spares.
// So many tokens of a packed list.
pub fn list_fits(list: &[u8], tokens: usize, size: u32, flag: u32) -> bool
    requires { tokens * token_bytes ≤ length list.now }
    ensures { result ≡ accepted size (unpack tokens list.now) flag }
{
    let mut fits = true;
    let mut end = 0;
    for i in 0..tokens {
        let token = get_token(list, i * token_bytes());
        fits = fits & goes_on(size, end, token);
        end = token.end;
    }
    is_accepted(fits, size, end, flag)
}

// So many records from a place in a file on.
pub fn records_fit(file: &[u8], from: usize, records: usize, size: u32, flag: u32) -> bool
    requires { from + records * record_bytes end_bytes ≤ length file.now }
    ensures { result ≡ accepted size (tokens_in end_bytes records 0 (drop from file.now)) flag }
{
    let mut fits = true;
    let mut end = 0;
    for i in 0..records {
        let token = get_record(file, from + i * RECORD_BYTES, end);
        fits = fits & goes_on(size, end, token);
        end = token.end;
    }
    is_accepted(fits, size, end, flag)
}
