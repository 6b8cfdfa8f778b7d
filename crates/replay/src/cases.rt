// One case of the file of answers.
ghost use Rattle.std.specs.Prelude.{◌≡◌, ◌*◌, ◌≤◌, ◌<◌, true, length, IfSome};
ghost use Rattle.rules.specs.Limits.{token_bytes};
ghost use Rattle.rules.specs.Listing.{full, whole_list, pack};
ghost use Rattle.replay.specs.Cases.{text_of, list_of};

use lists::listing::{Settings, tokenize};
use lists::packed::get_u32;
use rules::TOKEN_BYTES;

#[derive(Clone, Copy)]
pub struct Case {
    // In bytes, of the whole case.
    pub size: usize,
    // In the stored list.
    pub tokens: usize,
    pub agrees: bool,
}

// No text of the file has over 250 bytes, and so not over 250 tokens.
const OWN_SPACE: usize = 250 * TOKEN_BYTES;

// Whether the library gives the text this list of so many tokens.
fn agrees(text: &[u8], tokens: usize, list: &[u8]) -> bool
    requires { length list.now ≡ tokens * token_bytes }
    ensures { result ≡ true → list.now ≡ pack (whole_list full text.now) }
{
    // An array, and its length beside it: no heap, as in the library.
    let mut own = [0u8; OWN_SPACE];
    match tokenize(Settings::new(), text, &mut own) {
        Ok(stored) => (stored == tokens) & own.starts_with(list),
        Err(_) => false,
    }
}

// The case at the start of what is left of the file, or nothing where it is cut short.
pub fn read_case(rest: &[u8]) -> Option<Case>
    ensures size_in_bounds { IfSome result (λ case. (0 < case.size) × (case.size ≤ length rest.now) × (case.tokens ≤ case.size)) }
    ensures rest_value { IfSome result (λ case. case.agrees ≡ true → list_of rest.now ≡ pack (whole_list full (text_of rest.now))) }
{
    if rest.len() < 4 {
        return None;
    }
    let text_len = get_u32(rest, 0) as usize;
    if rest.len() - 4 < text_len {
        return None;
    }
    let text_end = 4 + text_len;
    let after = &rest[text_end..];
    if after.len() < 4 {
        return None;
    }
    let tokens = get_u32(after, 0) as usize;
    if (after.len() - 4) / TOKEN_BYTES < tokens {
        return None;
    }
    let list_end = 4 + tokens * TOKEN_BYTES;
    Some(Case {
        size: text_end + list_end,
        tokens,
        agrees: agrees(&rest[4..text_end], tokens, &after[4..list_end]),
    })
}
