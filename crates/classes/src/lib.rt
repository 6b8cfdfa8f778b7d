// The classes of characters, by their codes. How they are held is known in this crate alone.
#![tactic(auto)]

mod ranges;
mod tables;

ghost use Rattle.std.specs.Prelude.{◌≡◌, true};
ghost use Rattle.rules.specs.Classes.{white_space, alphabetic, alphanumeric, letter, digit};

use ranges::in_ranges;
use tables::{ALPHABETIC, NUMERIC};

#[tactic(auto, unfolding(rules::specs::Classes::white_space, rules::specs::Classes::in_ranges, rules::specs::Tables::white_space_table))]
pub fn is_white_space(c: u32) -> bool
    ensures { result ≡ white_space c }
{
    matches!(
        c,
        0x09..=0x0D
            | 0x20
            | 0x85
            | 0xA0
            | 0x1680
            | 0x2000..=0x200A
            | 0x2028..=0x2029
            | 0x202F
            | 0x205F
            | 0x3000
    )
}

pub fn is_alphabetic(c: u32) -> bool
    ensures { result ≡ alphabetic c }
{
    if c < 128 {
        return is_letter(c);
    }
    is_wide(c) || in_ranges(&ALPHABETIC, c)
}

// True only if `c` is in one of the two widest ranges below U+10000: CJK ideographs with Yi, and Hangul. By comparisons, since no search is as quick.
fn is_wide(c: u32) -> bool
    ensures { result ≡ true → alphabetic c ≡ true }
{
    matches!(c, 0x4E00..0xA48D | 0xAC00..0xD7A4)
}

pub fn is_alphanumeric(c: u32) -> bool
    ensures { result ≡ alphanumeric c }
{
    if c < 128 {
        return is_letter(c) | is_digit(c);
    }
    is_alphabetic(c) || in_ranges(&NUMERIC, c)
}

fn is_letter(c: u32) -> bool
    ensures { result ≡ letter c }
{
    matches!(c, 0x41..=0x5A | 0x61..=0x7A)
}

fn is_digit(c: u32) -> bool
    ensures { result ≡ digit c }
{
    matches!(c, 0x30..=0x39)
}
