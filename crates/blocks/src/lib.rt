// The edges between runs of bytes, of 64 bytes at once, as the bits of a number.
#![tactic(auto)]

ghost use Rattle.std.specs.Prelude.{◌≡◌, ◌+◌, ◌*◌, ◌%◌, ◌≤◌, ◌^◌, length};
ghost use Rattle.blocks.specs.Sets.{set};
ghost use Rattle.blocks.specs.Turns.{swap, turn};
ghost use Rattle.blocks.specs.Edges.{outside, edge_after};

use runs::{Class, eight, others};

// Eight rows of bits, turned: a bit of the row j and the column k goes to the row k and the column j.
fn turned(t: u64) -> u64
    ensures { result ≡ turn t }
{
    let d = (t ^ (t >> 7)) & 0x00AA_00AA_00AA_00AA;
    let t = (t ^ d) ^ d * 0x80;
    let d = (t ^ (t >> 14)) & 0x0000_CCCC_0000_CCCC;
    let t = (t ^ d) ^ d * 0x4000;
    let d = (t ^ (t >> 28)) & 0x0000_0000_F0F0_F0F0;
    (t ^ d) ^ d * 0x1000_0000
}

// Of the 64 bytes from `at` on, those that are not in the class.
#[inline(always)]
fn bits(text: &[u8], at: usize, class: Class) -> u64
    requires { at + 64 ≤ length text.now }
    ensures { result ≡ set 64 (outside class.edges text.now) at }
{
    let mut rows = 0;
    for k in 0..8 {
        rows = (rows >> 1) ^ others(eight(text, at + 8 * k), class);
    }
    turned(rows)
}

// Each bit one place up.
fn later(x: u64) -> u64
    ensures { result ≡ x % 2 ^ 63 * 2 }
{
    x % 0x8000_0000_0000_0000 * 2
}

// The edges after `at`, of the 64 bytes from there on.
pub fn edges(text: &[u8], at: usize) -> u64
    requires { at + 64 ≤ length text.now }
    ensures { result ≡ set 64 (edge_after text.now at) at }
{
    let x = bits(text, at, Class::WORDS);
    let y = bits(text, at, Class::FIGURES);
    let a = later(x);
    let b = later(y);
    let no_word = (x | a) | (y & (b ^ 0xFFFF_FFFF_FFFF_FFFF));
    let no_space = ((x & a) ^ 0xFFFF_FFFF_FFFF_FFFF) | (y | b);
    (no_word & no_space) / 2 * 2
}
