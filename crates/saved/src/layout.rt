// Records and the trailer, stored and read. What stores answers where the next bytes go.
ghost use Rattle.std.specs.Prelude.{◌≡◌, ◌+◌, ◌≤◌, ◌<◌, length, drop};
ghost use Rattle.std.proofs.lemmas.List.Edits.{sets};
ghost use Rattle.rules.specs.Tokens.{token};
ghost use Rattle.rules.specs.Saved.{end_bytes, record_of, record_bytes, trailer_of, trailer_bytes, token_of_record};
ghost use Rattle.lexer.specs.Ends.{token_of};

use lexer::token::Token;
use lists::packed::{get_u32, put_u32};

// A kind byte, and an end in 24 bits.
pub const RECORD_BYTES: usize = 4;

pub const TRAILER_BYTES: usize = 12;

// Where its numbers and marks stand in it; the first is the offset.
pub const COUNT_AT: usize = 4;

pub const FLAG_AT: usize = 8;

pub const VERSION_AT: usize = 9;

pub const FIRST_ZERO_AT: usize = 10;

pub const SECOND_ZERO_AT: usize = 11;

pub const VERSION: u8 = 1;

// As one number of 32 bits, whose low byte is the kind.
pub fn put_record(file: &mut [u8], at: usize, kind: u32, end: u32) -> usize
    requires { at + record_bytes end_bytes ≤ length file.old }
    ensures { (result ≡ at + record_bytes end_bytes) × (file.new ≡ sets file.old at (record_of end_bytes (token kind 0 end))) }
{
    put_u32(file, at, kind % 256 + end % 16777216 * 256)
}

// The token of a record, whose start is the end before it.
pub fn get_record(file: &[u8], at: usize, start: u32) -> Token
    requires { at + record_bytes end_bytes ≤ length file.now }
    ensures { result ≡ token_of (token_of_record end_bytes start (drop at file.now)) }
{
    let record = get_u32(file, at);
    Token {
        kind: record % 256,
        start,
        end: record / 256,
    }
}

// Its last four bytes are flag, version and two zero bytes.
pub fn put_trailer(file: &mut [u8], at: usize, offset: u32, count: u32, flag: u32) -> usize
    requires { (at + trailer_bytes ≤ length file.old) × (flag < 256) }
    ensures { (result ≡ at + trailer_bytes) × (file.new ≡ sets file.old at (trailer_of offset count flag)) }
{
    let at = put_u32(file, at, offset);
    let at = put_u32(file, at, count);
    put_u32(file, at, flag + (VERSION as u32) * 256)
}
