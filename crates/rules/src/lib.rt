// The numbers of document 01 that a later request may change, as code reads them. The definitions are in specs/Limits.antt.
#![tactic(auto)]

pub mod refusal;

ghost use Rattle.std.specs.Prelude.{◌≡◌};
ghost use Rattle.rules.specs.Limits.{max_query_size, token_bytes, mask_byte};

// For the sizes of arrays, which are written without a call.
pub const TOKEN_BYTES: usize = 12;

pub fn max_query_size() -> usize
    ensures { result ≡ max_query_size }
{
    1_000_000
}

pub fn token_bytes() -> usize
    ensures { result ≡ token_bytes }
{
    TOKEN_BYTES
}

pub fn mask_byte() -> u8
    ensures { result ≡ mask_byte }
{
    b'#'
}
