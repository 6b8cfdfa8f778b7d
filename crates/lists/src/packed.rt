// A packed list, 12 bytes a token, stored and read. What stores answers where the next bytes go.
ghost use Rattle.std.specs.Prelude.{◌≡◌, ◌+◌, ◌≤◌, ◌<◌, length};
ghost use Rattle.std.proofs.lemmas.List.Edits.{sets};
ghost use Rattle.rules.specs.Limits.{token_bytes};
ghost use Rattle.rules.specs.Tokens.{token};
ghost use Rattle.rules.specs.Listing.{bytes_of32, pack_token, number_at, token_in};
ghost use Rattle.lexer.specs.Ends.{token_of};

use lexer::token::Token;

// Low byte first: one store, as `get_u32` is one load.
pub fn put_u32(list: &mut [u8], at: usize, x: u32) -> usize
    requires { at + 4 ≤ length list.old }
    ensures { (result ≡ at + 4) × (list.new ≡ sets list.old at (bytes_of32 x)) }
{
    list[at..at + 4].copy_from_slice(&x.to_le_bytes());
    at + 4
}

// By three numbers and no `Token`: its clause is public and stays, and `store_too_long` stores kinds with no token at hand.
pub fn put_token(list: &mut [u8], at: usize, kind: u32, start: u32, end: u32) -> usize
    requires { at + token_bytes ≤ length list.old }
    ensures { (result ≡ at + token_bytes) × (list.new ≡ sets list.old at (pack_token (token kind start end))) }
{
    let at = put_u32(list, at, kind);
    let at = put_u32(list, at, start);
    put_u32(list, at, end)
}

pub fn get_u32(list: &[u8], at: usize) -> u32
    requires { at + 4 ≤ length list.now }
    ensures { result ≡ number_at list.now at }
{
    u32::from_le_bytes([list[at], list[at + 1], list[at + 2], list[at + 3]])
}

pub fn get_token(list: &[u8], at: usize) -> Token
    requires { at + token_bytes ≤ length list.now }
    ensures { result ≡ token_of (token_in list.now at) }
{
    let kind = get_u32(list, at);
    let start = get_u32(list, at + 4);
    let end = get_u32(list, at + 8);
    Token { kind, start, end }
}
