// Lists of tokens, packed into lent bytes or token by token.
#![tactic(auto)]

pub mod listing;
pub mod packed;
pub mod picks;
