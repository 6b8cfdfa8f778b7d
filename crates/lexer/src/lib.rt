// The tokenizer: one token at a cursor.
#![tactic(auto)]

pub mod bytes;
pub mod fast;
pub mod syntax_kind;
pub mod token;
pub mod tokenizer;
