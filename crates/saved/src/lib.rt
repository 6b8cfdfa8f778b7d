// Saved token lists: a text and its list in one file, written and read without lexing.
#![tactic(auto)]

pub mod checks;
pub mod layout;
pub mod loader;
pub mod saver;
