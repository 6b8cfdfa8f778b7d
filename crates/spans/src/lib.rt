// Parts of a text and places in it: token text, shown text, and the line and column of an offset. They need no list.
#![tactic(auto)]

pub mod parts;
pub mod places;
