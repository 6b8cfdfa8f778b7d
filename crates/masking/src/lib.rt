// What document 01 adds to the Rust's offer: the masked copy.
#![tactic(auto)]

pub mod copy;
