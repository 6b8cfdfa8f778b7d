// Two forms beside the packed listing: a reader, which holds the text, and a list in lent records. Each function over one is thin.
#![tactic(auto)]

pub mod reader;
pub mod records;
