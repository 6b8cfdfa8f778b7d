// What the contracts of the crates below promise together: see proofs.
#![tactic(auto)]
