// Chains, by which slots hang on one another: their numbers, a slot hung by one, and reversal of an old chain.
#![tactic(auto)]

pub mod chains; // chains as numbers of 16 bits, and a slot hung by one
pub mod reversal; // `reverse_cursive_minor_offset`
