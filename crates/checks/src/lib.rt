// The checks of what a call is told, before anything is written: refusals 1 to 5, each tested once for all calls that
// have it. The subtable (refusal 6) is checked beside its core.
#![tactic(auto)]

pub mod ranges; // refusal 4: the ranges of a slot's fields
pub mod arguments; // refusals 1 to 4, in order
pub mod neighbours; // refusal 5: index and neighbours
