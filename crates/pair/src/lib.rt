// Pair adjustment (`PairPos1`, `PairPos2`): which record a pair has, and applying it.
#![tactic(auto)]

pub mod pair_pos; // the PairPos table: its check, and its fields
pub mod pair_set; // the probe of a PairSet
pub mod records; // where the two value records of a pair are
pub mod plan; // which records a pair has
pub mod adjustment; // applying both records of a pair
