// Numbers: big-endian fields of lent bytes, signed numbers as bits, sums that saturate, the scale.
#![tactic(auto)]

pub mod limits; // powers of 2 by name
pub mod big_endian; // fields of 16 and 32 bits
pub mod saturating; // sums, differences, negations at 32 bits
pub mod scale; // from a font's units to the line's
