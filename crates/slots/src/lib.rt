// Glyph slots (`GlyphPosition` and `GlyphInfo` in one), 24 bytes each, or 28 with a cluster: a line has one after the
// other. This crate, `checks`, `start` and `moves` know a slot's layout, and the moves of `gpos` its sizes; all others
// speak of slots by number.
#![tactic(auto)]

pub mod axis; // x and y, the four directions
pub mod frame; // the direction and the scale of a line
pub mod layout; // where each field stands in a slot's bytes
pub mod shape; // how a line is cut into slots, refusal 1
pub mod fields; // reading and writing a slot's fields
pub mod parent; // what a slot hangs on
