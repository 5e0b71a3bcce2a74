// A run of a lookup over a line: one single call after another, each with the neighbours that the seen bits give. Line,
// numbers and subtables are checked once, before it begins: what was found then holds to the end, since no call writes
// a glyph, a ligature id, a component or a flag.
#![tactic(auto)]

pub mod kinds; // the lookup types
pub mod neighbours; // the next and the previous seen slot
pub mod covered; // the next place whose glyph is covered
pub mod state; // where a run stands
pub mod subtables; // the checks of several subtables
pub mod beginning; // what is checked, and where a run begins
pub mod calls; // one single call
pub mod turns; // the call at the next covered place, and where the run goes on
