// Cursive attachment (`CursivePos1`): joining a glyph's entry to the previous glyph's exit.
#![tactic(auto)]

pub mod cursive_pos; // the CursivePos table: its check, its anchors, the plan
pub mod attachment; // joining two glyphs, and the core
