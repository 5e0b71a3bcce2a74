// The tables of a GPOS subtable (OpenType, Common Table Formats and GPOS). A table at an offset is all that the
// subtable has from there on. Lists are checked once, by `good`; a lookup relies on that.
#![tactic(auto)]

pub mod header; // the header of a subtable: its format, and whether it is whole
pub mod part; // tables at offsets
pub mod spans; // lists of spans: the ascending test and the search
pub mod coverage; // which glyphs a subtable is about, and the index of each
pub mod class_def; // the class of each glyph
pub mod point; // a place in a glyph
pub mod anchor; // the point of an anchor
pub mod mark_array; // class and anchor of each mark
pub mod anchor_rows; // the anchors of bases and of components, one for each mark class
