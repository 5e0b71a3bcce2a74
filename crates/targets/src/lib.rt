// What a mark hangs on: the search for its base or ligature, the test of an earlier mark, which component of a
// ligature, and the walk along cursive parents.
#![tactic(auto)]

pub mod mark_pos; // MarkBasePos, MarkLigPos and MarkMarkPos: their check and coverages
pub mod search; // `find_mark_base`, `accept_base`, `accept_ligature`
pub mod part; // a slot's ligature id and component
pub mod component; // which component of a ligature
pub mod together; // which earlier mark a mark may be stacked on
pub mod place; // the slot that a mark goes on
pub mod walk; // `cross_offset`
