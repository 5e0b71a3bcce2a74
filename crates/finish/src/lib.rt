// Finishing a line, as `finish_rules` says: the offsets of attached glyphs take in those of what they are attached to,
// and every chain is cleared.
#![tactic(auto)]

pub mod advances; // the advances between a slot and its parent
pub mod take_in; // how a slot takes in its parent
pub mod propagate; // `propagate_attachment_offsets`
pub mod finishing; // the two loops of `position_finish_offsets`
