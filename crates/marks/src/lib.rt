// Marks: the anchors of a mark and of what it hangs on, and attachment to a base, a ligature component or an earlier
// mark.
#![tactic(auto)]

pub mod anchors; // the anchors of a mark and its base
pub mod plan; // what is to be done for a mark
pub mod attachment; // `attach_mark`, and the core
