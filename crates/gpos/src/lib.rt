// Glyph positioning on lines of slots: the public calls. Each takes any bytes and any numbers, checks each argument
// once, and answers as docs/RULES.md says; the work is done by the cores below. A refusal or a decline leaves the
// line, or a move's target, as it was.
#![tactic(auto)]

mod cursive_pos;
mod finishing;
mod mark_pos;
mod moving;
mod pair_pos;
mod running;
mod single_pos;
mod starting;

pub use cursive_pos::cursive;
pub use finishing::finish;
pub use mark_pos::{mark_base, mark_ligature, mark_mark};
pub use moving::{from_clusters, to_clusters};
pub use pair_pos::pair;
pub use running::lookup;
pub use single_pos::single;
pub use starting::start;
