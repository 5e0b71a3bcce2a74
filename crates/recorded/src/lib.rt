// What is recorded of a call: its numbers and the answer that was given, and whether an answer and bytes are the
// recorded ones.
#![tactic(auto)]

mod comparing; // is it what was recorded?
mod kind; // which call
mod numbers; // what was recorded

pub use comparing::{is_after, is_answer};
pub use kind::{Kind, UnknownKind};
pub use numbers::{Call, Numbers, after_length, call_of, has_target, kind_of, unsigned};
