// Recorded calls: read from a list, made again, and compared with what is recorded.
#![tactic(auto)]

mod making; // the call
mod reading; // the list
mod replaying; // the call, and whether it answered and wrote the same

pub use reading::{is_read, list_number, next};
pub use replaying::Remade;
