// Printing for the programs: the text of numbers, slots and answers, and writing it to standard output or any other
// writer.
#![tactic(auto)]

mod numbers; // a number as text
mod rows; // a slot as a line of text
mod printing; // writing

pub use numbers::spell;
pub use printing::{done, integer, natural, refused, slot, text};
pub use rows::row;
