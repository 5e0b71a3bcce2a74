// Where a run stands.
use crate::kinds::Kind;
use answers::Neighbour;
use slots::frame::Frame;
use slots::shape::Shape;

// The most subtables that a lookup may have.
pub const MOST_SUBTABLES: usize = 8;

// What a run is told, in the caller's numbers, of which any is taken and a bad one refused: the size of a slot,
// OpenType's lookup type and lookup flag, the direction, and the scale, s / u.
#[derive(Clone, Copy)]
pub struct Settings {
    pub size: usize,
    pub kind: u32,
    pub flag: u32,
    pub direction: u32,
    pub s: u32,
    pub u: u32,
}

// The same, checked.
#[derive(Clone, Copy)]
pub struct Lookup {
    pub shape: Shape,
    pub kind: Kind,
    pub frame: Frame,
    pub flag: u32,
}

// How far the search for what a mark goes on has come with a subtable: up to slot `until`, and `found` is the slot that
// it finds before that. 16 bits hold the number of any slot; with 64 the state is cleared and copied by C's library,
// which a caller may not have.
#[derive(Clone, Copy)]
pub struct Searched {
    pub until: u16,
    pub found: Option<u16>,
}

// How a run ended.
#[derive(Clone, Copy, PartialEq, Eq)]
pub enum End {
    // At the line's end.
    Done,
    // At a single call that was refused with 7.
    Endless,
}

// Where a run stands: slot `index` with subtable `subtable` is next, which starts at byte `start`; behind the last
// subtable comes the next slot. `near` is the neighbour of slot `known`, which isn't past `index`: it is moved on only
// for a slot that a call is made for. `memory` is of the searches with each subtable. Once there is an `end` the run
// goes on nowhere.
#[derive(Clone, Copy)]
pub struct State {
    pub end: Option<End>,
    pub index: usize,
    pub subtable: usize,
    pub start: usize,
    pub attached: bool,
    pub near: Neighbour,
    pub known: usize,
    pub memory: [Searched; MOST_SUBTABLES],
    pub lookup: Lookup,
}
