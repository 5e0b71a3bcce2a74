// What the calls answer, in one place: cores and public calls use the same types. specs/Said.antt has what
// each case says, by the rules.
#![tactic(auto)]

ghost use Rattle.std.specs.Prelude.{[], ◌∷◌, ◌≡◌};
ghost use Rattle.answers.specs.declared.Refusal.TheVariants.{Direction};
ghost use Rattle.answers.specs.declared.WiderRefusal.TheVariants.{Shared};
ghost use Rattle.answers.specs.Said.{unsafe_to_break, unsafe_to_concat, range, ranges, refusal_number, wider_number};

use slots::axis::UnknownDirection;

// The other glyph of a pair, of a cursive attachment or of a mark on a mark: the slot that the caller names, or none,
// with the bound that it names instead. A `Result` would call a missing neighbour an error, and both are slot numbers.
#[derive(Clone, Copy)]
pub enum Neighbour {
    Named(usize),
    Missing(usize),
}

// A hazard is unsafe to break or unsafe to concatenate; the numbers are those of its record.
#[derive(Clone, Copy)]
pub enum HazardKind {
    UnsafeToBreak = 1,
    UnsafeToConcat = 2,
}

// From start up to end, end not included; as named, also past the line's end.
#[derive(Clone, Copy)]
pub struct Hazard {
    pub kind: HazardKind,
    pub start: usize,
    pub end: usize,
}

// Unsafe to break. Two functions, since each is the rules' word at its calls; one would take the kind at each.
pub fn unsafe_to_break(start: usize, end: usize) -> Hazard
    ensures { range result ≡ unsafe_to_break start end }
{
    Hazard {
        kind: HazardKind::UnsafeToBreak,
        start,
        end,
    }
}

// Unsafe to concatenate.
pub fn unsafe_to_concat(start: usize, end: usize) -> Hazard
    ensures { range result ≡ unsafe_to_concat start end }
{
    Hazard {
        kind: HazardKind::UnsafeToConcat,
        start,
        end,
    }
}

// At most two, in order.
#[derive(Clone, Copy)]
pub enum UpToTwo<T> {
    None,
    One(T),
    Two(T, T),
}

// A decline has at most one.
pub type Hazards = UpToTwo<Hazard>;

// The hazards of a miss: with another glyph in the range, the lookup might have found what it looked for.
pub fn miss(start: usize, end: usize) -> Hazards
    ensures { ranges result ≡ unsafe_to_concat start end ∷ [] }
{
    Hazards::One(unsafe_to_concat(start, end))
}

// Why a call is refused, in the order and with the numbers of the rules.
#[derive(Clone, Copy, PartialEq, Eq)]
pub enum Refusal {
    // A slot has no such size; or the line's length is no multiple of it, or above 1,024 slots'.
    Line = 1,
    // The direction is above 3.
    Direction = 2,
    // s, u or the nesting limit is out of its range.
    Number = 3,
    // A slot has a ligature id, a component or flags that are out of range.
    Slot = 4,
    // The index is not in the line, or the neighbour is not where it must be.
    Index = 5,
    // The subtable is too long or cut, of unknown format, or a list in it is bad.
    Subtable = 6,
    // The cross-offset walk of a mark attachment never ends.
    Endless = 7,
}

impl From<Refusal> for u32 {
    ghost from_gives = { λ x n. n ≡ refusal_number x };

    fn from(x: Refusal) -> u32 {
        x as u32
    }
}

// A number that no direction has is refusal 2.
impl From<UnknownDirection> for Refusal {
    ghost from_gives = { λ _ x. x ≡ Direction };

    fn from(_: UnknownDirection) -> Refusal {
        Refusal::Direction
    }
}

// Why a call is refused that has a refusal of its own besides.
#[derive(Clone, Copy, PartialEq, Eq)]
pub enum WiderRefusal {
    Shared(Refusal),
    // Of a move refusal 10: the target hasn't just the moved line's length, or a cluster would be lost. Of the run of a
    // lookup refusal 8: not one to eight subtables, lengths that don't add up, or too short a list.
    Unfit,
}

impl WiderRefusal {
    // Its number, that of the call's own refusal being `own`.
    pub fn number(self, own: u32) -> u32
        ensures { result ≡ wider_number own self }
    {
        match self {
            WiderRefusal::Shared(x) => x.into(),
            WiderRefusal::Unfit => own,
        }
    }
}

impl From<Refusal> for WiderRefusal {
    ghost from_gives = { λ x w. w ≡ Shared x };

    fn from(x: Refusal) -> WiderRefusal {
        WiderRefusal::Shared(x)
    }
}

// What an applying call answers that isn't refused.
#[derive(Clone, Copy)]
pub enum Answer {
    Applied {
        next: usize,
        hazards: Hazards,
        attached: bool,
    },
    Declined {
        hazards: Hazards,
    },
}

// What the run of a lookup answers that isn't refused.
#[derive(Clone, Copy)]
pub enum Ran {
    // To the line's end: how many records it put into the list, and whether any call attached.
    Done { records: usize, attached: bool },
    // Up to the single call, for this slot, that was refused with 7; so many records were put before it.
    Endless { index: usize, records: usize },
}
