// The CursivePos subtable, format 1: its check, its anchors, and what is to be done for a slot.
ghost use Rattle.std.specs.Prelude.{true, ◌≡◌};
ghost use Rattle.cursive.specs.CursivePos.{cursive_good};

use answers::{Hazards, Neighbour, miss};
use ints::big_endian::read_u16;
use slots::shape::Shape;
use tables::anchor::anchor_of;
use tables::header::{COVERAGE_OFFSET, MOST_BYTES, POS_FORMAT};
use tables::point::Point;

// The fields after POS_FORMAT and COVERAGE_OFFSET.
const ENTRY_EXIT_COUNT: usize = 4;

const ENTRY_EXIT_RECORDS: usize = 6;

// The bytes before the records.
const HEADER_BYTES: usize = 6;

// The two offsets of an EntryExitRecord, in their order: entryAnchorOffset, exitAnchorOffset.
#[derive(Clone, Copy, PartialEq, Eq)]
enum Side {
    Entry,
    Exit,
}

// The previous slot, by its exit anchor, and this slot, by its entry anchor, are to be joined.
#[derive(Clone, Copy)]
pub struct Join {
    pub previous: usize,
    pub exit: Point,
    pub entry: Point,
}

// A subtable that is good: not too long, header whole, format known, coverage good.
#[derive(Clone, Copy)]
pub struct CursivePos<'a> {
    pub bytes: &'a [u8],
    pub ghost good: { cursive_good bytes.now ≡ true },
}

impl<'a> CursivePos<'a> {
    ghost use Rattle.std.specs.Prelude.{false, ◌<◌, MatchOption, Some};
    ghost use Rattle.ints.specs.Limits.{whole16};
    ghost use Rattle.slots.specs.code.Shape.{Inside};
    ghost use Rattle.slots.specs.Line.{slot, slots};
    ghost use Rattle.tables.specs.code.Meant.{anchor_point};
    ghost use Rattle.answers.specs.code.Neighbours.{Before};
    ghost use Rattle.cursive.specs.CursivePos.{index_of, plan_of, record_anchor};
    ghost use Rattle.cursive.specs.code.Meant.{meant, side_number, Sound};

    // The subtable, if it is good.
    pub fn new(bytes: &'a [u8]) -> Option<CursivePos<'a>>
        ensures { MatchOption result (cursive_good bytes.now ≡ false)
            (λ t. (cursive_good bytes.now ≡ true) × (t.bytes.now ≡ bytes.now)) }
    {
        if MOST_BYTES < bytes.len()
            || bytes.len() < HEADER_BYTES
            || read_u16(bytes, POS_FORMAT) != 1
            || !tables::coverage::good_at(bytes, read_u16(bytes, COVERAGE_OFFSET) as usize)
        {
            return None;
        }
        Some(CursivePos { bytes })
    }

    // What is to be done for slot idx, whose glyph is covered, as k, and whose neighbour before it the caller names: a
    // join, or else nothing, but a hazard to report, or none. The tests stand in the source's order.
    #[tactic(auto, unfolding(crate::specs::CursivePos::plan_of))]
    pub fn plan_of(
        self,
        line: &[u8],
        shape: Shape,
        idx: usize,
        k: usize,
        previous: Neighbour,
    ) -> Result<Join, Hazards>
        requires { Inside shape line.now idx × Before idx previous
            × (index_of self.bytes.now (slot (slots shape line.now) idx).glyph ≡ Some k) }
        ensures { (meant result ≡ plan_of self.entry.bytes.now (slots shape line.now) idx previous)
            × Sound idx result }
    {
        // Without an entry anchor the neighbour isn't looked at.
        let entry = self.record_anchor(k, Side::Entry).ok_or(Hazards::None)?;
        // Where the caller names no neighbour but the bound of its search, another glyph from there on might have been
        // joined.
        let i = match previous {
            Neighbour::Named(i) => i,
            Neighbour::Missing(f) => return Err(miss(f, idx + 1)),
        };
        // An uncovered neighbour isn't joined, and nothing is reported.
        let covered = self
            .index_of(slots::fields::glyph(line, shape, i))
            .ok_or(Hazards::None)?;
        // Without an exit anchor the two aren't joined, but another glyph in its place might have had one.
        let exit = self
            .record_anchor(covered, Side::Exit)
            .ok_or(miss(i, idx + 1))?;
        Ok(Join {
            previous: i,
            exit,
            entry,
        })
    }

    // A glyph's coverage index.
    pub fn index_of(self, glyph: u32) -> Option<usize>
        requires { glyph < whole16 }
        ensures { result ≡ index_of self.entry.bytes.now glyph }
    {
        let t = self.bytes;
        tables::coverage::index_at(t, read_u16(t, COVERAGE_OFFSET) as usize, glyph)
    }

    // An anchor of a coverage index. The records are read as one array of offsets, two a record.
    fn record_anchor(self, k: usize, side: Side) -> Option<Point>
        ensures { anchor_point result ≡ record_anchor self.entry.bytes.now k (side_number side) }
    {
        let t = self.bytes;
        let n = read_u16(t, ENTRY_EXIT_COUNT) as usize;
        if n <= k {
            return None;
        }
        anchor_of(tables::part::child_of(t, ENTRY_EXIT_RECORDS, 2 * n, 2 * k + side as usize))
    }
}
