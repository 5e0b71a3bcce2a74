// The MarkBasePos, MarkLigPos and MarkMarkPos subtables, format 1, whose headers are alike.
ghost use Rattle.std.specs.Prelude.{true, ◌≡◌};
ghost use Rattle.targets.specs.MarkPos.{marks_good};

use ints::big_endian::read_u16;
use tables::coverage::{good_at, index_at};
use tables::header::{MOST_BYTES, POS_FORMAT};
use tables::part::table_at;

// The fields after POS_FORMAT, by the names of MarkBasePos; MarkLigPos says ligature for base, MarkMarkPos mark1 for
// mark and mark2 for base.
const MARK_COVERAGE_OFFSET: usize = 2;

pub const BASE_COVERAGE_OFFSET: usize = 4;

pub const MARK_CLASS_COUNT: usize = 6;

pub const MARK_ARRAY_OFFSET: usize = 8;

pub const BASE_ARRAY_OFFSET: usize = 10;

// The bytes of the header.
const HEADER_BYTES: usize = 12;

// What is searched for.
#[derive(Clone, Copy)]
pub enum Target {
    Base,
    Ligature,
}

// A subtable that has passed the check.
#[derive(Clone, Copy)]
pub struct MarkPos<'a> {
    pub bytes: &'a [u8],
    pub ghost good: { marks_good bytes.now ≡ true },
}

impl<'a> MarkPos<'a> {
    ghost use Rattle.std.specs.Prelude.{false, not, ◌+◌, ◌≤◌, ◌<◌, eqb, MatchOption};
    ghost use Rattle.ints.specs.BigEndian.{u16_at};
    ghost use Rattle.ints.specs.Limits.{whole16};
    ghost use Rattle.tables.specs.Part.{table_at};
    ghost use Rattle.targets.specs.MarkPos.{base_array_offset, base_coverage_offset, base_index, header_bytes};
    ghost use Rattle.targets.specs.MarkPos.{mark_array_offset, mark_class_count, mark_index};

    // The check: not too long, header whole, format known, both coverages good.
    #[tactic(auto, unfolding(crate::specs::MarkPos::marks_good))]
    pub fn new(bytes: &'a [u8]) -> Option<MarkPos<'a>>
        ensures { MatchOption result (marks_good bytes.now ≡ false)
            (λ t. (marks_good bytes.now ≡ true) × (t.bytes.now ≡ bytes.now)) }
    {
        if MOST_BYTES < bytes.len()
            || bytes.len() < HEADER_BYTES
            || read_u16(bytes, POS_FORMAT) != 1
            || !good_at(bytes, read_u16(bytes, MARK_COVERAGE_OFFSET) as usize)
            || !good_at(bytes, read_u16(bytes, BASE_COVERAGE_OFFSET) as usize)
        {
            return None;
        }
        Some(MarkPos { bytes })
    }

    // A field of the header.
    #[tactic(auto, unfolding(crate::specs::MarkPos::marks_good))]
    fn field(self, at: usize) -> u32
        requires { at + 2 ≤ header_bytes }
        ensures { (result ≡ u16_at self.entry.bytes.now at) × (result < whole16) }
    {
        read_u16(self.bytes, at)
    }

    // Is there a coverage of bases, ligatures or earlier marks? Offset 0 is none.
    pub fn has_base_coverage(self) -> bool
        ensures { result ≡ not (eqb (base_coverage_offset self.entry.bytes.now) 0) }
    {
        self.field(BASE_COVERAGE_OFFSET) != 0
    }

    // How many classes of marks there are.
    pub fn mark_class_count(self) -> usize
        ensures { (result ≡ mark_class_count self.entry.bytes.now) × (result < whole16) }
    {
        self.field(MARK_CLASS_COUNT) as usize
    }

    pub fn mark_array(self) -> &'a [u8]
        ensures { result.now ≡ table_at self.entry.bytes.now (mark_array_offset self.entry.bytes.now) }
    {
        table_at(self.bytes, self.field(MARK_ARRAY_OFFSET) as usize)
    }

    // The array of the bases, ligatures or earlier marks.
    pub fn base_array(self) -> &'a [u8]
        ensures { result.now ≡ table_at self.entry.bytes.now (base_array_offset self.entry.bytes.now) }
    {
        table_at(self.bytes, self.field(BASE_ARRAY_OFFSET) as usize)
    }

    // A glyph's coverage index among the marks.
    #[tactic(auto, unfolding(crate::specs::MarkPos::mark_index, crate::specs::MarkPos::marks_good))]
    pub fn mark_index(self, glyph: u32) -> Option<usize>
        requires { glyph < whole16 }
        ensures { result ≡ mark_index self.entry.bytes.now glyph }
    {
        index_at(self.bytes, self.field(MARK_COVERAGE_OFFSET) as usize, glyph)
    }

    // A glyph's coverage index among the bases, ligatures or earlier marks.
    #[tactic(auto, unfolding(crate::specs::MarkPos::base_index, crate::specs::MarkPos::marks_good))]
    pub fn base_index(self, glyph: u32) -> Option<usize>
        requires { glyph < whole16 }
        ensures { result ≡ base_index self.entry.bytes.now glyph }
    {
        index_at(self.bytes, self.field(BASE_COVERAGE_OFFSET) as usize, glyph)
    }
}
