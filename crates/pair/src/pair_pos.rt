// The PairPos subtable: its check, and its fields.
ghost use Rattle.std.specs.Prelude.{true, ◌≡◌};
ghost use Rattle.tables.specs.Header.{header_good};
ghost use Rattle.pair.specs.PairPos.{class1_records, classes_good, pair_good, pair_set_offsets};

use ints::big_endian::read_u16;
use tables::class_def::class_at;
use tables::header::{COVERAGE_OFFSET, MOST_BYTES, POS_FORMAT, header_good};
use values::format::record_len;

// The fields of the header that both formats have after those of every subtable.
pub const VALUE_FORMAT1: usize = 4;

pub const VALUE_FORMAT2: usize = 6;

// Format 1: how many pair sets, and where their offsets start.
pub const PAIR_SET_COUNT: usize = 8;

pub const PAIR_SET_OFFSETS: usize = 10;

// Format 2: the class lists of the first and the second glyph, how many classes each has, and where the records start.
pub const CLASS_DEF1_OFFSET: usize = 8;

pub const CLASS_DEF2_OFFSET: usize = 10;

pub const CLASS1_COUNT: usize = 12;

pub const CLASS2_COUNT: usize = 14;

pub const CLASS1_RECORDS: usize = 16;

// A subtable that passed the check.
#[derive(Clone, Copy)]
pub struct PairPos<'a> {
    pub bytes: &'a [u8],
    pub ghost good: { pair_good bytes.now ≡ true },
}

impl<'a> PairPos<'a> {
    ghost use Rattle.std.specs.Prelude.{false, ◌≡◌, ◌≤◌, ◌<◌, MatchOption};
    ghost use Rattle.ints.specs.Limits.{whole16};
    ghost use Rattle.tables.specs.Header.{pos_format};
    ghost use Rattle.pair.specs.PairPos.{class1_count, class2_count, first_class, first_index, pair_length, pair_set};
    ghost use Rattle.pair.specs.PairPos.{second_class, value_format1, value_format2};

    // The check: not too long, header whole, formats known, coverage and class lists good.
    #[tactic(auto, using(tables::proofs::HeaderLaws::header), unfolding(crate::specs::PairPos::pair_good))]
    pub fn new(bytes: &'a [u8]) -> Option<PairPos<'a>>
        ensures { MatchOption result (pair_good bytes.now ≡ false)
            (λ t. (pair_good bytes.now ≡ true) × (t.bytes.now ≡ bytes.now)) }
    {
        if bytes.len() <= MOST_BYTES
            && header_good(bytes, PAIR_SET_OFFSETS, CLASS1_RECORDS)
            && read_u16(bytes, VALUE_FORMAT1) <= 255
            && read_u16(bytes, VALUE_FORMAT2) <= 255
            && tables::coverage::good_at(bytes, read_u16(bytes, COVERAGE_OFFSET) as usize)
            && classes_good(bytes)
        {
            return Some(PairPos { bytes });
        }
        None
    }

    // Its format, 1 or 2.
    #[tactic(auto, using(crate::proofs::PairPosLaws::good))]
    pub fn format(self) -> u32
        ensures { result ≡ pos_format self.entry.bytes.now }
    {
        read_u16(self.bytes, POS_FORMAT)
    }

    // Which fields the first value record of a pair has.
    #[tactic(auto, using(crate::proofs::PairPosLaws::good))]
    pub fn value_format1(self) -> u32
        ensures { (result ≡ value_format1 self.entry.bytes.now) × (result < 256) }
    {
        read_u16(self.bytes, VALUE_FORMAT1)
    }

    // Which fields the second has.
    #[tactic(auto, using(crate::proofs::PairPosLaws::good))]
    pub fn value_format2(self) -> u32
        ensures { (result ≡ value_format2 self.entry.bytes.now) × (result < 256) }
    {
        read_u16(self.bytes, VALUE_FORMAT2)
    }

    // The bytes of the two value records together.
    pub fn pair_length(self) -> usize
        ensures { (result ≡ pair_length self.entry.bytes.now) × (result ≤ 32) }
    {
        record_len(self.value_format1()) + record_len(self.value_format2())
    }

    // A first glyph's coverage index.
    #[tactic(auto, using(crate::proofs::PairPosLaws::good))]
    pub fn first_index(self, glyph: u32) -> Option<usize>
        requires { glyph < whole16 }
        ensures { result ≡ first_index self.entry.bytes.now glyph }
    {
        tables::coverage::index_at(
            self.bytes,
            read_u16(self.bytes, COVERAGE_OFFSET) as usize,
            glyph,
        )
    }

    // Format 1: the pair set of a coverage index, empty where there is none.
    #[tactic(auto, using(crate::proofs::PairPosLaws::good))]
    pub fn pair_set(self, k: usize) -> &'a [u8]
        requires { pos_format self.bytes.now ≡ 1 }
        ensures { result.now ≡ pair_set self.entry.bytes.now k }
    {
        let count = read_u16(self.bytes, PAIR_SET_COUNT) as usize;
        tables::part::child_of(self.bytes, PAIR_SET_OFFSETS, count, k)
    }

    // Format 2: the class of a first glyph.
    #[tactic(auto, using(crate::proofs::PairPosLaws::good))]
    pub fn first_class(self, glyph: u32) -> u32
        requires { (glyph < whole16) × (pos_format self.bytes.now ≡ 2) }
        ensures { (result ≡ first_class self.entry.bytes.now glyph) × (result < whole16) }
    {
        class_at(
            self.bytes,
            read_u16(self.bytes, CLASS_DEF1_OFFSET) as usize,
            glyph,
        )
    }

    // Format 2: the class of a second glyph.
    #[tactic(auto, using(crate::proofs::PairPosLaws::good))]
    pub fn second_class(self, glyph: u32) -> u32
        requires { (glyph < whole16) × (pos_format self.bytes.now ≡ 2) }
        ensures { (result ≡ second_class self.entry.bytes.now glyph) × (result < whole16) }
    {
        class_at(
            self.bytes,
            read_u16(self.bytes, CLASS_DEF2_OFFSET) as usize,
            glyph,
        )
    }

    // Format 2: how many classes of first glyphs have records.
    #[tactic(auto, using(crate::proofs::PairPosLaws::good))]
    pub fn class1_count(self) -> u32
        requires { pos_format self.bytes.now ≡ 2 }
        ensures { (result ≡ class1_count self.entry.bytes.now) × (result < whole16) }
    {
        read_u16(self.bytes, CLASS1_COUNT)
    }

    // Format 2: how many classes of second glyphs have.
    #[tactic(auto, using(crate::proofs::PairPosLaws::good))]
    pub fn class2_count(self) -> u32
        requires { pos_format self.bytes.now ≡ 2 }
        ensures { (result ≡ class2_count self.entry.bytes.now) × (result < whole16) }
    {
        read_u16(self.bytes, CLASS2_COUNT)
    }
}

// The class lists of format 2 are good.
#[tactic(auto, using(tables::proofs::HeaderLaws::header), unfolding(crate::specs::PairPos::classes_good))]
fn classes_good(t: &[u8]) -> bool
    requires { header_good pair_set_offsets class1_records t.now ≡ true }
    ensures { result ≡ classes_good t.now }
{
    read_u16(t, POS_FORMAT) == 1
        || tables::class_def::good_at(t, read_u16(t, CLASS_DEF1_OFFSET) as usize)
            && tables::class_def::good_at(t, read_u16(t, CLASS_DEF2_OFFSET) as usize)
}
