// The SinglePos subtable: its check, and which record a glyph has.
ghost use Rattle.std.specs.Prelude.{true, ◌≡◌};
ghost use Rattle.single.specs.SinglePos.{single_good};

use ints::big_endian::read_u16;
use tables::header::{COVERAGE_OFFSET, MOST_BYTES, POS_FORMAT, header_good};
use values::format::record_len;

// The field of the header that both formats have after those of every subtable.
pub const VALUE_FORMAT: usize = 4;

// Format 1: the value record.
const VALUE_RECORD: usize = 6;

// Format 2: how many value records, and where they start.
const VALUE_COUNT: usize = 6;

const VALUE_RECORDS: usize = 8;

// A subtable that passed the check.
#[derive(Clone, Copy)]
pub struct SinglePos<'a> {
    pub bytes: &'a [u8],
    pub ghost good: { single_good bytes.now ≡ true },
}

impl<'a> SinglePos<'a> {
    ghost use Rattle.std.specs.Prelude.{true, false, Some, ◌≡◌, ◌<◌, IfSome, MatchOption};
    ghost use Rattle.ints.specs.Limits.{whole16};
    ghost use Rattle.tables.specs.Coverage.{coverage_at};
    ghost use Rattle.tables.specs.Header.{coverage_offset};
    ghost use Rattle.single.specs.SinglePos.{single_good, value_format, value_place};
    ghost use Rattle.single.specs.code.Bounds.{place_end};

    // The check: not too long, header good, value format known, coverage good.
    #[tactic(auto, using(tables::proofs::HeaderLaws::header), unfolding(crate::specs::SinglePos::single_good))]
    pub fn new(bytes: &'a [u8]) -> Option<SinglePos<'a>>
        ensures { MatchOption result (single_good bytes.now ≡ false)
            (λ t. (single_good bytes.now ≡ true) × (t.bytes.now ≡ bytes.now)) }
    {
        if bytes.len() <= MOST_BYTES
            && header_good(bytes, VALUE_RECORD, VALUE_RECORDS)
            && read_u16(bytes, VALUE_FORMAT) <= 255
            && tables::coverage::good_at(bytes, read_u16(bytes, COVERAGE_OFFSET) as usize)
        {
            return Some(SinglePos { bytes });
        }
        None
    }

    // A glyph's coverage index.
    #[tactic(auto, using(crate::proofs::SinglePosLaws::of_good))]
    pub fn index_of(self, glyph: u32) -> Option<usize>
        requires { glyph < whole16 }
        ensures { result ≡ coverage_at self.entry.bytes.now (coverage_offset self.entry.bytes.now) glyph }
    {
        tables::coverage::index_at(
            self.bytes,
            read_u16(self.bytes, COVERAGE_OFFSET) as usize,
            glyph,
        )
    }

    // Which fields a value record has.
    #[tactic(auto, using(crate::proofs::SinglePosLaws::of_good))]
    pub fn value_format(self) -> u32
        ensures { (result ≡ value_format self.entry.bytes.now) × (result < 256) }
    {
        read_u16(self.bytes, VALUE_FORMAT)
    }

    // Where the value record of a coverage index is. A glyph covered past the end of the values has none.
    #[tactic(auto, using(crate::proofs::SinglePosLaws::of_good))]
    pub fn value_place(self, k: usize) -> Option<usize>
        ensures { (result ≡ value_place self.entry.bytes.now (Some k)) × IfSome result (λ at. at < place_end) }
    {
        if read_u16(self.bytes, POS_FORMAT) == 1 {
            return Some(VALUE_RECORD);
        }
        let count = read_u16(self.bytes, VALUE_COUNT) as usize;
        let size = record_len(self.value_format());
        (k < count).then(|| VALUE_RECORDS + size * k)
    }
}
