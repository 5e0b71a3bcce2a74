// The header of a GPOS subtable.
ghost use Rattle.std.specs.Prelude.{◌≡◌, ◌≤◌};
ghost use Rattle.tables.specs.Header.{header_good};

use ints::big_endian::read_u16;

// The fields with which each subtable starts. Of marks, the coverage is that of the marks.
pub const POS_FORMAT: usize = 0;

pub const COVERAGE_OFFSET: usize = 2;

// The longest subtable.
pub const MOST_BYTES: usize = 65536;

// The header is whole and its format known: it has `one` bytes in format 1, `two` in format 2.
#[tactic(auto, unfolding(crate::specs::Header::header_good))]
pub fn header_good(t: &[u8], one: usize, two: usize) -> bool
    requires { 2 ≤ one }
    ensures { result ≡ header_good one two t.now }
{
    one <= t.len()
        && match read_u16(t, POS_FORMAT) {
            1 => true,
            2 => two <= t.len(),
            _ => false,
        }
}
