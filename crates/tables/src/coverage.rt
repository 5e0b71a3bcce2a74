// The Coverage table: which glyphs are covered, and the index of each.
ghost use Rattle.std.specs.Prelude.{true, ◌≡◌, ◌<◌};
ghost use Rattle.ints.specs.Limits.{whole16};
ghost use Rattle.tables.specs.Coverage.{coverage_at, coverage_good, coverage_good_at, coverage_index};

use crate::spans::{
    END_GLYPH_ID, GLYPH_SIZE, LIST_HEADER_SIZE, RANGE_RECORD_SIZE, ascending, seek,
};
use ints::big_endian::read_u16;

// The fields of the header. The count is glyphCount in format 1 and rangeCount in format 2.
const COVERAGE_FORMAT: usize = 0;

const COUNT: usize = 2;

// Format 2: where in a range record its first glyph's index is.
const START_COVERAGE_INDEX: usize = 4;

// The check of the table at an offset: offset 0 is good and covers nothing.
pub fn good_at(s: &[u8], off: usize) -> bool
    ensures { result ≡ coverage_good_at s.now off }
{
    // `s.get(off..).is_some_and(good)` takes a third more instructions.
    off == 0 || off <= s.len() && good(&s[off..])
}

// A glyph's coverage index in the table at an offset that is good: none where it isn't covered.
pub fn index_at(s: &[u8], off: usize, glyph: u32) -> Option<usize>
    requires { (glyph < whole16) × (coverage_good_at s.now off ≡ true) }
    ensures { result ≡ coverage_at s.now off glyph }
{
    if off == 0 {
        None
    } else {
        index_of(&s[off..], glyph)
    }
}

// The check of a table: whole, of a known format, strictly ascending.
fn good(t: &[u8]) -> bool
    ensures { result ≡ coverage_good t.now }
{
    if t.len() < LIST_HEADER_SIZE {
        return false;
    }
    let count = read_u16(t, COUNT) as usize;
    match read_u16(t, COVERAGE_FORMAT) {
        1 => {
            LIST_HEADER_SIZE + GLYPH_SIZE * count <= t.len() && ascending(t, GLYPH_SIZE, 0, count)
        }
        2 => {
            LIST_HEADER_SIZE + RANGE_RECORD_SIZE * count <= t.len()
                && ascending(t, RANGE_RECORD_SIZE, END_GLYPH_ID, count)
        }
        _ => false,
    }
}

// A glyph's index in a table that is good.
#[tactic(auto, using(crate::proofs::CoverageLaws::range_starts))]
fn index_of(t: &[u8], glyph: u32) -> Option<usize>
    requires { (glyph < whole16) × (coverage_good t.now ≡ true) }
    ensures { result ≡ coverage_index t.now glyph }
{
    let count = read_u16(t, COUNT) as usize;
    if read_u16(t, COVERAGE_FORMAT) == 1 {
        let k = seek(t, GLYPH_SIZE, 0, count, glyph);
        return (k < count).then_some(k);
    }
    let k = seek(t, RANGE_RECORD_SIZE, END_GLYPH_ID, count, glyph);
    if k < count {
        let at = LIST_HEADER_SIZE + RANGE_RECORD_SIZE * k;
        let start = read_u16(t, at);
        let index = read_u16(t, at + START_COVERAGE_INDEX);
        Some((index + glyph - start) as usize)
    } else {
        None
    }
}
