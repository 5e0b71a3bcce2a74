// The PairSet table: the probe for a second glyph, directly in its bytes.
ghost use Rattle.std.specs.Prelude.{◌≡◌, ◌≤◌, ◌<◌, length, IfOk};
ghost use Rattle.pair.specs.PairSet.{pair_value_records, probe};
ghost use Rattle.pair.specs.code.Bounds.{found_end};

use ints::big_endian::read_u16;

// The count, and where the records start that follow it.
const PAIR_VALUE_COUNT: usize = 0;

pub const PAIR_VALUE_RECORDS: usize = 2;

// A record starts with its second glyph; the value records follow it.
pub const SECOND_GLYPH_SIZE: usize = 2;

// Why a pair has no record.
#[derive(Clone, Copy)]
pub enum Missed {
    // The glyphs have none.
    Nothing,
    // The probe met a record that is cut, or the set is.
    Cut,
}

// Where the record of a second glyph starts, among records of `size` bytes, by halves. The set needn't be whole: a
// record before a cut may be found, as in the source's PairPos1, whereas its PairKern1 wants the whole set.
// By hand: the library searches items of a constant size, and all of a slice; here a cut record ends the search.
pub fn probe_for(set: &[u8], size: usize, glyph: u32) -> Result<usize, Missed>
    requires { (pair_value_records ≤ length set.now) × (size ≤ 34) }
    ensures { (result ≡ probe set.now size glyph) × IfOk result (λ at. at < found_end) }
{
    let mut lo = 0;
    let mut hi = read_u16(set, PAIR_VALUE_COUNT) as usize;
    while lo < hi {
        // Both are counts of 16 bits, so the sum can't overflow.
        let mid = (lo + hi) / 2;
        let at = PAIR_VALUE_RECORDS + size * mid;
        if set.len() < at + SECOND_GLYPH_SIZE {
            return Err(Missed::Cut);
        }
        let here = read_u16(set, at);
        if glyph < here {
            hi = mid;
        } else if here < glyph {
            lo = mid + 1;
        } else {
            return Ok(at);
        }
    }
    Err(Missed::Nothing)
}
