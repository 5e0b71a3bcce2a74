// The ClassDef table: the class of each glyph. A glyph that it doesn't name has class 0.
ghost use Rattle.std.specs.Prelude.{true, ◌≡◌, ◌<◌, ◌≤◌, ◌&&◌, length};
ghost use Rattle.ints.specs.Limits.{whole16};
ghost use Rattle.tables.specs.ClassDef.{array_class, class_at, class_good, class_good_at, class_of};
ghost use Rattle.tables.specs.ClassDef.{class_range_count, class_value_place, glyph_count, range_class};
ghost use Rattle.tables.specs.Spans.{ascends, first_holding, range_record_size, range_spans, whole_spans};

use crate::spans::{END_GLYPH_ID, LIST_HEADER_SIZE, RANGE_RECORD_SIZE, ascending, seek};
use ints::big_endian::read_u16;

// The field that both formats have.
const CLASS_FORMAT: usize = 0;

// Format 1: the first glyph of the array, its count, the array, and the bytes of an entry.
const START_GLYPH_ID: usize = 2;

const GLYPH_COUNT: usize = 4;

const CLASS_VALUE_ARRAY: usize = 6;

const CLASS_VALUE_SIZE: usize = 2;

// Format 2: the count of ranges; and where in a range record its class is.
const CLASS_RANGE_COUNT: usize = 2;

const CLASS_OF_RANGE: usize = 4;

// The check of the list at an offset: offset 0 is good and gives class 0 to all.
pub fn good_at(s: &[u8], off: usize) -> bool
    ensures { result ≡ class_good_at s.now off }
{
    // `s.get(off..).is_some_and(good)` takes a third more instructions.
    off == 0 || off <= s.len() && good(&s[off..])
}

// A glyph's class in the list at an offset that is good.
pub fn class_at(s: &[u8], off: usize, glyph: u32) -> u32
    requires { (glyph < whole16) × (class_good_at s.now off ≡ true) }
    ensures { (result ≡ class_at s.now off glyph) × (result < whole16) }
{
    if off == 0 {
        0
    } else {
        class_of(&s[off..], glyph)
    }
}

// The check of a class list: whole, of a known format, its ranges strictly ascending.
fn good(t: &[u8]) -> bool
    ensures { result ≡ class_good t.now }
{
    if t.len() < LIST_HEADER_SIZE {
        return false;
    }
    match read_u16(t, CLASS_FORMAT) {
        1 => {
            CLASS_VALUE_ARRAY <= t.len()
                && CLASS_VALUE_ARRAY + CLASS_VALUE_SIZE * (read_u16(t, GLYPH_COUNT) as usize)
                    <= t.len()
        }
        2 => {
            let count = read_u16(t, CLASS_RANGE_COUNT) as usize;
            LIST_HEADER_SIZE + RANGE_RECORD_SIZE * count <= t.len()
                && ascending(t, RANGE_RECORD_SIZE, END_GLYPH_ID, count)
        }
        _ => false,
    }
}

// A glyph's class in a list that is good.
fn class_of(t: &[u8], glyph: u32) -> u32
    requires { class_good t.now ≡ true }
    ensures { (result ≡ class_of t.now glyph) × (result < whole16) }
{
    if read_u16(t, CLASS_FORMAT) == 1 {
        in_array(t, glyph)
    } else {
        in_ranges(t, glyph)
    }
}

// The same in a list of format 1.
fn in_array(t: &[u8], glyph: u32) -> u32
    requires { (CLASS_VALUE_ARRAY ≤ length t.now) × (class_value_place (glyph_count t.now) ≤ length t.now) }
    ensures { (result ≡ array_class t.now glyph) × (result < whole16) }
{
    let start = read_u16(t, START_GLYPH_ID);
    let count = read_u16(t, GLYPH_COUNT);
    if start <= glyph && glyph - start < count {
        read_u16(
            t,
            CLASS_VALUE_ARRAY + CLASS_VALUE_SIZE * ((glyph - start) as usize),
        )
    } else {
        0
    }
}

// The same in a list of format 2.
fn in_ranges(t: &[u8], glyph: u32) -> u32
    requires whole { 4 ≤ length t.now }
    requires good { whole_spans t.now range_record_size (class_range_count t.now)
        && ascends 0 (range_spans t.now (class_range_count t.now)) ≡ true }
    ensures { (result ≡ range_class t.now (class_range_count t.now)
        (first_holding (range_spans t.now (class_range_count t.now)) glyph)) × (result < whole16) }
{
    let count = read_u16(t, CLASS_RANGE_COUNT) as usize;
    let k = seek(t, RANGE_RECORD_SIZE, END_GLYPH_ID, count, glyph);
    if k < count {
        read_u16(t, LIST_HEADER_SIZE + RANGE_RECORD_SIZE * k + CLASS_OF_RANGE)
    } else {
        0
    }
}
