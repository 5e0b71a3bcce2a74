// One ascending test and one search for lists of spans: coverage 1, coverage 2 and class list 2.
ghost use Rattle.std.specs.Prelude.{true, ◌≡◌, ◌+◌, ◌≤◌, ◌<◌, length};
ghost use Rattle.ints.specs.Limits.{whole16};
ghost use Rattle.tables.specs.Spans.{ascends, first_holding, range_record_size, span_at, span_place, spans};

use ints::big_endian::read_u16;

// A list starts with its format and its count; the spans follow.
pub const LIST_HEADER_SIZE: usize = 4;

// A glyph of a glyphArray is a span of one glyph, which is both its ends.
pub const GLYPH_SIZE: usize = 2;

// A range record, and where its last glyph is; its first glyph comes first.
pub const RANGE_RECORD_SIZE: usize = 6;

pub const END_GLYPH_ID: usize = 2;

// Whether the spans ascend strictly: none ends before it starts, and the next starts above its end. A span has
// `stride` bytes, and its last glyph is `over` bytes after its first.
pub fn ascending(t: &[u8], stride: usize, over: usize, count: usize) -> bool
    requires { (over + 2 ≤ stride) × (stride ≤ range_record_size) × (count < whole16)
        × (span_place stride count ≤ length t.now) }
    ensures { result ≡ ascends 0 (spans t.now stride over count) }
{
    let mut bound = 0;
    for k in 0..count {
        let (first, last) = ends_of(t, stride, over, k);
        if first < bound || last < first {
            return false;
        }
        bound = last + 1;
    }
    true
}

// The first and the last glyph of span k.
#[tactic(auto, unfolding(crate::specs::Spans::span_at))]
fn ends_of(t: &[u8], stride: usize, over: usize, k: usize) -> (u32, u32)
    requires { (over + 2 ≤ stride) × (span_place stride (k + 1) ≤ length t.now) }
    ensures first { (result.0 ≡ (span_at t.now stride over k).first) × (result.0 < whole16) }
    ensures last { (result.1 ≡ (span_at t.now stride over k).last) × (result.1 < whole16) }
{
    let at = LIST_HEADER_SIZE + stride * k;
    (read_u16(t, at), read_u16(t, at + over))
}

// The number of the span that holds the glyph, and `count` where none does: by halves.
// By hand: the library searches want items, and `as_chunks` makes items of a constant size, while `stride` is a value.
pub fn seek(t: &[u8], stride: usize, over: usize, count: usize, glyph: u32) -> usize
    requires whole { (over + 2 ≤ stride) × (stride ≤ range_record_size) × (count < whole16)
        × (span_place stride count ≤ length t.now) }
    requires ascending { ascends 0 (spans t.now stride over count) ≡ true }
    ensures { (result ≡ first_holding (spans t.now stride over count) glyph) × (result ≤ count) }
{
    let mut lo = 0;
    let mut hi = count;
    while lo < hi {
        let mid = lo + (hi - lo) / 2;
        let (first, last) = ends_of(t, stride, over, mid);
        if glyph < first {
            hi = mid;
        } else if last < glyph {
            lo = mid + 1;
        } else {
            return mid;
        }
    }
    count
}
