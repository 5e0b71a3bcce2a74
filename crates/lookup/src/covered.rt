// The next place at which a call can do more than decline without hazard: where the slot's glyph is covered. All six
// kinds ask that first, and a glyph that isn't covered declines without hazard; so a run passes over it without a call.
ghost use Rattle.std.specs.Prelude.{◌≡◌, ◌+◌, ◌≤◌, ◌<◌, length, MatchOption, Some, take};
ghost use Rattle.ints.specs.Limits.{whole16};
ghost use Rattle.slots.specs.code.Shape.{Fits, Inside};
ghost use Rattle.slots.specs.Line.{slots};
ghost use Rattle.lookup.specs.Subtables.{total};
ghost use Rattle.lookup.specs.code.Covered.{AllReadable, cover_of, next_place, Readable};

use ints::big_endian::read_u16;
use slots::fields::glyph;
use slots::shape::Shape;
use tables::coverage::index_at;
use tables::header::COVERAGE_OFFSET;

// A place of a run: slot `index` with subtable `subtable`, which starts at byte `start` and covers the slot's glyph, as
// `covered`.
#[derive(Clone, Copy)]
pub struct Place {
    pub index: usize,
    pub subtable: usize,
    pub start: usize,
    pub covered: usize,
}

// The next covered place from slot i and subtable k on, which starts at byte `start`: none before the line's end.
#[tactic(auto, using(crate::proofs::CoveredLaws::of_search))]
pub fn next_covered(
    line: &[u8],
    shape: Shape,
    subtables: &[u8],
    lengths: &[usize],
    i: usize,
    k: usize,
    start: usize,
) -> Option<Place>
    requires placed { Fits shape line.now × (k ≤ length lengths.now) × (start ≡ total (take k lengths.now)) }
    requires readable { (total lengths.now ≡ length subtables.now) × AllReadable subtables.now lengths.now }
    ensures { result ≡ next_place (slots shape line.now) subtables.now lengths.now
        i k start }
{
    let mut k = k;
    let mut start = start;
    for index in i..shape.count {
        let found = covered_at(line, shape, subtables, lengths, index, k, start);
        if found.is_some() {
            return found;
        }
        k = 0;
        start = 0;
    }
    None
}

// The same at slot i alone: where it is none, the next is that from the next slot on.
#[tactic(auto, using(crate::proofs::CoveredLaws::of_search))]
fn covered_at(
    line: &[u8],
    shape: Shape,
    subtables: &[u8],
    lengths: &[usize],
    i: usize,
    k: usize,
    start: usize,
) -> Option<Place>
    requires placed { Inside shape line.now i × (k ≤ length lengths.now) × (start ≡ total (take k lengths.now)) }
    requires readable { (total lengths.now ≡ length subtables.now) × AllReadable subtables.now lengths.now }
    ensures { MatchOption result
        (next_place (slots shape line.now) subtables.now lengths.now i k start
        ≡ next_place (slots shape line.now) subtables.now lengths.now (i + 1) 0 0)
        (λ p. next_place (slots shape line.now) subtables.now lengths.now i k start ≡ Some p) }
{
    let glyph = glyph(line, shape, i);
    let mut at = start;
    for subtable in k..lengths.len() {
        let end = at + lengths[subtable];
        if let Some(covered) = cover_of(&subtables[at..end], glyph) {
            return Some(Place {
                index: i,
                subtable,
                start: at,
                covered,
            });
        }
        at = end;
    }
    None
}

// A glyph's coverage index in the coverage that decides.
fn cover_of(t: &[u8], glyph: u32) -> Option<usize>
    requires { (glyph < whole16) × Readable t.now }
    ensures { result ≡ cover_of t.now glyph }
{
    index_at(t, read_u16(t, COVERAGE_OFFSET) as usize, glyph)
}
