// Which records a pair has; applying them is another matter.
ghost use Rattle.std.specs.Prelude.{ℕ, ◌≡◌, ◌<◌, IfOk};
ghost use Rattle.ints.specs.Limits.{whole16};
ghost use Rattle.slots.specs.code.Shape.{Inside};
ghost use Rattle.slots.specs.Line.{slots};
ghost use Rattle.tables.specs.Header.{pos_format};
ghost use Rattle.pair.specs.PairPos.{pair_set};
ghost use Rattle.pair.specs.Plan.{after_classes, after_neighbour, after_second, after_set};
ghost use Rattle.pair.specs.code.Meant.{After, found_plan, meant};

use crate::pair_pos::{CLASS1_RECORDS, PairPos};
use crate::pair_set::{Missed, PAIR_VALUE_RECORDS, SECOND_GLYPH_SIZE, probe_for};
use crate::records::Records;
use answers::{Hazards, Neighbour, miss};
use slots::fields::glyph;
use slots::shape::Shape;

// What is to be applied: of these records the first to the slot that is positioned, the second to the slot `second`.
#[derive(Clone, Copy)]
pub struct Adjust<'a> {
    pub records: Records<'a>,
    pub second: usize,
}

// A covered first glyph, of coverage index k: the pair with the slot that the caller names. Where none follows, another
// glyph up to the bound that it names instead might have paired, which is a hazard; so is a pair without records, as
// another second glyph might have some. A set that is absent or cut declines without hazard.
pub fn after_neighbour<'a>(
    line: &[u8],
    shape: Shape,
    t: PairPos<'a>,
    idx: usize,
    k: usize,
    neighbour: Neighbour,
) -> Result<Adjust<'a>, Hazards>
    requires { Inside shape line.now idx × After shape.count idx neighbour }
    ensures { (meant result ≡ after_neighbour t.entry.bytes.now (slots shape line.now) idx k neighbour)
        × IfOk result (λ a. (idx < a.second) × (a.second < shape.count)) }
{
    match neighbour {
        Neighbour::Missing(e) => Err(miss(idx, e)),
        Neighbour::Named(second) => match after_second(line, shape, t, idx, k, second) {
            Ok(records) => Ok(Adjust { records, second }),
            Err(Missed::Nothing) => Err(miss(idx, second + 1)),
            Err(Missed::Cut) => Err(Hazards::None),
        },
    }
}

// Both glyphs are there: in format 1 the coverage index has a pair set, in format 2 each glyph has a class.
#[tactic(auto, using(crate::proofs::PairPosLaws::good))]
fn after_second<'a>(
    line: &[u8],
    shape: Shape,
    t: PairPos<'a>,
    idx: usize,
    k: usize,
    second: usize,
) -> Result<Records<'a>, Missed>
    requires { Inside shape line.now idx × Inside shape line.now second }
    ensures { found_plan idx second result
        ≡ after_second t.entry.bytes.now (slots shape line.now) idx k second }
{
    let second_glyph = glyph(line, shape, second);
    if t.format() == 1 {
        return after_set(t, k, second_glyph);
    }
    let c1 = t.first_class(glyph(line, shape, idx));
    after_classes(t, c1, t.second_class(second_glyph))
}

// Format 1: the set of coverage index k, probed for the second glyph, which the value records follow. The set may be
// absent, or cut before its count.
fn after_set<'a>(t: PairPos<'a>, k: usize, glyph: u32) -> Result<Records<'a>, Missed>
    requires { pos_format t.bytes.now ≡ 1 }
    ensures { (idx second : ℕ) → found_plan idx second result
        ≡ after_set t.entry.bytes.now idx second glyph (pair_set t.entry.bytes.now k) }
{
    let table = t.pair_set(k);
    if table.len() < PAIR_VALUE_RECORDS {
        return Err(Missed::Cut);
    }
    let record = probe_for(table, SECOND_GLYPH_SIZE + t.pair_length(), glyph)?;
    let at = record + SECOND_GLYPH_SIZE;
    Ok(Records { table, at })
}

// Format 2: the records of two classes. A class outside its count matches nothing, as in HarfBuzz; nor does one whose
// records are cut.
#[tactic(auto, using(crate::proofs::PairPosLaws::good))]
fn after_classes<'a>(t: PairPos<'a>, c1: u32, c2: u32) -> Result<Records<'a>, Missed>
    requires { (pos_format t.bytes.now ≡ 2) × (c1 < whole16) × (c2 < whole16) }
    ensures { (idx second : ℕ) → found_plan idx second result
        ≡ after_classes t.entry.bytes.now idx second c1 c2 }
{
    let seconds = t.class2_count();
    let size = t.pair_length();
    let at = CLASS1_RECORDS + size * (c1 as usize * seconds as usize + c2 as usize);
    if t.class1_count() <= c1 || seconds <= c2 || t.bytes.len() < at + size {
        return Err(Missed::Nothing);
    }
    Ok(Records { table: t.bytes, at })
}
