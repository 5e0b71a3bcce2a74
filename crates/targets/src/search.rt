// The search back for the slot that a mark attaches to (`find_mark_base`).
ghost use Rattle.std.specs.Prelude.{◌≡◌, ◌≤◌};
ghost use Rattle.slots.specs.code.Shape.{Fits, Inside};
ghost use Rattle.slots.specs.Line.{slot, slots};
ghost use Rattle.targets.specs.Search.{accepted, found_for, goes_on, is_first, stops_at};
ghost use Rattle.targets.specs.code.Meant.{Before};

use crate::mark_pos::{MarkPos, Target};
use crate::part::Part;
use slots::fields::{Flag, glyph, has_flag};
use slots::shape::Shape;

// The nearest slot before idx at which the search stops. It need not be covered: then nothing farther is looked for.
// The slots before `until` were searched before, and `found` was found among them.
#[tactic(auto, using(crate::proofs::SearchLaws::known_before), unfolding(ints::specs::Tally::nearest))]
pub fn find(
    line: &[u8],
    shape: Shape,
    t: MarkPos,
    target: Target,
    idx: usize,
    until: usize,
    found: Option<usize>,
) -> Option<usize>
    requires { Fits shape line.now × (idx ≤ shape.count) × (until ≤ idx)
        × (found ≡ found_for target t.bytes.now (slots shape line.now) until) }
    ensures { (result ≡ found_for target t.entry.bytes.now (slots shape line.now) idx) × Before idx result }
{
    for j in (until..idx).rev() {
        if stops_at(line, shape, t, target, j) {
            return Some(j);
        }
    }
    found
}

// Does the search stop at slot i? A seen slot that is not accepted is passed, unless the subtable covers it: a font
// that names such a glyph as a base wants marks on it (harfbuzz #4124).
#[tactic(auto, unfolding(crate::specs::Search::stops_at))]
fn stops_at(line: &[u8], shape: Shape, t: MarkPos, target: Target, i: usize) -> bool
    requires { Inside shape line.now i }
    ensures { result ≡ stops_at target t.entry.bytes.now (slots shape line.now) i }
{
    has_flag(line, shape, i, Flag::Seen)
        && (is_accepted(line, shape, target, i) || t.base_index(glyph(line, shape, i)).is_some())
}

// May a mark attach to slot i? Of the glyphs that one glyph was multiplied into, marks go to the first (`accept_base`,
// harfbuzz #740); but where something stands between them, a mark for one, the glyph behind it starts anew (#1020). As
// a ligature only the first may (`accept_ligature`, #4969): the first can have been ligated with what precedes it,
// which ends its being multiplied; the second then seems to go on nothing, but must not stop the search before that
// ligature.
fn is_accepted(line: &[u8], shape: Shape, target: Target, i: usize) -> bool
    requires { Inside shape line.now i }
    ensures { result ≡ accepted target (slots shape line.now) i }
{
    is_first(line, shape, i)
        || match target {
            Target::Ligature => false,
            Target::Base => i == 0 || !goes_on(line, shape, i - 1, i),
        }
}

// Is slot i not multiplied, or the first glyph of a multiple substitution?
fn is_first(line: &[u8], shape: Shape, i: usize) -> bool
    requires { Inside shape line.now i }
    ensures { result ≡ is_first (slot (slots shape line.now) i) }
{
    !has_flag(line, shape, i, Flag::Multiplied) || Part::of(line, shape, i).component == 0
}

// Does slot i go on the multiple substitution that slot p is part of?
fn goes_on(line: &[u8], shape: Shape, p: usize, i: usize) -> bool
    requires { Inside shape line.now p × Inside shape line.now i }
    ensures { result ≡ goes_on (slot (slots shape line.now) p)
        (slot (slots shape line.now) i) }
{
    if has_flag(line, shape, p, Flag::Mark) || !has_flag(line, shape, p, Flag::Multiplied) {
        return false;
    }
    let before = Part::of(line, shape, p);
    let part = Part::of(line, shape, i);
    part.id == before.id && part.component as u32 == before.component as u32 + 1
}
