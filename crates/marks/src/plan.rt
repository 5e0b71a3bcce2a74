// What is to be done for a mark.
ghost use Rattle.std.specs.Prelude.{◌≡◌, ℕ};
ghost use Rattle.slots.specs.code.Shape.{Inside};
ghost use Rattle.slots.specs.Line.{slots};
ghost use Rattle.targets.specs.Place.{missed as Place·missed};
ghost use Rattle.targets.specs.code.Meant.{Before};
ghost use Rattle.marks.specs.Plan.{after_place, laid_out, stop, uncovered as Plan·uncovered};
ghost use Rattle.marks.specs.code.Meant.{meant, Sound, stopped};

use crate::anchors::{Anchors, NoAnchors, find_anchors};
use answers::Neighbour;
use ints::big_endian::Signed;
use slots::axis::Axis;
use slots::fields::glyph;
use slots::shape::Shape;
use targets::mark_pos::{MarkPos, Target};
use targets::place::Way;
use targets::walk::cross_offset;

// The mark is to hang on slot base_slot, by the base's anchor and its own, with the base's walk across the line.
#[derive(Clone, Copy)]
pub struct Hang {
    pub base_slot: usize,
    pub anchors: Anchors,
    pub walk: Signed,
}

// Why it isn't.
#[derive(Clone, Copy)]
pub enum Stop {
    Nothing,
    // It is unsafe to concatenate from this slot up to the mark: another glyph might have been attached to.
    Miss(usize),
    // The walk of the base never ends.
    Endless,
}

// What is to be done for the mark in slot idx, which is covered: there is a slot that it may go on, or none; a is the
// cross axis. The tests stand in the source's order: the walk is made only once both anchors are found. In place of a
// ligature without components another glyph might have had an anchor.
pub fn plan_for(
    line: &[u8],
    shape: Shape,
    t: MarkPos,
    way: Way,
    a: Axis,
    idx: usize,
    m: usize,
    place: Option<usize>,
) -> Result<Hang, Stop>
    requires { Inside shape line.now idx × Before idx place }
    ensures { (meant idx result ≡ after_place way a t.entry.bytes.now (slots shape line.now) idx m place)
        × Sound idx result }
{
    let Some(base_slot) = place else {
        return Err(missed(t, way));
    };
    let Some(k) = t.base_index(glyph(line, shape, base_slot)) else {
        return Err(uncovered(way, base_slot));
    };
    let anchors = match find_anchors(line, shape, t, laid_out(way), k, m, idx, base_slot) {
        Ok(anchors) => anchors,
        Err(NoAnchors::Missing) => return Err(Stop::Nothing),
        Err(NoAnchors::Empty) => return Err(Stop::Miss(base_slot)),
    };
    let walk = cross_offset(line, shape, a, base_slot).ok_or(Stop::Endless)?;
    Ok(Hang {
        base_slot,
        anchors,
        walk,
    })
}

// The anchors of an earlier mark are laid out as those of a base.
fn laid_out(way: Way) -> Target
    ensures { result ≡ laid_out way }
{
    match way {
        Way::Search(target) => target,
        Way::Earlier(_) => Target::Base,
    }
}

// Slot b isn't covered: in place of what was searched for another glyph might have been; of an earlier mark, which was
// named, nothing is reported.
fn uncovered(way: Way, b: usize) -> Stop
    ensures { (idx : ℕ) → stopped idx result ≡ stop (Plan·uncovered way idx b) }
{
    match way {
        Way::Search(_) => Stop::Miss(b),
        Way::Earlier(_) => Stop::Nothing,
    }
}

// There is no slot: a search that was made might have found a glyph before the line; in place of an earlier slot that
// is missing, or on which the mark can't be stacked, another might have been named, and the hazard starts at the one
// that was, or at the bound.
fn missed(t: MarkPos, way: Way) -> Stop
    ensures { (idx : ℕ) → stopped idx result ≡ stop (Place·missed way t.entry.bytes.now idx) }
{
    match way {
        Way::Search(_) if t.has_base_coverage() => Stop::Miss(0),
        Way::Search(_) => Stop::Nothing,
        Way::Earlier(Neighbour::Named(i) | Neighbour::Missing(i)) => Stop::Miss(i),
    }
}
