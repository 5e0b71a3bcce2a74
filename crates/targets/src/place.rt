// The slot that a mark goes on: a base or a ligature is searched for, an earlier mark is named by the caller.
ghost use Rattle.std.specs.Prelude.{◌≡◌, ◌≤◌};
ghost use Rattle.slots.specs.code.Shape.{Inside};
ghost use Rattle.slots.specs.Line.{slots};
ghost use Rattle.answers.specs.code.Neighbours.{Before as NeighbourBefore};
ghost use Rattle.targets.specs.Place.{named as Place·named, place_for, searched as Place·searched};
ghost use Rattle.targets.specs.code.Meant.{Before, WayBefore};

use crate::mark_pos::{MarkPos, Target};
use crate::search::find;
use crate::together::stacks;
use answers::Neighbour;
use slots::shape::Shape;

// How the slot is known.
#[derive(Clone, Copy)]
pub enum Way {
    // It is searched for.
    Search(Target),
    // It is an earlier mark: the caller names its slot, or says that it is missing.
    Earlier(Neighbour),
}

// The slot that the mark in slot idx goes on, if there is one.
#[tactic(auto, using(crate::proofs::PlaceLaws::searched_first), unfolding(crate::specs::Place::place_for))]
pub fn place_for(line: &[u8], shape: Shape, t: MarkPos, way: Way, idx: usize) -> Option<usize>
    requires { Inside shape line.now idx × WayBefore idx way }
    ensures { (result ≡ place_for way t.entry.bytes.now (slots shape line.now) idx) × Before idx result }
{
    match way {
        Way::Search(target) => searched(line, shape, t, target, idx, 0, None),
        Way::Earlier(earlier) => named(line, shape, idx, earlier),
    }
}

// What the search finds: without a base coverage nothing is searched. What it finds before `until` is known: `found`.
pub fn searched(
    line: &[u8],
    shape: Shape,
    t: MarkPos,
    target: Target,
    idx: usize,
    until: usize,
    found: Option<usize>,
) -> Option<usize>
    requires { Inside shape line.now idx × (until ≤ idx)
        × (found ≡ Place·searched target t.bytes.now (slots shape line.now) until) }
    ensures { (result ≡ Place·searched target t.entry.bytes.now (slots shape line.now) idx)
        × Before idx result }
{
    if !t.has_base_coverage() {
        return None;
    }
    find(line, shape, t, target, idx, until, found)
}

// The slot that the caller names, if the mark may be stacked on it.
pub fn named(line: &[u8], shape: Shape, idx: usize, earlier: Neighbour) -> Option<usize>
    requires { Inside shape line.now idx × NeighbourBefore idx earlier }
    ensures { (result ≡ Place·named (slots shape line.now) idx earlier) × Before idx result }
{
    match earlier {
        Neighbour::Named(i) if stacks(line, shape, idx, i) => Some(i),
        _ => None,
    }
}
