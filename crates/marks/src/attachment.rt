// Hanging a mark on a slot (`attach_mark`), and the core.
ghost use Rattle.std.specs.Prelude.{◌≡◌, ◌<◌, Some};
ghost use Rattle.ints.specs.code.Signed.{val};
ghost use Rattle.slots.specs.code.Shape.{Inside};
ghost use Rattle.slots.specs.Line.{slot, slots, update};
ghost use Rattle.tables.specs.code.Meant.{point_of};
ghost use Rattle.answers.specs.code.Effect.{Effect, MadeOn};
ghost use Rattle.answers.specs.Said.{said};
ghost use Rattle.targets.specs.MarkPos.{mark_index};
ghost use Rattle.targets.specs.Place.{place_for};
ghost use Rattle.targets.specs.code.Meant.{Before, WayBefore};
ghost use Rattle.marks.specs.Attachment.{mark_attachment, anchor_delta, mark_attached, planned};
ghost use Rattle.marks.specs.Plan.{plan_said};
ghost use Rattle.marks.specs.code.Meant.{InReach, meant, Sound};

use crate::anchors::Anchors;
use crate::plan::{Hang, Stop, plan_for};
use answers::{Answer, Hazards, Refusal, miss, unsafe_to_break};
use chains::chains::{attach_slot, chain_to};
use ints::big_endian::Signed;
use ints::saturating::{difference, sat_add};
use ints::scale::Scale;
use slots::axis::Axis;
use slots::fields::{Measure, glyph, set, set_chain};
use slots::frame::Frame;
use slots::layout::{CHAIN_LIMIT, MARK_TYPE};
use slots::shape::Shape;
use targets::mark_pos::MarkPos;
use targets::place::{Way, place_for};

// The core: makes the plan for the mark in slot idx, and carries it out. Whatever a public call refuses, but for
// refusal 7, has been refused before.
#[tactic(auto, unfolding(crate::specs::Plan::plan_of))]
pub fn apply(
    line: &mut [u8],
    shape: Shape,
    frame: Frame,
    t: MarkPos,
    way: Way,
    idx: usize,
) -> Result<Answer, Refusal>
    requires { Inside shape line.old idx × WayBefore idx way }
    ensures { MadeOn (mark_attachment way t.entry.bytes.now frame.direction frame.scale.s frame.scale.u idx)
        (slots shape line.old) (said result) (slots shape line.new) }
{
    let Some(m) = t.mark_index(glyph(line, shape, idx)) else {
        return Ok(Answer::Declined {
            hazards: Hazards::None,
        });
    };
    let place = place_for(line, shape, t, way, idx);
    apply_found(line, shape, frame, t, way, idx, m, place)
}

// The same of a mark that is known to be covered, as m, and of which it is known what it goes on.
#[tactic(auto, unfolding(crate::specs::Plan::plan_of))]
pub fn apply_found(
    line: &mut [u8],
    shape: Shape,
    frame: Frame,
    t: MarkPos,
    way: Way,
    idx: usize,
    m: usize,
    place: Option<usize>,
) -> Result<Answer, Refusal>
    requires { Inside shape line.old idx × Before idx place
        × (mark_index t.bytes.now (slot (slots shape line.old) idx).glyph ≡ Some m)
        × (place ≡ place_for way t.bytes.now (slots shape line.old) idx) }
    ensures { MadeOn (mark_attachment way t.entry.bytes.now frame.direction frame.scale.s frame.scale.u idx)
        (slots shape line.old) (said result) (slots shape line.new) }
{
    let across = frame.direction.cross_axis();
    let plan = plan_for(line, shape, t, way, across, idx, m, place);
    carry_out(line, shape, frame, idx, plan)
}

// The mark in slot idx is hung, and passed: break from what was found up to it. Or the line is left as it was. A mark
// whose base is too far for a chain loses the chain it had and is passed, as in HarfBuzz; in a line of 1,024 slots none
// is.
#[tactic(auto, using(slots::proofs::ChainLaws::zero_fits, slots::proofs::ParentLaws::cleared_is))]
fn carry_out(
    line: &mut [u8],
    shape: Shape,
    frame: Frame,
    idx: usize,
    plan: Result<Hang, Stop>,
) -> Result<Answer, Refusal>
    requires { Inside shape line.old idx × Sound idx plan }
    ensures { Effect (slots shape line.old) (plan_said idx (meant idx plan))
        (planned frame.scale.s frame.scale.u frame.direction idx (meant idx plan) (slots shape line.old))
        (said result) (slots shape line.new) }
{
    let hang = match plan {
        Ok(hang) => hang,
        Err(Stop::Nothing) => {
            return Ok(Answer::Declined {
                hazards: Hazards::None,
            });
        }
        Err(Stop::Miss(f)) => {
            return Ok(Answer::Declined {
                hazards: miss(f, idx + 1),
            });
        }
        Err(Stop::Endless) => return Err(Refusal::Endless),
    };
    let attached = idx - hang.base_slot <= CHAIN_LIMIT;
    if attached {
        attach_mark(line, shape, frame, idx, hang);
    } else {
        set_chain(line, shape, idx, 0);
    }
    Ok(Answer::Applied {
        next: idx + 1,
        hazards: Hazards::One(unsafe_to_break(hang.base_slot, idx + 1)),
        attached,
    })
}

// The mark in slot idx is hung: type, chain, and both offsets replaced. Across the line the base's walk is added now: a
// cursive base has only its offset from its own parent, and the sum along its chain is where it will be drawn. So
// finishing doesn't add the base's cross offset to a mark, as older HarfBuzz did: it would count twice.
fn attach_mark(line: &mut [u8], shape: Shape, frame: Frame, idx: usize, hang: Hang)
    requires { Inside shape line.old idx × (hang.base_slot < idx) × InReach idx hang.base_slot }
    ensures { slots shape line.new
        ≡ update idx (mark_attached frame.scale.s frame.scale.u frame.direction idx hang.base_slot
        (point_of hang.anchors.base) (point_of hang.anchors.mark) (val hang.walk))
        (slots shape line.old) }
{
    let along = frame.direction.main_axis();
    let across = frame.direction.cross_axis();
    let main = anchor_delta(hang.anchors, along, frame.scale);
    let cross = sat_add(anchor_delta(hang.anchors, across, frame.scale), hang.walk);
    set(line, shape, idx, Measure::Offset, along, main);
    let chain = chain_to(idx, hang.base_slot);
    attach_slot(line, shape, idx, MARK_TYPE, chain, across, cross);
}

// How far the base's anchor is from the mark's: the difference is scaled, not each of the two.
fn anchor_delta(anchors: Anchors, a: Axis, scale: Scale) -> Signed
    ensures { val result
        ≡ anchor_delta scale.s scale.u a (point_of anchors.base) (point_of anchors.mark) }
{
    scale.of(difference(anchors.base.on(a), anchors.mark.on(a)))
}
