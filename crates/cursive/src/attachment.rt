// Joining two glyphs, along the line and across it.
ghost use Rattle.std.specs.Prelude.{◌≡◌, ◌<◌, Ok, Some};
ghost use Rattle.ints.specs.Signed.{InBytes};
ghost use Rattle.ints.specs.code.Signed.{val};
ghost use Rattle.slots.specs.code.Shape.{Inside};
ghost use Rattle.slots.specs.Line.{slot, slots, update};
ghost use Rattle.tables.specs.code.Meant.{point_of};
ghost use Rattle.answers.specs.code.Effect.{MadeOn};
ghost use Rattle.answers.specs.Said.{said};
ghost use Rattle.answers.specs.code.Neighbours.{Before};
ghost use Rattle.cursive.specs.Attachment.{cursive_attachment, crossed, ended, joined_at, previous_joined, pulled};
ghost use Rattle.cursive.specs.Attachment.{right_to_left, separated_by, this_joined, tied};
ghost use Rattle.cursive.specs.CursivePos.{index_of};

use crate::cursive_pos::{CursivePos, Join};
use answers::{Answer, Hazards, Neighbour, unsafe_to_break};
use chains::chains::{attach_slot, chain_to};
use chains::reversal::reverse;
use ints::big_endian::Signed;
use ints::saturating::{sat_add, sat_neg, sat_sub};
use slots::axis::{Axis, Direction};
use slots::fields::Measure;
use slots::frame::Frame;
use slots::layout::CURSIVE_TYPE;
use slots::shape::Shape;

// The core: slot idx is joined to the previous slot, or the line left as it was. Whatever a public call refuses has
// been refused before.
#[tactic(auto, unfolding(crate::specs::CursivePos::plan_of))]
pub fn apply(
    line: &mut [u8],
    shape: Shape,
    frame: Frame,
    t: CursivePos,
    idx: usize,
    previous: Neighbour,
    flag: u32,
) -> Answer
    requires { Inside shape line.old idx × Before idx previous }
    ensures { MadeOn (cursive_attachment t.entry.bytes.now frame.direction frame.scale.s frame.scale.u idx previous flag)
        (slots shape line.old) (said (Ok result)) (slots shape line.new) }
{
    match t.index_of(slots::fields::glyph(line, shape, idx)) {
        Some(k) => apply_covered(line, shape, frame, t, idx, k, previous, flag),
        None => Answer::Declined {
            hazards: Hazards::None,
        },
    }
}

// The same of a glyph that is known to be covered, as k.
pub fn apply_covered(
    line: &mut [u8],
    shape: Shape,
    frame: Frame,
    t: CursivePos,
    idx: usize,
    k: usize,
    previous: Neighbour,
    flag: u32,
) -> Answer
    requires { Inside shape line.old idx × Before idx previous
        × (index_of t.bytes.now (slot (slots shape line.old) idx).glyph ≡ Some k) }
    ensures { MadeOn (cursive_attachment t.entry.bytes.now frame.direction frame.scale.s frame.scale.u idx previous flag)
        (slots shape line.old) (said (Ok result)) (slots shape line.new) }
{
    match t.plan_of(line, shape, idx, k, previous) {
        Ok(join) => {
            join_slots(line, shape, frame, flag, idx, join);
            Answer::Applied {
                next: idx + 1,
                hazards: Hazards::One(unsafe_to_break(join.previous, idx + 1)),
                attached: true,
            }
        }
        Err(hazards) => Answer::Declined { hazards },
    }
}

// Slot idx and the previous slot that a plan names are joined.
#[tactic(auto, unfolding(crate::specs::Attachment::joined_at))]
fn join_slots(line: &mut [u8], shape: Shape, frame: Frame, flag: u32, idx: usize, join: Join)
    requires { (join.previous < idx) × Inside shape line.old idx }
    ensures { slots shape line.new
        ≡ joined_at frame.scale.s frame.scale.u frame.direction flag join.previous idx
        (point_of join.exit) (point_of join.entry) (slots shape line.old) }
{
    let d = frame.direction;
    let along = d.main_axis();
    let across = d.cross_axis();
    join_previous(
        line,
        shape,
        d,
        join.previous,
        frame.scale.of(join.exit.on(along)),
    );
    join_this(line, shape, d, idx, frame.scale.of(join.entry.on(along)));
    cross_over(
        line,
        shape,
        across,
        flag,
        join.previous,
        idx,
        frame.scale.of(join.exit.on(across)),
        frame.scale.of(join.entry.on(across)),
    );
}

// What becomes of the previous glyph, along the line.
fn join_previous(line: &mut [u8], shape: Shape, d: Direction, i: usize, z: Signed)
    requires { Inside shape line.old i }
    ensures { slots shape line.new
        ≡ update i (previous_joined d (val z)) (slots shape line.old) }
{
    let a = d.main_axis();
    if d.is_forward() {
        end_at(line, shape, i, a, z);
    } else {
        pull_to(line, shape, i, a, z);
    }
}

// What becomes of this glyph. Bottom to top its advance becomes the entry alone: right to left, its mirror image, the
// glyph's offset is added, but HarfBuzz leaves it out here, and of results the source decides.
fn join_this(line: &mut [u8], shape: Shape, d: Direction, i: usize, z: Signed)
    requires { Inside shape line.old i }
    ensures { slots shape line.new
        ≡ update i (this_joined d (val z)) (slots shape line.old) }
{
    let a = d.main_axis();
    match d {
        Direction::LeftToRight | Direction::TopToBottom => pull_to(line, shape, i, a, z),
        Direction::RightToLeft => end_at(line, shape, i, a, z),
        Direction::BottomToTop => slots::fields::set(line, shape, i, Measure::Advance, a, z),
    }
}

// The glyph ends at its anchor.
#[tactic(auto, unfolding(slots::specs::Line::update))]
fn end_at(line: &mut [u8], shape: Shape, i: usize, a: Axis, z: Signed)
    requires { Inside shape line.old i }
    ensures { slots shape line.new
        ≡ update i (ended a (val z)) (slots shape line.old) }
{
    let offset = slots::fields::get(line, shape, i, Measure::Offset, a);
    slots::fields::set(line, shape, i, Measure::Advance, a, sat_add(z, offset));
}

// The glyph is pulled back to its anchor.
#[tactic(auto, using(crate::proofs::AttachmentLaws::changed_again), unfolding(slots::specs::Line::update))]
fn pull_to(line: &mut [u8], shape: Shape, i: usize, a: Axis, z: Signed)
    requires { Inside shape line.old i }
    ensures { slots shape line.new
        ≡ update i (pulled a (val z)) (slots shape line.old) }
{
    let offset = slots::fields::get(line, shape, i, Measure::Offset, a);
    let advance = slots::fields::get(line, shape, i, Measure::Advance, a);
    let by = sat_add(z, offset);
    slots::fields::set(line, shape, i, Measure::Advance, a, sat_sub(advance, by));
    slots::fields::set(line, shape, i, Measure::Offset, a, sat_sub(offset, by));
}

// Child and parent by the lookup flag, and the cross offset between them. The parent stays on the baseline: with
// RIGHT_TO_LEFT, the common case of Arabic, it is the later glyph.
fn cross_over(
    line: &mut [u8],
    shape: Shape,
    a: Axis,
    flag: u32,
    i: usize,
    idx: usize,
    exit: Signed,
    entry: Signed,
)
    requires { Inside shape line.old i × Inside shape line.old idx }
    ensures { slots shape line.new
        ≡ crossed a (right_to_left flag) i idx (val exit) (val entry) (slots shape line.old) }
{
    let between = sat_sub(entry, exit);
    if flag % 2 == 1 {
        tie(line, shape, a, i, idx, between);
    } else {
        tie(line, shape, a, idx, i, sat_neg(between));
    }
}

// The child hangs on the parent with a cross offset. A slot has room for one chain: where the child hung on another
// glyph already, that chain is reversed first, so that the glyphs it led to hang on the child, and through it on the
// new parent, and keep their places among themselves.
#[tactic(auto, unfolding(crate::specs::Attachment::tied))]
fn tie(line: &mut [u8], shape: Shape, a: Axis, child: usize, parent: usize, z: Signed)
    requires { Inside shape line.old child × Inside shape line.old parent }
    ensures { slots shape line.new
        ≡ tied a child parent (val z) (slots shape line.old) }
{
    reverse(line, shape, a, child, parent);
    let chain = chain_to(child, parent);
    attach_slot(line, shape, child, CURSIVE_TYPE, chain, a, z);
    separate(line, shape, a, parent, chain);
}

// The parent separated, if it was attached to the child, which hangs on it by `chain`: else the two would hang on each
// other (harfbuzz #2469).
#[tactic(auto, using(crate::proofs::AttachmentLaws::changed_again, crate::proofs::AttachmentLaws::opposites), unfolding(crate::specs::Attachment::separated_by, slots::specs::Line::update))]
fn separate(line: &mut [u8], shape: Shape, a: Axis, parent: usize, chain: Signed)
    requires { Inside shape line.old parent × InBytes 2 (val chain) }
    ensures { slots shape line.new
        ≡ separated_by a (val chain) parent (slots shape line.old) }
{
    if slots::fields::chain(line, shape, parent) == sat_neg(chain) {
        slots::fields::set(line, shape, parent, Measure::Offset, a, 0);
        slots::fields::set_chain(line, shape, parent, 0);
    }
}
