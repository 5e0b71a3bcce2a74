// Pair adjustment of a slot and its neighbour: it is decided which records the pair has, and the two are applied
// (`apply_pair`).
ghost use Rattle.std.specs.Prelude.{Ok, Some, ◌≡◌, ◌+◌, ◌<◌};
ghost use Rattle.slots.specs.code.Shape.{Inside};
ghost use Rattle.slots.specs.Line.{slot, slots};
ghost use Rattle.answers.specs.code.Effect.{MadeOn};
ghost use Rattle.answers.specs.Said.{range, said};
ghost use Rattle.pair.specs.Adjustment.{either_worked, pair_adjustment, pair_hazard, pair_said, planned};
ghost use Rattle.pair.specs.PairPos.{first_index};
ghost use Rattle.pair.specs.Plan.{adjust};
ghost use Rattle.pair.specs.code.Bounds.{index_end};
ghost use Rattle.pair.specs.code.Meant.{After};

use crate::pair_pos::PairPos;
use crate::plan::{Adjust, after_neighbour};
use answers::{Answer, Hazard, Hazards, Neighbour, unsafe_to_break, unsafe_to_concat};
use slots::fields::glyph;
use slots::frame::Frame;
use slots::shape::Shape;
use values::format::{record_at, record_len};
use values::value::apply_value;

// The pair of slot idx and the neighbour that the caller names, adjusted by the subtable t. The caller has checked the
// line and the indices. Coverage comes first: an uncovered first glyph declines without hazard, also when the second is
// missing.
#[tactic(auto, unfolding(crate::specs::Plan::plan_of))]
pub fn apply(
    line: &mut [u8],
    shape: Shape,
    frame: Frame,
    t: PairPos,
    idx: usize,
    neighbour: Neighbour,
) -> Answer
    requires { Inside shape line.old idx × After shape.count idx neighbour }
    ensures { MadeOn
        (pair_adjustment t.entry.bytes.now frame.direction frame.scale.s frame.scale.u idx neighbour)
        (slots shape line.old) (said (Ok result)) (slots shape line.new) }
{
    let Some(k) = t.first_index(glyph(line, shape, idx)) else {
        return Answer::Declined {
            hazards: Hazards::None,
        };
    };
    apply_covered(line, shape, frame, t, idx, k, neighbour)
}

// The same of a first glyph that is known to be covered, as k.
#[tactic(auto, unfolding(crate::specs::Plan::plan_of))]
pub fn apply_covered(
    line: &mut [u8],
    shape: Shape,
    frame: Frame,
    t: PairPos,
    idx: usize,
    k: usize,
    neighbour: Neighbour,
) -> Answer
    requires { Inside shape line.old idx × After shape.count idx neighbour
        × (first_index t.bytes.now (slot (slots shape line.old) idx).glyph ≡ Some k) }
    ensures { MadeOn
        (pair_adjustment t.entry.bytes.now frame.direction frame.scale.s frame.scale.u idx neighbour)
        (slots shape line.old) (said (Ok result)) (slots shape line.new) }
{
    match after_neighbour(line, shape, t, idx, k, neighbour) {
        Err(hazards) => Answer::Declined { hazards },
        Ok(pair) => {
            let worked = apply_pair(line, shape, frame, t, idx, pair);
            pair_answer(worked, t.value_format2() != 0, idx, pair.second)
        }
    }
}

// The first value is applied to the first slot, then the second to the second: whether either worked. Each record is
// judged alone, so the second may be cut where the first isn't.
fn apply_pair(
    line: &mut [u8],
    shape: Shape,
    frame: Frame,
    t: PairPos,
    idx: usize,
    pair: Adjust,
) -> bool
    requires { Inside shape line.old idx × Inside shape line.old pair.second }
    ensures { (slots shape line.new
        ≡ planned frame.scale.s frame.scale.u frame.direction t.entry.bytes.now idx
        (adjust pair.entry.records.table.now pair.entry.records.at pair.entry.second)
        (slots shape line.old))
        × (result ≡ either_worked frame.direction t.entry.bytes.now pair.entry.records.table.now
        pair.entry.records.at) }
{
    let table = pair.records.table;
    let at = pair.records.at;
    let format1 = t.value_format1();
    let format2 = t.value_format2();
    let value1 = record_at(table, at, format1);
    let value2 = record_at(table, at + record_len(format1), format2);
    let first = apply_value(line, shape, idx, value1, format1, frame);
    let then = apply_value(line, shape, pair.second, value2, format2, frame);
    first || then
}

// The answer of a pair that was applied. With a second value, by its format alone, the second glyph is done with: the
// next index is past it, and one more break is reported, up to and with the slot after it (harfbuzz #3824, #3888).
fn pair_answer(worked: bool, more: bool, idx: usize, second: usize) -> Answer
    requires { second + 2 < index_end }
    ensures { said (Ok result) ≡ pair_said worked more idx second }
{
    let hazard = pair_hazard(worked, idx, second);
    if more {
        Answer::Applied {
            next: second + 1,
            hazards: Hazards::Two(hazard, unsafe_to_break(idx, second + 2)),
            attached: false,
        }
    } else {
        Answer::Applied {
            next: second,
            hazards: Hazards::One(hazard),
            attached: false,
        }
    }
}

// Break where the pair worked, else concat: even a zero-valued pair is a hazard, since another second glyph could
// select a non-zero one.
fn pair_hazard(worked: bool, idx: usize, second: usize) -> Hazard
    requires { second + 2 < index_end }
    ensures { range result ≡ pair_hazard worked idx second }
{
    if worked {
        unsafe_to_break(idx, second + 1)
    } else {
        unsafe_to_concat(idx, second + 1)
    }
}
