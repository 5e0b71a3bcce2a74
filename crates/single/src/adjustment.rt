// Single adjustment of one slot: the value record of its glyph is looked up, and applied to it. The caller has checked
// the line.
ghost use Rattle.std.specs.Prelude.{Ok, Some, ◌≡◌};
ghost use Rattle.slots.specs.code.Shape.{Inside};
ghost use Rattle.slots.specs.Line.{slot, slots};
ghost use Rattle.tables.specs.Coverage.{coverage_at};
ghost use Rattle.tables.specs.Header.{coverage_offset};
ghost use Rattle.answers.specs.code.Effect.{MadeOn};
ghost use Rattle.answers.specs.Said.{said};
ghost use Rattle.single.specs.SinglePos.{single_adjustment};

use crate::single_pos::SinglePos;
use answers::{Answer, Hazards};
use slots::frame::Frame;
use slots::shape::Shape;
use values::format::record_at;
use values::value::apply_value;

// Slot i adjusted by its glyph's value record. A record that is cut or does nothing counts as applied too, so that no
// further subtable of the lookup is tried.
#[tactic(auto, unfolding(crate::specs::SinglePos::place_for))]
pub fn apply(line: &mut [u8], shape: Shape, frame: Frame, t: SinglePos, i: usize) -> Answer
    requires { Inside shape line.old i }
    ensures { MadeOn (single_adjustment t.entry.bytes.now frame.direction frame.scale.s frame.scale.u i)
        (slots shape line.old) (said (Ok result)) (slots shape line.new) }
{
    let Some(k) = t.index_of(slots::fields::glyph(line, shape, i)) else {
        return Answer::Declined {
            hazards: Hazards::None,
        };
    };
    apply_covered(line, shape, frame, t, i, k)
}

// The same of a glyph that is known to be covered, as k.
#[tactic(auto, unfolding(crate::specs::SinglePos::place_for))]
pub fn apply_covered(
    line: &mut [u8],
    shape: Shape,
    frame: Frame,
    t: SinglePos,
    i: usize,
    k: usize,
) -> Answer
    requires { Inside shape line.old i
        × (coverage_at t.bytes.now (coverage_offset t.bytes.now) (slot (slots shape line.old) i).glyph
        ≡ Some k) }
    ensures { MadeOn (single_adjustment t.entry.bytes.now frame.direction frame.scale.s frame.scale.u i)
        (slots shape line.old) (said (Ok result)) (slots shape line.new) }
{
    let Some(at) = t.value_place(k) else {
        return Answer::Declined {
            hazards: Hazards::None,
        };
    };
    let format = t.value_format();
    let record = record_at(t.bytes, at, format);
    apply_value(line, shape, i, record, format, frame);
    Answer::Applied {
        next: i + 1,
        hazards: Hazards::None,
        attached: false,
    }
}
