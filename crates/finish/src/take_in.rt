// How a slot takes in its parent, by its type: a mark, a cursive glyph, or nothing.
ghost use Rattle.std.specs.Prelude.{◌≡◌, if◌then◌else◌};
ghost use Rattle.ints.specs.Saturating.{sat_add};
ghost use Rattle.ints.specs.code.Signed.{val};
ghost use Rattle.slots.specs.code.Shape.{Inside};
ghost use Rattle.slots.specs.Line.{slot, slots};
ghost use Rattle.slots.specs.Fields.{offset};
ghost use Rattle.finish_rules.specs.Finish.{is_main, taken_in};

use crate::advances::{Offsets, shift};
use ints::big_endian::Signed;
use ints::saturating::sat_add;
use slots::axis::{Axis, Direction};
use slots::fields::{ByteField, Measure};
use slots::layout::{CURSIVE_TYPE, MARK_TYPE};
use slots::shape::Shape;

// Slot i takes its parent j in. The type is compared as a whole byte: any other adds nothing.
pub fn take_in(line: &mut [u8], shape: Shape, d: Direction, i: usize, j: usize)
    requires { Inside shape line.old i × Inside shape line.old j }
    ensures { slots shape line.new ≡ taken_in d (slots shape line.old) i j }
{
    let kind = slots::fields::get_byte(line, shape, i, ByteField::AttachType);
    // One test and then the other: a `match` of the type takes four instructions more for each mark.
    if kind == MARK_TYPE {
        take_in_mark(line, shape, d, i, j);
        return;
    }
    if kind == CURSIVE_TYPE {
        take_in_cursive(line, shape, d, i, j);
    }
}

// A mark: along the line it takes its parent's offset in; then the advances between, on both axes.
fn take_in_mark(line: &mut [u8], shape: Shape, d: Direction, i: usize, j: usize)
    requires { Inside shape line.old i × Inside shape line.old j
        × ((slot (slots shape line.old) i).attach_type ≡ 1) }
    ensures { slots shape line.new ≡ taken_in d (slots shape line.old) i j }
{
    let x = mark_from(line, shape, d, i, j, Axis::X);
    let y = mark_from(line, shape, d, i, j, Axis::Y);
    let to = shift(line, shape, d, i, j, Offsets { x, y });
    slots::fields::set(line, shape, i, Measure::Offset, Axis::X, to.x);
    slots::fields::set(line, shape, i, Measure::Offset, Axis::Y, to.y);
}

// A cursive glyph: across the line it takes its parent's offset in.
fn take_in_cursive(line: &mut [u8], shape: Shape, d: Direction, i: usize, j: usize)
    requires { Inside shape line.old i × Inside shape line.old j
        × ((slot (slots shape line.old) i).attach_type ≡ 2) }
    ensures { slots shape line.new ≡ taken_in d (slots shape line.old) i j }
{
    let a = d.cross_axis();
    let own = slots::fields::get(line, shape, i, Measure::Offset, a);
    let above = slots::fields::get(line, shape, j, Measure::Offset, a);
    slots::fields::set(line, shape, i, Measure::Offset, a, sat_add(own, above));
}

// Slot i's offset on an axis; on the main axis with its parent's added.
fn mark_from(line: &[u8], shape: Shape, d: Direction, i: usize, j: usize, a: Axis) -> Signed
    requires { Inside shape line.now i × Inside shape line.now j }
    ensures { val result ≡ (if is_main d a then sat_add (offset a (slot (slots shape line.now) i))
        (offset a (slot (slots shape line.now) j)) else offset a
        (slot (slots shape line.now) i)) }
{
    let own = slots::fields::get(line, shape, i, Measure::Offset, a);
    if is_main(d, a) {
        return sat_add(own, slots::fields::get(line, shape, j, Measure::Offset, a));
    }
    own
}

// Is it the axis along the line?
fn is_main(d: Direction, a: Axis) -> bool
    ensures { result ≡ is_main d a }
{
    a == d.main_axis()
}
