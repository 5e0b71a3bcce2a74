// The checks that calls share, each made once, in the order of their numbers: refusals 1 to 4.
ghost use Rattle.std.specs.Prelude.{◌≡◌, is_none, IfOk, Some};
ghost use Rattle.ints.specs.Scale.{bad_scale};
ghost use Rattle.slots.specs.Axis.{direction_of};
ghost use Rattle.checks.specs.code.Checked.{ApplyingChecked, LineChecked, SlotsChecked};

use crate::neighbours::{Beside, check_place};
use crate::ranges::has_bad_slot;
use answers::Refusal;
use ints::scale::Scale;
use slots::axis::Direction;
use slots::frame::Frame;
use slots::shape::{Shape, cut_of};

// Refusals 1 to 4; else the shape of the line's slots, the direction and the number. A number that is out of its range
// is none.
pub fn check_slots<T: Copy>(
    line: &[u8],
    size: usize,
    direction: u32,
    number: Option<T>,
) -> Result<(Shape, Direction, T), Refusal>
    ensures shape { SlotsChecked (λ x. x.0) size line.now direction (is_none number) result }
    ensures numbers { IfOk result (λ x. (x.1 ≡ direction_of direction) × (number ≡ Some x.2)) }
{
    let count = cut_of(line, size).ok_or(Refusal::Line)?;
    let direction = Direction::try_from(direction)?;
    let number = number.ok_or(Refusal::Number)?;
    let shape = Shape { size, count };
    if has_bad_slot(line, shape) {
        return Err(Refusal::Slot);
    }
    Ok((shape, direction, number))
}

// Refusals 1 and 4, of a call that takes neither a direction nor another number.
pub fn check_line(line: &[u8], size: usize) -> Result<Shape, Refusal>
    ensures { LineChecked size line.now result }
{
    let (shape, _, ()) = check_slots(line, size, 0, Some(()))?;
    Ok(shape)
}

// Refusals 1 to 4 of a call that takes a scale.
pub fn check_call(
    line: &[u8],
    size: usize,
    direction: u32,
    s: u32,
    u: u32,
) -> Result<(Shape, Frame), Refusal>
    ensures shape { SlotsChecked (λ x. x.0) size line.now direction (bad_scale s u) result }
    ensures frame { IfOk result (λ x. (x.1.direction ≡ direction_of direction)
        × (x.1.scale.s ≡ s) × (x.1.scale.u ≡ u)) }
{
    let (shape, direction, scale) = check_slots(line, size, direction, Scale::new(s, u))?;
    Ok((shape, Frame { direction, scale }))
}

// Refusals 1 to 6 of an applying call. A subtable that didn't pass its check is none; the calls of gpos give `Some(())`
// and check theirs afterwards. In line: as one function for four calls it costs each 28 to 53 instructions.
#[inline(always)]
pub fn check_applying<T: Copy>(
    line: &[u8],
    size: usize,
    direction: u32,
    s: u32,
    u: u32,
    index: usize,
    beside: Beside,
    subtable: Option<T>,
) -> Result<(Shape, Frame, T), Refusal>
    ensures shape { ApplyingChecked (λ x. x.0) size line.now direction s u index beside (is_none subtable) result }
    ensures frame { IfOk result (λ x. (x.1.direction ≡ direction_of direction)
        × (x.1.scale.s ≡ s) × (x.1.scale.u ≡ u) × (subtable ≡ Some x.2)) }
{
    let (shape, frame) = check_call(line, size, direction, s, u)?;
    check_place(shape.count, index, beside)?;
    let subtable = subtable.ok_or(Refusal::Subtable)?;
    Ok((shape, frame, subtable))
}
