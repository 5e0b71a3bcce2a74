// The advances between a slot and its parent, read in one pass over the part of the line that has them.
ghost use Rattle.std.specs.Prelude.{◌≡◌, ◌<◌, Bool, ℕ};
ghost use Rattle.ints.specs.Limits.{whole32};
ghost use Rattle.ints.specs.code.Saturating.{unlifted};
ghost use Rattle.ints.specs.code.Signed.{val};
ghost use Rattle.ints.specs.Sums.{stepwise};
ghost use Rattle.slots.specs.code.Shape.{Fits, Inside};
ghost use Rattle.slots.specs.Line.{slots};
ghost use Rattle.slots.specs.declared.axis.Axis.TheVariants.{X, Y};
ghost use Rattle.finish_rules.specs.Finish.{advances, step_by, shifted};

use ints::big_endian::Signed;
use ints::saturating::{lift, lifted_add, lifted_sub, unlift};
use slots::axis::{Axis, Direction};
use slots::fields::Measure;
use slots::shape::{Shape, part_shape};

// A slot's two offsets. The field that is later in a slot comes first: both are then written by one store.
#[derive(Clone, Copy)]
pub struct Offsets {
    pub y: Signed,
    pub x: Signed,
}

// Both offsets with the advances between slot i and its parent j subtracted or added. With the parent before the slot,
// the common case, a forward direction subtracts and a backward one adds; with the parent after it is the other way
// round.
pub fn shift(line: &[u8], shape: Shape, d: Direction, i: usize, j: usize, from: Offsets) -> Offsets
    requires { Inside shape line.now i × Inside shape line.now j }
    ensures { (val result.x ≡ shifted d X (slots shape line.now) i j (val from.x))
        × (val result.y ≡ shifted d Y (slots shape line.now) i j (val from.y)) }
{
    if d.is_forward() {
        if j < i {
            return step_all(
                slots::fields::slots_between(line, shape, j, i),
                part_shape(shape, i - j),
                from,
                lifted_sub,
            );
        }
        return step_all(
            slots::fields::slots_between(line, shape, i, j),
            part_shape(shape, j - i),
            from,
            lifted_add,
        );
    }
    if j < i {
        return step_all(
            slots::fields::slots_between(line, shape, j + 1, i + 1),
            part_shape(shape, i - j),
            from,
            lifted_add,
        );
    }
    step_all(
        slots::fields::slots_between(line, shape, i + 1, j + 1),
        part_shape(shape, j - i),
        from,
        lifted_sub,
    )
}

// The advances of a part taken into both offsets, one by one, by a step that subtracts or adds one.
fn step_all<F: Fn(u64, Signed) -> u64>(part: &[u8], shape: Shape, from: Offsets, step: F) -> Offsets
    ghost subtract: { Bool }
    requires fits { Fits shape part.now }
    requires callable { (z v : ℕ) → z < whole32 → v < whole32 → F.pre step z v }
    requires steps { (z v n : ℕ) → z < whole32 → v < whole32 → F.post step z v n
        → (unlifted n ≡ step_by subtract (unlifted z) (val v)) × (n < whole32) }
    ensures { (val result.x ≡ stepwise (step_by subtract) (val from.x)
        (advances X (slots shape part.now))) × (val result.y
        ≡ stepwise (step_by subtract) (val from.y) (advances Y (slots shape part.now))) }
{
    let mut x = lift(from.x);
    let mut y = lift(from.y);
    for k in 0..shape.count {
        x = step(
            x,
            slots::fields::get(part, shape, k, Measure::Advance, Axis::X),
        );
        y = step(
            y,
            slots::fields::get(part, shape, k, Measure::Advance, Axis::Y),
        );
    }
    Offsets {
        x: unlift(x),
        y: unlift(y),
    }
}
