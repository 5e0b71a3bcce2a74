// The two loops of `position_finish_offsets`: upward in forward directions, downward in the others.
ghost use Rattle.std.specs.Prelude.{true, ◌≡◌};
ghost use Rattle.slots.specs.code.Shape.{Fits};
ghost use Rattle.slots.specs.Line.{slots};
ghost use Rattle.finish_rules.specs.Finish.{finished, settled_down, settled_up};

use crate::propagate::settle_slot;
use slots::axis::Direction;
use slots::shape::Shape;

// The most parents that are followed from a slot.
pub const MAX_NESTING_LEVEL: u32 = 64;

// A line with attachments is finished.
pub fn finish_line(line: &mut [u8], shape: Shape, d: Direction, limit: u32)
    requires { Fits shape line.old }
    ensures { slots shape line.new ≡ finished d limit true (slots shape line.old) }
{
    if d.is_forward() {
        settle_up(line, shape, d, limit);
        return;
    }
    settle_down(line, shape, d, limit);
}

// Every slot settled, from the first up. (One loop for both, over an iterator, would take a definition for any order.)
fn settle_up(line: &mut [u8], shape: Shape, d: Direction, limit: u32)
    requires { Fits shape line.old }
    ensures { slots shape line.new ≡ settled_up d limit (slots shape line.old)
        shape.count }
{
    for i in 0..shape.count {
        settle_slot(line, shape, d, i, limit);
    }
}

// Every slot settled, from the last down.
fn settle_down(line: &mut [u8], shape: Shape, d: Direction, limit: u32)
    requires { Fits shape line.old }
    ensures { slots shape line.new ≡ settled_down d limit (slots shape line.old)
        shape.count }
{
    for i in (0..shape.count).rev() {
        settle_slot(line, shape, d, i, limit);
    }
}
