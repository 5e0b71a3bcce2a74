// `propagate_attachment_offsets`: clears a slot's chain, settles its parent first, then takes the parent in.
ghost use Rattle.std.specs.Prelude.{◌≡◌};
ghost use Rattle.slots.specs.code.Shape.{Inside};
ghost use Rattle.slots.specs.Line.{slots};
ghost use Rattle.finish_rules.specs.Finish.{settled};

use crate::take_in::take_in;
use slots::axis::Direction;
use slots::parent::Parent;
use slots::shape::Shape;

// The same for a slot of the two loops, whose parent mostly is settled already: then no call is deeper than this.
// `settle` alone, with this test of the parent in it, takes up to a fifth more instructions and twice the stack.
pub fn settle_slot(line: &mut [u8], shape: Shape, d: Direction, i: usize, limit: u32)
    requires { Inside shape line.old i }
    ensures { slots shape line.new ≡ settled d limit (slots shape line.old) i }
{
    match slots::parent::parent_of(line, shape, i) {
        Parent::None => {}
        Parent::Outside => slots::fields::set_chain(line, shape, i, 0),
        Parent::InLine(j) => {
            slots::fields::set_chain(line, shape, i, 0);
            if limit == 0 {
                return;
            }
            if slots::fields::is_attached(line, shape, j) {
                settle(line, shape, d, j, limit - 1);
            }
            take_in(line, shape, d, i, j);
        }
    }
}

// The parent is settled first and only then read. A chain that leads outside the line, or past the nesting limit, is
// only cleared.
pub fn settle(line: &mut [u8], shape: Shape, d: Direction, i: usize, limit: u32)
    requires { Inside shape line.old i }
    ensures { slots shape line.new ≡ settled d limit (slots shape line.old) i }
{
    match slots::parent::parent_of(line, shape, i) {
        Parent::None => {}
        Parent::Outside => slots::fields::set_chain(line, shape, i, 0),
        Parent::InLine(j) => {
            slots::fields::set_chain(line, shape, i, 0);
            if limit == 0 { // the limit bounds the stack
                return;
            }
            settle(line, shape, d, j, limit - 1);
            take_in(line, shape, d, i, j);
        }
    }
}
