// The walk along cursive parents (`cross_offset`). A looping chain would be walked for ever; here the walk makes as
// many tests as there are slots.
ghost use Rattle.std.specs.Prelude.{◌≡◌};
ghost use Rattle.slots.specs.code.Shape.{Inside};
ghost use Rattle.slots.specs.Line.{slots};
ghost use Rattle.targets.specs.Walk.{climb, cross_offset};
ghost use Rattle.targets.specs.code.Meant.{walk_of};

use ints::big_endian::Signed;
use ints::saturating::sat_add;
use slots::axis::Axis;
use slots::fields::{ByteField, Measure, cursive_bit, get, get_byte};
use slots::parent::{Parent, parent_of};
use slots::shape::Shape;

// The cross offset of slot i, summed along its cursive chain, from the slot outward: none where the walk never ends.
#[tactic(auto, using(crate::proofs::WalkLaws::walking), unfolding(crate::specs::Walk::cross_offset_in))]
pub fn cross_offset(line: &[u8], shape: Shape, a: Axis, i: usize) -> Option<Signed>
    requires { Inside shape line.now i }
    ensures { walk_of result ≡ cross_offset a (slots shape line.now) i }
{
    let mut at = i;
    let mut sum = get(line, shape, i, Measure::Offset, a);
    for _ in 0..shape.count {
        match climb_from(line, shape, at) {
            Parent::None | Parent::Outside => return Some(sum),
            Parent::InLine(j) => {
                at = j;
                sum = sat_add(sum, get(line, shape, j, Measure::Offset, a));
            }
        }
    }
    None
}

// Where the walk goes on from slot i: a type without the cursive bit leads nowhere.
fn climb_from(line: &[u8], shape: Shape, i: usize) -> Parent
    requires { Inside shape line.now i }
    ensures { result ≡ climb (slots shape line.now) i }
{
    if cursive_bit(get_byte(line, shape, i, ByteField::AttachType)) {
        return parent_of(line, shape, i);
    }
    Parent::None
}
