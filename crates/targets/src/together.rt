// Which earlier mark a mark may be stacked on.
ghost use Rattle.std.specs.Prelude.{◌≡◌};
ghost use Rattle.slots.specs.code.Shape.{Inside};
ghost use Rattle.slots.specs.Line.{slot, slots};
ghost use Rattle.targets.specs.Together.{stacks as Together·stacks};

use crate::part::Part;
use slots::fields::{Flag, has_flag};
use slots::shape::Shape;

// May the mark in slot idx be stacked on slot i? If that is a mark, and the two belong together: marks of one base or
// of one component of a ligature, by equal ids; or one of the two is a ligature itself.
#[tactic(auto, unfolding(crate::specs::Together::stacks))]
pub fn stacks(line: &[u8], shape: Shape, idx: usize, i: usize) -> bool
    requires { Inside shape line.now idx × Inside shape line.now i }
    ensures { result ≡ Together·stacks (slot (slots shape line.now) idx)
        (slot (slots shape line.now) i) }
{
    if !has_flag(line, shape, i, Flag::Mark) {
        return false;
    }
    let mark = Part::of(line, shape, idx);
    let earlier = Part::of(line, shape, i);
    if mark.id == earlier.id {
        return mark.id == 0 || mark.component == earlier.component;
    }
    mark.is_own_ligature() || earlier.is_own_ligature()
}
