// Which component of a ligature a mark attaches to.
ghost use Rattle.std.specs.Prelude.{◌≡◌, ◌<◌};
ghost use Rattle.slots.specs.code.Shape.{Inside};
ghost use Rattle.slots.specs.Line.{slot, slots};
ghost use Rattle.targets.specs.Component.{component_index};

use crate::part::Part;
use slots::shape::Shape;

// A ligature's component for the mark in slot idx, counted from 0: its own, where the mark comes from the same
// ligature, or the last.
pub fn component_index(line: &[u8], shape: Shape, n: usize, idx: usize, b: usize) -> usize
    requires { Inside shape line.now idx × Inside shape line.now b × (0 < n) }
    ensures { (result ≡ component_index n (slot (slots shape line.now) idx)
        (slot (slots shape line.now) b)) × (result < n) }
{
    let ligature = Part::of(line, shape, b);
    let mark = Part::of(line, shape, idx);
    let component = mark.component as usize;
    if ligature.id == 0 || ligature.id != mark.id || component == 0 || n <= component {
        return n - 1;
    }
    component - 1
}
