// What a slot hangs on, for any chain and any length of the line.
ghost use Rattle.std.specs.Prelude.{◌≡◌, ◌<◌, pos, ◌-ℤ◌};
ghost use Rattle.ints.specs.Limits.{half16, whole16};
ghost use Rattle.ints.specs.Signed.{signed};
ghost use Rattle.slots.specs.code.Fields.{swapped};
ghost use Rattle.slots.specs.code.Shape.{Inside};
ghost use Rattle.slots.specs.Line.{slots};
ghost use Rattle.slots.specs.Parent.{parent};

use crate::fields::chain_bytes;
use crate::shape::Shape;

#[derive(Clone, Copy)]
pub enum Parent {
    // Chain 0.
    None,
    // Slot number plus chain is no slot of the line.
    Outside,
    // This slot.
    InLine(usize),
}

// A chain is read this much higher, so that it is never below 0: 2 ^ 15.
const RAISE: usize = 32768;

// What slot i hangs on: nothing, something outside the line, or a slot of the line.
pub fn parent_of(line: &[u8], shape: Shape, i: usize) -> Parent
    requires { Inside shape line.now i }
    ensures { result ≡ parent (slots shape line.now) i }
{
    let chain = chain_bytes(line, shape, i);
    if chain == 0 {
        return Parent::None;
    }
    match (i + raised(chain)).checked_sub(RAISE) {
        Some(j) if j < shape.count => Parent::InLine(j),
        _ => Parent::Outside,
    }
}

// A chain, given by its bytes, 2 ^ 15 higher: so it is never below 0.
fn raised(bytes: u32) -> usize
    requires { bytes < whole16 }
    ensures { (signed 2 (swapped bytes) ≡ pos result -ℤ pos half16) × (result < whole16) }
{
    let chain = (bytes as u16).swap_bytes();
    usize::from(chain.wrapping_add(RAISE as u16))
}
