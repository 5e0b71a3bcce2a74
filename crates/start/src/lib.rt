// Starting a line (`position_start`): every chain and type becomes 0, and nothing else changes.
#![tactic(auto)]

ghost use Rattle.std.specs.Prelude.{true, ◌≡◌, ◌≤◌, length};
ghost use Rattle.slots.specs.Slot.{known, slot_of, slot_size};
ghost use Rattle.slots.specs.code.Shape.{Fits};
ghost use Rattle.slots.specs.Line.{shape_with, slots};
ghost use Rattle.start.specs.Start.{started, unattached};

use slots::layout::{ATTACH_TYPE, CHAIN, CHAIN_LOW, CLUSTERED_SIZE, SLOT_SIZE};
use slots::shape::Shape;

// Each of the two sizes is a number that the compiler knows: the loop then takes fewer instructions.
pub fn start_line(line: &mut [u8], shape: Shape)
    requires { Fits shape line.old × (known shape.size ≡ true) }
    ensures { slots shape line.new ≡ started (slots shape line.old) }
{
    if shape.size == SLOT_SIZE {
        clear_all::<SLOT_SIZE>(line, shape.count);
    } else {
        clear_all::<CLUSTERED_SIZE>(line, shape.count);
    }
}

// Each slot's bytes are lent on by their place: of `chunks_exact_mut` no contract says what the line ends as.
fn clear_all<const SIZE: usize>(line: &mut [u8], n: usize)
    requires { Fits (shape_with SIZE n) line.old }
    ensures { slots (shape_with SIZE n) line.new
        ≡ started (slots (shape_with SIZE n) line.old) }
{
    for i in 0..n {
        let a = i * SIZE;
        clear(&mut line[a..a + SIZE]);
    }
}

// Chain and type of one slot are set to 0.
fn clear(slot: &mut [u8])
    requires { slot_size ≤ length slot.old }
    ensures { slot_of slot.new ≡ unattached (slot_of slot.old) }
{
    slot[ATTACH_TYPE] = 0;
    slot[CHAIN] = 0;
    slot[CHAIN_LOW] = 0;
}
