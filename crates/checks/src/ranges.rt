// The check of a line's slots: their ranges (refusal 4). Its length (refusal 1) is checked where it is cut into slots.
ghost use Rattle.std.specs.Prelude.{true, ◌≡◌, ◌≤◌, length};
ghost use Rattle.slots.specs.Slot.{known, slot_of, slot_size};
ghost use Rattle.slots.specs.code.Shape.{Fits};
ghost use Rattle.slots.specs.Line.{shape_with, slots};
ghost use Rattle.checks.specs.code.Ranges.{bad_fields};
ghost use Rattle.checks.specs.Ranges.{bad_slot, bad_slots};

use slots::layout::{ATTACH_TYPE, CLUSTERED_SIZE, COMPONENT, FLAGS, LIGATURE_ID, SLOT_SIZE};
use slots::shape::Shape;

// The most that each field may be.
const MOST_LIGATURE_ID: u32 = 7;

const MOST_COMPONENT: u32 = 15;

const MOST_FLAGS: u32 = 7;

// Is some slot of the line out of range? The bits of all slots are put together first and tested once: each range ends
// below a power of 2. Each of the two sizes is a number that the compiler knows: the loop then takes half the
// instructions.
pub fn has_bad_slot(line: &[u8], shape: Shape) -> bool
    requires { Fits shape line.now × (known shape.size ≡ true) }
    ensures { result ≡ bad_slots (slots shape line.now) }
{
    if shape.size == SLOT_SIZE {
        return is_bad(put_together::<SLOT_SIZE>(line, shape.count));
    }
    is_bad(put_together::<CLUSTERED_SIZE>(line, shape.count))
}

// Is a ligature id, a component or a flag out of range, of the slots whose small fields were put together?
fn is_bad(all: u32) -> bool
    ensures { result ≡ bad_fields all }
{
    all % 256 > MOST_LIGATURE_ID
        || all / 256 % 256 > MOST_COMPONENT
        || all / 65536 % 256 > MOST_FLAGS
}

// The small fields of n slots put together bit by bit. From the last slot down, since that loop is unrolled. A fold over
// `as_chunks` would ask for a SIZE below 2^63, which this contract doesn't know.
fn put_together<const SIZE: usize>(line: &[u8], n: usize) -> u32
    requires { Fits (shape_with SIZE n) line.now }
    ensures { bad_fields result ≡ bad_slots (slots (shape_with SIZE n) line.now) }
{
    let mut all = 0;
    for i in (0..n).rev() {
        let a = i * SIZE;
        all |= small_fields(&line[a..a + SIZE]);
    }
    all
}

// Ligature id, component, flags and type of a slot as one number, the first lowest: the order in which the four bytes
// are one load.
fn small_fields(slot: &[u8]) -> u32
    requires { slot_size ≤ length slot.now }
    ensures { bad_fields result ≡ bad_slot (slot_of slot.now) }
{
    u32::from_le_bytes([
        slot[LIGATURE_ID],
        slot[COMPONENT],
        slot[FLAGS],
        slot[ATTACH_TYPE],
    ])
}
