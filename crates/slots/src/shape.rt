// How a line is cut into slots. The caller of the library names a slot's size; all else is told a shape, which goes
// with the line.
ghost use Rattle.std.specs.Prelude.{◌≡◌, ◌/◌, ◌<◌, if◌then◌else◌};
ghost use Rattle.slots.specs.code.Shape.{cut_of, part_shape};
ghost use Rattle.slots.specs.Checks.{bad_length};

use crate::layout::{CLUSTERED_SIZE, SLOT_SIZE};

// The longest line.
pub const MOST_SLOTS: usize = 1024;

// How many bytes a slot has, and how many slots there are. It goes beside the line and not with it in a struct: that
// would hold a `&mut`, and each contract would have to say that it is still the caller's.
#[derive(Clone, Copy)]
pub struct Shape {
    pub size: usize,
    pub count: usize,
}

// How many slots of a size a line has, if it is a line of such slots. Each of the two sizes is a number that the compiler
// knows.
pub fn cut_of(line: &[u8], size: usize) -> Option<usize>
    ensures { result ≡ cut_of size line.now }
{
    match size {
        SLOT_SIZE => cut_length(line.len(), SLOT_SIZE),
        CLUSTERED_SIZE => cut_length(line.len(), CLUSTERED_SIZE),
        _ => None,
    }
}

// The same of a line of so many bytes, and of a size that slots may have.
fn cut_length(len: usize, size: usize) -> Option<usize>
    requires { (0 < size) × (size < 256) }
    ensures { result ≡ (if bad_length size len then None else Some (len / size)) }
{
    if MOST_SLOTS * size < len || len % size != 0 {
        None
    } else {
        Some(len / size)
    }
}

// The shape of a part of n slots.
pub fn part_shape(shape: Shape, n: usize) -> Shape
    ensures { result ≡ part_shape shape n }
{
    Shape {
        size: shape.size,
        count: n,
    }
}
