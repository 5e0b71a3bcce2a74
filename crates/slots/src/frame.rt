// What a line is positioned by: its direction and its scale.
use crate::axis::Direction;
use ints::scale::Scale;

#[derive(Clone, Copy)]
pub struct Frame {
    pub direction: Direction,
    pub scale: Scale,
}
