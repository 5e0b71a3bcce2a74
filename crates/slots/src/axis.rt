// The two axes and the four directions.
ghost use Rattle.std.specs.Prelude.{◌≡◌};
ghost use Rattle.slots.specs.Axis.{cross, direction_of, forward, main, Numbered, other};

#[derive(Clone, Copy, PartialEq, Eq)]
pub enum Axis {
    X,
    Y,
}

impl Axis {
    pub fn other(self) -> Axis
        ensures { result ≡ other self }
    {
        match self {
            Axis::X => Axis::Y,
            Axis::Y => Axis::X,
        }
    }
}

#[derive(Clone, Copy, PartialEq, Eq)]
pub enum Direction {
    LeftToRight,
    RightToLeft,
    TopToBottom,
    BottomToTop,
}

// No direction has the number.
#[derive(Clone, Copy, PartialEq, Eq)]
pub struct UnknownDirection;

impl TryFrom<u32> for Direction {
    type Error = UnknownDirection;

    ghost try_from_gives = { Numbered };

    fn try_from(n: u32) -> Result<Self, UnknownDirection> {
        match n {
            0 => Ok(Direction::LeftToRight),
            1 => Ok(Direction::RightToLeft),
            2 => Ok(Direction::TopToBottom),
            3 => Ok(Direction::BottomToTop),
            _ => Err(UnknownDirection),
        }
    }
}

// The direction of a number up to 3, and the last of any above.
pub fn direction_of(n: u32) -> Direction
    ensures { result ≡ direction_of n }
{
    Direction::try_from(n).unwrap_or(Direction::BottomToTop)
}

impl Direction {
    pub fn is_forward(self) -> bool
        ensures { result ≡ forward self }
    {
        matches!(self, Direction::LeftToRight | Direction::TopToBottom)
    }

    // The axis along the line.
    pub fn main_axis(self) -> Axis
        ensures { result ≡ main self }
    {
        match self {
            Direction::LeftToRight | Direction::RightToLeft => Axis::X,
            Direction::TopToBottom | Direction::BottomToTop => Axis::Y,
        }
    }

    // The axis across the line.
    pub fn cross_axis(self) -> Axis
        ensures { result ≡ cross self }
    {
        self.main_axis().other()
    }
}
