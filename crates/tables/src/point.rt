// A place in a glyph, in the font's units: two numbers of 16 bits.
ghost use Rattle.std.specs.Prelude.{◌≤◌, nat_abs};
ghost use Rattle.ints.specs.code.Signed.{val};
ghost use Rattle.tables.specs.code.Near.{farthest16};

use ints::big_endian::Signed;
use slots::axis::Axis;

#[derive(Clone, Copy)]
pub struct Point {
    pub x: Signed,
    pub y: Signed,
    pub ghost x_near: { nat_abs (val x) ≤ farthest16 },
    pub ghost y_near: { nat_abs (val y) ≤ farthest16 },
}

impl Point {
    ghost use Rattle.std.specs.Prelude.{◌≡◌};
    ghost use Rattle.tables.specs.Anchor.{coordinate};
    ghost use Rattle.tables.specs.code.Meant.{point_of};

    // Its coordinate on an axis.
    pub fn on(self, a: Axis) -> Signed
        ensures { (val result ≡ coordinate a (point_of self)) × (nat_abs (val result) ≤ farthest16) }
    {
        match a {
            Axis::X => self.x,
            Axis::Y => self.y,
        }
    }
}
