// The scale of a line. Its rule stands here and in specs/Scale.antt alone: callers go by the name `scaled` and its
// bound.
ghost use Rattle.std.specs.Prelude.{true, false, ◌≡◌, ◌*◌, ◌≤◌, nat_abs, MatchOption};
ghost use Rattle.ints.specs.code.Signed.{val};
ghost use Rattle.ints.specs.Limits.{whole16};
ghost use Rattle.ints.specs.code.Scale.{InScale, most_scaled};
ghost use Rattle.ints.specs.Scale.{bad_scale, rounded, scaled};

use crate::big_endian::Signed;

// s is from 1 to 32,768, u from 16 to 16,384.
pub const MOST_S: u32 = 32768;

pub const LEAST_UPEM: u32 = 16;

pub const MOST_UPEM: u32 = 16384;

// The scale s / u, both in their ranges.
#[derive(Clone, Copy)]
pub struct Scale {
    pub s: u32,
    pub u: u32,
    pub ghost in_scale: { InScale s u },
}

impl Scale {
    // s / u, if both are in their ranges.
    pub fn new(s: u32, u: u32) -> Option<Scale>
        ensures { MatchOption result (bad_scale s u ≡ true)
            (λ x. (bad_scale s u ≡ false) × (x.s ≡ s) × (x.u ≡ u)) }
    {
        if s < 1 || MOST_S < s || u < LEAST_UPEM || MOST_UPEM < u {
            return None;
        }
        Some(Scale { s, u })
    }

    // v at this scale, for a v that is a number of 16 bits or the difference of two.
    pub fn of(self, v: Signed) -> Signed
        requires { nat_abs (val v) ≤ whole16 }
        ensures { (val result ≡ scaled (val v) self.s self.u) × (nat_abs (val result) ≤ most_scaled) }
    {
        let v = v.cast_signed();
        let size = round(v.unsigned_abs(), self.s, self.u);
        if v < 0 { size.wrapping_neg() } else { size }
    }
}

// n s / u, rounded: the definition's quotient with both sides halved, so that 32 bits hold what is divided. Cutting
// half of an odd u changes no quotient.
fn round(n: u32, s: u32, u: u32) -> u32
    requires { (n ≤ whole16) × InScale s u }
    ensures { (result ≡ rounded (n * s) u) × (result ≤ most_scaled) }
{
    let half = u / 2;
    (n * s + half) / u
}
