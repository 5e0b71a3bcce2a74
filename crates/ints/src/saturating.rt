// Sums of signed numbers of 32 bits, brought to the nearest number of 32 bits; and the same of lifted numbers, which
// are v + 2 ^ 31 and so never below 0.
ghost use Rattle.std.specs.Prelude.{◌≡◌, ◌≤◌, ◌<◌, pos, nat_abs, ◌-ℤ◌};
ghost use Rattle.ints.specs.Limits.{half16, half32, whole16, whole32};
ghost use Rattle.ints.specs.code.Signed.{val};
ghost use Rattle.ints.specs.Saturating.{clamp32, sat_sub, sat_neg, sat_add};
ghost use Rattle.ints.specs.code.Saturating.{unlifted};

use crate::big_endian::Signed;
use crate::limits::{HALF32, WHOLE32};

// The greatest number of 32 bits, held 2 ^ 32 higher.
const MOST_RAISED: u64 = WHOLE32 + HALF32 - 1;

// The lowest number of 32 bits, as bits.
pub const LOWEST: Signed = 2147483648;

// v + 2 ^ 31.
pub fn lift(v: Signed) -> u64
    ensures { (pos result -ℤ pos half32 ≡ val v) × (result < whole32) }
{
    u64::from(v.wrapping_add(LOWEST))
}

// n - 2 ^ 32, or the nearest number of 32 bits.
pub fn lower(n: u64) -> Signed
    ensures { val result ≡ clamp32 (pos n -ℤ pos whole32) }
{
    (n.clamp(HALF32, MOST_RAISED) % WHOLE32) as u32
}

// v of v + 2 ^ 31.
pub fn unlift(n: u64) -> Signed
    requires { n < whole32 }
    ensures { val result ≡ unlifted n }
{
    (n as u32).wrapping_add(LOWEST)
}

// The sum and the difference of a lifted number and v. Two functions of one line: one that took the step as a closure
// would need `F.pre` and `F.post` in its contract, and each caller a closure with a clause.
pub fn lifted_add(x: u64, v: Signed) -> u64
    requires { x < whole32 }
    ensures { (unlifted result ≡ sat_add (unlifted x) (val v)) × (result < whole32) }
{
    lift(sat_add(unlift(x), v))
}

pub fn lifted_sub(x: u64, v: Signed) -> u64
    requires { x < whole32 }
    ensures { (unlifted result ≡ sat_sub (unlifted x) (val v)) × (result < whole32) }
{
    lift(sat_sub(unlift(x), v))
}

pub fn sat_add(a: Signed, b: Signed) -> Signed
    ensures { val result ≡ sat_add (val a) (val b) }
{
    a.cast_signed()
        .saturating_add(b.cast_signed())
        .cast_unsigned()
}

pub fn sat_sub(a: Signed, b: Signed) -> Signed
    ensures { val result ≡ sat_sub (val a) (val b) }
{
    a.cast_signed()
        .saturating_sub(b.cast_signed())
        .cast_unsigned()
}

pub fn sat_neg(a: Signed) -> Signed
    ensures { val result ≡ sat_neg (val a) }
{
    a.cast_signed().saturating_neg().cast_unsigned()
}

// The difference of two numbers of 16 bits, which is exact.
pub fn difference(a: Signed, b: Signed) -> Signed
    requires { (nat_abs (val a) ≤ half16) × (nat_abs (val b) ≤ half16) }
    ensures { (val result ≡ val a -ℤ val b) × (nat_abs (val result) ≤ whole16) }
{
    sat_sub(a, b)
}
