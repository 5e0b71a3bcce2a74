// A slot as a line of text.
ghost use Rattle.std.specs.Prelude.{◌+◌, ◌≤◌, ◌<◌, length, take};
ghost use Rattle.ints.specs.code.Signed.{val};
ghost use Rattle.ints.specs.Limits.{half32};
ghost use Rattle.slots.specs.code.Shape.{Inside};
ghost use Rattle.slots.specs.Line.{slot, slots};
ghost use Rattle.show.specs.Text.{Grown, Row};

use crate::numbers::spell;
use ints::big_endian::Signed;
use slots::axis::Axis;
use slots::fields::{Measure, get};
use slots::shape::Shape;

// Five numbers, each with a byte after it.
pub const MOST_ROW: usize = 60;

// Puts the text of a number, and a byte after it, into out at `at`, and answers where they end.
fn put(v: Signed, after: u8, out: &mut [u8], at: usize) -> usize
    requires { at + 12 ≤ length out.old }
    ensures { (result ≤ at + 12) × Grown (val v) after (take at out.old) (take result out.new) }
{
    let k = spell(v, &mut out[at..]);
    out[at + k] = after;
    at + k + 1
}

// Puts slot i's line of text at the start of out, and answers how many bytes it has.
pub fn row(line: &[u8], shape: Shape, i: usize, out: &mut [u8]) -> usize
    requires { Inside shape line.now i × (i < half32) × (60 ≤ length out.old) }
    ensures { (result ≤ 60) × Row i (slot (slots shape line.now) i) (take result out.new) }
{
    let x = get(line, shape, i, Measure::Advance, Axis::X);
    let y = get(line, shape, i, Measure::Advance, Axis::Y);
    let to_x = get(line, shape, i, Measure::Offset, Axis::X);
    let to_y = get(line, shape, i, Measure::Offset, Axis::Y);
    let a = put(i as u32, b' ', out, 0);
    let b = put(x, b' ', out, a);
    let c = put(y, b' ', out, b);
    let d = put(to_x, b' ', out, c);
    put(to_y, b'\n', out, d)
}
