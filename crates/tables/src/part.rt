// Tables at offsets, handed on as parts.
ghost use Rattle.std.specs.Prelude.{◌≡◌, ◌<◌};
ghost use Rattle.ints.specs.Limits.{whole16};
ghost use Rattle.tables.specs.Part.{child_of, table_at};
ghost use Rattle.tables.specs.code.Meant.{offsets_end};

use ints::big_endian::read_u16;

// The bytes of an Offset16.
pub const OFFSET_SIZE: usize = 2;

// The table of offset k of the array of `count` offsets at `at`, empty where there is none.
pub fn child_of<'a>(s: &'a [u8], at: usize, count: usize, k: usize) -> &'a [u8]
    requires { (at < whole16) × (count < offsets_end) }
    ensures { result.now ≡ child_of s.now at count k }
{
    if count <= k || s.len() < at + OFFSET_SIZE * (k + 1) {
        &[]
    } else {
        table_at(s, read_u16(s, at + OFFSET_SIZE * k) as usize)
    }
}

// The table at an offset: the part from there to the end, empty where there is none. Offset 0 is none.
pub fn table_at<'a>(s: &'a [u8], off: usize) -> &'a [u8]
    ensures { result.now ≡ table_at s.now off }
{
    // `s.get(off..).unwrap_or(&[])` after the test of 0 takes two instructions more in `child_of`.
    if off == 0 || s.len() < off {
        &[]
    } else {
        &s[off..]
    }
}
