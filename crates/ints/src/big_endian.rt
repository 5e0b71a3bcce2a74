// Big-endian numbers of 16 and 32 bits, read from and written to lent bytes. A signed number is held as its bits in
// two's complement, a `Signed`, as it lies in a line; `val` of it is the integer.
ghost use Rattle.std.specs.Prelude.{◌≡◌, ◌+◌, ◌≤◌, ◌<◌, nat_abs, length};
ghost use Rattle.ints.specs.Limits.{half16, whole16};
ghost use Rattle.ints.specs.BigEndian.{nat_at, with_nat};
ghost use Rattle.ints.specs.Signed.{InBytes, int_at, with_int};
ghost use Rattle.ints.specs.code.Signed.{val};

pub type Signed = u32;

// A byte, as a wide number.
pub fn wide(x: u8) -> u32
    ensures { (result ≡ x) × (result < 256) }
{
    u32::from(x)
}

// The unsigned number in the two bytes at `at`.
pub fn read_u16(s: &[u8], at: usize) -> u32
    requires { at + 2 ≤ length s.now }
    ensures { (result ≡ nat_at 2 s.now at) × (result < whole16) }
{
    u32::from(u16::from_be_bytes([s[at], s[at + 1]]))
}

// The signed number in the two bytes at `at`.
pub fn read_i16(s: &[u8], at: usize) -> Signed
    requires { at + 2 ≤ length s.now }
    ensures { (val result ≡ int_at 2 s.now at) × (nat_abs (val result) ≤ half16) }
{
    i32::from(i16::from_be_bytes([s[at], s[at + 1]])).cast_unsigned()
}

// The signed number in the four bytes at `at`.
pub fn read_i32(s: &[u8], at: usize) -> Signed
    requires { at + 4 ≤ length s.now }
    ensures { val result ≡ int_at 4 s.now at }
{
    u32::from_be_bytes([s[at], s[at + 1], s[at + 2], s[at + 3]])
}

// Writes n to the two bytes at `at`: `copy_from_slice` of two bytes is three instructions longer than the two stores.
pub fn write_u16(s: &mut [u8], at: usize, n: u32)
    requires { (at + 2 ≤ length s.old) × (n < whole16) }
    ensures { s.new ≡ with_nat 2 s.old at n }
{
    let [high, low] = (n as u16).to_be_bytes();
    s[at] = high;
    s[at + 1] = low;
}

// Writes v, a number of 16 bits, to the two bytes at `at`.
pub fn write_i16(s: &mut [u8], at: usize, v: Signed)
    requires { (at + 2 ≤ length s.old) × InBytes 2 (val v) }
    ensures { s.new ≡ with_int 2 s.old at (val v) }
{
    write_u16(s, at, v % 65536)
}

// Writes v to the four bytes at `at`.
pub fn write_i32(s: &mut [u8], at: usize, v: Signed)
    requires { at + 4 ≤ length s.old }
    ensures { s.new ≡ with_int 4 s.old at (val v) }
{
    s[at..at + 4].copy_from_slice(&v.to_be_bytes());
}
