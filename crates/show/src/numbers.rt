// A signed number as text.
ghost use Rattle.std.specs.Prelude.{◌≡◌, ◌≤◌, ◌<◌, length, take};
ghost use Rattle.ints.specs.code.Signed.{val};
ghost use Rattle.show.specs.Digits.{last_digits, IsDigitCount, hex_digit_ascii as Digits·glyph};
ghost use Rattle.show.specs.Text.{Spelled};

use ints::big_endian::Signed;

// A sign and ten digits: the longest text of a number of 32 bits.
pub const MOST_TEXT: usize = 11;

// How many decimal digits n takes.
fn places(n: u64) -> usize
    ensures { IsDigitCount 10 1 n result }
{
    let mut k = 1;
    let mut rest = n / 10;
    while rest > 0 {
        rest /= 10;
        k += 1;
    }
    k
}

// The ASCII code of a digit.
fn glyph(d: u64) -> u8
    requires { d < 10 }
    ensures { result ≡ Digits·glyph d }
{
    b'0' + d as u8
}

// Puts the last k digits of n at the start of out.
fn put_digits(n: u64, k: usize, out: &mut [u8])
    requires { k ≤ length out.old }
    ensures { take k out.new ≡ last_digits 10 k n }
{
    let mut rest = n;
    for i in (0..k).rev() {
        out[i] = glyph(rest % 10);
        rest /= 10;
    }
}

// Puts n's digits at the start of out, and answers how many there are.
fn spell_natural(n: u64, out: &mut [u8]) -> usize
    requires { (n < 10000000000) × (10 ≤ length out.old) }
    ensures { (result ≤ 10) × (IsDigitCount 10 1 n result) × (take result out.new ≡ last_digits 10 result n) }
{
    let k = places(n);
    put_digits(n, k, out);
    k
}

// Puts the text of a number at the start of out, and answers how many bytes it has.
pub fn spell(v: Signed, out: &mut [u8]) -> usize
    requires { 11 ≤ length out.old }
    ensures { (result ≤ 11) × Spelled (val v) (take result out.new) }
{
    if v < 2147483648 {
        return spell_natural(v as u64, out);
    }
    out[0] = b'-';
    spell_natural(4294967296 - v as u64, &mut out[1..]) + 1
}
