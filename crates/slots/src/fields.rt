// A slot's fields, read from and written to a line by the slot's number.
ghost use Rattle.std.specs.Prelude.{◌≡◌, ◌+◌, ◌-◌, ◌≤◌, ◌<◌, nat_abs, length};
ghost use Rattle.std.proofs.Math.Seq.{slice};
ghost use Rattle.std.specs.Prelude.{◌*◌};
ghost use Rattle.ints.specs.BigEndian.{nat_at};
ghost use Rattle.ints.specs.Limits.{half16, whole16, whole64};
ghost use Rattle.ints.specs.Signed.{InBytes, signed};
ghost use Rattle.ints.specs.code.Signed.{val};
ghost use Rattle.slots.specs.Slot.{chain_at, slot_of, slot_size};
ghost use Rattle.slots.specs.code.Shape.{Fits, Inside, part_shape};
ghost use Rattle.slots.specs.Line.{slot, slots, update};
ghost use Rattle.slots.specs.code.Fields.{byte_at, measure_at, swapped};
ghost use Rattle.slots.specs.Fields.{byte_of, cursive_bit, flag_of, measure, with_byte, with_chain, with_glyph};
ghost use Rattle.slots.specs.Fields.{with_measure};
ghost use Rattle.slots.specs.Parent.{is_attached};

use crate::axis::Axis;
use crate::layout::{
    ATTACH_TYPE, CHAIN, CHAIN_LOW, COMPONENT, FLAGS, GLYPH, LIGATURE_ID, X_ADVANCE, X_OFFSET,
    Y_ADVANCE, Y_OFFSET,
};
use crate::shape::Shape;
use ints::big_endian::{Signed, read_i16, read_i32, read_u16, write_i16, write_i32, write_u16};
use std::ops::Range;

// The fields of one byte.
#[derive(Clone, Copy)]
pub enum ByteField {
    LigatureId,
    Component,
    Flags,
    AttachType,
}

#[derive(Clone, Copy)]
pub enum Flag {
    Seen,
    Mark,
    Multiplied,
}

// The fields of a glyph's place, on either axis.
#[derive(Clone, Copy)]
pub enum Measure {
    Advance,
    Offset,
}

// The slots from i up to j, j not included, as a line of their own.
pub fn slots_between<'a>(line: &'a [u8], shape: Shape, i: usize, j: usize) -> &'a [u8]
    requires { Fits shape line.now × (i ≤ j) × (j ≤ shape.count) }
    ensures { (slots (part_shape shape (j - i)) result.now ≡ slice i j (slots shape line.now))
        × Fits (part_shape shape (j - i)) result.now }
{
    &line[i * shape.size..j * shape.size]
}

pub fn glyph(line: &[u8], shape: Shape, i: usize) -> u32
    requires { Inside shape line.now i }
    ensures { (result ≡ (slot (slots shape line.now) i).glyph) × (result < whole16) }
{
    read_u16(slot_at(line, shape, i), GLYPH)
}

pub fn set_glyph(line: &mut [u8], shape: Shape, i: usize, n: u32)
    requires { Inside shape line.old i × (n < whole16) }
    ensures { slots shape line.new ≡ update i (with_glyph n) (slots shape line.old) }
{
    write_u16(&mut line[place_of(shape, i)], GLYPH, n);
}

pub fn get_byte(line: &[u8], shape: Shape, i: usize, f: ByteField) -> u8
    requires { Inside shape line.now i }
    ensures { result ≡ byte_of f (slot (slots shape line.now) i) }
{
    slot_at(line, shape, i)[byte_at(f)]
}

pub fn set_byte(line: &mut [u8], shape: Shape, i: usize, f: ByteField, n: u8)
    requires { Inside shape line.old i }
    ensures { slots shape line.new ≡ update i (with_byte f n) (slots shape line.old) }
{
    put_byte(&mut line[place_of(shape, i)], f, n);
}

// Is the flag of slot i set?
pub fn has_flag(line: &[u8], shape: Shape, i: usize, f: Flag) -> bool
    requires { Inside shape line.now i }
    ensures { result ≡ flag_of f (slot (slots shape line.now) i) }
{
    let flags = get_byte(line, shape, i, ByteField::Flags);
    match f {
        Flag::Seen => flags & 1 != 0,
        Flag::Mark => flags & 2 != 0,
        Flag::Multiplied => flags & 4 != 0,
    }
}

// Has the type the cursive bit?
pub fn cursive_bit(kind: u8) -> bool
    ensures { result ≡ cursive_bit kind }
{
    kind & 2 != 0
}

pub fn chain(line: &[u8], shape: Shape, i: usize) -> Signed
    requires { Inside shape line.now i }
    ensures { (val result ≡ (slot (slots shape line.now) i).chain) × (nat_abs (val result) ≤ half16) }
{
    read_i16(slot_at(line, shape, i), CHAIN)
}

// Is slot i attached?
pub fn is_attached(line: &[u8], shape: Shape, i: usize) -> bool
    requires { Inside shape line.now i }
    ensures { result ≡ is_attached (slots shape line.now) i }
{
    chain_bytes(line, shape, i) != 0
}

// The two bytes of slot i's chain as one number, the first lowest: for a test of 0 they need not be swapped.
pub fn chain_bytes(line: &[u8], shape: Shape, i: usize) -> u32
    requires { Inside shape line.now i }
    ensures { (signed 2 (swapped result) ≡ (slot (slots shape line.now) i).chain) × (result < whole16) }
{
    low_first(slot_at(line, shape, i))
}

pub fn set_chain(line: &mut [u8], shape: Shape, i: usize, v: Signed)
    requires { Inside shape line.old i × InBytes 2 (val v) }
    ensures { slots shape line.new ≡ update i (with_chain (val v)) (slots shape line.old) }
{
    write_i16(&mut line[place_of(shape, i)], CHAIN, v);
}

// The advance or the offset of slot i on an axis.
pub fn get(line: &[u8], shape: Shape, i: usize, m: Measure, a: Axis) -> Signed
    requires { Inside shape line.now i }
    ensures { val result ≡ measure m a (slot (slots shape line.now) i) }
{
    read_i32(slot_at(line, shape, i), measure_at(m, a))
}

pub fn set(line: &mut [u8], shape: Shape, i: usize, m: Measure, a: Axis, v: Signed)
    requires { Inside shape line.old i }
    ensures { slots shape line.new ≡ update i (with_measure m a (val v))
        (slots shape line.old) }
{
    write_i32(&mut line[place_of(shape, i)], measure_at(m, a), v);
}

// The bytes of slot i.
fn slot_at<'a>(line: &'a [u8], shape: Shape, i: usize) -> &'a [u8]
    requires { Inside shape line.now i }
    ensures { (slot_of result.now ≡ slot (slots shape line.now) i) × (slot_size ≤ length result.now) }
{
    &line[place_of(shape, i)]
}

// Where in the line the bytes of slot i are.
// A function that lent these bytes as a `&mut` got no proof: `Lends` is proved of a field or an element, not of a part.
fn place_of(shape: Shape, i: usize) -> Range<usize>
    requires { i * shape.size + shape.size < whole64 }
    ensures { (result.start ≡ i * shape.size) × (result.end ≡ i * shape.size + shape.size) }
{
    i * shape.size..i * shape.size + shape.size
}

fn put_byte(slot: &mut [u8], f: ByteField, n: u8)
    requires { slot_size ≤ length slot.old }
    ensures { slot_of slot.new ≡ with_byte f n (slot_of slot.old) }
{
    slot[byte_at(f)] = n;
}

// The two bytes of a slot's chain as one number, the first lowest: the order in which they are one load.
fn low_first(slot: &[u8]) -> u32
    requires { slot_size ≤ length slot.now }
    ensures { (swapped result ≡ nat_at 2 slot.now chain_at) × (result < whole16) }
{
    u32::from(u16::from_le_bytes([slot[CHAIN], slot[CHAIN_LOW]]))
}

// Where in a slot a field of one byte is.
fn byte_at(f: ByteField) -> usize
    ensures { (result ≡ byte_at f) × (result < slot_size) }
{
    match f {
        ByteField::LigatureId => LIGATURE_ID,
        ByteField::Component => COMPONENT,
        ByteField::Flags => FLAGS,
        ByteField::AttachType => ATTACH_TYPE,
    }
}

// Where in a slot an advance or an offset is.
fn measure_at(m: Measure, a: Axis) -> usize
    ensures { (result ≡ measure_at m a) × (result + 4 ≤ slot_size) }
{
    match (m, a) {
        (Measure::Advance, Axis::X) => X_ADVANCE,
        (Measure::Advance, Axis::Y) => Y_ADVANCE,
        (Measure::Offset, Axis::X) => X_OFFSET,
        (Measure::Offset, Axis::Y) => Y_OFFSET,
    }
}
