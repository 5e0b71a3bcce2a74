// Applying a value record to a slot (`apply_value`, `apply_value_fields`).
ghost use Rattle.std.specs.Prelude.{◌≡◌, ◌≤◌, ◌<◌, length};
ghost use Rattle.ints.specs.code.Signed.{val};
ghost use Rattle.slots.specs.code.Shape.{Inside};
ghost use Rattle.slots.specs.Line.{slots, update};
ghost use Rattle.values.specs.code.Codes.{effect_by};
ghost use Rattle.values.specs.Format.{bit_of, record_length};
ghost use Rattle.values.specs.code.Format.{WholeOrEmpty};
ghost use Rattle.values.specs.FieldEffect.{with_effect};
ghost use Rattle.values.specs.Value.{field_works, valued, with_field, worked};

use crate::field_effect::{Effect, effect_of};
use crate::format::{field_place, next_field};
use ints::big_endian::{Signed, read_i16};
use ints::saturating::{sat_add, sat_sub};
use slots::frame::Frame;
use slots::shape::Shape;

// The record r applied to slot i, field by field in bit order: whether it worked. An empty one, cut or of a format
// without fields, changes nothing and hasn't worked.
pub fn apply_value(
    line: &mut [u8],
    shape: Shape,
    i: usize,
    r: &[u8],
    format: u32,
    frame: Frame,
) -> bool
    requires { Inside shape line.old i × (format < 256) × WholeOrEmpty r.now format }
    ensures { (slots shape line.new ≡ update i (valued frame.scale.s frame.scale.u frame.direction r.now format)
        (slots shape line.old)) × (result ≡ worked frame.direction r.now format) }
{
    if r.len() == 0 {
        return false;
    }
    let mut works = false;
    // A `for` over the eight bits takes a quarter more instructions where the record has one field.
    let mut field: u32 = 0;
    while format >> field != 0 {
        field = next_field(format, field);
        works |= apply_field(line, shape, i, r, format, field, frame);
        field += 1;
    }
    works
}

// One field that a whole record has, applied to slot i: whether it worked, which looks at the value before scaling.
fn apply_field(
    line: &mut [u8],
    shape: Shape,
    i: usize,
    r: &[u8],
    format: u32,
    field: u32,
    frame: Frame,
) -> bool
    requires { Inside shape line.old i × (format < 256) × (field < 8) × (bit_of format field ≡ 1)
        × (record_length format ≤ length r.now) }
    ensures { (slots shape line.new ≡ update i (with_field frame.scale.s frame.scale.u frame.direction r.now format field)
        (slots shape line.old)) × (result ≡ field_works frame.direction r.now format field) }
{
    let effect = effect_of(frame.direction, field as usize);
    if !effect.applies() {
        return false;
    }
    let v = read_i16(r, field_place(format, field));
    let z = frame.scale.of(v);
    apply_effect(line, shape, i, effect, z);
    v != 0
}

// A scaled value added or subtracted as the effect says.
fn apply_effect(line: &mut [u8], shape: Shape, i: usize, effect: Effect, v: Signed)
    requires { Inside shape line.old i }
    ensures { slots shape line.new ≡ update i (with_effect (effect_by effect) (val v)) (slots shape line.old) }
{
    match effect {
        Effect::Skip => {}
        Effect::Add(m, a) => {
            let old = slots::fields::get(line, shape, i, m, a);
            slots::fields::set(line, shape, i, m, a, sat_add(old, v));
        }
        Effect::Subtract(m, a) => {
            let old = slots::fields::get(line, shape, i, m, a);
            slots::fields::set(line, shape, i, m, a, sat_sub(old, v));
        }
    }
}
