// Chains as numbers of 16 bits, and a slot hung by one.
ghost use Rattle.std.specs.Prelude.{◌≡◌, ◌≤◌, nat_abs, neg_ℤ};
ghost use Rattle.ints.specs.Signed.{InBytes};
ghost use Rattle.ints.specs.code.Signed.{val};
ghost use Rattle.slots.specs.code.Shape.{Inside};
ghost use Rattle.slots.specs.Line.{slots, update};
ghost use Rattle.slots.specs.Fields.{attached, with_measure};
ghost use Rattle.slots.specs.declared.fields.Measure.TheVariants.{Offset};
ghost use Rattle.slots.specs.Parent.{chain_limit};
ghost use Rattle.chains.specs.Chains.{chain_to, reach};

use ints::big_endian::Signed;
use ints::saturating::sat_neg;
use slots::axis::Axis;
use slots::fields::{ByteField, Measure};
use slots::layout::CHAIN_LIMIT;
use slots::shape::Shape;

// -32,768, as a number of 32 bits.
const LEAST_CHAIN: Signed = 4294934528;

// The chain by which a child hangs on a parent: 0, unattached, where the distance doesn't fit 16 bits, as in HarfBuzz.
// A line of 1,024 slots never comes there; the contract holds for any line.
pub fn chain_to(child: usize, parent: usize) -> Signed
    ensures { (val result ≡ chain_to child parent) × InBytes 2 (val result) }
{
    if child <= parent {
        let n = parent - child;
        if n < CHAIN_LIMIT {
            return n as u32;
        }
        return 0;
    }
    let n = child - parent;
    if n <= CHAIN_LIMIT {
        return (n as u32).wrapping_neg();
    }
    0
}

// A chain negated: 0 where that doesn't fit 16 bits.
pub fn chain_back(chain: Signed) -> Signed
    requires { nat_abs (val chain) ≤ chain_limit }
    ensures { (val result ≡ reach (neg_ℤ (val chain))) × InBytes 2 (val result) }
{
    if chain == LEAST_CHAIN {
        return 0;
    }
    sat_neg(chain)
}

// Slot i hung by a type and a chain, with an offset on an axis.
pub fn attach_slot(
    line: &mut [u8],
    shape: Shape,
    i: usize,
    kind: u8,
    chain: Signed,
    a: Axis,
    z: Signed,
)
    requires { Inside shape line.old i × InBytes 2 (val chain) }
    ensures { slots shape line.new
        ≡ update i (λ s. attached kind (val chain) (with_measure Offset a (val z) s))
        (slots shape line.old) }
{
    slots::fields::set(line, shape, i, Measure::Offset, a, z);
    slots::fields::set_chain(line, shape, i, chain);
    slots::fields::set_byte(line, shape, i, ByteField::AttachType, kind);
}
