// Reversal of an old chain (`reverse_cursive_minor_offset`), to any depth; any line, loops too.
ghost use Rattle.std.specs.Prelude.{◌≡◌};
ghost use Rattle.slots.specs.code.Shape.{Inside};
ghost use Rattle.slots.specs.Line.{slots};
ghost use Rattle.chains.specs.Reversal.{reversed};

use crate::chains::{attach_slot, chain_back};
use ints::saturating::sat_neg;
use slots::axis::Axis;
use slots::fields::{ByteField, Measure};
use slots::parent::Parent;
use slots::shape::Shape;

// The chain from slot i is reversed, so that it ends at the new parent p: each chain is cleared on the way in, and each
// parent hung onto its child on the way out. A call that goes on has cleared a chain: the number of attached slots
// falls.
pub fn reverse(line: &mut [u8], shape: Shape, a: Axis, i: usize, p: usize)
    requires { Inside shape line.old i }
    ensures { slots shape line.new
        ≡ reversed a (slots shape line.old) i p }
{
    let kind = slots::fields::get_byte(line, shape, i, ByteField::AttachType);
    if !slots::fields::cursive_bit(kind) {
        return;
    }
    match slots::parent::parent_of(line, shape, i) {
        Parent::None => {}
        Parent::Outside => slots::fields::set_chain(line, shape, i, 0),
        Parent::InLine(j) => {
            let chain = slots::fields::chain(line, shape, i);
            slots::fields::set_chain(line, shape, i, 0);
            if j == p {
                return;
            }
            reverse(line, shape, a, j, p);
            // This glyph is read after the recursion, which a looping chain can rewrite.
            let offset = slots::fields::get(line, shape, i, Measure::Offset, a);
            let turned = sat_neg(offset);
            let back = chain_back(chain);
            attach_slot(line, shape, j, kind, back, a, turned);
        }
    }
}
