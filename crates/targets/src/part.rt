// Which ligature a glyph belongs to, by its id, and to which component of it.
ghost use Rattle.std.specs.Prelude.{◌≡◌};

use slots::fields::{ByteField, get_byte};
use slots::shape::Shape;

#[derive(Clone, Copy)]
pub struct Part {
    pub id: u8,
    pub component: u8,
}

impl Part {
    ghost use Rattle.slots.specs.code.Shape.{Inside};
    ghost use Rattle.slots.specs.Line.{slot, slots};
    ghost use Rattle.targets.specs.Together.{own_ligature};

    // That of slot i.
    pub fn of(line: &[u8], shape: Shape, i: usize) -> Part
        requires { Inside shape line.now i }
        ensures { (result.id ≡ (slot (slots shape line.now) i).ligature_id)
            × (result.component ≡ (slot (slots shape line.now) i).component) }
    {
        Part {
            id: get_byte(line, shape, i, ByteField::LigatureId),
            component: get_byte(line, shape, i, ByteField::Component),
        }
    }

    // Is a mark of this part a ligature itself?
    pub fn is_own_ligature(self) -> bool
        ensures { result ≡ own_ligature self.id self.component }
    {
        self.id != 0 && self.component == 0
    }
}
