// The Anchor table: x and y only; what formats 2 and 3 add is left unread.
ghost use Rattle.std.specs.Prelude.{◌≡◌};
ghost use Rattle.tables.specs.Anchor.{anchor_of};
ghost use Rattle.tables.specs.code.Meant.{anchor_point};

use crate::point::Point;
use ints::big_endian::{read_i16, read_u16};

// The fields.
const ANCHOR_FORMAT: usize = 0;

const X_COORDINATE: usize = 2;

const Y_COORDINATE: usize = 4;

// The bytes of the format.
const FORMAT_SIZE: usize = 2;

// The point of the anchor of a table: none where it is cut or of unknown format.
pub fn anchor_of(t: &[u8]) -> Option<Point>
    ensures { anchor_point result ≡ anchor_of t.now }
{
    if t.len() < FORMAT_SIZE {
        return None;
    }
    // The formats have 6, 8 and 10 bytes.
    let format = read_u16(t, ANCHOR_FORMAT) as usize;
    if format < 1 || 3 < format || t.len() < 4 + 2 * format {
        return None;
    }
    let x = read_i16(t, X_COORDINATE);
    let y = read_i16(t, Y_COORDINATE);
    Some(Point { x, y })
}
