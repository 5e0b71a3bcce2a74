// Rows of anchors by mark class (`AnchorRows`): arrays of bases and of earlier marks, and ligature components.
ghost use Rattle.std.specs.Prelude.{◌≡◌, ◌<◌};
ghost use Rattle.ints.specs.Limits.{whole16};
ghost use Rattle.tables.specs.AnchorRows.{anchor_in, rows_of};
ghost use Rattle.tables.specs.code.Meant.{anchor_point};

use crate::anchor::anchor_of;
use crate::part::{OFFSET_SIZE, child_of};
use crate::point::Point;
use ints::big_endian::read_u16;

// The count of rows, and where the offsets start that follow it.
const ROW_COUNT: usize = 0;

const ANCHOR_OFFSETS: usize = 2;

// How many rows a table with so many columns has: none where it is cut.
pub fn rows_of(t: &[u8], columns: usize) -> Option<usize>
    requires { columns < whole16 }
    ensures { result ≡ rows_of t.now columns }
{
    if t.len() < ANCHOR_OFFSETS {
        return None;
    }
    let rows = read_u16(t, ROW_COUNT) as usize;
    (ANCHOR_OFFSETS + OFFSET_SIZE * (rows * columns) <= t.len()).then_some(rows)
}

// The anchor in a row for a mark class.
pub fn anchor_in(t: &[u8], rows: usize, columns: usize, row: usize, class: usize) -> Option<Point>
    requires { (rows < whole16) × (columns < whole16) }
    ensures { anchor_point result ≡ anchor_in t.now rows columns row class }
{
    if rows <= row || columns <= class {
        return None;
    }
    anchor_of(child_of(t, ANCHOR_OFFSETS, rows * columns, row * columns + class))
}
