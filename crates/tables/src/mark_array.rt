// The MarkArray table (`Marks`): class and anchor of each mark.
ghost use Rattle.std.specs.Prelude.{◌≡◌, drop};
ghost use Rattle.tables.specs.Anchor.{anchor_of};
ghost use Rattle.tables.specs.MarkArray.{mark_of, with_class};
ghost use Rattle.tables.specs.code.Meant.{mark_anchor};

use crate::anchor::anchor_of;
use crate::point::Point;
use ints::big_endian::read_u16;

// The count, where the records start that follow it, and the bytes of a record.
const MARK_COUNT: usize = 0;

const MARK_RECORDS: usize = 2;

const MARK_RECORD_SIZE: usize = 4;

// Where in a record the offset of its anchor is; its class comes first.
const MARK_ANCHOR_OFFSET: usize = 2;

// A mark of an array.
#[derive(Clone, Copy)]
pub struct Mark {
    pub class: u32,
    pub anchor: Point,
}

// Mark k of the array: none where its record is past the count or cut, or its anchor is none.
pub fn mark_of(t: &[u8], k: usize) -> Option<Mark>
    ensures { mark_anchor result ≡ mark_of t.now k }
{
    if t.len() < MARK_RECORDS || (read_u16(t, MARK_COUNT) as usize) <= k {
        return None;
    }
    let at = MARK_RECORDS + MARK_RECORD_SIZE * k;
    if t.len() < at + MARK_RECORD_SIZE {
        return None;
    }
    mark_with(
        t,
        read_u16(t, at),
        read_u16(t, at + MARK_ANCHOR_OFFSET) as usize,
    )
}

// The anchor at an offset of the array, with the mark's class. Unlike the offsets of base arrays this one isn't
// nullable: 0 is read as given, and leads to the array's own start.
fn mark_with(t: &[u8], class: u32, off: usize) -> Option<Mark>
    ensures { mark_anchor result ≡ with_class class (anchor_of (drop off t.now)) }
{
    let anchor = anchor_of(t.get(off..)?)?;
    Some(Mark { class, anchor })
}
