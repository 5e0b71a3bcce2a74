// The anchors by which a mark attaches: its own, from the mark array, and the base's, from a row for its class.
ghost use Rattle.std.specs.Prelude.{◌≡◌};
ghost use Rattle.slots.specs.code.Shape.{Inside};
ghost use Rattle.slots.specs.Line.{slot, slots};
ghost use Rattle.marks.specs.Anchors.{anchors_for, row_for, row_table};
ghost use Rattle.marks.specs.code.Meant.{anchors_of};

use ints::big_endian::read_u16;
use slots::shape::Shape;
use tables::anchor_rows::{anchor_in, rows_of};
use tables::mark_array::mark_of;
use tables::part::child_of;
use tables::point::Point;
use targets::component::component_index;
use targets::mark_pos::{MarkPos, Target};

// The fields of a LigatureArray.
const LIGATURE_COUNT: usize = 0;

const LIGATURE_ATTACH_OFFSETS: usize = 2;

// The anchors that were found.
#[derive(Clone, Copy)]
pub struct Anchors {
    pub base: Point,
    pub mark: Point,
}

// Why they weren't.
#[derive(Clone, Copy)]
pub enum NoAnchors {
    // One of them is missing, or a table on the way to it.
    Missing,
    // The ligature has no component.
    Empty,
}

// The anchors by which mark m, in slot idx, attaches to base k, in slot b.
#[tactic(auto, using(tables::proofs::AnchorRowsLaws::rows_few), unfolding(crate::specs::Anchors::anchors_for))]
pub fn find_anchors(
    line: &[u8],
    shape: Shape,
    t: MarkPos,
    target: Target,
    k: usize,
    m: usize,
    idx: usize,
    b: usize,
) -> Result<Anchors, NoAnchors>
    requires { Inside shape line.now idx × Inside shape line.now b }
    ensures { anchors_of result ≡ anchors_for target t.entry.bytes.now k m (slot (slots shape line.now) idx)
        (slot (slots shape line.now) b) }
{
    let rows = row_table(t, target, k);
    let columns = t.mark_class_count();
    let n = rows_of(rows, columns).ok_or(NoAnchors::Missing)?;
    let row = row_for(line, shape, target, k, n, idx, b).ok_or(NoAnchors::Empty)?;
    let mark = mark_of(t.mark_array(), m).ok_or(NoAnchors::Missing)?;
    let base = anchor_in(rows, n, columns, row, mark.class as usize).ok_or(NoAnchors::Missing)?;
    Ok(Anchors {
        base,
        mark: mark.anchor,
    })
}

// The table with the anchor rows: the base array, or the components of ligature k; empty where there is none.
fn row_table<'a>(t: MarkPos<'a>, target: Target, k: usize) -> &'a [u8]
    ensures { result.now ≡ row_table target t.entry.bytes.now k }
{
    let array = t.base_array();
    match target {
        Target::Base => array,
        Target::Ligature => {
            if array.len() < LIGATURE_ATTACH_OFFSETS {
                return &array[..0];
            }
            let count = read_u16(array, LIGATURE_COUNT) as usize;
            child_of(array, LIGATURE_ATTACH_OFFSETS, count, k)
        }
    }
}

// The row of base k, or of the mark's component in a ligature of n, if it has any.
fn row_for(
    line: &[u8],
    shape: Shape,
    target: Target,
    k: usize,
    n: usize,
    idx: usize,
    b: usize,
) -> Option<usize>
    requires { Inside shape line.now idx × Inside shape line.now b }
    ensures { result ≡ row_for target k n (slot (slots shape line.now) idx) (slot (slots shape line.now) b) }
{
    match target {
        Target::Base => Some(k),
        Target::Ligature if n == 0 => None,
        Target::Ligature => Some(component_index(line, shape, n, idx, b)),
    }
}
