// The slots of a short line, each as a line of text.
ghost use Rattle.std.specs.Prelude.{◌≤◌, length};
ghost use Rattle.slots.specs.Slot.{clustered_size, slot_size};

use ints::big_endian::{read_i16, read_i32};
use recorded::{Kind, Numbers, after_length, has_target};
use slots::layout::{
    ATTACH_TYPE, CHAIN, CLUSTER, CLUSTERED_SIZE, SLOT_SIZE, X_ADVANCE, X_OFFSET, Y_ADVANCE,
    Y_OFFSET,
};
use std::io;
use std::io::Write;

// Slot i, whose bytes these are.
fn show_slot<W: Write>(out: &mut W, i: usize, slot: &[u8]) -> io::Result<()>
    requires { slot_size ≤ length slot.now }
{
    let x = read_i32(slot, X_ADVANCE).cast_signed();
    let y = read_i32(slot, Y_ADVANCE).cast_signed();
    let to_x = read_i32(slot, X_OFFSET).cast_signed();
    let to_y = read_i32(slot, Y_OFFSET).cast_signed();
    let kind = slot[ATTACH_TYPE];
    let chain = read_i16(slot, CHAIN).cast_signed();
    write!(
        out,
        "  slot {i}: advance {x} {y}, offset {to_x} {to_y}, type {kind}, chain {chain}"
    )?;
    if slot.len() == CLUSTERED_SIZE {
        write!(out, ", cluster {}", read_i32(slot, CLUSTER))?;
    }
    writeln!(out)
}

// The slots of a line, where it has at most four.
fn show_slots<W: Write>(out: &mut W, line: &[u8], size: usize) -> io::Result<()>
    requires { (slot_size ≤ size) × (size ≤ clustered_size) }
{
    if 4 * size < line.len() {
        return Ok(());
    }
    for (i, slot) in line.chunks_exact(size).enumerate() {
        show_slot(out, i, slot)?;
    }
    Ok(())
}

// The size of the slots that a call writes: each move has one, and any other call names it. One that names no size is
// refused.
fn written_size(n: Numbers) -> usize
    ensures { (slot_size ≤ result) × (result ≤ clustered_size) }
{
    match (n.kind, n.size) {
        (Kind::ToClusters, _) => CLUSTERED_SIZE,
        (Kind::FromClusters, _) => SLOT_SIZE,
        (_, CLUSTERED_SIZE) => CLUSTERED_SIZE,
        _ => SLOT_SIZE,
    }
}

// The slots that a call left, in the line or in the target of a move.
pub fn show_after<W: Write>(
    out: &mut W,
    n: Numbers,
    line: &[u8],
    subtable: &[u8],
) -> io::Result<()> {
    let bytes = if has_target(n) { subtable } else { line };
    match bytes.get(..after_length(n)) {
        Some(written) => show_slots(out, written, written_size(n)),
        None => Ok(()),
    }
}
