// Writing to a program's output, or to any other writer. Where a writer's bytes are known, the contracts say which are
// added to them.
ghost use Rattle.std.specs.Prelude.{◌<◌, OnOk, decimal};
ghost use Rattle.std.specs.Io.KnownBytes.{Appends};
ghost use Rattle.ints.specs.code.Signed.{val};
ghost use Rattle.ints.specs.Limits.{half32};
ghost use Rattle.slots.specs.code.Shape.{Inside};
ghost use Rattle.slots.specs.Line.{slot, slots};
ghost use Rattle.show.specs.Printed.{AppendsNumber, AppendsRow, done_line, refused_line};

use crate::numbers::{MOST_TEXT, spell};
use crate::rows::{MOST_ROW, row};
use answers::Refusal;
use ints::big_endian::Signed;
use slots::shape::Shape;
use std::io;
use std::io::Write;

pub fn text<W: Write>(out: &mut W, s: &[u8]) -> io::Result<()>
    ensures { OnOk result (Appends (W.contents out.old) (W.contents out.new) s.now) }
{
    out.write_all(s)
}

pub fn natural<W: Write>(out: &mut W, n: u64) -> io::Result<()>
    ensures { OnOk result (Appends (W.contents out.old) (W.contents out.new) (decimal n)) }
{
    write!(out, "{n}")
}

// A signed number, which code holds as its bits.
pub fn integer<W: Write>(out: &mut W, v: Signed) -> io::Result<()>
    ensures { OnOk result (AppendsNumber (val v) (W.contents out.old) (W.contents out.new)) }
{
    let mut space = [0u8; MOST_TEXT];
    let n = spell(v, &mut space);
    text(out, &space[..n])
}

// A slot's number, advances and offsets, as a line.
pub fn slot<W: Write>(out: &mut W, line: &[u8], shape: Shape, i: usize) -> io::Result<()>
    requires { Inside shape line.now i × (i < half32) }
    ensures { OnOk result (AppendsRow i (slot (slots shape line.now) i) (W.contents out.old) (W.contents out.new)) }
{
    let mut space = [0u8; MOST_ROW];
    let n = row(line, shape, i, &mut space);
    text(out, &space[..n])
}

// A refusal, with its number, as a line.
pub fn refused<W: Write>(out: &mut W, r: Refusal) -> io::Result<()>
    ensures { OnOk result (Appends (W.contents out.old) (W.contents out.new) (refused_line r)) }
{
    let n = u32::from(r);
    writeln!(out, "refused {n}")
}

// What starting or finishing answered, as a line.
pub fn done<W: Write>(out: &mut W, d: Result<(), Refusal>) -> io::Result<()>
    ensures { OnOk result (Appends (W.contents out.old) (W.contents out.new) (done_line d)) }
{
    match d {
        Ok(()) => text(out, b"done\n"),
        Err(r) => refused(out, r),
    }
}
