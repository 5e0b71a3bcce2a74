// The list of calls, as a reader gives it.
ghost use Rattle.std.specs.Prelude.{true, ◌≡◌, ◌≤◌, length, take, IfOk};
ghost use Rattle.std.specs.Io.KnownBytes.{Consumes};

use crate::replaying::{Remade, replay};
use recorded::{after_length, call_of, kind_of, unsigned};
use std::io;
use std::io::{ErrorKind, Read};

// Fills the first n bytes of a buffer; false where it has fewer, or the list ends before that.
pub fn is_read<R: Read>(input: &mut R, buffer: &mut [u8], n: usize) -> io::Result<bool>
    ensures fits { IfOk result (λ read. read ≡ true → n ≤ length buffer.new) }
    ensures bytes { IfOk result (λ read. read ≡ true
        → Consumes (R.remaining input.old) (R.remaining input.new) (take n buffer.new)) }
{
    if buffer.len() < n {
        return Ok(false);
    }
    match input.read_exact(&mut buffer[..n]) {
        Ok(()) => Ok(true),
        Err(e) if e.kind() == ErrorKind::UnexpectedEof => Ok(false),
        Err(e) => Err(e),
    }
}

// The next four bytes as a number; 0 where the list ends.
pub fn list_number<R: Read>(input: &mut R) -> io::Result<u32> {
    let mut space = [0u8; 4];
    is_read(input, &mut space, 4)?;
    Ok(unsigned(&space, 0))
}

// Reads the next call of the list into its buffers, makes it, and compares; none where its kind is none that there is, or
// a part can't be read.
pub fn next<R: Read>(
    input: &mut R,
    line: &mut [u8; 65536],
    subtable: &mut [u8; 65536],
) -> io::Result<Option<Remade>> {
    let mut head = [0u8; 96];
    if !is_read(input, &mut head, 96)? {
        return Ok(None);
    }
    let Ok(kind) = kind_of(&head) else {
        return Ok(None);
    };
    let c = call_of(kind, &head);
    let n = c.numbers;
    let mut after = [0u8; 65536];
    let complete = is_read(input, line, n.line)?
        && is_read(input, subtable, n.subtable)?
        && is_read(input, &mut after, after_length(n))?;
    if !complete {
        return Ok(None);
    }
    Ok(Some(replay(c, line, subtable, &after)))
}
