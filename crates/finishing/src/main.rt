// The finishing program: takes all of standard input as a line, finishes it left to right with nesting limit 64, and
// prints its slots, or the number of the refusal. It reads more than the longest line has, so that a longer input is
// refused and never cut.
#![tactic(auto)]

mod usage; // what it says of itself

use slots::layout::SLOT_SIZE;
use slots::shape::{Shape, cut_of};
use std::alloc::Global;
use std::env::{Env, FillError};
use std::io;
use std::io::{Read, Write};

// Above the longest line's 24,576 bytes.
const MOST_READ: u64 = 65536;

// A finished line: it is cut again as finishing cut it, which says how many slots there are.
fn show_line<W: Write>(out: &mut W, line: &[u8]) -> io::Result<()> {
    let Some(count) = cut_of(line, SLOT_SIZE) else {
        return Ok(());
    };
    let shape = Shape {
        size: SLOT_SIZE,
        count,
    };
    for i in 0..count {
        show::slot(out, line, shape, i)?;
    }
    Ok(())
}

fn finish<W: Write>(out: &mut W, line: &mut [u8]) -> io::Result<()> {
    match gpos::finish(line, SLOT_SIZE, 0, 64, true) {
        Ok(()) => show_line(out, line),
        Err(refusal) => show::refused(out, refusal),
    }
}

fn finish_input<R: Read + Drop, W: Write>(alloc: Global, input: R, out: &mut W) -> io::Result<()> {
    let mut line = Vec::new(alloc);
    input.take(MOST_READ).read_to_end(&mut line)?;
    finish(out, &mut line)
}

// Whether there is any, however long it is and whatever its bytes.
fn has_argument<E: Env>(rt: &E) -> bool {
    !matches!(rt.arg(1, &mut []), Err(FillError::NotPresent))
}

// An argument asks for help, or is a file's name by mistake: the input stays unread, since whoever gives one didn't
// mean what comes on standard input.
fn main(rt: HostRuntime) -> io::Result<()> {
    let mut err = rt.stderr();
    if has_argument(&rt) {
        return usage::say_use(&mut err);
    }
    let input = rt.stdin();
    usage::say_waiting_at_terminal(&mut err, &input)?;
    finish_input(rt.alloc(), input, &mut rt.stdout())
}
