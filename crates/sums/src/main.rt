// Worked sums and other recorded calls, made again, as text: the label of each, what it answered, and the slots of a
// line of at most four. The file stdin has them, and oracle/README.md says how it was made.
#![tactic(auto)]

mod answered; // what a call answered
mod rows; // slots

use calls::{Remade, is_read, list_number, next};
use std::io;
use std::io::{Read, Write};

// Prints the next label of the list as a line; false where it can't be read.
fn is_label_shown<R: Read, W: Write>(input: &mut R, out: &mut W) -> io::Result<bool> {
    let n = list_number(input)? as usize;
    let mut space = [0u8; 4096];
    if !is_read(input, &mut space, n)? {
        return Ok(false);
    }
    out.write_all(&space[..n])?;
    writeln!(out)?;
    Ok(true)
}

// Prints what came of a call: its answer, and the slots where it may have written any.
fn show_made<W: Write>(out: &mut W, r: Remade, line: &[u8], subtable: &[u8]) -> io::Result<()> {
    answered::show_answer(out, r.answer)?;
    if r.answer.status < 2 {
        rows::show_after(out, r.numbers, line, subtable)?;
    }
    if !r.alike {
        writeln!(out, "  differs from what is recorded")?;
    }
    Ok(())
}

// Makes the next call of the list, and prints what came of it; false where it can't be made.
fn is_call_shown<R: Read, W: Write>(input: &mut R, out: &mut W) -> io::Result<bool> {
    let mut line = [0u8; 65536];
    let mut subtable = [0u8; 65536];
    let Some(r) = next(input, &mut line, &mut subtable)? else {
        return Ok(false);
    };
    show_made(out, r, &line, &subtable)?;
    Ok(true)
}

// Shows so many calls, each below its label; false at the first that can't be read.
fn is_list_shown<R: Read, W: Write>(input: &mut R, out: &mut W, count: u32) -> io::Result<bool> {
    for _ in 0..count {
        if !is_label_shown(input, out)? || !is_call_shown(input, out)? {
            return Ok(false);
        }
    }
    Ok(true)
}

fn main(rt: HostRuntime) -> io::Result<()> {
    let mut input = rt.stdin();
    let mut out = rt.stdout();
    let count = list_number(&mut input)?;
    if !is_list_shown(&mut input, &mut out, count)? {
        writeln!(out, "the list ends early")?;
    }
    Ok(())
}
