// What the program says of itself. It goes to standard error, so that nothing on standard output is ever taken for a
// row: the exit status is the same, and doesn't tell a caller.
use std::io;
use std::io::{IsTerminal, Write};

fn say<W: Write>(err: &mut W, s: &[u8]) -> io::Result<()> {
    err.write_all(s)
}

pub fn say_use<W: Write>(err: &mut W) -> io::Result<()> {
    say(
        err,
        b"use: finishing <FILE   (it takes no arguments: given any, it prints only this)\n",
    )?;
    say(
        err,
        b"Reads a line of 24-byte glyph slots, up to 1,024, on standard input, finishes it\n",
    )?;
    say(
        err,
        b"left to right with nesting limit 64, and prints a row for each slot:\n",
    )?;
    say(err, b"number, x advance, y advance, x offset, y offset.\n")?;
    say(
        err,
        b"For a line it refuses it prints 'refused N': 1 is for its length, 4 for a slot\n",
    )?;
    say(
        err,
        b"out of range (docs/RULES.md). The exit status is 0, also when refused.\n",
    )
}

// Without this line a start by hand would look like a program that hangs; files and pipes are read in silence.
pub fn say_waiting_at_terminal<W: Write, T: IsTerminal>(err: &mut W, input: &T) -> io::Result<()> {
    if input.is_terminal() {
        say(
            err,
            b"finishing: waits for a line's bytes on standard input; a file: finishing <FILE\n",
        )?;
    }
    Ok(())
}
