// Replays recorded calls, whose answers the Rust gave, and moves, which the oracle checked: the file stdin has them,
// and oracle/README.md says how it was made. Every number and every byte is compared.
#![tactic(auto)]

use calls::{list_number, next};
use std::io;
use std::io::{Read, Write};

// Replays the next call of the list, and says whether it answered and wrote what is recorded.
fn is_next_replayed<R: Read>(input: &mut R) -> io::Result<bool> {
    let mut line = [0u8; 65536];
    let mut subtable = [0u8; 65536];
    let remade = next(input, &mut line, &mut subtable)?;
    Ok(remade.is_some_and(|r| r.alike))
}

// Replays so many calls, and answers how many were alike before the first that differs.
fn replayed<R: Read>(input: &mut R, count: u32) -> io::Result<u32> {
    for k in 0..count {
        if !is_next_replayed(input)? {
            return Ok(k);
        }
    }
    Ok(count)
}

fn main(rt: HostRuntime) -> io::Result<()> {
    let mut input = rt.stdin();
    let mut out = rt.stdout();
    let count = list_number(&mut input)?;
    let alike = replayed(&mut input, count)?;
    if alike == count {
        writeln!(out, "{alike} calls replayed, all alike")
    } else {
        writeln!(out, "{alike} calls replayed alike, then one that differs")
    }
}
