// What a call answered, as a line of text.
use gpos_c::CAnswer;
use records::HazardRecord;
use std::io;
use std::io::Write;

fn show_status<W: Write>(out: &mut W, a: CAnswer) -> io::Result<()> {
    match a.status {
        0 => write!(out, "  done"),
        1 => write!(out, "  applied, next {}", a.next),
        2 => write!(out, "  declined"),
        _ => write!(out, "  refused {}", a.refusal),
    }
}

// A hazard, where there is one.
fn show_hazard<W: Write>(out: &mut W, h: HazardRecord) -> io::Result<()> {
    match h.kind {
        0 => Ok(()),
        1 => write!(out, ", unsafe to break [{}, {})", h.start, h.end),
        _ => write!(out, ", unsafe to concatenate [{}, {})", h.start, h.end),
    }
}

pub fn show_answer<W: Write>(out: &mut W, a: CAnswer) -> io::Result<()> {
    show_status(out, a)?;
    for h in a.hazard {
        show_hazard(out, h)?;
    }
    if a.attached != 0 {
        write!(out, ", attached")?;
    }
    writeln!(out)
}
