// Cursive attachment.
ghost use Rattle.gpos.specs.CursivePos.{CursiveCall};

use answers::{Answer, Neighbour, Refusal};
use checks::arguments::check_applying;
use checks::neighbours::Beside;
use cursive::cursive_pos::CursivePos;

// Joins slot `index`, by its entry anchor, to the previous slot that the caller names, by its exit anchor, in a
// CursivePos subtable. Of the lookup's flag only RIGHT_TO_LEFT, 0x0001, is looked at. Refusals 1 to 6.
pub fn cursive(
    line: &mut [u8],
    size: usize,
    subtable: &[u8],
    direction: u32,
    s: u32,
    u: u32,
    index: usize,
    previous: Neighbour,
    flag: u32,
) -> Result<Answer, Refusal>
    ensures { CursiveCall size line.old subtable.now direction s u index previous flag result
        line.new }
{
    // The subtable comes last, since its lists may be long.
    let (shape, frame, ()) = check_applying(
        line,
        size,
        direction,
        s,
        u,
        index,
        Beside::Previous(previous),
        Some(()),
    )?;
    let subtable = CursivePos::new(subtable).ok_or(Refusal::Subtable)?;
    Ok(cursive::attachment::apply(line, shape, frame, subtable, index, previous, flag))
}
