// Single adjustment.
ghost use Rattle.gpos.specs.SinglePos.{SingleCall};

use answers::{Answer, Refusal};
use checks::arguments::check_applying;
use checks::neighbours::Beside;
use single::single_pos::SinglePos;

// Adjusts slot `index` by its glyph's value record in a SinglePos subtable. Refusals 1 to 6.
pub fn single(
    line: &mut [u8],
    size: usize,
    subtable: &[u8],
    direction: u32,
    s: u32,
    u: u32,
    index: usize,
) -> Result<Answer, Refusal>
    ensures { SingleCall size line.old subtable.now direction s u index result
        line.new }
{
    // The subtable comes last, since its lists may be long.
    let (shape, frame, ()) = check_applying(
        line,
        size,
        direction,
        s,
        u,
        index,
        Beside::Nothing,
        Some(()),
    )?;
    let subtable = SinglePos::new(subtable).ok_or(Refusal::Subtable)?;
    Ok(single::adjustment::apply(line, shape, frame, subtable, index))
}
