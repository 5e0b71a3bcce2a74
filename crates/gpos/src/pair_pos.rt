// Pair adjustment.
ghost use Rattle.gpos.specs.PairPos.{PairCall};

use answers::{Answer, Neighbour, Refusal};
use checks::arguments::check_applying;
use checks::neighbours::Beside;
use pair::pair_pos::PairPos;

// Adjusts slot `index` and the second slot that the caller names by their pair's value records in a PairPos subtable.
// Refusals 1 to 6.
pub fn pair(
    line: &mut [u8],
    size: usize,
    subtable: &[u8],
    direction: u32,
    s: u32,
    u: u32,
    index: usize,
    second: Neighbour,
) -> Result<Answer, Refusal>
    ensures { PairCall size line.old subtable.now direction s u index second result
        line.new }
{
    // The subtable comes last, since its lists may be long.
    let (shape, frame, ()) = check_applying(
        line,
        size,
        direction,
        s,
        u,
        index,
        Beside::Second(second),
        Some(()),
    )?;
    let subtable = PairPos::new(subtable).ok_or(Refusal::Subtable)?;
    Ok(pair::adjustment::apply(line, shape, frame, subtable, index, second))
}
