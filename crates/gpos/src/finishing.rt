// Finishing a line.
ghost use Rattle.std.specs.Prelude.{◌≡◌, is_none, IfSome, ltb};
ghost use Rattle.finish_rules.specs.Finish.{max_nesting_level};
ghost use Rattle.gpos.specs.Finishing.{FinishCall};

use answers::Refusal;
use checks::arguments::check_slots;
use finish::finishing::MAX_NESTING_LEVEL;

// Finishes a line of slots of `size` bytes, 24 or 28: attached glyphs take in the offsets of what they are attached to,
// and every chain becomes 0; without attachments nothing changes. Refusals 1 to 4.
pub fn finish(
    line: &mut [u8],
    size: usize,
    direction: u32,
    limit: u32,
    attachments: bool,
) -> Result<(), Refusal>
    ensures { FinishCall size line.old direction limit attachments result line.new }
{
    let (shape, direction, limit) = check_slots(line, size, direction, within_most(limit))?;
    if attachments {
        finish::finishing::finish_line(line, shape, direction, limit);
    }
    Ok(())
}

// The nesting limit, unless it is above the most.
fn within_most(limit: u32) -> Option<u32>
    ensures above { is_none result ≡ ltb max_nesting_level limit }
    ensures same { IfSome result (λ n. n ≡ limit) }
{
    (limit <= MAX_NESTING_LEVEL).then_some(limit)
}
