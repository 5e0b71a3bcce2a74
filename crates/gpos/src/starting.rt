// Starting a line.
ghost use Rattle.gpos.specs.Starting.{StartCall};

use answers::Refusal;
use checks::arguments::check_line;

// Starts a line of slots of `size` bytes, 24 or 28: every chain and type becomes 0, and nothing else changes. Refusals
// 1 and 4.
pub fn start(line: &mut [u8], size: usize) -> Result<(), Refusal>
    ensures { StartCall size line.old result line.new }
{
    let shape = check_line(line, size)?;
    start::start_line(line, shape);
    Ok(())
}
