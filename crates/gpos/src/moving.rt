// Moving a line to slots with a cluster, and back.
ghost use Rattle.gpos.specs.Moving.{ToClustersCall, FromClustersCall};

use answers::WiderRefusal;
use checks::arguments::check_line;
use slots::layout::{CLUSTERED_SIZE, SLOT_SIZE};

// Writes a line of slots of 24 bytes to `target` as slots of 28, each slot's cluster its number. The target must be
// exactly as long as that. Refusals 1, 4, 10.
pub fn to_clusters(line: &[u8], target: &mut [u8]) -> Result<(), WiderRefusal>
    ensures { ToClustersCall line.now target.old result target.new }
{
    let shape = check_line(line, SLOT_SIZE)?;
    if target.len() != shape.count * CLUSTERED_SIZE {
        return Err(WiderRefusal::Unfit);
    }
    moves::number_slots(line, shape.count, target);
    Ok(())
}

// And back, to slots of 24 bytes. Each cluster must be its slot's number: another would be lost. Refusals 1, 4, 10.
pub fn from_clusters(line: &[u8], target: &mut [u8]) -> Result<(), WiderRefusal>
    ensures { FromClustersCall line.now target.old result target.new }
{
    let shape = check_line(line, CLUSTERED_SIZE)?;
    if target.len() != shape.count * SLOT_SIZE || !moves::is_numbered(line, shape.count) {
        return Err(WiderRefusal::Unfit);
    }
    moves::drop_clusters(line, shape.count, target);
    Ok(())
}
