// Running a lookup over a line.
ghost use Rattle.gpos.specs.Running.{LookupCall};

use answers::{Ran, WiderRefusal};
use lookup::beginning::begin;
use lookup::state::{End, Settings};
use lookup::turns::turn;
use records::{HazardRecord, put};

// Runs a lookup over a line: at each slot, from slot 0 up, its subtables are tried in their order, and the first that
// applies wins. The subtables lie end to end, with their lengths in a list, as C lends them; the hazards of every
// single call, of declines too, are put into `list` in the order in which they arise. The result is that of the single
// calls made one after another, with the neighbours that the seen bits give; line and subtables are checked once.
// Refusals 1 to 4, 8, 6; at a single call that is refused with 7 the run stops.
#[tactic(auto, using(crate::proofs::RunLaws::of_loop))]
pub fn lookup(
    line: &mut [u8],
    subtables: &[u8],
    lengths: &[usize],
    list: &mut [HazardRecord],
    settings: Settings,
) -> Result<Ran, WiderRefusal>
    ensures { LookupCall settings line.old subtables.now lengths.now
        list.old result line.new list.new }
{
    let mut records = 0;
    let mut st = begin(line, subtables, lengths, list.len(), settings)?;
    loop {
        match st.end {
            None => {
                let next = turn(line, subtables, lengths, &mut st);
                records = put(list, records, next);
            }
            Some(End::Done) => {
                return Ok(Ran::Done {
                    records,
                    attached: st.attached,
                });
            }
            Some(End::Endless) => {
                return Ok(Ran::Endless {
                    index: st.index,
                    records,
                });
            }
        }
    }
}
