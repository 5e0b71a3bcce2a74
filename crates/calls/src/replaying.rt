// A recorded call, made again and compared.
ghost use Rattle.std.specs.Prelude.{true, ◌≡◌};
ghost use Rattle.recorded.specs.Recorded.{afterwards};
ghost use Rattle.calls.specs.Made.{Made, Replayed, ReplayedIn, Room};

use crate::making::make;
use gpos_c::CAnswer;
use recorded::{Call, Numbers, after_length, is_after, is_answer};

// A call's numbers, what it answered when it was made again, and whether that and the bytes afterwards are as recorded.
#[derive(Clone, Copy)]
pub struct Remade {
    pub numbers: Numbers,
    pub answer: CAnswer,
    pub alike: bool,
}

// Makes a recorded call again on its own bytes.
fn replay_on(c: Call, line: &mut [u8], subtable: &mut [u8], after: &[u8]) -> Remade
    ensures made { Made c.numbers line.old subtable.old result.answer
        (afterwards c.numbers line.new subtable.new) }
    ensures replayed { result.alike ≡ true → Replayed c line.old subtable.old after.now }
{
    let n = c.numbers;
    let answer = make(n, line, subtable);
    Remade {
        numbers: n,
        answer: answer,
        alike: is_answer(answer, c.answer) && is_after(n, line, subtable, after),
    }
}

// The same in buffers that are larger.
pub fn replay(c: Call, line: &mut [u8], subtable: &mut [u8], after: &[u8]) -> Remade
    requires { Room c.numbers line.old subtable.old after.now }
    ensures { result.alike ≡ true → ReplayedIn c line.old subtable.old
        after.now }
{
    let n = c.numbers;
    let k = after_length(n);
    replay_on(
        c,
        &mut line[..n.line],
        &mut subtable[..n.subtable],
        &after[..k],
    )
}
