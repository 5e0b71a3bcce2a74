// Whether two answers, and the bytes afterwards, are the same.
ghost use Rattle.std.specs.Prelude.{true, ◌↔◌, ◌≡◌};
ghost use Rattle.recorded.specs.Recorded.{afterwards};

use crate::numbers::{Numbers, has_target};
use gpos_c::CAnswer;

// Whether two answers are the same.
pub fn is_answer(a: CAnswer, b: CAnswer) -> bool
    ensures { result ≡ true ↔ a ≡ b }
{
    a == b
}

// Whether the bytes that a call may write are as recorded: those of the target, or of the line.
pub fn is_after(n: Numbers, line: &[u8], subtable: &[u8], after: &[u8]) -> bool
    ensures { result ≡ true ↔ afterwards n line.now subtable.now ≡ after.now }
{
    let bytes = if has_target(n) { subtable } else { line };
    bytes == after
}
