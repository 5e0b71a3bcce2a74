// What refusal 5 asks of an index and of the neighbour that the caller names, in a line of n slots.
ghost use Rattle.std.specs.Prelude.{◌≡◌, Ok, Err, if◌then◌else◌};
ghost use Rattle.answers.specs.declared.Refusal.TheVariants.{Index};
ghost use Rattle.checks.specs.Neighbours.{bad_after, bad_before, bad_place};

use answers::{Neighbour, Refusal};

// What a call is made on beside the slot at its index.
#[derive(Clone, Copy)]
pub enum Beside {
    Nothing,
    // The second glyph of a pair.
    Second(Neighbour),
    // The glyph to which a cursive attachment joins, or the earlier mark.
    Previous(Neighbour),
}

// Is the second glyph not after the index or not in the line, or the bound of a missing one above the slot count?
fn is_bad_after(n: usize, index: usize, second: Neighbour) -> bool
    ensures { result ≡ bad_after n index second }
{
    match second {
        Neighbour::Named(j) => j <= index || n <= j,
        Neighbour::Missing(e) => n < e,
    }
}

// Is the previous glyph not before the index, or the bound of a missing one above the slot count?
fn is_bad_before(n: usize, index: usize, previous: Neighbour) -> bool
    ensures { result ≡ bad_before n index previous }
{
    match previous {
        Neighbour::Named(i) => index <= i,
        Neighbour::Missing(f) => n < f,
    }
}

// Is the index not in the line, or what is beside it bad?
pub fn is_bad_place(n: usize, index: usize, beside: Beside) -> bool
    ensures { result ≡ bad_place n index beside }
{
    n <= index
        || match beside {
            Beside::Nothing => false,
            Beside::Second(second) => is_bad_after(n, index, second),
            Beside::Previous(previous) => is_bad_before(n, index, previous),
        }
}

// Refusal 5.
pub fn check_place(n: usize, index: usize, beside: Beside) -> Result<(), Refusal>
    ensures { result ≡ (if bad_place n index beside then Err Index else Ok tt) }
{
    if is_bad_place(n, index, beside) {
        return Err(Refusal::Index);
    }
    Ok(())
}
