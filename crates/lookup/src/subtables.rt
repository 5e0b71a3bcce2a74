// The checks of a lookup's subtables, which lie end to end, and of the list that is lent for its records.
ghost use Rattle.std.specs.Prelude.{◌≡◌, ◌*◌, ◌<◌, eqb, length};
ghost use Rattle.ints.specs.Limits.{whole64};
ghost use Rattle.lookup.specs.Kinds.{good_for};
ghost use Rattle.lookup.specs.Refusals.{unfit};
ghost use Rattle.lookup.specs.Subtables.{every, most_subtables, subtables as Subtables·all, total};

use crate::kinds::Kind;
use crate::state::MOST_SUBTABLES;

// Refusal 8: not one to eight subtables, lengths that don't add up to the buffer, or too few places for the records of
// a line of n slots.
pub fn is_unfit(subtables: &[u8], lengths: &[usize], n: usize, places: usize) -> bool
    requires { 2 * n * most_subtables < whole64 }
    ensures { result ≡ unfit subtables.now lengths.now n places }
{
    let c = lengths.len();
    c < 1 || MOST_SUBTABLES < c || !adds_up(lengths, subtables.len()) || places < 2 * n * c
}

// Do the lengths add up to n? No sum that could wrap is made.
#[tactic(auto, using(crate::proofs::SubtableLaws::lengths_left))]
fn adds_up(lengths: &[usize], n: usize) -> bool
    ensures { result ≡ eqb (total lengths.now) n }
{
    let mut left = n;
    for len in lengths {
        let Some(rest) = left.checked_sub(*len) else {
            return false;
        };
        left = rest;
    }
    left == 0
}

// Are all subtables good? Each is looked at once.
pub fn all_good(kind: Kind, subtables: &[u8], lengths: &[usize]) -> bool
    requires { total lengths.now ≡ length subtables.now }
    ensures { result ≡ every (good_for kind) (Subtables·all lengths.now subtables.now) }
{
    let mut rest = subtables;
    for len in lengths {
        let (subtable, after) = rest.split_at(*len);
        if !kind.is_good(subtable) {
            return false;
        }
        rest = after;
    }
    true
}
