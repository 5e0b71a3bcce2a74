// One turn of a run: the single call at the next covered place, with its records, and where the run goes on.
ghost use Rattle.std.specs.Prelude.{◌≡◌, ◌<◌};
ghost use Rattle.answers.specs.Said.{said};
ghost use Rattle.lookup.specs.Subtables.{most_subtables};
ghost use Rattle.lookup.specs.code.Run.{Fine, line_of, Next, turned_by, turn_of};

use crate::calls::call;
use crate::covered::next_covered;
use crate::neighbours::neighbour_after;
use crate::state::{End, State};
use answers::{Answer, Refusal};
use records::{Records, records_of};

// The records of the single call at the next covered place; where there is none the run is at the line's end.
#[tactic(auto, using(crate::proofs::TurnLaws::of_turn))]
pub fn turn(line: &mut [u8], subtables: &[u8], lengths: &[usize], st: &mut State) -> Records
    requires { Fine line.old subtables.now lengths.now st.old }
    ensures { (result ≡ (turn_of line.old subtables.now lengths.now st.old).records)
        × (st.new ≡ (turn_of line.old subtables.now lengths.now st.old).next)
        × (line.new ≡ line_of line.old subtables.now lengths.now st.old)
        × Next line.new subtables.now lengths.now st.new }
{
    let shape = st.lookup.shape;
    let kind = st.lookup.kind;
    let (i, k, start) = (st.index, st.subtable, st.start);
    let Some(place) = next_covered(line, shape, subtables, lengths, i, k, start) else {
        st.end = Some(End::Done);
        return Records::None;
    };
    st.near = neighbour_after(line, shape, kind, st.known, st.near, place.index);
    st.known = place.index;
    st.index = place.index;
    st.subtable = place.subtable;
    st.start = place.start;
    let end = place.start + lengths[place.subtable];
    let answer = call(line, &subtables[place.start..end], st, place.covered);
    go_on(st, end, answer)
}

// What is made of the call: the first subtable that applies wins. Its subtable ended at byte `end`.
fn go_on(st: &mut State, end: usize, answer: Result<Answer, Refusal>) -> Records
    requires { st.old.subtable < most_subtables }
    ensures { (result ≡ (turned_by end st.old (said answer)).records)
        × (st.new ≡ (turned_by end st.old (said answer)).next) }
{
    match answer {
        Ok(
            Answer::Applied {
                next,
                hazards,
                attached,
            },
        ) => {
            st.index = next;
            st.subtable = 0;
            st.start = 0;
            st.attached = st.attached || attached;
            records_of(hazards)
        }
        Ok(Answer::Declined { hazards }) => {
            st.subtable += 1;
            st.start = end;
            records_of(hazards)
        }
        Err(_) => {
            st.end = Some(End::Endless);
            Records::None
        }
    }
}
