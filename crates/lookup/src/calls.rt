// One single call of a run, of a glyph that is covered.
ghost use Rattle.std.specs.Prelude.{◌≡◌, Some};
ghost use Rattle.answers.specs.code.Effect.{MadeOn};
ghost use Rattle.answers.specs.Said.{said};
ghost use Rattle.lookup.specs.code.Calls.{call_now, Ready, remembering, slots_now, target_of};
ghost use Rattle.lookup.specs.code.Covered.{cover_at};

use crate::kinds::Kind;
use crate::state::{Searched, State};
use answers::{Answer, Refusal};
use cursive::cursive_pos::CursivePos;
use marks::attachment::apply_found;
use pair::pair_pos::PairPos;
use single::single_pos::SinglePos;
use targets::mark_pos::{MarkPos, Target};
use targets::place::{Way, named, searched};

// The single call that is next, with its subtable t, which covers the slot's glyph, as m. All that its public call
// refuses, but for refusal 7, has been refused before. The state remembers how far the searches have come.
#[tactic(auto, using(crate::proofs::CallLaws::of_ready), unfolding(targets::specs::MarkPos::mark_index, targets::specs::Place::place_for))]
pub fn call(line: &mut [u8], t: &[u8], st: &mut State, m: usize) -> Result<Answer, Refusal>
    requires { Ready line.old t.now st.old
        × (cover_at t.now (slots_now line.old st.old) st.old.index ≡ Some m) }
    ensures { MadeOn (call_now t.now st.old) (slots_now line.old st.old) (said result)
        (slots_now line.new st.old)
        × (st.new ≡ remembering t.now (slots_now line.old st.old) st.old) }
{
    let shape = st.lookup.shape;
    let frame = st.lookup.frame;
    let i = st.index;
    let near = st.near;
    match st.lookup.kind {
        Kind::Single => {
            let t = SinglePos { bytes: t };
            Ok(single::adjustment::apply_covered(line, shape, frame, t, i, m))
        }
        Kind::Pair => {
            let t = PairPos { bytes: t };
            Ok(pair::adjustment::apply_covered(line, shape, frame, t, i, m, near))
        }
        Kind::Cursive => {
            let t = CursivePos { bytes: t };
            let flag = st.lookup.flag;
            Ok(cursive::attachment::apply_covered(line, shape, frame, t, i, m, near, flag))
        }
        Kind::MarkMark => {
            let t = MarkPos { bytes: t };
            let place = named(line, shape, i, near);
            apply_found(line, shape, frame, t, Way::Earlier(near), i, m, place)
        }
        Kind::MarkBase => search_call(line, t, st, m, Target::Base),
        Kind::MarkLigature => search_call(line, t, st, m, Target::Ligature),
    }
}

// A call that searches for what the mark goes on: the search goes on from where it had come with the subtable.
#[tactic(auto, unfolding(targets::specs::MarkPos::mark_index, targets::specs::Place::place_for))]
fn search_call(
    line: &mut [u8],
    t: &[u8],
    st: &mut State,
    m: usize,
    target: Target,
) -> Result<Answer, Refusal>
    requires ready { Ready line.old t.now st.old × (target_of st.old.lookup.kind ≡ Some target) }
    requires covered { cover_at t.now (slots_now line.old st.old) st.old.index ≡ Some m }
    ensures { MadeOn (call_now t.now st.old) (slots_now line.old st.old) (said result)
        (slots_now line.new st.old)
        × (st.new ≡ remembering t.now (slots_now line.old st.old) st.old) }
{
    let shape = st.lookup.shape;
    let frame = st.lookup.frame;
    let t = MarkPos { bytes: t };
    let i = st.index;
    let k = st.subtable;
    let before = st.memory[k];
    let found = before.found.map(|j| j as usize);
    let place = searched(line, shape, t, target, i, before.until as usize, found);
    st.memory[k] = Searched {
        until: i as u16,
        found: place.map(|j| j as u16),
    };
    apply_found(line, shape, frame, t, Way::Search(target), i, m, place)
}
