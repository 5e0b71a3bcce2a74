// All that is checked before a run begins, once, and where it begins.
ghost use Rattle.std.specs.Prelude.{◌≡◌};
ghost use Rattle.slots.specs.code.Shape.{Fits};
ghost use Rattle.slots.specs.Line.{slots};
ghost use Rattle.lookup.specs.code.Beginning.{Begun, first_state};

use crate::kinds::Kind;
use crate::neighbours::first_neighbour;
use crate::state::{End, Lookup, MOST_SUBTABLES, Searched, Settings, State};
use crate::subtables::{all_good, is_unfit};
use answers::{Neighbour, Refusal, WiderRefusal};
use checks::arguments::check_call;

// Refusals 1 to 4, 8 and 6, in this order; else where the run begins.
pub fn begin(
    line: &[u8],
    subtables: &[u8],
    lengths: &[usize],
    places: usize,
    settings: Settings,
) -> Result<State, WiderRefusal>
    ensures { Begun settings line.now subtables.now lengths.now places result }
{
    let Settings {
        size,
        kind,
        flag,
        direction,
        s,
        u,
    } = settings;
    let (shape, frame) = check_call(line, size, direction, s, u)?;
    if is_unfit(subtables, lengths, shape.count, places) {
        return Err(WiderRefusal::Unfit);
    }
    let kind = Kind::try_from(kind)?;
    if !all_good(kind, subtables, lengths) {
        return Err(Refusal::Subtable.into());
    }
    Ok(first(
        line,
        Lookup {
            shape,
            kind,
            frame,
            flag,
        },
    ))
}

// Where a run begins: at slot 0, or at once at the line's end.
fn first(line: &[u8], lookup: Lookup) -> State
    requires { Fits lookup.shape line.now }
    ensures { result ≡ first_state lookup (slots lookup.shape line.now) }
{
    let (near, end) = if 0 < lookup.shape.count {
        (first_neighbour(line, lookup.shape, lookup.kind), None)
    } else {
        (Neighbour::Missing(0), Some(End::Done))
    };
    let unsearched = Searched {
        until: 0,
        found: None,
    };
    State {
        end,
        index: 0,
        subtable: 0,
        start: 0,
        attached: false,
        near,
        known: 0,
        memory: [unsearched; MOST_SUBTABLES],
        lookup,
    }
}
