// Mark attachment, to a base, to a ligature or to an earlier mark.
ghost use Rattle.std.specs.Prelude.{◌≡◌};
ghost use Rattle.targets.specs.declared.mark_pos.Target.TheVariants.{Base, Ligature};
ghost use Rattle.targets.specs.declared.place.Way.TheVariants.{Search, Earlier};
ghost use Rattle.gpos.specs.MarkPos.{beside_of, MarkCall};

use answers::{Answer, Neighbour, Refusal};
use checks::arguments::check_applying;
use checks::neighbours::Beside;
use targets::mark_pos::{MarkPos, Target};
use targets::place::Way;

// One call for all three ways.
fn mark(
    line: &mut [u8],
    size: usize,
    subtable: &[u8],
    way: Way,
    direction: u32,
    s: u32,
    u: u32,
    index: usize,
) -> Result<Answer, Refusal>
    ensures { MarkCall way size line.old subtable.now direction s u index result
        line.new }
{
    // The subtable comes last, since its lists may be long.
    let (shape, frame, ()) = check_applying(
        line,
        size,
        direction,
        s,
        u,
        index,
        beside_of(way),
        Some(()),
    )?;
    let subtable = MarkPos::new(subtable).ok_or(Refusal::Subtable)?;
    marks::attachment::apply(line, shape, frame, subtable, way, index)
}

// What is beside the index: an earlier mark, if the caller names one.
fn beside_of(way: Way) -> Beside
    ensures { result ≡ beside_of way }
{
    match way {
        Way::Search(_) => Beside::Nothing,
        Way::Earlier(earlier) => Beside::Previous(earlier),
    }
}

// Attaches the mark in slot `index` to the nearest base before it, by a MarkBasePos subtable. The caller clears the
// seen bit on marks. Refusals 1 to 7.
pub fn mark_base(
    line: &mut [u8],
    size: usize,
    subtable: &[u8],
    direction: u32,
    s: u32,
    u: u32,
    index: usize,
) -> Result<Answer, Refusal>
    ensures { MarkCall (Search Base) size line.old subtable.now direction s u index result
        line.new }
{
    mark(
        line,
        size,
        subtable,
        Way::Search(Target::Base),
        direction,
        s,
        u,
        index,
    )
}

// Attaches the mark in slot `index` to a component of the nearest ligature before it, by a MarkLigPos subtable. The
// caller clears the seen bit on marks. Refusals 1 to 7. A call of its own, as C and other languages know it.
pub fn mark_ligature(
    line: &mut [u8],
    size: usize,
    subtable: &[u8],
    direction: u32,
    s: u32,
    u: u32,
    index: usize,
) -> Result<Answer, Refusal>
    ensures { MarkCall (Search Ligature) size line.old subtable.now direction s u index result
        line.new }
{
    mark(
        line,
        size,
        subtable,
        Way::Search(Target::Ligature),
        direction,
        s,
        u,
        index,
    )
}

// Attaches the mark in slot `index` to the earlier mark that the caller names, by a MarkMarkPos subtable; whether that
// is seen isn't looked at. Refusals 1 to 7.
pub fn mark_mark(
    line: &mut [u8],
    size: usize,
    subtable: &[u8],
    direction: u32,
    s: u32,
    u: u32,
    index: usize,
    earlier: Neighbour,
) -> Result<Answer, Refusal>
    ensures { MarkCall (Earlier earlier) size line.old subtable.now direction s u index result
        line.new }
{
    mark(
        line,
        size,
        subtable,
        Way::Earlier(earlier),
        direction,
        s,
        u,
        index,
    )
}
