// The calls of gpos as C and other languages know them (include/gpos.h): each calls its namesake and lays the answer
// out as numbers. The crate gpos_c_c exports them.
#![tactic(auto)]

mod layout;

ghost use Rattle.gpos.specs.CursivePos.{CursiveCall};
ghost use Rattle.gpos.specs.Finishing.{FinishCall};
ghost use Rattle.gpos.specs.MarkPos.{MarkCall};
ghost use Rattle.gpos.specs.Moving.{ToClustersCall, FromClustersCall};
ghost use Rattle.gpos.specs.PairPos.{PairCall};
ghost use Rattle.gpos.specs.Running.{LookupCall};
ghost use Rattle.gpos.specs.SinglePos.{SingleCall};
ghost use Rattle.gpos.specs.Starting.{StartCall};
ghost use Rattle.targets.specs.declared.mark_pos.Target.TheVariants.{Base, Ligature};
ghost use Rattle.targets.specs.declared.place.Way.TheVariants.{Search, Earlier};
ghost use Rattle.gpos_c.specs.Layout.{done_number, to_c, IsLayoutOf, moved_number, neighbour, ran_to_c, set};
ghost use Rattle.gpos_c.specs.Layout.{settings};

pub use layout::{CAnswer, CRan, laid};
use layout::{done_number, is_set, moved_number, neighbour_of};
use lookup::state::Settings;
use records::HazardRecord;

pub fn gpos_start(line: &mut [u8], size: usize) -> u32
    ensures { IsLayoutOf done_number (λ d. StartCall size line.old d line.new) result }
{
    done_number(gpos::start(line, size))
}

pub fn gpos_finish(
    line: &mut [u8],
    size: usize,
    direction: u32,
    limit: u32,
    attachments: u32,
) -> u32
    ensures { IsLayoutOf done_number (λ d. FinishCall size line.old direction limit (set attachments) d
        line.new) result }
{
    done_number(gpos::finish(line, size, direction, limit, is_set(attachments)))
}

pub fn gpos_single(
    line: &mut [u8],
    size: usize,
    subtable: &[u8],
    direction: u32,
    s: u32,
    u: u32,
    index: usize,
) -> CAnswer
    ensures { IsLayoutOf to_c (λ a. SingleCall size line.old
        subtable.now direction s u index a line.new) result }
{
    gpos::single(line, size, subtable, direction, s, u, index).into()
}

pub fn gpos_pair(
    line: &mut [u8],
    size: usize,
    subtable: &[u8],
    direction: u32,
    s: u32,
    u: u32,
    index: usize,
    missing: u32,
    second: usize,
) -> CAnswer
    ensures { IsLayoutOf to_c (λ a. PairCall size line.old subtable.now direction s u index
        (neighbour missing second) a line.new) result }
{
    gpos::pair(
        line,
        size,
        subtable,
        direction,
        s,
        u,
        index,
        neighbour_of(missing, second),
    )
    .into()
}

pub fn gpos_cursive(
    line: &mut [u8],
    size: usize,
    subtable: &[u8],
    direction: u32,
    s: u32,
    u: u32,
    index: usize,
    missing: u32,
    previous: usize,
    flag: u32,
) -> CAnswer
    ensures { IsLayoutOf to_c (λ a. CursiveCall size line.old
        subtable.now direction s u index (neighbour missing previous) flag a line.new) result }
{
    gpos::cursive(
        line,
        size,
        subtable,
        direction,
        s,
        u,
        index,
        neighbour_of(missing, previous),
        flag,
    )
    .into()
}

pub fn gpos_mark_base(
    line: &mut [u8],
    size: usize,
    subtable: &[u8],
    direction: u32,
    s: u32,
    u: u32,
    index: usize,
) -> CAnswer
    ensures { IsLayoutOf to_c (λ a. MarkCall (Search Base) size line.old
        subtable.now direction s u index a line.new) result }
{
    gpos::mark_base(line, size, subtable, direction, s, u, index).into()
}

pub fn gpos_mark_ligature(
    line: &mut [u8],
    size: usize,
    subtable: &[u8],
    direction: u32,
    s: u32,
    u: u32,
    index: usize,
) -> CAnswer
    ensures { IsLayoutOf to_c (λ a. MarkCall (Search Ligature) size line.old
        subtable.now direction s u index a line.new) result }
{
    gpos::mark_ligature(line, size, subtable, direction, s, u, index).into()
}

pub fn gpos_mark_mark(
    line: &mut [u8],
    size: usize,
    subtable: &[u8],
    direction: u32,
    s: u32,
    u: u32,
    index: usize,
    missing: u32,
    earlier: usize,
) -> CAnswer
    ensures { IsLayoutOf to_c (λ a. MarkCall (Earlier (neighbour missing earlier)) size line.old
        subtable.now direction s u index a line.new) result }
{
    gpos::mark_mark(
        line,
        size,
        subtable,
        direction,
        s,
        u,
        index,
        neighbour_of(missing, earlier),
    )
    .into()
}

pub fn gpos_lookup(
    line: &mut [u8],
    size: usize,
    kind: u32,
    flag: u32,
    subtables: &[u8],
    lengths: &[usize],
    direction: u32,
    s: u32,
    u: u32,
    list: &mut [HazardRecord],
) -> CRan
    ensures { IsLayoutOf ran_to_c (λ a. LookupCall (settings size kind flag direction s u) line.old
        subtables.now lengths.now list.old a line.new
        list.new) result }
{
    let settings = Settings {
        size,
        kind,
        flag,
        direction,
        s,
        u,
    };
    gpos::lookup(line, subtables, lengths, list, settings).into()
}

pub fn gpos_to_clusters(line: &[u8], target: &mut [u8]) -> u32
    ensures { IsLayoutOf moved_number (λ m. ToClustersCall line.now target.old m
        target.new) result }
{
    moved_number(gpos::to_clusters(line, target))
}

pub fn gpos_from_clusters(line: &[u8], target: &mut [u8]) -> u32
    ensures { IsLayoutOf moved_number (λ m. FromClustersCall line.now target.old m
        target.new) result }
{
    moved_number(gpos::from_clusters(line, target))
}
