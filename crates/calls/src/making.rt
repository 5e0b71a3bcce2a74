// A recorded call, made again through the calls for C.
ghost use Rattle.std.specs.Prelude.{◌≡◌, eqb, if◌then◌else◌};
ghost use Rattle.gpos.specs.CursivePos.{CursiveCall};
ghost use Rattle.gpos.specs.MarkPos.{MarkCall};
ghost use Rattle.gpos.specs.PairPos.{PairCall};
ghost use Rattle.gpos_c.specs.Layout.{IsLayoutOf, to_c};
ghost use Rattle.recorded.specs.Recorded.{afterwards};
ghost use Rattle.targets.specs.declared.place.Way.TheVariants.{Earlier};
ghost use Rattle.calls.specs.Made.{Made, neighbour_of, numbered as Made·numbered};

use answers::Hazards;
use gpos_c::{
    CAnswer, gpos_cursive, gpos_finish, gpos_from_clusters, gpos_mark_base, gpos_mark_ligature,
    gpos_mark_mark, gpos_pair, gpos_single, gpos_start, gpos_to_clusters, laid,
};
use recorded::{Kind, Numbers};

// The status of a call that answers a number.
fn status_of(n: u32) -> u32
    ensures { result ≡ (if eqb n 0 then 0 else 3) }
{
    if n == 0 { 0 } else { 3 }
}

// What starting, finishing or a move answered, laid out as the answer of an applying call is.
fn numbered(n: u32) -> CAnswer
    ensures { result ≡ Made·numbered n }
{
    laid(status_of(n), n, 0, 0, Hazards::None)
}

// The calls of a neighbour take the most arguments, so each is made apart.
fn pair(n: Numbers, line: &mut [u8], subtable: &[u8]) -> CAnswer
    ensures { IsLayoutOf to_c (λ x. PairCall n.size line.old subtable.now n.direction n.s n.u n.index
        (neighbour_of n) x line.new) result }
{
    gpos_pair(
        line,
        n.size,
        subtable,
        n.direction,
        n.s,
        n.u,
        n.index,
        n.missing,
        n.neighbour,
    )
}

fn cursive(n: Numbers, line: &mut [u8], subtable: &[u8]) -> CAnswer
    ensures { IsLayoutOf to_c (λ x. CursiveCall n.size line.old subtable.now n.direction n.s n.u n.index
        (neighbour_of n) n.flag x line.new) result }
{
    gpos_cursive(
        line,
        n.size,
        subtable,
        n.direction,
        n.s,
        n.u,
        n.index,
        n.missing,
        n.neighbour,
        n.flag,
    )
}

fn mark_mark(n: Numbers, line: &mut [u8], subtable: &[u8]) -> CAnswer
    ensures { IsLayoutOf to_c (λ x. MarkCall (Earlier (neighbour_of n)) n.size line.old subtable.now
        n.direction n.s n.u n.index x line.new) result }
{
    gpos_mark_mark(
        line,
        n.size,
        subtable,
        n.direction,
        n.s,
        n.u,
        n.index,
        n.missing,
        n.neighbour,
    )
}

// Makes the call of these numbers. A move has its target in place of the subtable.
pub fn make(n: Numbers, line: &mut [u8], subtable: &mut [u8]) -> CAnswer
    ensures { Made n line.old subtable.old result
        (afterwards n line.new subtable.new) }
{
    match n.kind {
        Kind::Start => numbered(gpos_start(line, n.size)),
        Kind::Finish => numbered(gpos_finish(line, n.size, n.direction, n.limit, n.attachments)),
        Kind::Single => gpos_single(line, n.size, subtable, n.direction, n.s, n.u, n.index),
        Kind::Pair => pair(n, line, subtable),
        Kind::Cursive => cursive(n, line, subtable),
        Kind::MarkBase => gpos_mark_base(line, n.size, subtable, n.direction, n.s, n.u, n.index),
        Kind::MarkLigature => gpos_mark_ligature(
            line,
            n.size,
            subtable,
            n.direction,
            n.s,
            n.u,
            n.index,
        ),
        Kind::MarkMark => mark_mark(n, line, subtable),
        Kind::ToClusters => numbered(gpos_to_clusters(line, subtable)),
        Kind::FromClusters => numbered(gpos_from_clusters(line, subtable)),
    }
}
