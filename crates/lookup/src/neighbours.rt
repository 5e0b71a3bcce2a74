// The neighbour of a slot by the seen bits. It moves with the index, so that a run passes each slot once.
ghost use Rattle.std.specs.Prelude.{◌≡◌, ◌+◌, ◌≤◌, ◌<◌};
ghost use Rattle.slots.specs.code.Shape.{Fits, Inside};
ghost use Rattle.slots.specs.Line.{slots};
ghost use Rattle.lookup.specs.Neighbours.{neighbour_for, previous, seen_from};

use crate::kinds::Kind;
use answers::Neighbour;
use slots::fields::{Flag, has_flag};
use slots::shape::Shape;

// The neighbour of slot 0.
#[tactic(auto, using(crate::proofs::NeighbourLaws::previous_first))]
pub fn first_neighbour(line: &[u8], shape: Shape, kind: Kind) -> Neighbour
    requires { Inside shape line.now 0 }
    ensures { result ≡ neighbour_for kind (slots shape line.now) 0 }
{
    match kind {
        Kind::Pair => next_seen(line, shape, 1),
        Kind::Single | Kind::Cursive | Kind::MarkBase | Kind::MarkLigature | Kind::MarkMark =>
            Neighbour::Missing(0),
    }
}

// The neighbour of slot n; that of slot i, before it, was `near`.
pub fn neighbour_after(
    line: &[u8],
    shape: Shape,
    kind: Kind,
    i: usize,
    near: Neighbour,
    n: usize,
) -> Neighbour
    requires { Inside shape line.now n × (i ≤ n) × (near ≡ neighbour_for kind (slots shape line.now) i) }
    ensures { result ≡ neighbour_for kind (slots shape line.now) n }
{
    match kind {
        Kind::Pair => second_after(line, shape, i, near, n),
        Kind::Cursive | Kind::MarkMark => last_seen(line, shape, i, near, n),
        Kind::Single | Kind::MarkBase | Kind::MarkLigature => near,
    }
}

// The second glyph of a pair for slot n: what was the next seen slot of slot i still is, unless n has reached it.
fn second_after(line: &[u8], shape: Shape, i: usize, near: Neighbour, n: usize) -> Neighbour
    requires { Inside shape line.now n × (i ≤ n) × (near ≡ seen_from (slots shape line.now) (i + 1)) }
    ensures { result ≡ seen_from (slots shape line.now) (n + 1) }
{
    match near {
        Neighbour::Named(j) if n < j => near,
        Neighbour::Named(_) => next_seen(line, shape, n + 1),
        Neighbour::Missing(_) => near,
    }
}

// The lowest seen slot from slot i up, or that it is missing.
fn next_seen(line: &[u8], shape: Shape, i: usize) -> Neighbour
    requires { Fits shape line.now × (i ≤ shape.count) }
    ensures { result ≡ seen_from (slots shape line.now) i }
{
    let n = shape.count;
    for j in i..n {
        if has_flag(line, shape, j, Flag::Seen) {
            return Neighbour::Named(j);
        }
    }
    Neighbour::Missing(n)
}

// The highest seen slot below slot n; below slot i, before it, it was `near`.
fn last_seen(line: &[u8], shape: Shape, i: usize, near: Neighbour, n: usize) -> Neighbour
    requires { Inside shape line.now n × (i ≤ n) × (near ≡ previous (slots shape line.now) i) }
    ensures { result ≡ previous (slots shape line.now) n }
{
    for j in (i..n).rev() {
        if has_flag(line, shape, j, Flag::Seen) {
            return Neighbour::Named(j);
        }
    }
    near
}
