// The lent graph as the checks read it: the points of a link's ends, and a node's part of the list.
#![tactic(auto)]

ghost use Rattle.std.specs.Prelude.{◌≡◌, ℕ, ◌-◌, ◌<◌, length};
ghost use Rattle.turn.specs.declared.Point.{Point};
ghost use Rattle.turn.specs.Points.{Short};
ghost use Rattle.graph.specs.Graph.{point_at, part};
ghost use Rattle.graph.specs.Checks.{node_at, end_at, away};
ghost use Rattle.graph.specs.Passes.{Rising};
ghost use Rattle.graph.specs.Known.{Points, Grids};
ghost use Rattle.graph.specs.Promises.{PointAtSays, EntriesSays, EndAtSays, AwaySays};

use turn::{Point, Vector, between, wide};

// The point at k of two lists of coordinates.
pub fn point_at(xs: &[i32], ys: &[i32], k: usize) -> Point
    requires { (k < length xs.now) × (k < length ys.now) }
    ensures { PointAtSays xs.now ys.now k result }
{
    Point { x: xs[k], y: ys[k] }
}

// Node v's entries, a part of the list.
pub fn entries<'a, 'b>(start: &'a [u32], list: &'b [u32], v: usize) -> &'b [u32]
    requires rising { Rising start.now list.now }
    requires v_in_bounds { v < length start.now - 1 }
    ensures { EntriesSays start.now list.now v result.now }
{
    let from = wide(start[v]);
    let to = wide(start[v + 1]);
    &list[from..to]
}

// Checks 6 and 7: the point of link k's end at node v; with a and b swapped, of its other end.
pub fn end_at(
    ax: &[i32],
    ay: &[i32],
    bx: &[i32],
    by: &[i32],
    aid: &[u32],
    v: usize,
    k: usize,
) -> Point
    requires points { Points ax.now ay.now bx.now by.now (length aid.now) }
    requires k_in_bounds { k < length aid.now }
    ensures { EndAtSays (point_at ax.now ay.now) (point_at bx.now by.now) aid.now v k result }
{
    let a = point_at(ax, ay, k);
    let b = point_at(bx, by, k);
    if wide(aid[k]) == v {
        return a;
    }
    b
}

// The way that link k runs from node v.
pub fn away(
    ax: &[i32],
    ay: &[i32],
    bx: &[i32],
    by: &[i32],
    aid: &[u32],
    v: usize,
    k: usize,
) -> Vector
    requires points { Points ax.now ay.now bx.now by.now (length aid.now) }
    requires grids { Grids ax.now ay.now bx.now by.now (length aid.now) }
    requires k_in_bounds { k < length aid.now }
    ensures { AwaySays (point_at ax.now ay.now) (point_at bx.now by.now) aid.now v k result }
{
    between(
        end_at(ax, ay, bx, by, aid, v, k),
        end_at(bx, by, ax, ay, aid, v, k),
    )
}
