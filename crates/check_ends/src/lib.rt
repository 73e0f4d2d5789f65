// Checks 6 and 7: the ends at a node have one point, and no two unskipped links run from it in one direction.
#![tactic(auto)]

ghost use Rattle.std.specs.Prelude.{◌≡◌, ℕ, ◌-◌, ◌<◌, length};
ghost use Rattle.turn.specs.declared.Point.{Point};
ghost use Rattle.turn.specs.Points.{Short, from_to};
ghost use Rattle.graph.specs.Graph.{point_at, part};
ghost use Rattle.graph.specs.Checks.{node_at, apart_in, apart_at, alike, alike_at};
ghost use Rattle.graph.specs.Passes.{Rising};
ghost use Rattle.graph.specs.Known.{Points, Grids, Below, Entries};
ghost use Rattle.check_ends.specs.Promises.{ApartNodeSays, AlikeNodeSays};

use graph::{away, end_at, entries, point_at};
use turn::{Vector, between, cross_product, differ, same_direction, wide};

// Check 6, of the shared graph: whether node v, with these entries, has ends at different points.
fn apart_in(
    ax: &[i32],
    ay: &[i32],
    bx: &[i32],
    by: &[i32],
    aid: &[u32],
    here: &[u32],
    v: usize,
) -> bool
    requires points { Points ax.now ay.now bx.now by.now (length aid.now) }
    requires below { Below here.now (length aid.now) }
    ensures { (let a : ℕ → Point = point_at ax.now ay.now in
        let b : ℕ → Point = point_at bx.now by.now in
        result ≡ apart_in a b (node_at aid.now) here.now v) }
{
    let [first, rest @ ..] = here else {
        return false;
    };
    let home = end_at(ax, ay, bx, by, aid, v, wide(*first));
    for &e in rest {
        if differ(home, end_at(ax, ay, bx, by, aid, v, wide(e))) {
            return true;
        }
    }
    false
}

// The lowest node that check 6 refuses, or none.
pub fn apart_node(
    ax: &[i32],
    ay: &[i32],
    bx: &[i32],
    by: &[i32],
    aid: &[u32],
    start: &[u32],
    list: &[u32],
) -> Option<usize>
    requires points { Points ax.now ay.now bx.now by.now (length aid.now) }
    requires rising { Rising start.now list.now }
    requires entries { Entries start.now list.now (length aid.now) }
    ensures { (let a : ℕ → Point = point_at ax.now ay.now in
        let b : ℕ → Point = point_at bx.now by.now in
        ApartNodeSays a b aid.now start.now list.now result) }
{
    for v in 0..start.len() - 1 {
        if apart_in(ax, ay, bx, by, aid, entries(start, list, v), v) {
            return Some(v);
        }
    }
    None
}

// Check 7, of one band: the way from link k's a to its b.
fn along(ax: &[i32], ay: &[i32], bx: &[i32], by: &[i32], k: usize) -> Vector
    requires points { Points ax.now ay.now bx.now by.now (length ax.now) }
    requires grids { Grids ax.now ay.now bx.now by.now (length ax.now) }
    requires k_in_bounds { k < length ax.now }
    ensures { (result ≡ from_to (point_at ax.now ay.now k) (point_at bx.now by.now k)) × (Short result) }
{
    between(point_at(ax, ay, k), point_at(bx, by, k))
}

// Whether links e and f are unskipped and run from node v in one direction.
fn alike(
    ax: &[i32],
    ay: &[i32],
    bx: &[i32],
    by: &[i32],
    aid: &[u32],
    state: &[u8],
    v: usize,
    e: usize,
    f: usize,
) -> bool
    requires points { Points ax.now ay.now bx.now by.now (length aid.now) }
    requires grids { Grids ax.now ay.now bx.now by.now (length aid.now) }
    requires state_len { length state.now ≡ length aid.now }
    requires e_in_bounds { (e < length aid.now) × (f < length aid.now) }
    ensures { (let a : ℕ → Point = point_at ax.now ay.now in
        let b : ℕ → Point = point_at bx.now by.now in
        result ≡ alike a b (node_at aid.now) state.now v e f) }
{
    // of links that are not parallel it plays no role which end is at the node
    if cross_product(along(ax, ay, bx, by, e), along(ax, ay, bx, by, f)) != 0 {
        return false;
    }
    if (state[e] == 1) | (state[f] == 1) {
        return false;
    }
    same_direction(
        away(ax, ay, bx, by, aid, v, e),
        away(ax, ay, bx, by, aid, v, f),
    )
}

// The lowest node that check 7 refuses, or none: over nodes and pairs of entries, up to the first pair alike.
pub fn alike_node(
    ax: &[i32],
    ay: &[i32],
    bx: &[i32],
    by: &[i32],
    aid: &[u32],
    start: &[u32],
    list: &[u32],
    state: &[u8],
) -> Option<usize>
    requires points { Points ax.now ay.now bx.now by.now (length aid.now) }
    requires grids { Grids ax.now ay.now bx.now by.now (length aid.now) }
    requires state_len { length state.now ≡ length aid.now }
    requires rising { Rising start.now list.now }
    requires entries { Entries start.now list.now (length aid.now) }
    ensures { (let a : ℕ → Point = point_at ax.now ay.now in
        let b : ℕ → Point = point_at bx.now by.now in
        AlikeNodeSays a b aid.now start.now list.now state.now result) }
{
    let mut found = None;
    'search: for v in 0..start.len() - 1 {
        let here = entries(start, list, v);
        for (j, &f) in here.iter().enumerate() {
            for &e in &here[..j] {
                if alike(ax, ay, bx, by, aid, state, v, wide(e), wide(f)) {
                    found = Some(v);
                    break 'search;
                }
            }
        }
    }
    found
}
