// The entries of a `Cross`: checked one after the other (checks 5 to 7), and each unskipped end put into the ring.
#![tactic(auto)]

ghost use Rattle.std.specs.Prelude.{◌≡◌, true, false, ◌||◌, List, ℕ, ◌*◌, ◌<◌, ◌≤◌, length};
ghost use Rattle.laws.specs.Test.{pick};
ghost use Rattle.laws.specs.Lowest.{some};
ghost use Rattle.turn.specs.Limits.{max_links};
ghost use Rattle.turn.specs.declared.Point.{Point};
ghost use Rattle.turn.specs.Points.{differ};
ghost use Rattle.graph.specs.Graph.{lent, graph_of, point_at, part};
ghost use Rattle.graph.specs.Checks.{node_at, end_at, stray, stray_in};
ghost use Rattle.graph.specs.Quick.{stands_before, clash_at};
ghost use Rattle.graph.specs.Known.{Points, Grids, Runs};
ghost use Rattle.rings.specs.Field.{LaidCross, ElseKept};
ghost use Rattle.spokes.specs.Entries.{Laying, Entered};
ghost use Rattle.spokes.specs.Promises.{LayCrossSays};

use graph::{end_at, point_at};
use hoop::{Hoop, find_place, put_end};
use rings::end_of;
use turn::{Point, differ, wide};

// Checks 5 to 7: whether x stands among the first j of a list.
// By hand: no entry ends the loop, so that the compiler may look at several at once.
fn stands_before(here: &[u32], j: usize, x: usize) -> bool
    requires { j ≤ length here.now }
    ensures { result ≡ stands_before here.now j x }
{
    let mut stands = false;
    for &e in &here[..j] {
        stands |= wide(e) == x;
    }
    stands
}

// Checks 5 and 6: whether f is no link with an end at node v, or that end has another point than `home`.
fn misses(
    ax: &[i32],
    ay: &[i32],
    bx: &[i32],
    by: &[i32],
    aid: &[u32],
    bid: &[u32],
    home: Point,
    v: usize,
    f: usize,
) -> bool
    requires points { Points ax.now ay.now bx.now by.now (length aid.now) }
    requires bid_len { length bid.now ≡ length aid.now }
    ensures { (let a : ℕ → Point = point_at ax.now ay.now in
        let b : ℕ → Point = point_at bx.now by.now in
        result ≡ stray aid.now bid.now v f || differ home (end_at a b (node_at aid.now) v f)) }
{
    if aid.len() <= f {
        return true;
    }
    if wide(aid[f]) == v {
        return differ(home, point_at(ax, ay, f));
    }
    if wide(bid[f]) == v {
        return differ(home, point_at(bx, by, f));
    }
    true
}

// Entry j of node v is checked, also against the earlier ones, and linked with them where it is unskipped; `home` is the first entry's point.
fn lay_entry(
    ax: &[i32],
    ay: &[i32],
    bx: &[i32],
    by: &[i32],
    aid: &[u32],
    bid: &[u32],
    state: &[u8],
    here: &[u32],
    v: usize,
    nxt: &mut [u32],
    prv: &mut [u32],
    hoop: Hoop,
    home: Point,
    j: usize,
) -> Option<Hoop>
    requires laying { Laying ax.now ay.now bx.now by.now aid.now bid.now state.now here.now v home nxt.old prv.old j hoop }
    requires j_in_bounds { j < length here.now }
    ensures entered { Entered ax.now ay.now bx.now by.now aid.now bid.now
        state.now here.now v home nxt.new prv.new j result }
    ensures else_kept { (ElseKept aid.now bid.now v nxt.old nxt.new)
        × (ElseKept aid.now bid.now v prv.old prv.new) }
{
    let f = wide(here[j]);
    if misses(ax, ay, bx, by, aid, bid, home, v, f) {
        return None;
    }
    if state[f] == 1 {
        if stands_before(here, j, f) {
            return None;
        }
        return Some(hoop);
    }
    let q = end_of(aid, v, f);
    let place = find_place(ax, ay, bx, by, prv, hoop, home, q);
    put_end(nxt, prv, hoop, place, q)
}

// Whether checks 5 to 7 find something wrong with node v, a `Cross` with these entries; where they do not, its ring is linked.
pub fn lay_cross(
    ax: &[i32],
    ay: &[i32],
    bx: &[i32],
    by: &[i32],
    aid: &[u32],
    bid: &[u32],
    state: &[u8],
    here: &[u32],
    v: usize,
    nxt: &mut [u32],
    prv: &mut [u32],
) -> bool
    requires points { Points ax.now ay.now bx.now by.now (length aid.now) }
    requires grids { Grids ax.now ay.now bx.now by.now (length aid.now) }
    requires state_len { length state.now ≡ length aid.now }
    requires runs { Runs ax.now ay.now bx.now by.now aid.now bid.now }
    requires aid_len_bound { (length aid.now ≤ max_links) × (2 * length aid.now ≤ length nxt.old) × (2 * length aid.now ≤ length prv.old) }
    requires here_nonzero { 0 < length here.now }
    ensures point { (let a : ℕ → Point = point_at ax.now ay.now in
        let b : ℕ → Point = point_at bx.now by.now in
        LayCrossSays a b aid.now bid.now state.now here.now v result) }
    ensures laid_cross { result ≡ false → (start list top : List ℕ) → part start list v ≡ here.now
        → LaidCross (graph_of (lent ax.now ay.now bx.now by.now aid.now bid.now
        start list) top) state.now v nxt.new prv.new }
    ensures else_kept { (ElseKept aid.now bid.now v nxt.old nxt.new)
        × (ElseKept aid.now bid.now v prv.old prv.new) }
{
    let first = wide(here[0]);
    if aid.len() <= first {
        return true;
    }
    let home = end_at(ax, ay, bx, by, aid, v, first);
    let mut hoop = Hoop {
        head: 0,
        tail: 0,
        count: 0,
    };
    for j in 0..here.len() {
        match lay_entry(
            ax, ay, bx, by, aid, bid, state, here, v, nxt, prv, hoop, home, j,
        ) {
            None => {
                return true;
            }
            Some(ring) => {
                hoop = ring;
            }
        }
    }
    false
}
