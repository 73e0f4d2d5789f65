// The two entries of a `Bridge`: what is stored for them, and whether two ends of one sort are wrong.
#![tactic(auto)]

ghost use Rattle.std.specs.Prelude.{ℕ, ◌*◌, ◌<◌, ◌≡◌, length};
ghost use Rattle.turn.specs.Limits.{max_links};
ghost use Rattle.turn.specs.declared.Point.{Point};
ghost use Rattle.graph.specs.Graph.{point_at};
ghost use Rattle.graph.specs.Known.{Points, Grids};
ghost use Rattle.pairs.specs.Promises.{LayPairSays, ParallelWrongSays, LikeWrongSays, SetLeadSays};

use graph::point_at;
use turn::{between, cross_product, differ, wide};

// From end p a walk goes on to end i, and from end q to end j.
pub fn lay_pair(nxt: &mut [u32], p: usize, i: usize, q: usize, j: usize)
    requires { (p < length nxt.old) × (q < length nxt.old) × (i < 2 * max_links) × (j < 2 * max_links) }
    ensures { LayPairSays nxt.old p i q j nxt.new }
{
    nxt[p] = i as u32;
    nxt[q] = j as u32;
}

// Check 7 of two links with ends of one sort at a node, which are parallel or not: whether they are, and both are unskipped.
pub fn parallel_wrong(state: &[u8], parallel: bool, e: usize, f: usize) -> bool
    requires { (e < length state.now) × (f < length state.now) }
    ensures { ParallelWrongSays state.now parallel e f result }
{
    if !parallel {
        return false;
    }
    !(state[e] == 1) & !(state[f] == 1)
}

// Checks 5 to 7 of node v, a `Bridge` with entries e and f, where f has its end p and e has not its end q there: whether e has no end there,
// is f, has another point than f, or is parallel to f and both are unskipped. With b and a for p and q; `lay_two_a` asks it of a and b.
pub fn like_wrong(
    px: &[i32],
    py: &[i32],
    qx: &[i32],
    qy: &[i32],
    pid: &[u32],
    state: &[u8],
    v: usize,
    e: usize,
    f: usize,
) -> bool
    requires points { Points px.now py.now qx.now qy.now (length pid.now) }
    requires grids { Grids px.now py.now qx.now qy.now (length pid.now) }
    requires state_len { length state.now ≡ length pid.now }
    requires e_in_bounds { (e < length pid.now) × (f < length pid.now) }
    ensures { (let p : ℕ → Point = point_at px.now py.now in
        let q : ℕ → Point = point_at qx.now qy.now in
        LikeWrongSays p q pid.now state.now v e f result) }
{
    let p = point_at(px, py, e);
    let r = point_at(px, py, f);
    if (wide(pid[e]) != v) | (e == f) | differ(p, r) {
        return true;
    }
    let turn = cross_product(
        between(p, point_at(qx, qy, e)),
        between(r, point_at(qx, qy, f)),
    );
    parallel_wrong(state, turn == 0, e, f)
}

// Rule 1 at a `Bridge` with the a's of entries e and f: which of the two is named, the first or not.
pub fn set_lead(lead: &mut [u8], first: bool, e: usize, f: usize)
    requires { (e < length lead.old) × (f < length lead.old) }
    ensures { SetLeadSays lead.old first e f lead.new }
{
    if first {
        lead[e] = 1;
        lead[f] = 2;
        return;
    }
    lead[e] = 2;
    lead[f] = 1;
}
