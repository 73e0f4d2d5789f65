// A `Bridge` of two a's or of two b's: checks 5 to 7 of it, where a walk goes on at its two ends, and which entry rule 1 names.
#![tactic(auto)]

ghost use Rattle.std.specs.Prelude.{◌≡◌, ℕ, ◌*◌, ◌<◌, ◌≤◌, length};
ghost use Rattle.turn.specs.Limits.{max_links};
ghost use Rattle.turn.specs.declared.Point.{Point};
ghost use Rattle.graph.specs.Graph.{point_at};
ghost use Rattle.graph.specs.Known.{Points, Grids};
ghost use Rattle.twins.specs.Promises.{LayTwoASays, LayTwoBSays};

use graph::point_at;
use pairs::{lay_pair, like_wrong, parallel_wrong, set_lead};
use turn::{between, cross_product, differ, wide};

// A `Bridge` with the a's of links e and f, of which f's is known to be at node v.
// By hand: it is no twin of `lay_two_b`, since the side of the turn, which `like_wrong` does not tell, names the lead.
pub fn lay_two_a(
    ax: &[i32],
    ay: &[i32],
    bx: &[i32],
    by: &[i32],
    aid: &[u32],
    state: &[u8],
    v: usize,
    e: usize,
    f: usize,
    nxt: &mut [u32],
    lead: &mut [u8],
) -> bool
    requires points { Points ax.now ay.now bx.now by.now (length aid.now) }
    requires grids { Grids ax.now ay.now bx.now by.now (length aid.now) }
    requires state_len { length state.now ≡ length aid.now }
    requires e_in_bounds { (e < length aid.now) × (f < length aid.now) }
    requires aid_len_bound { (length aid.now ≤ max_links) × (2 * length aid.now ≤ length nxt.old) × (length aid.now ≤ length lead.old) }
    ensures { (let a : ℕ → Point = point_at ax.now ay.now in
        let b : ℕ → Point = point_at bx.now by.now in
        LayTwoASays a b aid.now state.now v e f nxt.old lead.old result nxt.new lead.new) }
{
    let p = point_at(ax, ay, e);
    let r = point_at(ax, ay, f);
    if (wide(aid[e]) != v) | (e == f) | differ(p, r) {
        return true;
    }
    // above 0 where f is to the left of e, from their one point
    let turn = cross_product(
        between(p, point_at(bx, by, e)),
        between(r, point_at(bx, by, f)),
    );
    if parallel_wrong(state, turn == 0, e, f) {
        return true;
    }
    set_lead(lead, turn < 0, e, f);
    lay_pair(nxt, 2 * e, 2 * f + 1, 2 * f, 2 * e + 1);
    false
}

// A `Bridge` with the b's of links e and f, of which f's is known to be at node v.
pub fn lay_two_b(
    ax: &[i32],
    ay: &[i32],
    bx: &[i32],
    by: &[i32],
    bid: &[u32],
    state: &[u8],
    v: usize,
    e: usize,
    f: usize,
    nxt: &mut [u32],
) -> bool
    requires points { Points bx.now by.now ax.now ay.now (length bid.now) }
    requires grids { Grids bx.now by.now ax.now ay.now (length bid.now) }
    requires state_len { length state.now ≡ length bid.now }
    requires e_in_bounds { (e < length bid.now) × (f < length bid.now) }
    requires bid_len_bound { (length bid.now ≤ max_links) × (2 * length bid.now ≤ length nxt.old) }
    ensures { (let a : ℕ → Point = point_at ax.now ay.now in
        let b : ℕ → Point = point_at bx.now by.now in
        LayTwoBSays a b bid.now state.now v e f nxt.old result nxt.new) }
{
    if like_wrong(bx, by, ax, ay, bid, state, v, e, f) {
        return true;
    }
    lay_pair(nxt, 2 * e + 1, 2 * f, 2 * f + 1, 2 * e);
    false
}
