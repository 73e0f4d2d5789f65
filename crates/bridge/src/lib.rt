// A `Bridge`: checks 5 to 7 of it, where a walk goes on at its two ends, and which entry rule 1 names.
#![tactic(auto)]

ghost use Rattle.std.specs.Prelude.{◌≡◌, false, List, ℕ, ◌*◌, ◌<◌, ◌≤◌, length, get_or};
ghost use Rattle.laws.specs.Test.{pick};
ghost use Rattle.turn.specs.Limits.{max_links};
ghost use Rattle.turn.specs.declared.Point.{Point};
ghost use Rattle.turn.specs.Points.{differ};
ghost use Rattle.graph.specs.Graph.{lent, graph_of, point_at};
ghost use Rattle.graph.specs.Known.{Points, Grids, Runs};
ghost use Rattle.rings.specs.Ends.{a_end, b_end};
ghost use Rattle.rings.specs.Field.{LaidBridge, ElseKept, OthersKept};
ghost use Rattle.pairs.specs.Stores.{paired};
ghost use Rattle.bridge.specs.Promises.{LayBridgeSays};

use graph::point_at;
use pairs::lay_pair;
use turn::{differ, wide};
use twins::{lay_two_a, lay_two_b};

// A `Bridge` with the b of link e and the a of link f, which must have one point.
fn lay_unlike(
    ax: &[i32],
    ay: &[i32],
    bx: &[i32],
    by: &[i32],
    nxt: &mut [u32],
    e: usize,
    f: usize,
) -> bool
    requires f_in_bounds { (f < length ax.now) × (f < length ay.now) × (e < length bx.now) × (e < length by.now) }
    requires e_lt_max_links { (e < max_links) × (f < max_links) × (b_end e < length nxt.old) × (b_end f < length nxt.old) }
    ensures value { result ≡ differ (point_at bx.now by.now e) (point_at ax.now ay.now f) }
    ensures nxt_after { nxt.new ≡ pick result nxt.old (paired nxt.old (b_end e) (b_end f) (a_end f) (a_end e)) }
{
    if differ(point_at(bx, by, e), point_at(ax, ay, f)) {
        return true;
    }
    lay_pair(nxt, 2 * e + 1, 2 * f + 1, 2 * f, 2 * e);
    false
}

// Checks 5 to 7 of node v, a `Bridge` with entries e and f: whether something is wrong. Where nothing is, each of the two ends there
// leads to the far end of the other, and the entry that rule 1 names is told. A link's a is before its b, so an a end and a b end never
// run in one direction.
pub fn lay_bridge(
    ax: &[i32],
    ay: &[i32],
    bx: &[i32],
    by: &[i32],
    aid: &[u32],
    bid: &[u32],
    state: &[u8],
    v: usize,
    e: usize,
    f: usize,
    nxt: &mut [u32],
    lead: &mut [u8],
) -> bool
    requires points { Points ax.now ay.now bx.now by.now (length aid.now) }
    requires grids { Grids ax.now ay.now bx.now by.now (length aid.now) }
    requires state_len { length state.now ≡ length aid.now }
    requires runs { Runs ax.now ay.now bx.now by.now aid.now bid.now }
    requires aid_len_bound { (length aid.now ≤ max_links) × (2 * length aid.now ≤ length nxt.old) × (length aid.now ≤ length lead.old) }
    requires by_index { (k : ℕ) → get_or aid.now k 0 ≡ v → get_or lead.old k 0 ≡ 0 }
    ensures point { (let a : ℕ → Point = point_at ax.now ay.now in
        let b : ℕ → Point = point_at bx.now by.now in
        LayBridgeSays a b aid.now bid.now state.now v e f result) }
    ensures laid_bridge { result ≡ false → (start list top : List ℕ) → LaidBridge (graph_of (lent ax.now ay.now bx.now
        by.now aid.now bid.now start list) top) v e f nxt.new lead.new }
    ensures else_kept { (ElseKept aid.now bid.now v nxt.old nxt.new)
        × (OthersKept aid.now v lead.old lead.new) }
{
    if (aid.len() <= e) | (aid.len() <= f) {
        return true;
    }
    if wide(aid[f]) == v {
        if wide(bid[e]) == v {
            return lay_unlike(ax, ay, bx, by, nxt, e, f);
        }
        return lay_two_a(ax, ay, bx, by, aid, state, v, e, f, nxt, lead);
    }
    if wide(bid[f]) != v {
        return true;
    }
    if wide(aid[e]) == v {
        lead[e] = 2;
        return lay_unlike(ax, ay, bx, by, nxt, f, e);
    }
    lay_two_b(ax, ay, bx, by, bid, state, v, e, f, nxt)
}
