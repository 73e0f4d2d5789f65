// Rule 1 (document 01, "Walking"): the first link of a walk, read off the field of ends.
#![tactic(auto)]

ghost use Rattle.std.specs.Prelude.{◌≡◌, true, ℕ, ◌<◌, ◌≤◌, length};
ghost use Rattle.turn.specs.Points.{clockwise};
ghost use Rattle.graph.specs.Graph.{point_at};
ghost use Rattle.next.specs.Next.{is_unvisited};
ghost use Rattle.next.specs.Known.{Links, NamesUnvisited};
ghost use Rattle.first.specs.Leading.{leading, Asked};
ghost use Rattle.first.specs.Promises.{FindLeftTopLinkSays};

use graph::point_at;
use rings::CROSS;
use topmost::next_below;
use turn::wide;

// Rule 1 at a `Bridge`: the one of link k and the other entry e that is named, by what `lead` holds at k.
fn leading(ax: &[i32], ay: &[i32], bx: &[i32], by: &[i32], held: u8, k: usize, e: usize) -> usize
    requires { (Links ax.now ay.now bx.now by.now (length ax.now)) × (k < length ax.now) × (e < length ax.now) }
    ensures { result ≡ leading held (clockwise (point_at ax.now ay.now e) (point_at bx.now by.now e)
        (point_at bx.now by.now k)) k e }
{
    if held == 1 {
        return k;
    }
    if held == 2 {
        return e;
    }
    let a = point_at(ax, ay, e);
    let b = point_at(bx, by, e);
    let c = point_at(bx, by, k);
    if turn::clockwise(a, b, c) {
        return e;
    }
    k
}

// Rule 1: the first link of the walk that the scan starts at link k, the lowest that is unvisited. `held` is the link that was named there before, or none.
pub fn find_left_top_link(
    ax: &[i32],
    ay: &[i32],
    bx: &[i32],
    by: &[i32],
    nxt: &[u32],
    prv: &[u32],
    lead: &[u8],
    state: &[u8],
    k: usize,
    held: Option<usize>,
) -> Option<usize>
    requires asked { Asked ax.now ay.now bx.now by.now nxt.now prv.now lead.now state.now k held }
    requires links { Links ax.now ay.now bx.now by.now (length state.now) }
    requires k_value { (is_unvisited state.now k ≡ true) × ((x : ℕ) → is_unvisited state.now x ≡ true → k ≤ x) }
    ensures find_left_top_link_says { FindLeftTopLinkSays ax.now ay.now bx.now by.now nxt.now prv.now
        lead.now state.now k held result }
    ensures names_unvisited { NamesUnvisited state.now result }
{
    let f = nxt[2 * k];
    if CROSS <= f {
        if let Some(held) = held {
            return Some(next_below(prv, state, held));
        }
        return Some(topmost::topmost(nxt, state, k));
    }
    let named = leading(ax, ay, bx, by, lead[k], k, wide(f) / 2);
    next::only_unvisited(state, named)
}
