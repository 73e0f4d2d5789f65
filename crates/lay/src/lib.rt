// The pass over the nodes: checks 5 to 7 of each, and where a walk goes on at the ends there.
#![tactic(auto)]

ghost use Rattle.std.specs.Prelude.{◌≡◌, List, ℕ, ◌-◌, ◌*◌, ◌<◌, ◌≤◌, length, get_or};
ghost use Rattle.turn.specs.Limits.{max_links};
ghost use Rattle.turn.specs.declared.Point.{Point};
ghost use Rattle.graph.specs.Graph.{lent, graph_of, point_at};
ghost use Rattle.graph.specs.Passes.{Rising};
ghost use Rattle.graph.specs.Known.{Points, Grids, Runs};
ghost use Rattle.rings.specs.Field.{Laid};
ghost use Rattle.lay.specs.declared.Found.TheVariants.{Nothing};
ghost use Rattle.lay.specs.Kinds.{BridgesLaid, CrossesLaid, BridgesKept};
ghost use Rattle.lay.specs.Promises.{LayNodesSays};

use bridge::lay_bridge;
use graph::entries;
use spokes::lay_cross;
use turn::wide;

// What the pass over the `Bridge`s finds: something wrong; or nothing, and all nodes are `Bridge`s, or some are `Cross`es.
#[derive(Clone, Copy)]
enum Passed {
    Wrong,
    Bridges,
    Crosses,
}

// What the pass over the nodes finds: a fault; or none, and the ends at every node are laid; or a `Cross` of more entries than it is to lay, where
// it stops.
#[derive(Clone, Copy)]
pub enum Found {
    Fault,
    Nothing,
    Wide,
}

// Checks 5 to 7 of every `Bridge`. Where they find nothing wrong, the ends at each are laid. Its two entries are read in their places.
fn lay_bridges(
    ax: &[i32],
    ay: &[i32],
    bx: &[i32],
    by: &[i32],
    aid: &[u32],
    bid: &[u32],
    start: &[u32],
    list: &[u32],
    state: &[u8],
    nxt: &mut [u32],
    lead: &mut [u8],
) -> Passed
    requires points { Points ax.now ay.now bx.now by.now (length aid.now) }
    requires grids { Grids ax.now ay.now bx.now by.now (length aid.now) }
    requires state_len { length state.now ≡ length aid.now }
    requires runs { (Runs ax.now ay.now bx.now by.now aid.now bid.now) × (Rising start.now list.now) }
    requires aid_len_bound { (length aid.now ≤ max_links) × (2 * length aid.now ≤ length nxt.old) × (length aid.now ≤ length lead.old) }
    requires by_index { (k : ℕ) → get_or lead.old k 0 ≡ 0 }
    ensures { BridgesLaid (lent ax.now ay.now bx.now by.now aid.now bid.now
        start.now list.now) state.now (length start.now - 1) nxt.new lead.new result }
{
    let mut crosses = false;
    let mut from = 0;
    for (v, &end) in start[1..].iter().enumerate() {
        let to = wide(end);
        if to == from + 2 {
            let e = wide(list[from]);
            let f = wide(list[from + 1]);
            if lay_bridge(ax, ay, bx, by, aid, bid, state, v, e, f, nxt, lead) {
                return Passed::Wrong;
            }
        } else {
            crosses = true;
        }
        from = to;
    }
    if crosses {
        Passed::Crosses
    } else {
        Passed::Bridges
    }
}

// Whether checks 5 to 7 find something wrong with some `Cross`. Where they find nothing, the ends at each are laid. It stops at one of more than
// `most` entries. In a loop of its own: in the loop over the `Bridge`s `lay_cross` would take the registers of most nodes.
fn lay_crosses(
    ax: &[i32],
    ay: &[i32],
    bx: &[i32],
    by: &[i32],
    aid: &[u32],
    bid: &[u32],
    start: &[u32],
    list: &[u32],
    state: &[u8],
    most: usize,
    nxt: &mut [u32],
    prv: &mut [u32],
) -> Found
    requires points { Points ax.now ay.now bx.now by.now (length aid.now) }
    requires grids { Grids ax.now ay.now bx.now by.now (length aid.now) }
    requires state_len { length state.now ≡ length aid.now }
    requires runs { (Runs ax.now ay.now bx.now by.now aid.now bid.now) × (Rising start.now list.now) }
    requires aid_len_bound { (length aid.now ≤ max_links) × (2 * length aid.now ≤ length nxt.old) × (2 * length aid.now ≤ length prv.old)
        × (most ≤ 2 * max_links) }
    ensures crosses_laid { CrossesLaid (lent ax.now ay.now bx.now by.now aid.now bid.now
        start.now list.now) state.now (length start.now - 1) most nxt.new prv.new result }
    ensures bridges_kept { BridgesKept (lent ax.now ay.now bx.now by.now aid.now bid.now
        start.now list.now) nxt.old nxt.new }
{
    let mut from = 0;
    for (v, &end) in start[1..].iter().enumerate() {
        let to = wide(end);
        if to != from + 2 {
            if from + most < to {
                return Found::Wide;
            }
            let here = entries(start, list, v);
            if lay_cross(ax, ay, bx, by, aid, bid, state, here, v, nxt, prv) {
                return Found::Fault;
            }
        }
        from = to;
    }
    Found::Nothing
}

// Whether checks 5 to 7 find something wrong with some node. Where they find nothing, the ends at every node are laid. It stops at a `Cross` of
// more than `most` entries.
pub fn lay_nodes(
    ax: &[i32],
    ay: &[i32],
    bx: &[i32],
    by: &[i32],
    aid: &[u32],
    bid: &[u32],
    start: &[u32],
    list: &[u32],
    state: &[u8],
    most: usize,
    nxt: &mut [u32],
    prv: &mut [u32],
    lead: &mut [u8],
) -> Found
    requires points { Points ax.now ay.now bx.now by.now (length aid.now) }
    requires grids { Grids ax.now ay.now bx.now by.now (length aid.now) }
    requires state_len { length state.now ≡ length aid.now }
    requires runs { (Runs ax.now ay.now bx.now by.now aid.now bid.now) × (Rising start.now list.now) }
    requires aid_len_bound { (length aid.now ≤ max_links) × (2 * length aid.now ≤ length nxt.old) × (2 * length aid.now ≤ length prv.old)
        × (length aid.now ≤ length lead.old) × (most ≤ 2 * max_links) }
    requires by_index { (k : ℕ) → get_or lead.old k 0 ≡ 0 }
    ensures point { (let a : ℕ → Point = point_at ax.now ay.now in
        let b : ℕ → Point = point_at bx.now by.now in
        LayNodesSays a b aid.now bid.now start.now list.now state.now most result) }
    ensures laid { result ≡ Nothing → (top : List ℕ) (v : ℕ) → v < length start.now - 1 → Laid (graph_of (lent ax.now
        ay.now bx.now by.now aid.now bid.now start.now list.now) top)
        state.now v nxt.new prv.new lead.new }
{
    match lay_bridges(ax, ay, bx, by, aid, bid, start, list, state, nxt, lead) {
        Passed::Wrong => Found::Fault,
        Passed::Bridges => Found::Nothing,
        Passed::Crosses => lay_crosses(
            ax, ay, bx, by, aid, bid, start, list, state, most, nxt, prv,
        ),
    }
}
