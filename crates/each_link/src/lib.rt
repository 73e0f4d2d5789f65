// Checks 3 and 4, link by link: each link by itself, and the lowest that is wrong or out of order, or that there is none.
#![tactic(auto)]

ghost use Rattle.std.specs.Prelude.{◌≡◌, ◌<◌, ◌≤◌, length};
ghost use Rattle.graph.specs.Graph.{Lent, lent, point_at};
ghost use Rattle.graph.specs.Checks.{misnamed, link_wrong};
ghost use Rattle.graph.specs.Passes.{Even};
ghost use Rattle.each_link.specs.Promises.{MisplacedSays, MisflaggedSays, BadLinkSays, OutOfOrderSays};

use graph::point_at;
use turn::{Point, before, off_grid};

// Check 3, of the shared graph: whether a link's points are out of bounds, or a is not strictly before b.
pub fn misplaced(a: Point, b: Point) -> bool
    ensures { MisplacedSays a b result }
{
    off_grid(a) | off_grid(b) | !before(a, b)
}

// Whether a link's node ids are not two of the m.
fn misnamed(m: usize, aid: u32, bid: u32) -> bool
    ensures { result ≡ misnamed m aid bid }
{
    (m <= aid as usize) | (m <= bid as usize) | (aid == bid)
}

// Check 3, of one band: whether a top or a state is not 0 or 1.
pub fn misflagged(top: u8, state: u8) -> bool
    ensures { MisflaggedSays top state result }
{
    (1 < top) | (1 < state)
}

// Whether check 3 refuses link k.
fn link_wrong(
    ax: &[i32],
    ay: &[i32],
    bx: &[i32],
    by: &[i32],
    aid: &[u32],
    bid: &[u32],
    start: &[u32],
    list: &[u32],
    top: &[u8],
    state: &[u8],
    k: usize,
) -> bool
    requires even { Even (lent ax.now ay.now bx.now by.now aid.now bid.now start.now list.now) }
    requires top_len { (length top.now ≡ length aid.now) × (length state.now ≡ length aid.now) }
    requires in_bounds { (1 ≤ length start.now) × (k < length aid.now) }
    ensures { (let g : Lent = lent ax.now ay.now bx.now by.now aid.now
        bid.now start.now list.now in
        result ≡ link_wrong g top.now state.now k) }
{
    misplaced(point_at(ax, ay, k), point_at(bx, by, k))
        | misnamed(start.len() - 1, aid[k], bid[k])
        | misflagged(top[k], state[k])
}

// The lowest link that check 3 refuses, among m nodes, or none.
pub fn bad_link(
    ax: &[i32],
    ay: &[i32],
    bx: &[i32],
    by: &[i32],
    aid: &[u32],
    bid: &[u32],
    start: &[u32],
    list: &[u32],
    top: &[u8],
    state: &[u8],
) -> Option<usize>
    requires even { Even (lent ax.now ay.now bx.now by.now aid.now bid.now start.now list.now) }
    requires top_len { (length top.now ≡ length aid.now) × (length state.now ≡ length aid.now) }
    requires in_bounds { 1 ≤ length start.now }
    ensures { (let g : Lent = lent ax.now ay.now bx.now by.now aid.now
        bid.now start.now list.now in
        BadLinkSays g top.now state.now result) }
{
    for k in 0..aid.len() {
        if link_wrong(ax, ay, bx, by, aid, bid, start, list, top, state, k) {
            return Some(k);
        }
    }
    None
}

// Check 4, of the shared graph: the lowest link whose a is before the previous link's a, or none.
pub fn out_of_order(ax: &[i32], ay: &[i32]) -> Option<usize>
    requires { length ay.now ≡ length ax.now }
    ensures { OutOfOrderSays (point_at ax.now ay.now) (length ax.now) result }
{
    for k in 1..ax.len() {
        if before(point_at(ax, ay, k), point_at(ax, ay, k - 1)) {
            return Some(k);
        }
    }
    None
}
