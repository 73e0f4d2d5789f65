// The quick question of checks 3 and 4: whether either finds anything, asked by fewer and narrower comparisons.
#![tactic(auto)]

ghost use Rattle.std.specs.Prelude.{◌≡◌, ℕ, length};
ghost use Rattle.turn.specs.declared.Point.{Point};
ghost use Rattle.graph.specs.Graph.{point_at};
ghost use Rattle.quick_links.specs.Quick.{misplaced_after, last_id, misnamed_past};
ghost use Rattle.quick_links.specs.Promises.{AnyMisplacedSays, AnyMisnamedSays, AnyMisflaggedSays};

use each_link::{misflagged, misplaced};
use graph::point_at;
use turn::{MAX_COORDINATE, Point, before, outside};

// Checks 3 and 4 at once: whether a link's points a and b are wrong, where p is the previous link's a. With every a in
// order and every b after its a, no x lies below the first link's a or above its own b: only b's x is asked, from above.
fn misplaced_after(p: Point, a: Point, b: Point) -> bool
    ensures { result ≡ misplaced_after p a b }
{
    outside(a.y) | (MAX_COORDINATE < b.x) | outside(b.y) | !before(a, b) | before(a, p)
}

// Whether checks 3 and 4 find some link's points out of bounds or out of order. No link ends the loop, so that the
// compiler may look at several at once; for its sake points, ids and flags have a loop each.
pub fn any_misplaced(ax: &[i32], ay: &[i32], bx: &[i32], by: &[i32]) -> bool
    requires { (length ay.now ≡ length ax.now) × (length bx.now ≡ length ax.now) × (length by.now ≡ length ax.now) }
    ensures { (let a : ℕ → Point = point_at ax.now ay.now in
        AnyMisplacedSays a (point_at bx.now by.now) (length ax.now) result) }
{
    let n = ax.len();
    if n == 0 {
        return false;
    }
    let mut wrong = misplaced(point_at(ax, ay, 0), point_at(bx, by, 0));
    for k in 1..n {
        wrong |= misplaced_after(
            point_at(ax, ay, k - 1),
            point_at(ax, ay, k),
            point_at(bx, by, k),
        );
    }
    wrong
}

// The greatest id of m nodes, in the ids' 32 bits; 0 where there is no node.
fn last_id(m: usize) -> u32
    ensures { result ≡ last_id m }
{
    m.saturating_sub(1).min(u32::MAX as usize) as u32
}

// Whether a link's ids are past the last one, or equal.
fn misnamed_past(last: u32, aid: u32, bid: u32) -> bool
    ensures { result ≡ misnamed_past last aid bid }
{
    (last < aid) | (last < bid) | (aid == bid)
}

// Whether the ids of some link are not two of the m, compared in their own 32 bits.
pub fn any_misnamed(m: usize, aid: &[u32], bid: &[u32]) -> bool
    requires { length bid.now ≡ length aid.now }
    ensures { AnyMisnamedSays m aid.now bid.now result }
{
    let last = last_id(m);
    let mut wrong = false;
    for (&a, &b) in aid.iter().zip(bid) {
        wrong |= misnamed_past(last, a, b);
    }
    wrong
}

// Whether some top or state is not 0 or 1.
#[tactic(auto, using(laws::specs::Lowest::some_more))]
pub fn any_misflagged(top: &[u8], state: &[u8]) -> bool
    requires { length state.now ≡ length top.now }
    ensures { AnyMisflaggedSays top.now state.now result }
{
    let mut wrong = false;
    for (&t, &s) in top.iter().zip(state) {
        wrong |= misflagged(t, s);
    }
    wrong
}
