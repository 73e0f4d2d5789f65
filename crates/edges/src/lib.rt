// One edge and one anchor: whether the edge lies under, and which of two edges is nearer.
#![tactic(auto)]

ghost use Rattle.std.specs.Prelude.{◌≡◌, ℕ, ◌≤◌, nat_abs, ◌*ℤ◌};
ghost use Rattle.turn.specs.Points.{Short, product_bound, span};
ghost use Rattle.edges.specs.Edges.{height, wins_tie, On, gap_bound};
ghost use Rattle.edges.specs.Promises.{LiesUnderSays, IsNearerSays};

use anchor::Anchor;
use turn::{Point, Vector};

// An edge from its left end to its right end, with its contour's kind (0 hull, 1 hole) and number.
#[derive(Clone, Copy)]
pub struct Edge {
    pub left: Point,
    pub right: Point,
    pub kind: u8,
    pub contour: u32,
}

// The vertical gap from the edge up to the anchor, times the edge's run.
fn height_over(a: Anchor, e: Edge) -> i64
    requires { On a e }
    ensures { (result ≡ height a e) × (nat_abs result ≤ product_bound) }
{
    turn::turn_of(e.left, e.right, a.at)
}

// The anchor is strictly above the edge, or on it with its anchor edge strictly counterclockwise of it.
pub fn lies_under(a: Anchor, e: Edge) -> bool
    requires { On a e }
    ensures { LiesUnderSays a e result }
{
    let h = height_over(a, e);
    if 0 < h {
        return true;
    }
    if h < 0 {
        return false;
    }
    0 < turn::cross_product(turn::between(e.left, e.right), turn::between(a.at, a.to))
}

// A height, or a rise, times a run: below 2^61.
fn scaled(h: i64, run: i64) -> i64
    requires { (nat_abs h ≤ product_bound) × (nat_abs run ≤ span) }
    ensures { (result ≡ h *ℤ run) × (nat_abs result ≤ gap_bound) }
{
    h * run
}

// Of two edges with one gap: the greatest slope, then hulls before holes, then the lower number.
fn wins_tie(u: Vector, v: Vector, kind: u8, other_kind: u8, contour: u32, other: u32) -> bool
    requires { (Short u) × (Short v) }
    ensures { result ≡ wins_tie u v kind other_kind contour other }
{
    let slope = scaled(u.y, v.x);
    let other_slope = scaled(v.y, u.x);
    if other_slope < slope {
        return true;
    }
    if slope < other_slope {
        return false;
    }
    (kind < other_kind) | (!(other_kind < kind) & (contour < other))
}

// e is nearer to the anchor than f: by the gaps as fractions, then as `wins_tie` says.
pub fn is_nearer(a: Anchor, e: Edge, f: Edge) -> bool
    requires { (On a e) × (On a f) }
    ensures { IsNearerSays a e f result }
{
    let u = turn::between(e.left, e.right);
    let v = turn::between(f.left, f.right);
    let gap = scaled(height_over(a, e), v.x);
    let other_gap = scaled(height_over(a, f), u.x);
    if gap < other_gap {
        return true;
    }
    if other_gap < gap {
        return false;
    }
    wins_tie(u, v, e.kind, f.kind, e.contour, f.contour)
}
