// A hole's anchor and its anchor edge.
#![tactic(auto)]

ghost use Rattle.std.specs.Prelude.{◌≡◌, ℕ, ◌+◌, ◌*◌, ◌^◌, ◌<◌, ◌≤◌, length};
ghost use Rattle.turn.specs.Points.{Grid, OnGrid};
ghost use Rattle.anchor.specs.Anchor.{anchor_position_in, lower_end, lowest_there};
ghost use Rattle.anchor.specs.LowestEdges.{NextVisit};
ghost use Rattle.anchor.specs.Promises.{AnchorPointSays, LeftBottomSegmentFromSays};

use turn::Point;

// A hole's anchor and the other end of its anchor edge.
#[derive(Clone, Copy, Debug, PartialEq, Eq)]
pub struct Anchor {
    pub at: Point,
    pub to: Point,
}

// The position of the anchor of a contour whose first point stands at a position.
fn anchor_position(from: usize, clockwise: bool) -> usize
    requires { from + 1 < 2 ^ 64 }
    ensures { result ≡ anchor_position_in from clockwise }
{
    if clockwise { from + 1 } else { from }
}

// The anchor of a contour whose first point stands at a position.
pub fn anchor_point(points: &[i32], from: usize, clockwise: bool) -> Point
    requires { (from + 2) * 2 ≤ length points.now }
    ensures { AnchorPointSays points.now from clockwise result }
{
    table::point_in(points, anchor_position(from, clockwise))
}

// Of the edges from a point to p and to q the lower one's other end.
fn lower_end(at: Point, p: Point, q: Point) -> Point
    requires { (OnGrid at) × (OnGrid p) × (OnGrid q) }
    ensures { result ≡ lower_end at p q }
{
    if turn::clockwise(at, p, q) { q } else { p }
}

// The first position from p on, and before `to`, at which the contour passes the point `at`; `to` where there is none.
fn next_visit(points: &[i32], at: Point, p: usize, to: usize) -> usize
    requires { (p ≤ to) × (to * 2 ≤ length points.now) }
    ensures { NextVisit points.now at p to result }
{
    for q in p..to {
        if !turn::differ(table::point_in(points, q), at) {
            return q;
        }
    }
    to
}

// The lowest edge so far, by its other end, beside both edges at position p, where the contour passes the point `at`.
fn lowest_there(points: &[i32], from: usize, to: usize, at: Point, p: usize, best: Point) -> Point
    requires { (from ≤ p) × (p < to) × (to * 2 ≤ length points.now) × (Grid points.now) × (OnGrid at) × (OnGrid best) }
    ensures { result ≡ lowest_there points.now from to at p best }
{
    let next = table::point_in(points, table::next_position(p, from, to));
    let previous = table::point_in(points, table::previous_position(p, from, to));
    lower_end(at, lower_end(at, best, next), previous)
}

// The anchor edge of the contour of so many points from a position on: the lowest of all its edges at the anchor.
// The search for the next visit has a loop of its own: nearly all points are none, and nothing else is kept while it runs.
pub fn left_bottom_segment_from(points: &[i32], from: usize, len: usize, clockwise: bool) -> Anchor
    requires { (3 ≤ len) × ((from + len) * 2 ≤ length points.now) × (Grid points.now) }
    ensures { LeftBottomSegmentFromSays points.now from len clockwise result }
{
    let to = from + len;
    let at = anchor_point(points, from, clockwise);
    let mut best = table::point_in(points, anchor_position(from, clockwise) + 1);
    let mut p = next_visit(points, at, from, to);
    while p < to {
        best = lowest_there(points, from, to, at, p, best);
        p = next_visit(points, at, p + 1, to);
    }
    Anchor { at, to: best }
}
