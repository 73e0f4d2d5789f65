// The contour table: its points, the way round a contour, and its hulls counted.
#![tactic(auto)]

ghost use Rattle.std.specs.Prelude.{◌+◌, ◌*◌, ◌^◌, ◌<◌, ◌≤◌, length};
ghost use Rattle.table.specs.Promises.{PointInSays, NextPositionSays, PreviousPositionSays, OneMoreIfHullSays, HullsBeforeSays};

use turn::Point;

// The contour table as it is lent: the points of all contours, x and y in turn, and at a number c contour c's first point,
// how many points it has, and its kind.
#[derive(Clone, Copy)]
pub struct Contours<'a> {
    pub points: &'a [i32],
    pub first: &'a [u32],
    pub len: &'a [u32],
    pub kind: &'a [u8],
}

// The most contours of a table: each has at least 3 points.
pub const MAX_CONTOURS: usize = turn::MAX_LINKS / 3;

// The owner of a hole where there is no hull.
pub const DROPPED: u16 = 65535;

// The point at position p of a list of x and y in turn.
pub fn point_in(points: &[i32], p: usize) -> Point
    requires { p * 2 + 1 < length points.now }
    ensures { PointInSays points.now p result }
{
    let i = p * 2;
    Point {
        x: points[i],
        y: points[i + 1],
    }
}

// The position after p, round a contour that stands from a position up to another.
pub fn next_position(p: usize, from: usize, to: usize) -> usize
    requires { p < to }
    ensures { NextPositionSays from to p result }
{
    if p + 1 == to { from } else { p + 1 }
}

// The position before p, round a contour that stands from a position up to another.
pub fn previous_position(p: usize, from: usize, to: usize) -> usize
    requires { (from ≤ p) × (p < to) }
    ensures { PreviousPositionSays from to p result }
{
    if p == from { to - 1 } else { p - 1 }
}

// How many of the first n contours are hulls.
pub fn hulls_before(kind: &[u8], n: usize) -> usize
    requires { n ≤ length kind.now }
    ensures { HullsBeforeSays kind.now n result }
{
    // By hand: `filter` and `count` jump at every kind, and execute twice as many instructions.
    let mut count = 0;
    for k in &kind[..n] {
        count = one_more_if_hull(*k, count);
    }
    count
}

// The hulls counted, with a contour more.
pub fn one_more_if_hull(kind: u8, count: usize) -> usize
    requires { count + 1 < 2 ^ 64 }
    ensures { OneMoreIfHullSays kind count result }
{
    if kind == 0 { count + 1 } else { count }
}
