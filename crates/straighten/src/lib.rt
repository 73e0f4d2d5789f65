// Points on a straight line are dropped from what extraction wrote, in one pass over it. Where no contour has a spike this is the rule of `straight`.
#![tactic(auto)]

ghost use Rattle.std.specs.Prelude.{◌≡◌, ◌+◌, ◌*◌, ◌<◌, ◌≤◌, length};
ghost use Rattle.std.proofs.lemmas.List.Edits.{sets};
ghost use Rattle.laws.specs.Test.{pick};
ghost use Rattle.turn.specs.Points.{Short};
ghost use Rattle.leave.specs.Points.{put};
ghost use Rattle.walk.specs.Code.{paste};
ghost use Rattle.straight.specs.Corners.{all_corners};
ghost use Rattle.keep.specs.Outcome.{firsts, sum};
ghost use Rattle.straighten.specs.Runs.{level, run, RunOnGrid, contours_of, corners_of, sizes, joined, Stands};
ghost use Rattle.straighten.specs.Promises.{DropStraightSays};

use keep::Counts;
use leave::put_point;
use table::point_in;
use turn::{Point, Vector, between, cross_product, wide};
use zeros::zero_from;

// A corner is written as point number `to`; a point where the edge to it, u, and the edge from it, v, lie on one line is not.
fn keep_corner(points: &mut [i32], u: Vector, v: Vector, p: Point, to: usize) -> usize
    requires { (Short u) × (Short v) × (to * 2 + 1 < length points.old) }
    ensures value { result ≡ pick (level u v) to (to + 1) }
    ensures points_after { points.new ≡ pick (level u v) points.old (put points.old to p) }
{
    if cross_product(u, v) == 0 {
        to
    } else {
        put_point(points, to, p);
        to + 1
    }
}

// The corners of the contour of `size` points from number `from` on are written from number `to` on.
fn keep_corners(points: &mut [i32], from: usize, size: usize, to: usize) -> usize
    requires { (to ≤ from) × (0 < size) × ((from + size) * 2 ≤ length points.old) × (RunOnGrid points.old from size) }
    ensures value { result ≡ to + length (all_corners (run points.old from size)) }
    ensures points_after { points.new ≡ paste points.old to (all_corners (run points.old from size)) }
{
    let end = from + size;
    let home = point_in(points, from);
    let last = point_in(points, end - 1);
    let mut u = between(last, home);
    let mut p = home;
    let mut w = to;
    for i in from + 1..end {
        let next = point_in(points, i);
        let v = between(p, next);
        w = keep_corner(points, u, v, p, w);
        u = v;
        p = next;
    }
    keep_corner(points, u, between(p, home), p, w)
}

// The pass: the corners of each contour are written after those of the contour before it, and the table has their place and number.
fn pass_contours(points: &mut [i32], first: &mut [u32], len: &mut [u32], contours: usize) -> usize
    requires { Stands points.old first.old len.old contours }
    ensures value { result ≡ sum (sizes (corners_of (contours_of points.old len.old contours))) }
    ensures points_after { points.new
        ≡ paste points.old 0 (joined (corners_of (contours_of points.old len.old contours))) }
    ensures first_after { first.new
        ≡ sets first.old 0 (firsts 0 (sizes (corners_of (contours_of points.old len.old contours)))) }
    ensures len_after { len.new ≡ sets len.old 0 (sizes (corners_of (contours_of points.old len.old contours))) }
{
    let mut at = 0;
    let mut to = 0;
    for c in 0..contours {
        let size = wide(len[c]);
        let end = keep_corners(points, at, size, to);
        first[c] = to as u32;
        len[c] = (end - to) as u32;
        at += size;
        to = end;
    }
    to
}

// Every contour of a table loses its points on a straight line; past the last point that is left the list is zero.
pub fn drop_straight(points: &mut [i32], first: &mut [u32], len: &mut [u32], c: Counts) -> Counts
    requires { Stands points.old first.old len.old c.contours }
    ensures { DropStraightSays points.old first.old len.old c result points.new first.new
        len.new }
{
    let to = pass_contours(points, first, len, c.contours);
    zero_from(points, to * 2);
    Counts { points: to, ..c }
}
