// The extent of a run of points in whole units: the least and the greatest x and y.
#![tactic(auto)]

ghost use Rattle.std.specs.Prelude.{◌≡◌, ◌≤◌, length};
ghost use Rattle.extent.specs.Extent.{alone, spread};
ghost use Rattle.extent.specs.Promises.{ExtentOfSays};

use table::point_in;
use turn::Point;

// How far points reach: the least x and y are left and bottom, the greatest right and top.
#[derive(Clone, Copy)]
pub struct Extent {
    pub left: i32,
    pub bottom: i32,
    pub right: i32,
    pub top: i32,
}

// The extent of one point.
fn alone(p: Point) -> Extent
    ensures { result ≡ alone p }
{
    Extent {
        left: p.x,
        bottom: p.y,
        right: p.x,
        top: p.y,
    }
}

// An extent with one point more.
fn spread(e: Extent, p: Point) -> Extent
    ensures { result ≡ spread e p }
{
    Extent {
        left: e.left.min(p.x),
        bottom: e.bottom.min(p.y),
        right: e.right.max(p.x),
        top: e.top.max(p.y),
    }
}

// The extent of a run of points, x and y in turn, of which there is at least one.
pub fn extent_of(points: &[i32]) -> Extent
    requires { 2 ≤ length points.now }
    ensures { ExtentOfSays points.now result }
{
    let mut e = alone(point_in(points, 0));
    for k in 1..points.len() / 2 {
        e = spread(e, point_in(points, k));
    }
    e
}
