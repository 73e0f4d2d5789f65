// The points of a walk (document 01, "Walking", rule 5): that of the node that it leaves, read from the lists and written.
#![tactic(auto)]

ghost use Rattle.std.specs.Prelude.{◌+◌, ◌*◌, ◌<◌, length};
ghost use Rattle.rings.specs.Ends.{link_of};
ghost use Rattle.leave.specs.Promises.{StartPointSays, PutPointSays};

use turn::Point;

// The point that a walk leaves which arrives at end h: that of the far end.
pub fn start_point(ax: &[i32], ay: &[i32], bx: &[i32], by: &[i32], h: usize) -> Point
    requires { (link_of h < length ax.now) × (link_of h < length ay.now) × (link_of h < length bx.now) × (link_of h < length by.now) }
    ensures { StartPointSays ax.now ay.now bx.now by.now h result }
{
    let k = h / 2;
    let a = Point { x: ax[k], y: ay[k] };
    let b = Point { x: bx[k], y: by[k] };
    if h % 2 == 0 { b } else { a }
}

// Point number `at` is written.
pub fn put_point(points: &mut [i32], at: usize, p: Point)
    requires { at * 2 + 1 < length points.old }
    ensures { PutPointSays points.old at p points.new }
{
    let i = at * 2;
    let x = p.x;
    let y = p.y;
    points[i] = x;
    points[i + 1] = y;
}
