// Millimetres: whole numbers made floats with nothing lost, and divided once. One unit is 0.01 mm.
#![tactic(auto)]

ghost use Rattle.std.specs.Prelude.{◌≡◌, ◌^◌, ◌≤◌, nat_abs};
ghost use Rattle.millimetres.specs.Millimetres.{millimetres};
ghost use Rattle.millimetres.specs.Promises.{SquareMillimetresSays, FrameOfSays, NoNumberSays};

use extent::Extent;

// A frame in millimetres: the least x and y are left and bottom, the greatest right and top.
#[derive(Clone, Copy)]
pub struct Frame {
    pub left: f64,
    pub bottom: f64,
    pub right: f64,
    pub top: f64,
}

// A doubled area in square millimetres.
pub fn square_millimetres(doubled: i64) -> f64
    requires { nat_abs doubled ≤ 2 ^ 53 }
    ensures { SquareMillimetresSays doubled result }
{
    doubled as f64 / 20000.0
}

// A coordinate in millimetres.
fn millimetres(units: i32) -> f64
    ensures { result ≡ millimetres units }
{
    units as f64 / 100.0
}

// An extent in millimetres.
pub fn frame_of(e: Extent) -> Frame
    ensures { FrameOfSays e result }
{
    let left = millimetres(e.left);
    let bottom = millimetres(e.bottom);
    let right = millimetres(e.right);
    let top = millimetres(e.top);
    Frame {
        left: left,
        bottom: bottom,
        right: right,
        top: top,
    }
}

// What stands where there is no number: a sum that takes it in is none either.
pub fn no_number() -> f64
    ensures { NoNumberSays result }
{
    0.0 / 0.0
}
