// The line of a point, written into a slice of bytes.
//
// A writer takes the buffer and a position, writes its bytes there and answers the position after them.
#![tactic(auto)]

ghost use Rattle.std.specs.Prelude.{◌+◌, ◌≤◌, length};
ghost use Rattle.print_lines.specs.Lines.{point_line};
ghost use Rattle.print_point.specs.Promises.{WritePointSays};

// A point: its x, then its y.
pub fn write_point(x: i32, y: i32, out: &mut [u8], at: usize) -> usize
    requires { at + length (point_line x y) ≤ length out.old }
    ensures { WritePointSays x y out.old at out.new result }
{
    let a = print_text::write_signed(x, out, at);
    let b = print_text::write_text(b" ", out, a);
    let c = print_text::write_signed(y, out, b);
    print_text::write_text(b"\n", out, c)
}
