// The lines of the printed answer as definitions; the first line, written into a slice of bytes.
//
// Every writer takes the buffer and a position, writes its bytes there and answers the position after them.
#![tactic(auto)]

ghost use Rattle.std.specs.Prelude.{◌≤◌, length};
ghost use Rattle.print_lines.specs.Lines.{header};
ghost use Rattle.print_lines.specs.Promises.{WriteHeaderSays};

// The numbers of the answer's first line.
#[derive(Clone, Copy)]
pub struct Totals {
    pub contours: usize,
    pub shapes: usize,
    pub points: usize,
    pub dropped: usize,
}

// The first line.
pub fn write_header(t: Totals, out: &mut [u8]) -> usize
    requires { length (header t) ≤ length out.old }
    ensures { WriteHeaderSays t out.old out.new result }
{
    let a = print_text::write_said(b"contours ", t.contours as u64, out, 0);
    let b = print_text::write_said(b" shapes ", t.shapes as u64, out, a);
    let c = print_text::write_said(b" points ", t.points as u64, out, b);
    let d = print_text::write_said(b" dropped ", t.dropped as u64, out, c);
    print_text::write_text(b"\n", out, d)
}
