// The line of a contour, written into a slice of bytes.
//
// Every writer takes the buffer and a position, writes its bytes there and answers the position after them.
#![tactic(auto)]

ghost use Rattle.std.specs.Prelude.{◌+◌, ◌≤◌, length};
ghost use Rattle.writing.specs.Write.{Wrote};
ghost use Rattle.print_text.specs.Decimal.{said};
ghost use Rattle.print_lines.specs.Lines.{role_text, contour_line};
ghost use Rattle.print_contour.specs.Promises.{WriteContourLineSays};

use table::DROPPED;

// What a contour is, and its owner.
fn write_role(kind: u8, owner: u16, out: &mut [u8], at: usize) -> usize
    requires { at + length (said (role_text kind owner) owner) ≤ length out.old }
    ensures { Wrote out.old out.new at result (said (role_text kind owner) owner) }
{
    if kind == 0 {
        print_text::write_said(b" hull ", owner as u64, out, at)
    } else if owner == DROPPED {
        print_text::write_said(b" dropped ", owner as u64, out, at)
    } else {
        print_text::write_said(b" hole ", owner as u64, out, at)
    }
}

// A contour: its number, what it is, its owner and how many points it has.
pub fn write_contour_line(
    number: usize,
    kind: u8,
    owner: u16,
    len: u32,
    out: &mut [u8],
    at: usize,
) -> usize
    requires { at + length (contour_line number kind owner len) ≤ length out.old }
    ensures { WriteContourLineSays number kind owner len out.old at out.new result }
{
    let a = print_text::write_decimal(number as u64, out, at);
    let b = write_role(kind, owner, out, a);
    let c = print_text::write_said(b" ", len as u64, out, b);
    print_text::write_text(b"\n", out, c)
}
