// A refusal, written into a slice of bytes.
#![tactic(auto)]

ghost use Rattle.std.specs.Prelude.{◌≤◌, length};
ghost use Rattle.writing.specs.Cuts.{Cut};
ghost use Rattle.print.specs.Room.{refusal_bytes};
ghost use Rattle.print_refusal.specs.Promises.{WriteRefusalSays};

// "A program's refusal prints one line, as `refused 3 at 2`".
pub fn write_refusal(number: u32, place: usize, out: &mut [u8]) -> usize
    requires { refusal_bytes ≤ length out.old }
    ensures write_refusal_says { WriteRefusalSays number place out.old out.new result }
    ensures cut { Cut result out.new }
{
    let a = print_text::write_said(b"refused ", number as u64, out, 0);
    let b = print_text::write_said(b" at ", place as u64, out, a);
    print_text::write_text(b"\n", out, b)
}
