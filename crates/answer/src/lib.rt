// What the program answers to a file: read, extracted, bound and printed, from one slice of bytes into another.
#![tactic(auto)]

ghost use Rattle.std.specs.Prelude.{◌≡◌, ◌≤◌, length};
ghost use Rattle.print.specs.Room.{answer_bytes};
ghost use Rattle.writing.specs.Write.{Wrote};
ghost use Rattle.answer.specs.AnswerText.{answer_text, zero_states, kept_states};
ghost use Rattle.answer.specs.Promises.{AnswerSays};

use format_records::{MAX_ENTRIES, MAX_NODES};
use print::ANSWER_BYTES;
use turn::MAX_LINKS;

// The starts of as many nodes as there may be, and the end of the last.
const STARTS: usize = MAX_NODES + 1;

// The answer to a file, from the start of `out`, over visit states that "are all zero before reading".
fn answer_over(input: &[u8], state: &mut [u8], out: &mut [u8]) -> usize
    requires state_value { state.old ≡ zero_states }
    requires answer_bytes_in_bounds { answer_bytes ≤ length out.old }
    ensures wrote { Wrote out.old out.new 0 result (answer_text input.now) }
    ensures state_after { state.new ≡ kept_states input.now }
{
    let mut ax = [0i32; MAX_LINKS];
    let mut ay = [0i32; MAX_LINKS];
    let mut bx = [0i32; MAX_LINKS];
    let mut by = [0i32; MAX_LINKS];
    let mut a_id = [0u32; MAX_LINKS];
    let mut b_id = [0u32; MAX_LINKS];
    let mut top = [0u8; MAX_LINKS];
    let mut start = [0u32; STARTS];
    let mut list = [0u32; MAX_ENTRIES];
    answer_file::answer_file(
        input, &mut ax, &mut ay, &mut bx, &mut by, &mut a_id, &mut b_id, &mut top, state,
        &mut start, &mut list, out,
    )
}

// The answer to a file, from the start of `out`. Where that has no room for the longest answer nothing is written.
// "It keeps 4,096 visit states, all zero before reading".
pub fn answer(input: &[u8], out: &mut [u8]) -> usize
    ensures { AnswerSays input.now out.old out.new result }
{
    if out.len() < ANSWER_BYTES {
        return 0;
    }
    let mut state = [0u8; MAX_LINKS];
    answer_over(input, &mut state, out)
}
