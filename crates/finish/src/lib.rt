// What extraction leaves once the scan has ended: after 8 and 9 the states as before and nothing written, after success zeros past
// what was written.
#![tactic(auto)]

ghost use Rattle.finish.specs.Finish.{buffers, Holds};
ghost use Rattle.finish.specs.Promises.{FinishSays};

use clear::{clear, trim};
use keep::Counts;

// The buffers, as the scan's answer has them, whatever a refusal holds.
pub fn finish<E: Copy>(
    answer: Result<Counts, E>,
    state: &mut [u8],
    points: &mut [i32],
    first: &mut [u32],
    len: &mut [u32],
    kind: &mut [u8],
)
    requires { Holds answer (buffers state.old points.old first.old len.old kind.old) }
    ensures { FinishSays answer (buffers state.old points.old first.old len.old kind.old)
        (buffers state.new points.new first.new len.new kind.new) }
{
    match answer {
        Err(_) => {
            clear(state, points, first, len, kind);
        }
        Ok(c) => {
            trim(points, first, len, kind, c.points, c.contours);
        }
    }
}
