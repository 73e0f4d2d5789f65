// The lent buffers cleared, or trimmed past what was written.
#![tactic(auto)]

ghost use Rattle.std.specs.Prelude.{◌*◌, ◌≤◌, length};
ghost use Rattle.clear.specs.Promises.{ClearSays, TrimSays};

use zeros::{restore, zero_from};

// After 8 and 9: the states as before, and nothing written.
pub fn clear(
    state: &mut [u8],
    points: &mut [i32],
    first: &mut [u32],
    len: &mut [u32],
    kind: &mut [u8],
)
    ensures { ClearSays state.old points.old first.old len.old kind.old
        state.new points.new first.new len.new kind.new }
{
    restore(state);
    zero_from(points, 0);
    zero_from(first, 0);
    zero_from(len, 0);
    zero_from(kind, 0);
}

// After success: zeros past what was written.
pub fn trim(
    points: &mut [i32],
    first: &mut [u32],
    len: &mut [u32],
    kind: &mut [u8],
    written: usize,
    contours: usize,
)
    requires { (written * 2 ≤ length points.old) × (contours ≤ length first.old) × (contours ≤ length len.old) × (contours ≤ length kind.old) }
    ensures { TrimSays written contours points.old first.old len.old kind.old
        points.new first.new len.new kind.new }
{
    zero_from(points, written * 2);
    zero_from(first, contours);
    zero_from(len, contours);
    zero_from(kind, contours);
}
