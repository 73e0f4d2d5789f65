// Check 5, of the starts: one pass over them.
#![tactic(auto)]

ghost use Rattle.std.specs.Prelude.{◌-◌, ◌≤◌, length};
ghost use Rattle.starts.specs.Odds.{Odd, OddBelow};
ghost use Rattle.starts.specs.Promises.{WrongStartsSays};

use turn::{MAX_LINKS, wide};

// A node has two entries, and at most so many more: two for each link.
const MOST_MORE: u32 = 8190;

// Whether a node from one start to the next has under two entries, or more than two for each of the most links. In the starts' own 32 bits, where
// a difference below 2 wraps, so that the loop over them is compiled for several at a time, in few instructions.
fn odd(from: u32, to: u32) -> bool
    ensures { Odd from to result }
{
    MOST_MORE < to.wrapping_sub(from).wrapping_sub(2)
}

// Whether some node has.
#[tactic(auto, using(crate::specs::Odds::odd_more))]
fn some_odd(start: &[u32]) -> bool
    ensures { OddBelow start.now (length start.now - 1) result }
{
    let mut some = false;
    for pair in start.windows(2) {
        some |= odd(pair[0], pair[1]);
    }
    some
}

// Whether the starts are wrong for this list. It is not asked for a list of more than two entries for each of the most links: then it may say
// anything.
pub fn wrong_starts(start: &[u32], list: &[u32]) -> bool
    requires { 1 ≤ length start.now }
    ensures { WrongStartsSays start.now list.now result }
{
    let m = start.len() - 1;
    (wide(start[0]) != 0) | (wide(start[m]) != list.len()) | (MAX_LINKS < m) | some_odd(start)
}
