// Where a walk goes on (document 01, "Walking", rule 3): it stands at an end of a link, the one where it arrived, and follows the field of ends
// (crate `rings`).
#![tactic(auto)]

ghost use Rattle.std.specs.Prelude.{◌≡◌, ◌<◌, ◌≤◌, length, get_or};
ghost use Rattle.graph.specs.Graph.{Graph};
ghost use Rattle.rings.specs.Linked.{step_of};
ghost use Rattle.rings.specs.Field.{cross_mark, next_of, prev_of, Steers, Steered};
ghost use Rattle.onward.specs.Goes.{Arrived, GoesTo, EndsUnvisited};
ghost use Rattle.onward.specs.Promises.{NextEndSays};

use rings::{CROSS, far};
use turn::wide;

// The next end of the ring, clockwise or counterclockwise.
fn step_from(nxt: &[u32], prv: &[u32], sense: bool, h: usize) -> usize
    requires { (h < length nxt.now) × (h < length prv.now) }
    ensures { result ≡ step_of sense (next_of nxt.now) (prev_of prv.now) h }
{
    if sense {
        wide(prv[h])
    } else {
        wide(nxt[h] % CROSS)
    }
}

// Rule 3 at a `Cross`: round the ring from end `home` to the first end of an unvisited link. That link's far end, or there is none.
fn go_round(nxt: &[u32], prv: &[u32], state: &[u8], sense: bool, home: usize) -> Option<usize>
    requires { (Steered nxt.now prv.now state.now) × (Arrived state.now home) × (cross_mark ≤ get_or nxt.now home 0) }
    ensures goes_to { (g : Graph) → Steers g nxt.now prv.now state.now
        → GoesTo g sense state.now home result }
    ensures ends_unvisited { EndsUnvisited state.now result }
{
    let mut at = step_from(nxt, prv, sense, home);
    while at != home {
        if state[at / 2] == 0 {
            return Some(far(at));
        }
        at = step_from(nxt, prv, sense, at);
    }
    None
}

// Rule 3: the far end of the next link, or there is none. Most nodes are `Bridge`s: the far end of their other entry is read here, and only a `Cross`
// costs a call.
pub fn next_end(nxt: &[u32], prv: &[u32], state: &[u8], sense: bool, h: usize) -> Option<usize>
    requires { (Steered nxt.now prv.now state.now) × (Arrived state.now h) }
    ensures next_end_says { NextEndSays nxt.now prv.now state.now sense h result }
    ensures ends_unvisited { EndsUnvisited state.now result }
{
    let f = nxt[h];
    if f < CROSS {
        let to = wide(f);
        if state[to / 2] == 0 {
            return Some(to);
        }
        return None;
    }
    go_round(nxt, prv, state, sense, h)
}
