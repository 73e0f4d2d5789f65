// Rule 1 at a `Cross` (document 01, "Walking"): the topmost unvisited link, read off the field of ends.
#![tactic(auto)]

ghost use Rattle.std.specs.Prelude.{◌≡◌, true, ◌<◌, length};
ghost use Rattle.laws.specs.Test.{pick};
ghost use Rattle.next.specs.Next.{is_unvisited};
ghost use Rattle.topmost.specs.Ring.{Rises, Falls};
ghost use Rattle.topmost.specs.Promises.{TopmostSays, NextBelowSays};

use rings::{CROSS, WRAP};
use turn::wide;

// Link x if it is unvisited, else s.
fn unvisited_or(state: &[u8], x: usize, s: usize) -> usize
    requires { x < length state.now }
    ensures { result ≡ pick (is_unvisited state.now x) x s }
{
    if state[x] == 0 { x } else { s }
}

// Rule 1 at a `Cross`: from link k up to the ring's last, the last unvisited link met.
pub fn topmost(nxt: &[u32], state: &[u8], k: usize) -> usize
    requires { (Rises nxt.now state.now k) × (is_unvisited state.now k ≡ true) }
    ensures topmost_says { TopmostSays nxt.now state.now k result }
    ensures result_value { is_unvisited state.now result ≡ true }
{
    let mut at = 2 * k;
    let mut s = k;
    let mut f = nxt[at];
    while f < WRAP {
        at = wide(f % CROSS);
        s = unvisited_or(state, at / 2, s);
        f = nxt[at];
    }
    s
}

// Rule 1 at a `Cross`, asked again: from link `held`, which it named before, down the ring to the next unvisited link.
pub fn next_below(prv: &[u32], state: &[u8], held: usize) -> usize
    requires { Falls prv.now state.now held }
    ensures next_below_says { NextBelowSays prv.now state.now held result }
    ensures result_value { is_unvisited state.now result ≡ true }
{
    let mut at = wide(prv[2 * held]);
    while state[at / 2] != 0 {
        at = wide(prv[at]);
    }
    at / 2
}
