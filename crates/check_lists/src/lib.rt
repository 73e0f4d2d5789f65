// Check 5: the starts, and the nodes' lists, which hold each link exactly once at its a node and once at its b node, and nothing else.
#![tactic(auto)]

ghost use Rattle.std.specs.Prelude.{◌≡◌, ◌+◌, ◌-◌, ◌<◌, ◌≤◌, ltb, length};
ghost use Rattle.laws.specs.Lowest.{some};
ghost use Rattle.laws.specs.Count.{count};
ghost use Rattle.graph.specs.Checks.{short, bad_starts, stray, stray_in, stray_at, not_once, missed, bad_nodes};
ghost use Rattle.graph.specs.Passes.{Rising};
ghost use Rattle.graph.specs.Known.{Ids};
ghost use Rattle.check_lists.specs.Promises.{BadNodesSays};

use graph::entries;
use turn::wide;

// Check 5, of the shared graph: whether a node from one start to the next has under two entries. In the starts' own 32 bits, so that the loop
// over them is compiled for several at a time.
fn short(from: u32, to: u32) -> bool
    ensures { result ≡ ltb to (from + 2) }
{
    to.saturating_sub(1) <= from
}

// Whether a start falls, or leaves its node under two entries.
#[tactic(auto, using(laws::specs::Lowest::some_more))]
fn any_short(start: &[u32]) -> bool
    ensures { result ≡ some (short start.now) (length start.now - 1) }
{
    let mut wrong = false;
    for pair in start.windows(2) {
        wrong |= short(pair[0], pair[1]);
    }
    wrong
}

// Whether the starts are wrong for this list.
fn bad_starts(start: &[u32], list: &[u32]) -> bool
    requires { 1 ≤ length start.now }
    ensures { result ≡ bad_starts start.now list.now }
{
    let m = start.len() - 1;
    (wide(start[0]) != 0) | (wide(start[m]) != list.len()) | any_short(start)
}

// Whether e is no link with an end at node v.
fn stray(aid: &[u32], bid: &[u32], v: usize, e: usize) -> bool
    requires { length bid.now ≡ length aid.now }
    ensures { result ≡ stray aid.now bid.now v e }
{
    if aid.len() <= e {
        return true;
    }
    (wide(aid[e]) != v) & (wide(bid[e]) != v)
}

// Whether node v, with these entries, has such an e.
fn stray_in(aid: &[u32], bid: &[u32], here: &[u32], v: usize) -> bool
    requires { length bid.now ≡ length aid.now }
    ensures { result ≡ stray_in aid.now bid.now here.now v }
{
    here.iter().any(|&e| stray(aid, bid, v, wide(e)))
}

// Whether some node has an entry that is no link with an end there.
fn any_stray(aid: &[u32], bid: &[u32], start: &[u32], list: &[u32]) -> bool
    requires bid_len { length bid.now ≡ length aid.now }
    requires rising { Rising start.now list.now }
    ensures { result ≡ some (stray_at aid.now bid.now start.now list.now)
        (length start.now - 1) }
{
    for v in 0..start.len() - 1 {
        if stray_in(aid, bid, entries(start, list, v), v) {
            return true;
        }
    }
    false
}

// How often x stands in a list.
// By hand: `filter` and `count` are not compiled for several at a time.
fn count(list: &[u32], x: usize) -> usize
    ensures { result ≡ count x list.now }
{
    let mut n = 0;
    for &e in list {
        if wide(e) == x {
            n += 1;
        }
    }
    n
}

// Whether link k does not stand exactly once at node v.
fn not_once(start: &[u32], list: &[u32], k: usize, v: usize) -> bool
    requires rising { Rising start.now list.now }
    requires v_in_bounds { v < length start.now - 1 }
    ensures { result ≡ not_once start.now list.now k v }
{
    count(entries(start, list, v), k) != 1
}

// Whether some link does not stand exactly once at its a node and once at its b node.
fn any_missed(aid: &[u32], bid: &[u32], start: &[u32], list: &[u32]) -> bool
    requires rising { Rising start.now list.now }
    requires ids { Ids aid.now bid.now (length start.now - 1) }
    ensures { result ≡ some (missed aid.now bid.now start.now list.now) (length aid.now) }
{
    for k in 0..aid.len() {
        if not_once(start, list, k, wide(aid[k])) | not_once(start, list, k, wide(bid[k])) {
            return true;
        }
    }
    false
}

// Whether the starts and the lists are wrong for the links.
pub fn bad_nodes(aid: &[u32], bid: &[u32], start: &[u32], list: &[u32]) -> bool
    requires ids { Ids aid.now bid.now (length start.now - 1) }
    requires in_bounds { 1 ≤ length start.now }
    ensures { BadNodesSays aid.now bid.now start.now list.now result }
{
    if bad_starts(start, list) {
        return true;
    }
    any_stray(aid, bid, start, list) | any_missed(aid, bid, start, list)
}
