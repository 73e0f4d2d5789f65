// Checks 1 to 7 of any graph. Where a `Cross` has many entries, they look at a copy of the list in which these stand in angular order.
#![tactic(auto)]

ghost use Rattle.std.specs.Prelude.{◌≡◌, ℕ, ◌≤◌, length, get_or};
ghost use Rattle.turn.specs.Limits.{max_links};
ghost use Rattle.turn.specs.Refusals.{no_fault};
ghost use Rattle.graph.specs.Graph.{Lent, lent};
ghost use Rattle.rings.specs.Field.{Spacious, Unled, AllLaid};
ghost use Rattle.check_graph.specs.Looks.{Countable};
ghost use Rattle.check_any.specs.Says.{is_wide, said_of};
ghost use Rattle.check_any.specs.Promises.{Checks, CheckAnySays};

use check_graph::{Looked, Room};
use fan::{FEW_ENTRIES, arrange};
use turn::{MAX_LINKS, Refusal};

// The most entries of a list: two for each link.
const MAX_ENDS: usize = 2 * MAX_LINKS;

// Checks 1 to 7, from a copy of the list in which the entries of a `Cross` of many stand in angular order.
fn check_copied(
    ax: &[i32],
    ay: &[i32],
    bx: &[i32],
    by: &[i32],
    aid: &[u32],
    bid: &[u32],
    start: &[u32],
    list: &[u32],
    top: &[u8],
    state: &[u8],
    room: Room,
    nxt: &mut [u32],
    prv: &mut [u32],
    lead: &mut [u8],
    copy: &mut [u32],
) -> Result<(), Refusal>
    requires fact { (let g : Lent = lent ax.now ay.now bx.now by.now aid.now bid.now start.now list.now in
        Countable g state.now) }
    requires spacious { Spacious (length aid.now) (length nxt.old) (length prv.old) (length lead.old) }
    requires copy_len { (length copy.old ≡ length list.now) × (Unled lead.old) }
    ensures fact_2 { (let g : Lent = lent ax.now ay.now bx.now by.now aid.now
        bid.now start.now list.now in
        Checks g top.now state.now room result) }
    ensures all_laid { (let g : Lent = lent ax.now ay.now bx.now by.now aid.now
        bid.now start.now list.now in
        result ≡ no_fault → AllLaid g state.now nxt.new prv.new lead.new) }
{
    arrange(ax, ay, bx, by, aid, start, list, copy);
    // it stops nowhere: no node has more entries than the list
    check_graph::check_graph(
        ax,
        ay,
        bx,
        by,
        aid,
        bid,
        start,
        copy,
        top,
        state,
        room,
        copy.len(),
        nxt,
        prv,
        lead,
    )?;
    Ok(())
}

// `check_copied`, with an array for the copy, and with the leads cleared that an earlier pass has written.
fn check_arranged(
    ax: &[i32],
    ay: &[i32],
    bx: &[i32],
    by: &[i32],
    aid: &[u32],
    bid: &[u32],
    start: &[u32],
    list: &[u32],
    top: &[u8],
    state: &[u8],
    room: Room,
    nxt: &mut [u32],
    prv: &mut [u32],
    lead: &mut [u8],
) -> Result<(), Refusal>
    requires fact { (let g : Lent = lent ax.now ay.now bx.now by.now aid.now bid.now start.now list.now in
        Countable g state.now) }
    requires spacious { Spacious (length aid.now) (length nxt.old) (length prv.old) (length lead.old) }
    ensures fact_2 { (let g : Lent = lent ax.now ay.now bx.now by.now aid.now
        bid.now start.now list.now in
        Checks g top.now state.now room result) }
    ensures all_laid { (let g : Lent = lent ax.now ay.now bx.now by.now aid.now
        bid.now start.now list.now in
        result ≡ no_fault → AllLaid g state.now nxt.new prv.new lead.new) }
{
    let n = list.len();
    let mut copy = [0u32; MAX_ENDS];
    lead.fill(0);
    check_copied(
        ax,
        ay,
        bx,
        by,
        aid,
        bid,
        start,
        list,
        top,
        state,
        room,
        nxt,
        prv,
        lead,
        &mut copy[..n],
    )
}

// What checks 1 to 7 say of a lent graph, its tops and states, and the room for its answer: a buffer of so many numbers for
// the points, two to a point, and the lengths of the contour table's three lists. Where the graph is fine, its field of ends is laid.
// It is compiled once for graphs of few links and once for all others: so the copy has two callers, and its array is on no stack but its own.
pub fn check_any<const FEW: bool>(
    ax: &[i32],
    ay: &[i32],
    bx: &[i32],
    by: &[i32],
    aid: &[u32],
    bid: &[u32],
    start: &[u32],
    list: &[u32],
    top: &[u8],
    state: &[u8],
    room: Room,
    nxt: &mut [u32],
    prv: &mut [u32],
    lead: &mut [u8],
) -> Result<(), Refusal>
    requires { (length aid.now ≤ max_links → Spacious (length aid.now) (length nxt.old) (length prv.old) (length lead.old))
        × (Unled lead.old) }
    ensures fact { (let g : Lent = lent ax.now ay.now bx.now by.now aid.now
        bid.now start.now list.now in
        CheckAnySays g top.now state.now room result) }
    ensures all_laid { (let g : Lent = lent ax.now ay.now bx.now by.now aid.now
        bid.now start.now list.now in
        result ≡ no_fault → AllLaid g state.now nxt.new prv.new lead.new) }
{
    let looked = check_graph::check_graph(
        ax,
        ay,
        bx,
        by,
        aid,
        bid,
        start,
        list,
        top,
        state,
        room,
        FEW_ENTRIES,
        nxt,
        prv,
        lead,
    )?;
    match looked {
        Looked::Right => Ok(()),
        Looked::Wide => check_arranged(
            ax, ay, bx, by, aid, bid, start, list, top, state, room, nxt, prv, lead,
        ),
    }
}
