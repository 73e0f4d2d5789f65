// Checks 1 to 7 together. Any graph may be lent: `check_graph` says that it is right, or the reason and place for which a check refuses it, or it stops
// at a `Cross` of many entries.
#![tactic(auto)]

ghost use Rattle.std.specs.Prelude.{◌≡◌, ◌-◌, ◌*◌, ◌≤◌, length, Ok};
ghost use Rattle.turn.specs.Limits.{max_links};
ghost use Rattle.graph.specs.Graph.{Lent, lent};
ghost use Rattle.graph.specs.Checks.{nodes_checked};
ghost use Rattle.graph.specs.Known.{Points, Grids, Ids};
ghost use Rattle.graph.specs.Told.{LinksTold};
ghost use Rattle.rings.specs.Field.{Spacious, Unled, AllLaid};
ghost use Rattle.check_graph.specs.declared.Looked.TheVariants.{Right};
ghost use Rattle.check_graph.specs.Looks.{Looks};
ghost use Rattle.check_graph.specs.Promises.{CheckGraphSays};

use check_ends::{alike_node, apart_node};
use check_links::check_links;
use check_lists::bad_nodes;
use lay::{Found, lay_nodes};
use starts::wrong_starts;
use turn::{Reason, Refusal};

// What is lent for the answer, by length: the points' buffer, two numbers to a point, and the three lists of the contour table.
#[derive(Clone, Copy)]
pub struct Room {
    pub points: usize,
    pub firsts: usize,
    pub lens: usize,
    pub kinds: usize,
}

// What the checks find where they refuse nothing: that all is right, or a `Cross` of more entries than they are to lay, where they stop.
#[derive(Clone, Copy)]
pub enum Looked {
    Right,
    Wide,
}

// The order of the checks: what checks 5, 6 and 7 say, each over all nodes before the next.
fn check_in_order(
    ax: &[i32],
    ay: &[i32],
    bx: &[i32],
    by: &[i32],
    aid: &[u32],
    bid: &[u32],
    start: &[u32],
    list: &[u32],
    state: &[u8],
) -> Result<(), Refusal>
    requires points { Points ax.now ay.now bx.now by.now (length aid.now) }
    requires grids { Grids ax.now ay.now bx.now by.now (length aid.now) }
    requires state_len { length state.now ≡ length aid.now }
    requires ids { Ids aid.now bid.now (length start.now - 1) }
    requires in_bounds { 1 ≤ length start.now }
    ensures { (let g : Lent = lent ax.now ay.now bx.now by.now aid.now
        bid.now start.now list.now in
        result ≡ nodes_checked g state.now) }
{
    if bad_nodes(aid, bid, start, list) {
        return Err(Refusal {
            reason: Reason::WrongNodes,
            place: 0,
        });
    }
    if let Some(v) = apart_node(ax, ay, bx, by, aid, start, list) {
        return Err(Refusal {
            reason: Reason::EndsApart,
            place: v,
        });
    }
    if let Some(v) = alike_node(ax, ay, bx, by, aid, start, list, state) {
        return Err(Refusal {
            reason: Reason::EndsAlike,
            place: v,
        });
    }
    Ok(())
}

// What checks 5, 6 and 7 say. A graph that is fine is found so in one pass over its nodes, which leaves the field of its ends; which check refuses,
// and where, is then asked in order.
fn check_nodes(
    ax: &[i32],
    ay: &[i32],
    bx: &[i32],
    by: &[i32],
    aid: &[u32],
    bid: &[u32],
    start: &[u32],
    list: &[u32],
    state: &[u8],
    most: usize,
    nxt: &mut [u32],
    prv: &mut [u32],
    lead: &mut [u8],
) -> Result<Looked, Refusal>
    requires fact { (let g : Lent = lent ax.now ay.now bx.now by.now aid.now bid.now start.now list.now in
        LinksTold g state.now) }
    requires spacious { (Spacious (length aid.now) (length nxt.old) (length prv.old) (length lead.old)) × (Unled lead.old)
        × (most ≤ 2 * max_links) }
    ensures fact_2 { (let g : Lent = lent ax.now ay.now bx.now by.now aid.now
        bid.now start.now list.now in
        Looks g state.now most (nodes_checked g state.now) result) }
    ensures all_laid { (let g : Lent = lent ax.now ay.now bx.now by.now aid.now
        bid.now start.now list.now in
        result ≡ Ok Right → AllLaid g state.now nxt.new prv.new lead.new) }
{
    // each link has two entries, so a list of any other length is wrong, and may be as long as it likes
    if wrong_starts(start, list) | (list.len() != 2 * aid.len()) {
        return Err(Refusal {
            reason: Reason::WrongNodes,
            place: 0,
        });
    }
    match lay_nodes(
        ax, ay, bx, by, aid, bid, start, list, state, most, nxt, prv, lead,
    ) {
        Found::Fault => {
            check_in_order(ax, ay, bx, by, aid, bid, start, list, state)?;
            Ok(Looked::Right)
        }
        Found::Nothing => Ok(Looked::Right),
        Found::Wide => Ok(Looked::Wide),
    }
}

// What checks 1 to 7 say of a lent graph, its tops and states, and the room for its answer: a buffer of so many numbers for
// the points, two to a point, and the lengths of the contour table's three lists. Where the graph is fine, its field of ends is laid.
pub fn check_graph(
    ax: &[i32],
    ay: &[i32],
    bx: &[i32],
    by: &[i32],
    aid: &[u32],
    bid: &[u32],
    start: &[u32],
    list: &[u32],
    top: &[u8],
    state: &[u8],
    room: Room,
    most: usize,
    nxt: &mut [u32],
    prv: &mut [u32],
    lead: &mut [u8],
) -> Result<Looked, Refusal>
    requires { (length aid.now ≤ max_links → Spacious (length aid.now) (length nxt.old) (length prv.old) (length lead.old))
        × (Unled lead.old) × (most ≤ 2 * max_links) }
    ensures fact { (let g : Lent = lent ax.now ay.now bx.now by.now aid.now
        bid.now start.now list.now in
        CheckGraphSays g top.now state.now room most result) }
    ensures all_laid { (let g : Lent = lent ax.now ay.now bx.now by.now aid.now
        bid.now start.now list.now in
        result ≡ Ok Right → AllLaid g state.now nxt.new prv.new lead.new) }
{
    check_links(
        ax,
        ay,
        bx,
        by,
        aid,
        bid,
        start,
        list,
        top,
        state,
        room.points,
        room.firsts,
        room.lens,
        room.kinds,
    )?;
    check_nodes(
        ax, ay, bx, by, aid, bid, start, list, state, most, nxt, prv, lead,
    )
}
