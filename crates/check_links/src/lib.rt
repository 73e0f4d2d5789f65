// Checks 1 to 4: how many links there are, the lengths of all that is lent, each link by itself, and the order of the links.
#![tactic(auto)]

ghost use Rattle.std.specs.Prelude.{◌≡◌, ◌≤◌, length};
ghost use Rattle.graph.specs.Graph.{Lent, lent};
ghost use Rattle.graph.specs.Checks.{room, each_checked};
ghost use Rattle.graph.specs.Passes.{Even};
ghost use Rattle.check_links.specs.Promises.{CheckLinksSays};

use check_room::no_room;
use each_link::{bad_link, out_of_order};
use quick_links::{any_misflagged, any_misnamed, any_misplaced};
use turn::{MAX_LINKS, Reason, Refusal};

// What checks 3 and 4 say. Only a graph with something wrong is asked for the place.
fn check_each(
    ax: &[i32],
    ay: &[i32],
    bx: &[i32],
    by: &[i32],
    aid: &[u32],
    bid: &[u32],
    start: &[u32],
    list: &[u32],
    top: &[u8],
    state: &[u8],
) -> Result<(), Refusal>
    requires even { Even (lent ax.now ay.now bx.now by.now aid.now bid.now start.now list.now) }
    requires top_len { (length top.now ≡ length aid.now) × (length state.now ≡ length aid.now) }
    requires in_bounds { 1 ≤ length start.now }
    ensures { (let g : Lent = lent ax.now ay.now bx.now by.now aid.now
        bid.now start.now list.now in
        result ≡ each_checked g top.now state.now) }
{
    if !(any_misplaced(ax, ay, bx, by)
        | any_misnamed(start.len() - 1, aid, bid)
        | any_misflagged(top, state))
    {
        return Ok(());
    }
    if let Some(k) = bad_link(ax, ay, bx, by, aid, bid, start, list, top, state) {
        return Err(Refusal {
            reason: Reason::WrongLink,
            place: k,
        });
    }
    if let Some(j) = out_of_order(ax, ay) {
        return Err(Refusal {
            reason: Reason::LinksOutOfOrder,
            place: j,
        });
    }
    // not reached: what the quick question finds, check 3 or check 4 finds
    Ok(())
}

// What checks 1 to 4 say, each over all the input before the next.
pub fn check_links(
    ax: &[i32],
    ay: &[i32],
    bx: &[i32],
    by: &[i32],
    aid: &[u32],
    bid: &[u32],
    start: &[u32],
    list: &[u32],
    top: &[u8],
    state: &[u8],
    points: usize,
    firsts: usize,
    lens: usize,
    kinds: usize,
) -> Result<(), Refusal>
    ensures { (let g : Lent = lent ax.now ay.now bx.now by.now aid.now
        bid.now start.now list.now in
        CheckLinksSays g top.now state.now (room points firsts lens kinds) result) }
{
    let n = aid.len();
    if MAX_LINKS < n {
        return Err(Refusal {
            reason: Reason::TooManyLinks,
            place: 0,
        });
    }
    if no_room(
        ax, ay, bx, by, aid, bid, start, list, top, state, points, firsts, lens, kinds,
    ) {
        return Err(Refusal {
            reason: Reason::WrongLengths,
            place: 0,
        });
    }
    check_each(ax, ay, bx, by, aid, bid, start, list, top, state)
}
