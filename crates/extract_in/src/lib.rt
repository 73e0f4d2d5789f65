// Extraction over lists lent to work in: checks 1 to 7, then the scan.
#![tactic(auto)]

ghost use Rattle.std.specs.Prelude.{◌≤◌, length};
ghost use Rattle.turn.specs.Limits.{max_links};
ghost use Rattle.graph.specs.Graph.{Lent, lent};
ghost use Rattle.rings.specs.Field.{Spacious, Unled};
ghost use Rattle.finish.specs.Finish.{Buffers, buffers};
ghost use Rattle.extract_in.specs.Promises.{ExtractInSays};

use check_graph::Room;
use contour::Settings;
use keep::Counts;
use outlines::extract_outlines;
use turn::Refusal;

// Extraction over lists lent to work in: checks 1 to 7, and the scan over the field of ends that they lay there. It is compiled once for graphs of few
// links and once for all others. So the pass over the nodes and the scan are called from two places each, and the compiler keeps them apart: in one
// function with their callers they would want for registers (a twentieth more instructions at graphs of `Bridge`s).
pub fn extract_in<const FEW: bool>(
    ax: &[i32],
    ay: &[i32],
    bx: &[i32],
    by: &[i32],
    aid: &[u32],
    bid: &[u32],
    start: &[u32],
    list: &[u32],
    top: &[u8],
    settings: Settings,
    state: &mut [u8],
    points: &mut [i32],
    first: &mut [u32],
    len: &mut [u32],
    kind: &mut [u8],
    nxt: &mut [u32],
    prv: &mut [u32],
    lead: &mut [u8],
) -> Result<Counts, Refusal>
    requires { (length aid.now ≤ max_links → Spacious (length aid.now) (length nxt.old) (length prv.old) (length lead.old))
        × (Unled lead.old) }
    ensures { (let g : Lent = lent ax.now ay.now bx.now by.now aid.now
        bid.now start.now list.now in
        let before : Buffers = buffers state.old points.old first.old len.old
        kind.old in
        let after : Buffers = buffers state.new points.new first.new len.new kind.new in
        ExtractInSays g top.now settings before result after) }
{
    let room = Room {
        points: points.len(),
        firsts: first.len(),
        lens: len.len(),
        kinds: kind.len(),
    };
    check_any::check_any::<FEW>(
        ax, ay, bx, by, aid, bid, start, list, top, state, room, nxt, prv, lead,
    )?;
    extract_outlines(
        ax, ay, bx, by, nxt, prv, lead, top, settings, state, points, first, len, kind,
    )
}
