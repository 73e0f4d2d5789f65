// Extraction: the entry point, which makes the arrays that extraction works in.
#![tactic(auto)]

ghost use Rattle.graph.specs.Graph.{Lent, lent};
ghost use Rattle.finish.specs.Finish.{Buffers, buffers};
ghost use Rattle.extract.specs.Promises.{ExtractSays};

use contour::Settings;
use extract_in::extract_in;
use keep::Counts;
use turn::Refusal;

// A graph with few links is walked over small arrays, which cost little to make.
const FEW_LINKS: usize = 128;

const FEW_ENDS: usize = 256;

const MAX_ENDS: usize = 8192;

// Extraction: checks 1 to 7, then the scan. The states, the points and the contour table are then as document 01 says.
pub fn extract(
    ax: &[i32],
    ay: &[i32],
    bx: &[i32],
    by: &[i32],
    aid: &[u32],
    bid: &[u32],
    start: &[u32],
    list: &[u32],
    top: &[u8],
    settings: Settings,
    state: &mut [u8],
    points: &mut [i32],
    first: &mut [u32],
    len: &mut [u32],
    kind: &mut [u8],
) -> Result<Counts, Refusal>
    ensures { (let g : Lent = lent ax.now ay.now bx.now by.now aid.now
        bid.now start.now list.now in
        let before : Buffers = buffers state.old points.old first.old len.old
        kind.old in
        let after : Buffers = buffers state.new points.new first.new len.new kind.new in
        ExtractSays g top.now settings before result after) }
{
    if aid.len() <= FEW_LINKS {
        let mut nxt = [0u32; FEW_ENDS];
        let mut prv = [0u32; FEW_ENDS];
        let mut lead = [0u8; FEW_LINKS];
        return extract_in::<true>(
            ax, ay, bx, by, aid, bid, start, list, top, settings, state, points, first, len, kind,
            &mut nxt, &mut prv, &mut lead,
        );
    }
    let mut nxt = [0u32; MAX_ENDS];
    let mut prv = [0u32; MAX_ENDS];
    let mut lead = [0u8; turn::MAX_LINKS];
    extract_in::<false>(
        ax, ay, bx, by, aid, bid, start, list, top, settings, state, points, first, len, kind,
        &mut nxt, &mut prv, &mut lead,
    )
}
