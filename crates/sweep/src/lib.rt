// The scan (rules 1 and 7): a walk from each lowest unvisited link.
#![tactic(auto)]

ghost use Rattle.std.specs.Prelude.{◌≡◌, length};
ghost use Rattle.next.specs.Known.{Links};
ghost use Rattle.rings.specs.Field.{Fielded};
ghost use Rattle.walk.specs.Code.{Kept};
ghost use Rattle.contour.specs.Notes.{Roomy};
ghost use Rattle.scan.specs.Notes.{Ends};
ghost use Rattle.sweep.specs.Promises.{ScanLinksSays};

use contour::Settings;
use keep::Counts;
use scan::scan_walk;
use turn::Refusal;

// The scan: a walk from each lowest unvisited link. Rule 7: it moves on only when link k is visited; until then it holds the last walk's first link.
pub fn scan_links(
    ax: &[i32],
    ay: &[i32],
    bx: &[i32],
    by: &[i32],
    nxt: &[u32],
    prv: &[u32],
    lead: &[u8],
    top: &[u8],
    settings: Settings,
    state: &mut [u8],
    points: &mut [i32],
    first: &mut [u32],
    len: &mut [u32],
    kind: &mut [u8],
) -> Result<Counts, Refusal>
    requires fielded { Fielded ax.now ay.now bx.now by.now top.now nxt.now prv.now lead.now state.old }
    requires links { (Links ax.now ay.now bx.now by.now (length state.old)) × (length top.now ≡ length state.old) }
    requires roomy { Roomy (length state.old) (length points.old) (length first.old) (length len.old) (length kind.old) }
    ensures scan_links_says { ScanLinksSays ax.now ay.now bx.now by.now nxt.now prv.now
        lead.now top.now settings state.old points.old first.old len.old
        kind.old result state.new points.new first.new len.new kind.new }
    ensures ends { Ends (length state.old) result }
    ensures kept { Kept state.old state.new }
{
    let n = state.len();
    let mut k = 0;
    let mut held = None;
    let mut c = keep::no_counts();
    // By index: k moves on only past a visited link, and a `for` over k would have a second loop in it.
    while k < n {
        if state[k] != 0 {
            k += 1;
            held = None;
            continue;
        }
        match scan_walk(
            ax, ay, bx, by, nxt, prv, lead, top, settings, state, points, first, len, kind, k,
            held, c,
        ) {
            Err(reason) => return Err(Refusal { reason, place: k }),
            Ok(entered) => {
                c = entered.counts;
                held = Some(entered.first);
            }
        }
    }
    Ok(c)
}
