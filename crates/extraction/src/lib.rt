// Extraction of a graph that passes its checks: the scan, and what each lent buffer then holds.
#![tactic(auto)]

ghost use Rattle.std.specs.Prelude.{◌≡◌, map, length};
ghost use Rattle.next.specs.Known.{Links};
ghost use Rattle.rings.specs.Field.{Fielded};
ghost use Rattle.walk.specs.Code.{unmark};
ghost use Rattle.contour.specs.Notes.{Roomy};
ghost use Rattle.finish.specs.Finish.{buffers};
ghost use Rattle.extraction.specs.Promises.{ExtractFineSays};

use contour::Settings;
use keep::Counts;
use turn::Refusal;

// Extraction of a graph that passes checks 1 to 7, over the field of its ends.
pub fn extract_fine(
    ax: &[i32],
    ay: &[i32],
    bx: &[i32],
    by: &[i32],
    nxt: &[u32],
    prv: &[u32],
    lead: &[u8],
    top: &[u8],
    settings: Settings,
    state: &mut [u8],
    points: &mut [i32],
    first: &mut [u32],
    len: &mut [u32],
    kind: &mut [u8],
) -> Result<Counts, Refusal>
    requires fielded { Fielded ax.now ay.now bx.now by.now top.now nxt.now prv.now lead.now state.old }
    requires links { (Links ax.now ay.now bx.now by.now (length state.old)) × (length top.now ≡ length state.old) }
    requires roomy { Roomy (length state.old) (length points.old) (length first.old) (length len.old) (length kind.old) }
    requires state_value { map unmark state.old ≡ state.old }
    ensures { ExtractFineSays ax.now ay.now bx.now by.now nxt.now prv.now
        lead.now top.now settings
        (buffers state.old points.old first.old len.old kind.old) result
        (buffers state.new points.new first.new len.new kind.new) }
{
    let answer = sweep::scan_links(
        ax, ay, bx, by, nxt, prv, lead, top, settings, state, points, first, len, kind,
    );
    finish::finish(answer, state, points, first, len, kind);
    answer
}
