// Extraction of a graph that passes its checks, as its settings ask for it: its contours, and then, where asked for, without points on a straight line.
#![tactic(auto)]

ghost use Rattle.std.specs.Prelude.{◌≡◌, true, map, length};
ghost use Rattle.next.specs.Known.{Links};
ghost use Rattle.rings.specs.Field.{Fielded};
ghost use Rattle.walk.specs.Code.{unmark};
ghost use Rattle.contour.specs.Notes.{Roomy};
ghost use Rattle.finish.specs.Finish.{buffers};
ghost use Rattle.outlines.specs.Promises.{answered, straight_by, StandsFor, ExtractOutlinesSays};

use contour::Settings;
use extraction::extract_fine;
use keep::Counts;
use straighten::drop_straight;
use turn::Refusal;

// An answer that is done loses its points on a straight line.
fn straighten_answer(
    answer: Result<Counts, Refusal>,
    points: &mut [i32],
    first: &mut [u32],
    len: &mut [u32],
) -> Result<Counts, Refusal>
    requires { StandsFor answer points.old first.old len.old }
    ensures { answered result points.new first.new len.new
        ≡ straight_by true answer points.old first.old len.old }
{
    let c = answer?;
    Ok(drop_straight(points, first, len, c))
}

// Extraction of a graph that passes checks 1 to 7, over the field of its ends. `extract_fine` is called in two places, so that the compiler keeps it
// apart: in one function with what follows, its walks would want for registers (a twentieth more time at graphs of `Bridge`s).
pub fn extract_outlines(
    ax: &[i32],
    ay: &[i32],
    bx: &[i32],
    by: &[i32],
    nxt: &[u32],
    prv: &[u32],
    lead: &[u8],
    top: &[u8],
    settings: Settings,
    state: &mut [u8],
    points: &mut [i32],
    first: &mut [u32],
    len: &mut [u32],
    kind: &mut [u8],
) -> Result<Counts, Refusal>
    requires fielded { Fielded ax.now ay.now bx.now by.now top.now nxt.now prv.now lead.now state.old }
    requires links { (Links ax.now ay.now bx.now by.now (length state.old)) × (length top.now ≡ length state.old) }
    requires roomy { Roomy (length state.old) (length points.old) (length first.old) (length len.old) (length kind.old) }
    requires state_value { map unmark state.old ≡ state.old }
    ensures { ExtractOutlinesSays ax.now ay.now bx.now by.now nxt.now prv.now
        lead.now top.now settings
        (buffers state.old points.old first.old len.old kind.old) result
        (buffers state.new points.new first.new len.new kind.new) }
{
    if settings.drop_straight {
        let answer = extract_fine(
            ax, ay, bx, by, nxt, prv, lead, top, settings, state, points, first, len, kind,
        );
        return straighten_answer(answer, points, first, len);
    }
    extract_fine(
        ax, ay, bx, by, nxt, prv, lead, top, settings, state, points, first, len, kind,
    )
}
