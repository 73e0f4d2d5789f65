// One walk of the scan (rules 1 to 6): from the first link that rule 1 names at the link where the scan stands, as that link's top says.
#![tactic(auto)]

ghost use Rattle.std.specs.Prelude.{◌≡◌, true, ℕ, ◌≤◌, length};
ghost use Rattle.next.specs.Next.{is_unvisited, unvisited};
ghost use Rattle.next.specs.Known.{Links};
ghost use Rattle.walk.specs.Code.{Kept};
ghost use Rattle.keep.specs.Tables.{Within};
ghost use Rattle.contour.specs.Notes.{Fewer, Roomy};
ghost use Rattle.scan.specs.Held.{Standing};
ghost use Rattle.scan.specs.Promises.{ScanWalkSays};

use contour::{Entered, Settings, note_contour};
use keep::Counts;
use turn::Reason;

// Rule 1: one walk of the scan, which stands at link k and holds the first link of its last walk from there, if there was one.
pub fn scan_walk(
    ax: &[i32],
    ay: &[i32],
    bx: &[i32],
    by: &[i32],
    nxt: &[u32],
    prv: &[u32],
    lead: &[u8],
    top: &[u8],
    settings: Settings,
    state: &mut [u8],
    points: &mut [i32],
    first: &mut [u32],
    len: &mut [u32],
    kind: &mut [u8],
    k: usize,
    held: Option<usize>,
    c: Counts,
) -> Result<Entered, Reason>
    requires standing { Standing ax.now ay.now bx.now by.now top.now nxt.now prv.now lead.now state.old k held }
    requires links { (Links ax.now ay.now bx.now by.now (length state.old)) × (length top.now ≡ length state.old) }
    requires roomy { Roomy (length state.old) (length points.old) (length first.old) (length len.old) (length kind.old) }
    requires k_value { (is_unvisited state.old k ≡ true) × ((x : ℕ) → is_unvisited state.old x ≡ true → k ≤ x)
        × (Within (length state.old) (unvisited state.old) c) }
    ensures scan_walk_says { ScanWalkSays ax.now ay.now bx.now by.now nxt.now prv.now
        lead.now top.now settings state.old points.old first.old len.old
        kind.old k held c result state.new points.new first.new len.new kind.new }
    ensures fewer { Fewer (length state.old) state.old state.new result }
    ensures kept { Kept state.old state.new }
{
    let named = first::find_left_top_link(ax, ay, bx, by, nxt, prv, lead, state, k, held);
    let s = named.ok_or(Reason::NoNextLink)?;
    let hole = top[s] == 1;
    note_contour(
        ax, ay, bx, by, nxt, prv, settings, hole, state, points, first, len, kind, s, c,
    )
}
