// One contour (rules 2 to 6): the walk that starts with a link, as a hole's or a hull's, entered in the table, counted as rejected, or refused.
#![tactic(auto)]

ghost use Rattle.std.specs.Prelude.{◌≡◌, ◌<◌, length, get_or};
ghost use Rattle.std.specs.Bool.{beq};
ghost use Rattle.next.specs.Next.{unvisited};
ghost use Rattle.next.specs.Known.{Links};
ghost use Rattle.rings.specs.Field.{Steered};
ghost use Rattle.walk.specs.Walk.{mark_of};
ghost use Rattle.walk.specs.Code.{Kept};
ghost use Rattle.keep.specs.Tables.{Within};
ghost use Rattle.contour.specs.Notes.{Fewer, Roomy};
ghost use Rattle.contour.specs.Promises.{NoteContourSays};

use keep::Counts;
use turn::Reason;
use walk::Course;

// How outlines are asked for: the output direction, the area below which a walk is rejected, and whether points on a straight line are dropped.
#[derive(Clone, Copy)]
pub struct Settings {
    pub clockwise: bool,
    pub minimum: u64,
    pub drop_straight: bool,
}

// A walk of the scan, entered in the table or the counts: the counts after it, and its first link.
#[derive(Clone, Copy)]
pub struct Entered {
    pub counts: Counts,
    pub first: usize,
}

// By hand: the states that C lends are numbers.
fn mark_of(hole: bool) -> u8
    ensures { result ≡ mark_of hole }
{
    if hole { 2 } else { 3 }
}

// Rules 2 to 6: the walk that starts with link s, a hole's or a hull's, entered in the table or counted as rejected.
pub fn note_contour(
    ax: &[i32],
    ay: &[i32],
    bx: &[i32],
    by: &[i32],
    nxt: &[u32],
    prv: &[u32],
    settings: Settings,
    hole: bool,
    state: &mut [u8],
    points: &mut [i32],
    first: &mut [u32],
    len: &mut [u32],
    kind: &mut [u8],
    s: usize,
    c: Counts,
) -> Result<Entered, Reason>
    requires steered { (Steered nxt.now prv.now state.old) × (Links ax.now ay.now bx.now by.now (length state.old)) }
    requires roomy { Roomy (length state.old) (length points.old) (length first.old) (length len.old) (length kind.old) }
    requires s_in_bounds { (s < length state.old) × (get_or state.old s 1 ≡ 0) × (Within (length state.old) (unvisited state.old) c) }
    ensures note_contour_says { NoteContourSays ax.now ay.now bx.now by.now nxt.now prv.now
        settings hole state.old points.old first.old len.old kind.old s c result
        state.new points.new first.new len.new kind.new }
    ensures fewer { Fewer (length state.old) state.old state.new result }
    ensures kept { Kept state.old state.new }
{
    let sense = hole == settings.clockwise;
    let course = Course {
        forward: !sense,
        sense,
        mark: mark_of(hole),
    };
    let at = c.points;
    let walked = walk::find_contour(ax, ay, bx, by, nxt, prv, course, state, points, at, s)?;
    let counts = keep::note_walk(
        first,
        len,
        kind,
        hole,
        settings.minimum,
        walked.to,
        walked.area,
        c,
    );
    Ok(Entered { counts, first: s })
}
