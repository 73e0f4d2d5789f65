// One walk (document 01, "Walking", rules 3 to 5): from its first link to its last, each link marked and the point of each node left written.
// The walk stands at an end of a link, the one where it arrived, and goes on from there as crate `onward` says.
#![tactic(auto)]

ghost use Rattle.std.specs.Prelude.{◌≡◌, suc, ◌+◌, ◌*◌, ◌<◌, ◌≤◌, length, get_or};
ghost use Rattle.laws.specs.Test.{pick};
ghost use Rattle.turn.specs.Points.{OnGrid};
ghost use Rattle.graph.specs.Graph.{Graph};
ghost use Rattle.next.specs.Next.{unvisited};
ghost use Rattle.next.specs.Known.{Links};
ghost use Rattle.rings.specs.Ends.{a_end, b_end, link_of, far, node_of_end};
ghost use Rattle.rings.specs.Field.{cross_mark, Steers, Steered, Reads};
ghost use Rattle.onward.specs.Goes.{Arrived};
ghost use Rattle.walk.specs.Walk.{walk_on};
ghost use Rattle.walk.specs.Code.{Kept, Marks, Summed, step_out, step_by, Goes};
ghost use Rattle.walk.specs.Code.{RestLeaves, Counted, Sized, SizedFrom};
ghost use Rattle.walk.specs.Promises.{FindContourSays};

use leave::{put_point, start_point};
use onward::next_end;
use turn::{Point, Reason, wedge};

// A walk that is done: the number of points once its own are written, and its signed doubled area.
#[derive(Clone, Copy)]
pub struct Finished {
    pub to: usize,
    pub area: i64,
}

// How a walk goes: forward along its first link or backward, the sense in which it turns, and the mark that it leaves.
#[derive(Clone, Copy)]
pub struct Course {
    pub forward: bool,
    pub sense: bool,
    pub mark: u8,
}

// Where a walk stands: the end at which it arrived, how many points are written, the last of them, and the area up to it.
#[derive(Clone, Copy)]
struct Walker {
    end: usize,
    written: usize,
    last: Point,
    area: i64,
}

// One step from where the walker stands: the next link is marked, and the point of the node is written. The walker where it stands then, or there is
// no next link.
fn one_step(
    ax: &[i32],
    ay: &[i32],
    bx: &[i32],
    by: &[i32],
    nxt: &[u32],
    prv: &[u32],
    course: Course,
    state: &mut [u8],
    points: &mut [i32],
    w: Walker,
) -> Option<Walker>
    requires steered { (Steered nxt.now prv.now state.old) × (Links ax.now ay.now bx.now by.now (length state.old)) }
    requires arrived { (Arrived state.old w.end) × (Marks course.mark) × (OnGrid w.last) × (Summed state.old w.area) }
    requires state_in_bounds { (w.written + unvisited state.old) * 2 ≤ length points.old }
    ensures points_after { (g : Graph) → Steers g nxt.now prv.now state.old
        → Reads g ax.now ay.now bx.now by.now
        → step_out result state.new points.new ≡ step_by g course.sense course.mark state.old points.old w }
    ensures goes { Goes w state.old state.new result }
    ensures kept { Kept state.old state.new }
{
    let at = w.written;
    let to = next_end(nxt, prv, state, course.sense, w.end)?;
    let p = start_point(ax, ay, bx, by, to);
    let mark = course.mark;
    state[to / 2] = mark;
    put_point(points, at, p);
    let area = w.area + wedge(w.last, p);
    Some(Walker {
        end: to,
        written: at + 1,
        last: p,
        area,
    })
}

// The walk goes on from where the walker stands to its last link, whose far end, seen from the walk's start, is `back`.
fn walk_on(
    ax: &[i32],
    ay: &[i32],
    bx: &[i32],
    by: &[i32],
    nxt: &[u32],
    prv: &[u32],
    course: Course,
    back: usize,
    begin: Point,
    state: &mut [u8],
    points: &mut [i32],
    from: Walker,
) -> Result<Finished, Reason>
    requires steered { (Steered nxt.now prv.now state.old) × (Links ax.now ay.now bx.now by.now (length state.old)) }
    requires arrived { (Arrived state.old from.end) × (Marks course.mark) × (OnGrid from.last) × (Summed state.old from.area) }
    requires on_grid { (OnGrid begin) × ((from.written + unvisited state.old) * 2 ≤ length points.old) }
    ensures rest_leaves { (g : Graph) → Steers g nxt.now prv.now state.old
        → Reads g ax.now ay.now bx.now by.now
        → RestLeaves g begin points.old from
        (walk_on (suc (unvisited state.old)) g course.sense (node_of_end g (far back)) (link_of back) course.mark
        (node_of_end g from.end) (link_of from.end) state.old) result state.new points.new }
    ensures counted { (Counted from.written from.written state.old state.new result) × (SizedFrom from result) }
    ensures kept { Kept state.old state.new }
{
    let mut w = from;
    while w.end / 2 != back / 2 {
        // By `ok_or` and `?` a step would cost three instructions more.
        match one_step(ax, ay, bx, by, nxt, prv, course, state, points, w) {
            None => return Err(Reason::NoNextLink),
            Some(v) => w = v,
        }
    }
    if w.end != back {
        let area = w.area + wedge(w.last, begin);
        return Ok(Finished {
            to: w.written,
            area,
        });
    }
    Err(Reason::WrongLastLink)
}

// Link k's a, or its b.
fn end_number(a: bool, k: usize) -> usize
    requires { k < cross_mark }
    ensures { result ≡ pick a (a_end k) (b_end k) }
{
    if a { 2 * k } else { 2 * k + 1 }
}

// One walk: it starts with link s, which is unvisited, goes forward along it or backward, and turns in a sense. Its points stand from number `at` on.
pub fn find_contour(
    ax: &[i32],
    ay: &[i32],
    bx: &[i32],
    by: &[i32],
    nxt: &[u32],
    prv: &[u32],
    course: Course,
    state: &mut [u8],
    points: &mut [i32],
    at: usize,
    s: usize,
) -> Result<Finished, Reason>
    requires steered { (Steered nxt.now prv.now state.old) × (Links ax.now ay.now bx.now by.now (length state.old)) }
    requires s_in_bounds { (s < length state.old) × (get_or state.old s 1 ≡ 0) × (Marks course.mark) }
    requires state_in_bounds { (at + unvisited state.old) * 2 ≤ length points.old }
    ensures find_contour_says { FindContourSays ax.now ay.now bx.now by.now nxt.now prv.now course
        state.old points.old at s result state.new points.new }
    ensures counted { (Counted (at + 1) at state.old state.new result) × (Sized at result) }
    ensures kept { Kept state.old state.new }
{
    let forward = course.forward;
    let sense = course.sense;
    let mark = course.mark;
    let home = end_number(forward, s);
    let ahead = end_number(!forward, s);
    state[s] = mark;
    let begin = start_point(ax, ay, bx, by, ahead);
    put_point(points, at, begin);
    let back = next_end(nxt, prv, state, !sense, home).ok_or(Reason::NoNextLink)?;
    let w = Walker {
        end: ahead,
        written: at + 1,
        last: begin,
        area: 0,
    };
    walk_on(
        ax, ay, bx, by, nxt, prv, course, back, begin, state, points, w,
    )
}
