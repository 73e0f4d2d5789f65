// The ring of a `Cross`: where one more end goes, and how it is linked there.
#![tactic(auto)]

ghost use Rattle.std.specs.Prelude.{◌≡◌, List, ℕ, ◌*◌, ◌/◌, ◌<◌, length, set, Some};
ghost use Rattle.turn.specs.Limits.{max_links};
ghost use Rattle.turn.specs.declared.Point.{Point};
ghost use Rattle.turn.specs.Points.{OnGrid, Short};
ghost use Rattle.graph.specs.Graph.{point_at};
ghost use Rattle.graph.specs.Known.{Points, Grids};
ghost use Rattle.hoop.specs.declared.Place.TheVariants.{First, After};
ghost use Rattle.hoop.specs.Hoops.{far_point, way_of, Stands, Sought, Fits, after, put_end};
ghost use Rattle.hoop.specs.Promises.{FindPlaceSays, PutEndSays};

use graph::point_at;
use rings::{CROSS, WRAP};
use std::cmp::Ordering;
use turn::{Point, Vector, between, cross_product, wide};

// The ring so far: its first and its last end, and how many it has.
#[derive(Clone, Copy)]
pub struct Hoop {
    pub head: usize,
    pub tail: usize,
    pub count: usize,
}

// Where an end goes: before all of the ring, or after one end; or it runs as one of them does.
#[derive(Clone, Copy)]
pub enum Place {
    First,
    After(usize),
    Alike,
}

// The point at the other end of end h's link.
fn far_point(ax: &[i32], ay: &[i32], bx: &[i32], by: &[i32], h: usize) -> Point
    requires { (Points ax.now ay.now bx.now by.now (length ax.now)) × (h / 2 < length ax.now) }
    ensures { result ≡ far_point (point_at ax.now ay.now) (point_at bx.now by.now) h }
{
    let k = h / 2;
    if h % 2 == 0 {
        point_at(bx, by, k)
    } else {
        point_at(ax, ay, k)
    }
}

// Where end h of the ring stands against end q, which runs this way from their point: earlier is less.
fn compare(
    ax: &[i32],
    ay: &[i32],
    bx: &[i32],
    by: &[i32],
    home: Point,
    h: usize,
    q: usize,
    way: Vector,
) -> Ordering
    requires points { Points ax.now ay.now bx.now by.now (length ax.now) }
    requires grids { Grids ax.now ay.now bx.now by.now (length ax.now) }
    requires h_in_bounds { (h / 2 < length ax.now) × (OnGrid home) × (Short way) }
    requires way_value { way ≡ way_of (point_at ax.now ay.now) (point_at bx.now by.now) home q }
    ensures { Stands (point_at ax.now ay.now) (point_at bx.now by.now) home h q result }
{
    if h % 2 != q % 2 {
        if h % 2 == 1 {
            return Ordering::Less;
        }
        return Ordering::Greater;
    }
    let turn = cross_product(between(home, far_point(ax, ay, bx, by, h)), way);
    if turn == 0 {
        return Ordering::Equal;
    }
    if 0 < turn {
        return Ordering::Less;
    }
    Ordering::Greater
}

// The place of end q in the ring, looked for from the ring's last end backward.
pub fn find_place(
    ax: &[i32],
    ay: &[i32],
    bx: &[i32],
    by: &[i32],
    prv: &[u32],
    hoop: Hoop,
    home: Point,
    q: usize,
) -> Place
    requires points { Points ax.now ay.now bx.now by.now (length ax.now) }
    requires grids { Grids ax.now ay.now bx.now by.now (length ax.now) }
    requires q_in_bounds { (q / 2 < length ax.now) × (OnGrid home) }
    requires sought { Sought (length ax.now) prv.now hoop }
    ensures { FindPlaceSays (point_at ax.now ay.now) (point_at bx.now by.now)
        prv.now hoop home q result }
{
    let way = between(home, far_point(ax, ay, bx, by, q));
    let mut at = hoop.tail;
    for _ in 0..hoop.count {
        match compare(ax, ay, bx, by, home, at, q, way) {
            Ordering::Less => {
                return Place::After(at);
            }
            Ordering::Equal => {
                return Place::Alike;
            }
            Ordering::Greater => {
                at = wide(prv[at]);
            }
        }
    }
    Place::First
}

// End q is linked between the ends r and a: q's next end with its mark, and r's, are given.
fn link_end(nxt: &mut [u32], prv: &mut [u32], r: usize, q: usize, a: usize, onto: u32, from: u32)
    requires r_bound { (r < 2 * max_links) × (q < 2 * max_links) }
    requires r_in_bounds { (r < length nxt.old) × (q < length nxt.old) × (q < length prv.old) × (a < length prv.old) }
    ensures nxt_after { nxt.new ≡ set (set nxt.old q onto) r from }
    ensures prv_after { prv.new ≡ set (set prv.old q r) a q }
{
    nxt[q] = onto;
    prv[q] = r as u32;
    nxt[r] = from;
    prv[a] = q as u32;
}

// End q is linked before the ring's first end, and so after its last; or alone.
fn put_first(nxt: &mut [u32], prv: &mut [u32], hoop: Hoop, q: usize) -> Hoop
    requires { Fits nxt.old prv.old hoop First q }
    ensures { after (Some result) nxt.new prv.new ≡ put_end nxt.old prv.old hoop First q }
{
    if hoop.count == 0 {
        nxt[q] = WRAP + q as u32;
        prv[q] = q as u32;
        return Hoop {
            head: q,
            tail: q,
            count: 1,
        };
    }
    let onto = CROSS + hoop.head as u32;
    link_end(nxt, prv, hoop.tail, q, hoop.head, onto, WRAP + q as u32);
    Hoop {
        head: q,
        count: hoop.count + 1,
        ..hoop
    }
}

// End q is linked after end p of the ring: after the last, or between two.
fn put_after(nxt: &mut [u32], prv: &mut [u32], hoop: Hoop, p: usize, q: usize) -> Hoop
    requires { Fits nxt.old prv.old hoop (After p) q }
    ensures { after (Some result) nxt.new prv.new ≡ put_end nxt.old prv.old hoop (After p) q }
{
    let from = CROSS + q as u32;
    if p == hoop.tail {
        let onto = WRAP + hoop.head as u32;
        link_end(nxt, prv, hoop.tail, q, hoop.head, onto, from);
        return Hoop {
            tail: q,
            count: hoop.count + 1,
            ..hoop
        };
    }
    let onto = nxt[p];
    link_end(nxt, prv, p, q, wide(onto - CROSS), onto, from);
    Hoop {
        count: hoop.count + 1,
        ..hoop
    }
}

// End q is linked at its place, and makes the ring this one; none where it runs as another end does.
pub fn put_end(nxt: &mut [u32], prv: &mut [u32], hoop: Hoop, place: Place, q: usize) -> Option<Hoop>
    requires { Fits nxt.old prv.old hoop place q }
    ensures { PutEndSays nxt.old prv.old hoop place q result nxt.new prv.new }
{
    match place {
        Place::Alike => None,
        Place::First => Some(put_first(nxt, prv, hoop, q)),
        Place::After(p) => Some(put_after(nxt, prv, hoop, p, q)),
    }
}
