// Check 11: each hole's anchor is its least point, and is not before that of the hole before it.
#![tactic(auto)]

ghost use Rattle.std.specs.Prelude.{◌≡◌, ◌+◌, ◌*◌, ◌<◌, ◌≤◌, eqb, length};
ghost use Rattle.laws.specs.Test.{pick};
ghost use Rattle.table.specs.Table.{Table, table_of};
ghost use Rattle.table.specs.Sound.{Sound};
ghost use Rattle.anchor.specs.AnchorChecks.{hole_before, not_least, before_last, bad_anchor};
ghost use Rattle.anchor.specs.Anchored.{Paired};
ghost use Rattle.check_anchors.specs.Holes.{number_and_one};
ghost use Rattle.check_anchors.specs.Promises.{CheckAnchorsSays};

use anchor::anchor_point;
use table::Contours;
use turn::{Point, Reason, Refusal, wide};

// Whether some point of a contour is before the anchor.
fn not_least(points: &[i32], from: usize, len: usize, anchor: Point) -> bool
    requires { (from + len) * 2 ≤ length points.now }
    ensures { result ≡ not_least points.now from len anchor }
{
    (0..len).any(|k| turn::before(table::point_in(points, from + k), anchor))
}

// Whether the anchor is before that of the last hole, where there is one.
fn before_last(contours: Contours, clockwise: bool, last: Option<usize>, anchor: Point) -> bool
    requires { (let t : Table = table_of contours in
        (number_and_one last ≤ length t.first) × (Paired t.points t.first)) }
    ensures { (let t : Table = table_of contours.entry in
        result ≡ before_last t.points t.first clockwise (number_and_one last) anchor) }
{
    match last {
        Some(c) => {
            let from = wide(contours.first[c]);
            turn::before(anchor, anchor_point(contours.points, from, clockwise))
        }
        None => false,
    }
}

// Whether check 11 refuses contour c, where the last hole before it is given.
fn anchor_fault(contours: Contours, clockwise: bool, last: Option<usize>, c: usize) -> bool
    requires { (let t : Table = table_of contours in
        (Sound t) × (c < length t.first) × (number_and_one last ≡ hole_before t c)) }
    ensures { result ≡ bad_anchor (table_of contours.entry) clockwise c }
{
    if contours.kind[c] != 1 {
        return false;
    }
    let from = wide(contours.first[c]);
    let anchor = anchor_point(contours.points, from, clockwise);
    not_least(contours.points, from, wide(contours.len[c]), anchor)
        || before_last(contours, clockwise, last, anchor)
}

// The last hole up to a contour of a kind, where the last before it is given.
fn hole_up_to(kind: u8, c: usize, last: Option<usize>) -> Option<usize>
    ensures { result ≡ pick (eqb kind 1) (Some c) last }
{
    if kind == 1 { Some(c) } else { last }
}

// Check 11, of a table that passes check 10.
pub fn check_anchors(contours: Contours, clockwise: bool) -> Result<(), Refusal>
    requires { Sound (table_of contours) }
    ensures { CheckAnchorsSays (table_of contours.entry) clockwise result }
{
    let mut last = None;
    for c in 0..contours.first.len() {
        if anchor_fault(contours, clockwise, last, c) {
            return Err(Refusal {
                reason: Reason::WrongAnchor,
                place: c,
            });
        }
        last = hole_up_to(contours.kind[c], c, last);
    }
    Ok(())
}
