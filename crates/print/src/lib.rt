// The printed answer, written into a slice of bytes.
//
// Every writer takes the buffer and a position, writes its bytes there and answers the position after them.
#![tactic(auto)]

ghost use Rattle.std.specs.Prelude.{◌+◌, ◌*◌, ◌<◌, ◌≤◌, length};
ghost use Rattle.writing.specs.Cuts.{Cut};
ghost use Rattle.writing.specs.Write.{Wrote};
ghost use Rattle.print.specs.Room.{answer_bytes, RangesInside, Printable};
ghost use Rattle.print.specs.Answer.{OwnedTable, owned_table, owned_of, point_lines, contour_lines, contours_from};
ghost use Rattle.print.specs.Promises.{WriteAnswerSays};

use print_lines::Totals;
use table::{Contours, MAX_CONTOURS};
use turn::MAX_LINKS;

// Room for every answer: the first line, 24 bytes for a contour's line and 16 for a point's.
pub const ANSWER_BYTES: usize = 51 + 24 * MAX_CONTOURS + 16 * MAX_LINKS;

// So many points from a number on, one a line.
fn write_points(points: &[i32], first: usize, count: usize, out: &mut [u8], at: usize) -> usize
    requires count_in_bounds { 2 * (first + count) ≤ length points.now }
    requires count_in_bounds_2 { at + length (point_lines points.now first count) ≤ length out.old }
    ensures { Wrote out.old out.new at result (point_lines points.now first count) }
{
    let mut next = at;
    for p in first..first + count {
        next = print_point::write_point(points[2 * p], points[2 * p + 1], out, next);
    }
    next
}

// Contour i: its line, and its points.
fn write_contour(contours: Contours, owner: &[u16], i: usize, out: &mut [u8], at: usize) -> usize
    requires fact { RangesInside (owned_of contours owner.now) (i + 1) }
    requires i_in_bounds { (let t : OwnedTable = owned_of contours owner.now in
        at + length (contour_lines t i) ≤ length out.old) }
    ensures { (let t : OwnedTable = owned_of contours.entry owner.now in
        Wrote out.old out.new at result (contour_lines t i)) }
{
    let first = contours.first[i] as usize;
    let count = contours.len[i];
    let next = print_contour::write_contour_line(i, contours.kind[i], owner[i], count, out, at);
    write_points(contours.points, first, count as usize, out, next)
}

// So many contours, in the order of their numbers.
fn write_contours(
    contours: Contours,
    owner: &[u16],
    count: usize,
    out: &mut [u8],
    at: usize,
) -> usize
    requires fact { RangesInside (owned_of contours owner.now) count }
    requires contours_in_bounds { (let t : OwnedTable = owned_of contours owner.now in
        at + length (contours_from t 0 count) ≤ length out.old) }
    ensures { (let t : OwnedTable = owned_of contours.entry owner.now in
        Wrote out.old out.new at result (contours_from t 0 count)) }
{
    let mut next = at;
    for i in 0..count {
        next = write_contour(contours, owner, i, out, next);
    }
    next
}

// The whole answer, from the start of the buffer. It asks for a table that passed check 10, as its one caller has it
// after binding: the answer is then never longer than ANSWER_BYTES.
pub fn write_answer(
    points: &[i32],
    first: &[u32],
    len: &[u32],
    kind: &[u8],
    owner: &[u16],
    totals: Totals,
    out: &mut [u8],
) -> usize
    requires fact { (let t : OwnedTable = owned_table points.now first.now len.now kind.now owner.now in
        Printable t totals) }
    requires answer_bytes_in_bounds { answer_bytes ≤ length out.old }
    ensures fact_2 { (let t : OwnedTable =
        owned_table points.now first.now len.now
        kind.now owner.now in
        WriteAnswerSays t totals out.old out.new result) }
    ensures cut { Cut result out.new }
{
    let contours = Contours {
        points,
        first,
        len,
        kind,
    };
    let next = print_lines::write_header(totals, out);
    write_contours(contours, owner, totals.contours, out, next)
}
