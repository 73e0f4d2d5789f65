// Check 10: the whole table, then the lowest contour that is wrong.
#![tactic(auto)]

ghost use Rattle.std.specs.Prelude.{◌≡◌, ◌+◌, ◌*◌, ◌≤◌, length};
ghost use Rattle.laws.specs.Lowest.{lowest_if};
ghost use Rattle.table.specs.Table.{Table, table_of};
ghost use Rattle.table.specs.TableChecks.{start_in, some_point_fault, contour_fault, bad_contour};
ghost use Rattle.check_table.specs.Promises.{CheckTableSays};

use check_ranges::{misfit, range_fault};
use table::{Contours, point_in};
use turn::{Reason, Refusal, off_grid};

// Where a contour's range ends. The sum of two u32 fits a usize.
fn range_end(first: u32, len: u32) -> usize
    ensures { result ≡ first + len }
{
    first as usize + len as usize
}

// Where the last range ends.
fn ranges_end(first: &[u32], len: &[u32]) -> usize
    requires { length len.now ≡ length first.now }
    ensures { result ≡ start_in first.now len.now (length first.now) }
{
    match (first.last(), len.last()) {
        (Some(first), Some(len)) => range_end(*first, *len),
        _ => 0,
    }
}

// Whether a contour has a point off the grid or, round it, equal neighbours.
fn some_point_fault(points: &[i32], from: usize, len: usize) -> bool
    requires { (3 ≤ len) × ((from + len) * 2 ≤ length points.now) }
    ensures { result ≡ some_point_fault points.now from len }
{
    let mut last = point_in(points, from + len - 1);
    for k in 0..len {
        let here = point_in(points, from + k);
        if off_grid(here) | !turn::differ(last, here) {
            return true;
        }
        last = here;
    }
    false
}

// Whether check 10 refuses a contour whose range must begin at start.
fn contour_fault(points: &[i32], start: usize, first: u32, len: u32, kind: u8) -> bool
    ensures { result ≡ contour_fault points.now start first len kind }
{
    range_fault(points.len() / 2, start, first, len, kind)
        || some_point_fault(points, first as usize, len as usize)
}

// The lowest contour that check 10 refuses, or none.
fn bad_contour(contours: Contours) -> Option<usize>
    requires { (let t : Table = table_of contours in
        (length t.len ≡ length t.first) × (length t.kind ≡ length t.first)) }
    ensures { (let t : Table = table_of contours.entry in
        result ≡ lowest_if (bad_contour t) (length t.first)) }
{
    let mut start = 0;
    for c in 0..contours.first.len() {
        let first = contours.first[c];
        let len = contours.len[c];
        if contour_fault(contours.points, start, first, len, contours.kind[c]) {
            return Some(c);
        }
        start = range_end(first, len);
    }
    None
}

// Check 10, with so much room for owners.
pub fn check_table(contours: Contours, owners: usize) -> Result<(), Refusal>
    ensures { CheckTableSays (table_of contours.entry) owners result }
{
    if misfit(
        contours.points.len(),
        contours.first.len(),
        contours.len.len(),
        contours.kind.len(),
        owners,
    ) {
        return Err(Refusal {
            reason: Reason::WrongTable,
            place: 0,
        });
    }
    if ranges_end(contours.first, contours.len) != contours.points.len() / 2 {
        return Err(Refusal {
            reason: Reason::WrongTable,
            place: 0,
        });
    }
    if let Some(c) = bad_contour(contours) {
        return Err(Refusal {
            reason: Reason::WrongTable,
            place: c,
        });
    }
    Ok(())
}
