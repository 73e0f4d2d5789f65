// The reports of a whole table at once: it is checked once, and each contour's numbers stand in lists.
#![tactic(auto)]

ghost use Rattle.std.specs.Prelude.{◌≡◌, ◌+◌, ◌^◌, ◌<◌, ◌≤◌, length};
ghost use Rattle.laws.specs.Test.{pick};
ghost use Rattle.table.specs.Table.{Table, table_of};
ghost use Rattle.table.specs.Sound.{Sound};
ghost use Rattle.report_all.specs.Columns.{Columns, columns, Room, is_missing, stored, report_at, counted, all_entered};
ghost use Rattle.report_all.specs.Promises.{ReportAllSays};

use records::Filled;
use report::records::{Measures, ReportValues};
use table::Contours;
use turn::Refusal;

pub mod records;

fn one_more_if_missing(r: Option<Measures>, count: usize) -> usize
    requires { count + 1 < 2 ^ 64 }
    ensures { result ≡ count + pick (is_missing r) 1 0 }
{
    match r {
        Some(_) => count,
        None => count + 1,
    }
}

// Entry c of each list.
fn store(
    v: ReportValues,
    c: usize,
    area: &mut [f64],
    left: &mut [f64],
    bottom: &mut [f64],
    right: &mut [f64],
    top: &mut [f64],
)
    requires { Room (columns area.old left.old bottom.old right.old top.old) (c + 1) }
    ensures { columns area.new left.new bottom.new right.new top.new
        ≡ stored (columns area.old left.old bottom.old right.old top.old) c v }
{
    area[c] = v.area;
    left[c] = v.left;
    bottom[c] = v.bottom;
    right[c] = v.right;
    top[c] = v.top;
}

// The report of contour c of a table that passes check 10, which has so many hulls, and so many before c.
fn report_at(
    contours: Contours,
    owner: &[u16],
    c: usize,
    shape: usize,
    hulls: usize,
) -> Option<Measures>
    requires { (let t : Table = table_of contours in
        (Sound t) × (c < length t.first) × (length t.first ≤ length owner.now)) }
    ensures { result ≡ report_at (table_of contours.entry) owner.now c shape hulls }
{
    if lookup::owner_right(contours.kind[c], owner[c], shape, hulls) {
        Some(report::measured(contours.points, contours.first[c], contours.len[c]))
    } else {
        None
    }
}

// The entries of every contour of a table that passes check 10; and of how many of them there is no report.
fn fill_lists(
    contours: Contours,
    owner: &[u16],
    area: &mut [f64],
    left: &mut [f64],
    bottom: &mut [f64],
    right: &mut [f64],
    top: &mut [f64],
) -> usize
    requires fact { (let t : Table = table_of contours in
        (Sound t) × (length t.first ≤ length owner.now)) }
    requires room { Room (columns area.old left.old bottom.old right.old top.old) (length contours.first.now) }
    ensures { (let t : Table = table_of contours.entry in
        let before : Columns = columns area.old left.old bottom.old right.old top.old in
        let after : Columns = columns area.new left.new bottom.new right.new top.new in
        counted result after ≡ all_entered t owner.now before) }
{
    let hulls = table::hulls_before(contours.kind, contours.kind.len());
    let mut shape = 0;
    let mut missing = 0;
    for c in 0..contours.first.len() {
        let r = report_at(contours, owner, c, shape, hulls);
        store(report::values_of(r), c, area, left, bottom, right, top);
        missing = one_more_if_missing(r, missing);
        shape = table::one_more_if_hull(contours.kind[c], shape);
    }
    missing
}

// The reports of every contour of any table: contour c's are entry c of each list.
pub fn report_all(
    contours: Contours,
    owner: &[u16],
    area: &mut [f64],
    left: &mut [f64],
    bottom: &mut [f64],
    right: &mut [f64],
    top: &mut [f64],
) -> Result<Filled, Refusal>
    ensures { (let t : Table = table_of contours.entry in
        let before : Columns = columns area.old left.old bottom.old right.old top.old in
        let after : Columns = columns area.new left.new bottom.new right.new top.new in
        ReportAllSays t owner.now before result after) }
{
    let room = owner
        .len()
        .min(area.len())
        .min(left.len())
        .min(bottom.len())
        .min(right.len())
        .min(top.len());
    check_table::check_table(contours, room)?;
    let missing = fill_lists(contours, owner, area, left, bottom, right, top);
    Ok(Filled {
        contours: contours.first.len(),
        missing,
    })
}
