// The report of a contour: its area and its frame in millimetres, or that there is no such contour.
#![tactic(auto)]

ghost use Rattle.std.specs.Prelude.{◌≡◌, ◌+◌, ◌*◌, ◌≤◌, length};
ghost use Rattle.turn.specs.Limits.{max_links};
ghost use Rattle.turn.specs.Points.{Grid};
ghost use Rattle.table.specs.Table.{table_of};
ghost use Rattle.report.specs.Reports.{values_with};
ghost use Rattle.report.specs.Promises.{MeasuredSays, ValuesOfSays, ReportSays};

use millimetres::Frame;
use records::{Measures, ReportValues};
use table::Contours;

pub mod records;

// The area and the frame of the points from a position on, so many.
pub fn measured(points: &[i32], first: u32, len: u32) -> Measures
    requires { (1 ≤ len) × ((first + len) * 2 ≤ length points.now) × (length points.now ≤ 2 * max_links) × (Grid points.now) }
    ensures { MeasuredSays points.now first len result }
{
    let from = turn::wide(first) * 2;
    let to = from + turn::wide(len) * 2;
    let run = &points[from..to];
    let area = millimetres::square_millimetres(turn::doubled_area(run));
    let frame = millimetres::frame_of(extent::extent_of(run));
    Measures { area, frame }
}

// The values of a report that is there.
fn values_with(area: f64, frame: Frame) -> ReportValues
    ensures { result ≡ values_with area frame }
{
    ReportValues {
        found: 1,
        area,
        left: frame.left,
        bottom: frame.bottom,
        right: frame.right,
        top: frame.top,
    }
}

// A report's values.
pub fn values_of(r: Option<Measures>) -> ReportValues
    ensures { ValuesOfSays r result }
{
    match r {
        Some(m) => values_with(m.area, m.frame),
        None => {
            let none = millimetres::no_number();
            ReportValues {
                found: 0,
                area: none,
                left: none,
                bottom: none,
                right: none,
                top: none,
            }
        }
    }
}

// The report of one contour of any table.
pub fn report(contours: Contours, owner: &[u16], contour: usize) -> Option<Measures>
    ensures { ReportSays (table_of contours.entry) owner.now contour result }
{
    let found = lookup::lookup(contours, owner, contour)?;
    Some(measured(contours.points, found.first, found.len))
}
