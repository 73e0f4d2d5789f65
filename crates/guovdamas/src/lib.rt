// What the static library offers: extraction, binding, lookup and reports, with numbers and slices only, for Rust and C. The crate guovdamas_c exports it.
#![tactic(auto)]

ghost use Rattle.std.specs.Prelude.{◌≡◌, ◌<◌, ◌^◌, IfErr};
ghost use Rattle.graph.specs.Graph.{Lent, lent};
ghost use Rattle.finish.specs.Finish.{Buffers, buffers};
ghost use Rattle.table.specs.Table.{Table, table};
ghost use Rattle.lookup.specs.Lookups.{role_number, role_owner};
ghost use Rattle.report_all.specs.Columns.{Columns, columns};
ghost use Rattle.guovdamas.specs.Numbers.{settings_of, extraction_of, binding_of, found_record, record_numbers, report_with, reports_of};
ghost use Rattle.guovdamas.specs.Promises.{GuovdamasExtractSays, GuovdamasBindSays, GuovdamasLookupSays, GuovdamasReportSays};
ghost use Rattle.guovdamas.specs.Promises.{GuovdamasReportAllSays};

use bind::Bound;
use contour::Settings;
use keep::Counts;
use lookup::records::{ContourRecord, Role};
use report::records::ReportValues;
use report_all::records::Filled;
use table::Contours;
use turn::Refusal;

// How outlines are asked for: the area below which a walk is rejected, the output direction, and whether points on a straight line are dropped.
#[repr(C)]
#[derive(Clone, Copy)]
pub struct GuovdamasSettings {
    pub minimum: u64,
    pub clockwise: bool,
    pub drop_straight: bool,
}

// What extraction answers: document 01's number and place, 0 and 0 when done; the counts and the signed doubled totals, all 0 after a refusal.
#[repr(C)]
#[derive(Clone, Copy)]
pub struct GuovdamasExtraction {
    pub number: u32,
    pub place: usize,
    pub contours: usize,
    pub points: usize,
    pub rejected: usize,
    pub walked: usize,
    pub left_out: usize,
    pub kept_area: i64,
    pub rejected_area: i64,
}

// What binding answers: document 01's number and place, 0 and 0 when done; how many shapes there are and how many holes were dropped, 0 after a refusal.
#[repr(C)]
#[derive(Clone, Copy)]
pub struct GuovdamasBinding {
    pub number: u32,
    pub place: u32,
    pub shapes: u32,
    pub dropped: u32,
}

// What a lookup answers: found 1; role 0 for a hull, 1 for a hole, 2 for a dropped hole; the owner's number, 65,535 for a dropped hole;
// the first point's position and the number of points. All fields are 0 where the contour has no record.
#[repr(C)]
#[derive(Clone, Copy)]
pub struct GuovdamasRecord {
    pub found: u32,
    pub role: u32,
    pub owner: u32,
    pub first: u32,
    pub len: u32,
}

// What a report answers: found 1; the signed area in square millimetres, and the frame's edges in millimetres. Where there is no such
// contour found is 0, and no other field is a number.
#[repr(C)]
#[derive(Clone, Copy)]
pub struct GuovdamasReport {
    pub found: u32,
    pub area: f64,
    pub left: f64,
    pub bottom: f64,
    pub right: f64,
    pub top: f64,
}

// What the reports of a table answer: document 01's number and place, 0 and 0 when done; how many contours there are, and of how many of
// them there is no report, 0 after a refusal.
#[repr(C)]
#[derive(Clone, Copy)]
pub struct GuovdamasReports {
    pub number: u32,
    pub place: usize,
    pub contours: usize,
    pub missing: usize,
}

impl From<GuovdamasSettings> for Settings {
    ghost from_gives = { λ settings s. s ≡ settings_of settings };

    fn from(settings: GuovdamasSettings) -> Settings {
        Settings {
            clockwise: settings.clockwise,
            minimum: settings.minimum,
            drop_straight: settings.drop_straight,
        }
    }
}

impl From<Result<Counts, Refusal>> for GuovdamasExtraction {
    ghost from_gives = { λ answer e. e ≡ extraction_of answer };

    fn from(answer: Result<Counts, Refusal>) -> GuovdamasExtraction {
        match answer {
            Ok(counts) => GuovdamasExtraction {
                number: 0,
                place: 0,
                contours: counts.contours,
                points: counts.points,
                rejected: counts.rejected,
                walked: counts.walked,
                left_out: counts.left_out,
                kept_area: counts.kept_area,
                rejected_area: counts.rejected_area,
            },
            Err(refusal) => GuovdamasExtraction {
                number: refusal.reason.number(),
                place: refusal.place,
                contours: 0,
                points: 0,
                rejected: 0,
                walked: 0,
                left_out: 0,
                kept_area: 0,
                rejected_area: 0,
            },
        }
    }
}

// Binding's places fit 32 bits.
impl From<Result<Bound, Refusal>> for GuovdamasBinding {
    ghost from_gives = { λ answer b. IfErr answer (λ r. r.place < 2 ^ 32) → b ≡ binding_of answer };

    fn from(answer: Result<Bound, Refusal>) -> GuovdamasBinding {
        match answer {
            Ok(bound) => GuovdamasBinding {
                number: 0,
                place: 0,
                shapes: bound.shapes,
                dropped: bound.dropped,
            },
            Err(refusal) => GuovdamasBinding {
                number: refusal.reason.number(),
                place: u32::try_from(refusal.place).unwrap_or(u32::MAX),
                shapes: 0,
                dropped: 0,
            },
        }
    }
}

// By hand, this and the next: C has roles and owners as numbers.
fn role_number(role: Role) -> u32
    ensures { result ≡ role_number role }
{
    match role {
        Role::Hull(_) => 0,
        Role::Hole(_) => 1,
        Role::Dropped => 2,
    }
}

fn role_owner(role: Role) -> u16
    ensures { result ≡ role_owner role }
{
    match role {
        Role::Hull(shape) => shape,
        Role::Hole(shape) => shape,
        Role::Dropped => table::DROPPED,
    }
}

fn found_record(found: ContourRecord) -> GuovdamasRecord
    ensures { result ≡ found_record found }
{
    let role = found.role;
    GuovdamasRecord {
        found: 1,
        role: role_number(role),
        owner: u32::from(role_owner(role)),
        first: found.first,
        len: found.len,
    }
}

impl From<Option<ContourRecord>> for GuovdamasRecord {
    ghost from_gives = { λ answer r. r ≡ record_numbers answer };

    fn from(answer: Option<ContourRecord>) -> GuovdamasRecord {
        match answer {
            Some(found) => found_record(found),
            None => GuovdamasRecord {
                found: 0,
                role: 0,
                owner: 0,
                first: 0,
                len: 0,
            },
        }
    }
}

impl From<ReportValues> for GuovdamasReport {
    ghost from_gives = { λ values r. r ≡ report_with values };

    fn from(values: ReportValues) -> GuovdamasReport {
        GuovdamasReport {
            found: values.found,
            area: values.area,
            left: values.left,
            bottom: values.bottom,
            right: values.right,
            top: values.top,
        }
    }
}

impl From<Result<Filled, Refusal>> for GuovdamasReports {
    ghost from_gives = { λ answer r. r ≡ reports_of answer };

    fn from(answer: Result<Filled, Refusal>) -> GuovdamasReports {
        match answer {
            Ok(filled) => GuovdamasReports {
                number: 0,
                place: 0,
                contours: filled.contours,
                missing: filled.missing,
            },
            Err(refusal) => GuovdamasReports {
                number: refusal.reason.number(),
                place: refusal.place,
                contours: 0,
                missing: 0,
            },
        }
    }
}

// Checks 1 to 7 and the walks of a graph, into the lent states, points and contour table.
pub fn guovdamas_extract(
    ax: &[i32],
    ay: &[i32],
    bx: &[i32],
    by: &[i32],
    a_id: &[u32],
    b_id: &[u32],
    top: &[u8],
    start: &[u32],
    list: &[u32],
    settings: GuovdamasSettings,
    state: &mut [u8],
    points: &mut [i32],
    first: &mut [u32],
    len: &mut [u32],
    kind: &mut [u8],
) -> GuovdamasExtraction
    ensures { (let g : Lent = lent ax.now ay.now bx.now by.now a_id.now
        b_id.now start.now list.now in
        let before : Buffers = buffers state.old points.old first.old len.old
        kind.old in
        let after : Buffers = buffers state.new points.new first.new len.new kind.new in
        GuovdamasExtractSays g top.now settings before result after) }
{
    let answer = extract::extract(
        ax,
        ay,
        bx,
        by,
        a_id,
        b_id,
        start,
        list,
        top,
        settings.into(),
        state,
        points,
        first,
        len,
        kind,
    );
    answer.into()
}

// Checks 10 to 12 and the owner of every contour, into the lent owners.
pub fn guovdamas_bind(
    points: &[i32],
    first: &[u32],
    len: &[u32],
    kind: &[u8],
    clockwise: bool,
    owner: &mut [u16],
) -> GuovdamasBinding
    ensures { (let t : Table = table points.now first.now len.now kind.now in
        GuovdamasBindSays t clockwise owner.old result owner.new) }
{
    let contours = Contours {
        points,
        first,
        len,
        kind,
    };
    let answer = bind::bind(contours, clockwise, owner);
    answer.into()
}

// One contour's record.
pub fn guovdamas_lookup(
    points: &[i32],
    first: &[u32],
    len: &[u32],
    kind: &[u8],
    owner: &[u16],
    contour: usize,
) -> GuovdamasRecord
    ensures { (let t : Table = table points.now first.now len.now kind.now in
        GuovdamasLookupSays t owner.now contour result) }
{
    let contours = Contours {
        points,
        first,
        len,
        kind,
    };
    lookup::lookup(contours, owner, contour).into()
}

// One contour's area and frame in millimetres.
pub fn guovdamas_report(
    points: &[i32],
    first: &[u32],
    len: &[u32],
    kind: &[u8],
    owner: &[u16],
    contour: usize,
) -> GuovdamasReport
    ensures { (let t : Table = table points.now first.now len.now kind.now in
        GuovdamasReportSays t owner.now contour result) }
{
    let contours = Contours {
        points,
        first,
        len,
        kind,
    };
    report::values_of(report::report(contours, owner, contour)).into()
}

// Every contour's area and frame in millimetres, into the lent lists.
pub fn guovdamas_report_all(
    points: &[i32],
    first: &[u32],
    len: &[u32],
    kind: &[u8],
    owner: &[u16],
    area: &mut [f64],
    left: &mut [f64],
    bottom: &mut [f64],
    right: &mut [f64],
    top: &mut [f64],
) -> GuovdamasReports
    ensures { (let t : Table = table points.now first.now len.now kind.now in
        let before : Columns = columns area.old left.old bottom.old right.old top.old in
        let after : Columns = columns area.new left.new bottom.new right.new top.new in
        GuovdamasReportAllSays t owner.now before result after) }
{
    let contours = Contours {
        points,
        first,
        len,
        kind,
    };
    let answer = report_all::report_all(contours, owner, area, left, bottom, right, top);
    answer.into()
}
