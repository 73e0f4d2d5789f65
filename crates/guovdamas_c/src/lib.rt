// The static library: the functions of the crate guovdamas, exported for Rust and C under the same names and with the same promises.
// include/guovdamas.h is its header.
#![tactic(auto)]

ghost use Rattle.graph.specs.Graph.{Lent, lent};
ghost use Rattle.finish.specs.Finish.{Buffers, buffers};
ghost use Rattle.table.specs.Table.{Table, table};
ghost use Rattle.report_all.specs.Columns.{Columns, columns};
ghost use Rattle.guovdamas.specs.Promises.{GuovdamasExtractSays, GuovdamasBindSays, GuovdamasLookupSays, GuovdamasReportSays};
ghost use Rattle.guovdamas.specs.Promises.{GuovdamasReportAllSays};

use guovdamas::{
    GuovdamasBinding, GuovdamasExtraction, GuovdamasRecord, GuovdamasReport, GuovdamasReports,
    GuovdamasSettings,
};

// Checks 1 to 7 and the walks of a graph, into the lent states, points and contour table.
#[unsafe(no_mangle)]
pub extern "C" fn guovdamas_extract(
    ax: &[i32],
    ay: &[i32],
    bx: &[i32],
    by: &[i32],
    a_id: &[u32],
    b_id: &[u32],
    top: &[u8],
    start: &[u32],
    list: &[u32],
    settings: GuovdamasSettings,
    state: &mut [u8],
    points: &mut [i32],
    first: &mut [u32],
    len: &mut [u32],
    kind: &mut [u8],
) -> GuovdamasExtraction
    ensures { (let g : Lent = lent ax.now ay.now bx.now by.now a_id.now
        b_id.now start.now list.now in
        let before : Buffers = buffers state.old points.old first.old len.old
        kind.old in
        let after : Buffers = buffers state.new points.new first.new len.new kind.new in
        GuovdamasExtractSays g top.now settings before result after) }
{
    guovdamas::guovdamas_extract(
        ax, ay, bx, by, a_id, b_id, top, start, list, settings, state, points, first, len, kind,
    )
}

// Checks 10 to 12 and the owner of every contour, into the lent owners.
#[unsafe(no_mangle)]
pub extern "C" fn guovdamas_bind(
    points: &[i32],
    first: &[u32],
    len: &[u32],
    kind: &[u8],
    clockwise: bool,
    owner: &mut [u16],
) -> GuovdamasBinding
    ensures { (let t : Table = table points.now first.now len.now kind.now in
        GuovdamasBindSays t clockwise owner.old result owner.new) }
{
    guovdamas::guovdamas_bind(points, first, len, kind, clockwise, owner)
}

// One contour's record.
#[unsafe(no_mangle)]
pub extern "C" fn guovdamas_lookup(
    points: &[i32],
    first: &[u32],
    len: &[u32],
    kind: &[u8],
    owner: &[u16],
    contour: usize,
) -> GuovdamasRecord
    ensures { (let t : Table = table points.now first.now len.now kind.now in
        GuovdamasLookupSays t owner.now contour result) }
{
    guovdamas::guovdamas_lookup(points, first, len, kind, owner, contour)
}

// One contour's area and frame in millimetres.
#[unsafe(no_mangle)]
pub extern "C" fn guovdamas_report(
    points: &[i32],
    first: &[u32],
    len: &[u32],
    kind: &[u8],
    owner: &[u16],
    contour: usize,
) -> GuovdamasReport
    ensures { (let t : Table = table points.now first.now len.now kind.now in
        GuovdamasReportSays t owner.now contour result) }
{
    guovdamas::guovdamas_report(points, first, len, kind, owner, contour)
}

// Every contour's area and frame in millimetres, into the lent lists.
#[unsafe(no_mangle)]
pub extern "C" fn guovdamas_report_all(
    points: &[i32],
    first: &[u32],
    len: &[u32],
    kind: &[u8],
    owner: &[u16],
    area: &mut [f64],
    left: &mut [f64],
    bottom: &mut [f64],
    right: &mut [f64],
    top: &mut [f64],
) -> GuovdamasReports
    ensures { (let t : Table = table points.now first.now len.now kind.now in
        let before : Columns = columns area.old left.old bottom.old right.old top.old in
        let after : Columns = columns area.new left.new bottom.new right.new top.new in
        GuovdamasReportAllSays t owner.now before result after) }
{
    guovdamas::guovdamas_report_all(
        points, first, len, kind, owner, area, left, bottom, right, top,
    )
}
