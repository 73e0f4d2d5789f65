// What the program answers to a contour table, and to what extraction gave: bound, and printed into a slice of bytes.
#![tactic(auto)]

ghost use Rattle.std.specs.Prelude.{◌≡◌, ℕ, ◌≤◌, length};
ghost use Rattle.table.specs.Table.{Table, table};
ghost use Rattle.print.specs.Room.{answer_bytes};
ghost use Rattle.writing.specs.Write.{Wrote};
ghost use Rattle.answer_table.specs.BoundText.{bound_text};
ghost use Rattle.answer_table.specs.ExtractionText.{KeptFits, kept_part, ExtractionFits};
ghost use Rattle.answer_table.specs.Promises.{AnswerExtractionSays};

use keep::Counts;
use print_lines::Totals;
use table::{Contours, MAX_CONTOURS};
use turn::NumberedRefusal;

// Binds the contours of a table and prints them.
fn answer_table(
    points: &[i32],
    first: &[u32],
    len: &[u32],
    kind: &[u8],
    clockwise: bool,
    out: &mut [u8],
) -> usize
    requires { answer_bytes ≤ length out.old }
    ensures { (let t : Table = table points.now first.now len.now kind.now in
        Wrote out.old out.new 0 result (bound_text t clockwise)) }
{
    let contours = Contours {
        points,
        first,
        len,
        kind,
    };
    let mut owner = [0u16; MAX_CONTOURS];
    match bind::bind(contours, clockwise, &mut owner) {
        Err(refusal) => print_refusal::write_refusal(refusal.reason.number(), refusal.place, out),
        Ok(bound) => {
            let totals = Totals {
                contours: first.len(),
                shapes: bound.shapes as usize,
                points: points.len() / 2,
                dropped: bound.dropped as usize,
            };
            print::write_answer(points, first, len, kind, &owner, totals, out)
        }
    }
}

// Answers the contours that extraction kept, which stand at the fronts of the lent table.
fn answer_kept(
    points: &[i32],
    first: &[u32],
    len: &[u32],
    kind: &[u8],
    counts: Counts,
    clockwise: bool,
    out: &mut [u8],
) -> usize
    requires kept_fits { KeptFits counts (table points.now first.now len.now kind.now) }
    requires answer_bytes_in_bounds { answer_bytes ≤ length out.old }
    ensures { (let t : Table = table points.now first.now len.now kind.now in
        Wrote out.old out.new 0 result (bound_text (kept_part counts t) clockwise)) }
{
    let c = counts.contours;
    let p = counts.points * 2;
    answer_table(
        &points[..p],
        &first[..c],
        &len[..c],
        &kind[..c],
        clockwise,
        out,
    )
}

// Answers what extraction gave: its refusal, or the contours that it kept of the lent table.
pub fn answer_extraction(
    extraction: Result<Counts, NumberedRefusal>,
    points: &[i32],
    first: &[u32],
    len: &[u32],
    kind: &[u8],
    clockwise: bool,
    out: &mut [u8],
) -> usize
    requires extraction_fits { ExtractionFits extraction (table points.now first.now len.now kind.now) }
    requires answer_bytes_in_bounds { answer_bytes ≤ length out.old }
    ensures { (let t : Table = table points.now first.now len.now kind.now in
        AnswerExtractionSays extraction t clockwise out.old out.new result) }
{
    match extraction {
        Err(refused) => print_refusal::write_refusal(refused.number, refused.place, out),
        Ok(counts) => answer_kept(points, first, len, kind, counts, clockwise, out),
    }
}
