// Rule 6: a walk is kept, and entered in the contour table, or it is rejected, and counted.
#![tactic(auto)]

ghost use Rattle.std.specs.Prelude.{◌≡◌, true, [], ◌+◌, ◌-◌, ◌*◌, ◌≤◌, length, nat_abs};
ghost use Rattle.turn.specs.Limits.{max_links};
ghost use Rattle.turn.specs.Area.{wedge_bound};
ghost use Rattle.keep.specs.Tables.{tables, enter_kept, enter_rejected, Within};
ghost use Rattle.keep.specs.Promises.{NoCountsSays, NoteWalkSays};

// What extraction returns on success. `left_out` counts the contours of which dropping points on a line left fewer than 3: the scan leaves none out.
// `kept_area` and `rejected_area` are the signed doubled totals of kept and of rejected walks.
#[derive(Clone, Copy)]
pub struct Counts {
    pub contours: usize,
    pub points: usize,
    pub rejected: usize,
    pub walked: usize,
    pub left_out: usize,
    pub kept_area: i64,
    pub rejected_area: i64,
}

// The counts before the first walk.
pub fn no_counts() -> Counts
    ensures { NoCountsSays result }
{
    Counts {
        contours: 0,
        points: 0,
        rejected: 0,
        walked: 0,
        left_out: 0,
        kept_area: 0,
        rejected_area: 0,
    }
}

// The counts with one contour more.
fn kept_counts(size: usize, area: i64, c: Counts) -> Counts
    requires { (Within max_links size c) × (nat_abs area ≤ size * (2 * wedge_bound)) }
    ensures { result ≡ (enter_kept true size area (tables [] [] [] [] c)).counts }
{
    let kept_area = c.kept_area + area;
    let rejected_area = c.rejected_area;
    Counts {
        contours: c.contours + 1,
        points: c.points + size,
        rejected: c.rejected,
        walked: c.walked + size,
        left_out: c.left_out,
        kept_area: kept_area,
        rejected_area: rejected_area,
    }
}

// The counts with one rejected walk more.
fn rejected_counts(size: usize, area: i64, c: Counts) -> Counts
    requires { (Within max_links size c) × (nat_abs area ≤ size * (2 * wedge_bound)) }
    ensures { result ≡ (enter_rejected size area (tables [] [] [] [] c)).counts }
{
    let kept_area = c.kept_area;
    let rejected_area = c.rejected_area + area;
    Counts {
        contours: c.contours,
        points: c.points,
        rejected: c.rejected + 1,
        walked: c.walked + size,
        left_out: c.left_out,
        kept_area: kept_area,
        rejected_area: rejected_area,
    }
}

// Rule 6: a walk whose points stand up to number `to`, with its doubled area, is entered as a contour, or counted as rejected.
pub fn note_walk(
    first: &mut [u32],
    len: &mut [u32],
    kind: &mut [u8],
    hole: bool,
    minimum: u64,
    to: usize,
    area: i64,
    c: Counts,
) -> Counts
    requires points_le_to { (c.points ≤ to) × (Within max_links (to - c.points) c) × (nat_abs area ≤ (to - c.points) * (2 * wedge_bound)) }
    requires to_in_bounds { (to ≤ length first.old * 3 + 2) × (length len.old ≡ length first.old) × (length kind.old ≡ length first.old) }
    ensures { NoteWalkSays first.old len.old kind.old hole minimum to area c result first.new len.new
        kind.new }
{
    let at = c.points;
    let size = to - at;
    if size::is_kept(size, area, minimum) {
        enter::enter_contour(first, len, kind, hole, c.contours, at, size);
        return kept_counts(size, area, c);
    }
    rejected_counts(size, area, c)
}
