// Check 10, number by number: the lengths of a table's lists, and a contour's range, length and kind.
#![tactic(auto)]

ghost use Rattle.check_ranges.specs.Promises.{MisfitSays, RangeFaultSays};

// Whether the lengths of the lists are wrong, with so much room for owners.
pub fn misfit(points: usize, first: usize, len: usize, kind: usize, owners: usize) -> bool
    ensures { MisfitSays points first len kind owners result }
{
    (len != first)
        | (kind != first)
        | (owners < first)
        | (turn::MAX_LINKS < points / 2)
        | (points % 2 != 0)
}

// Whether a contour's range, length or kind is wrong, among so many points, where its range must begin at start.
pub fn range_fault(count: usize, start: usize, first: u32, len: u32, kind: u8) -> bool
    ensures { RangeFaultSays count start first len kind result }
{
    (first as usize != start) | (count < first as usize + len as usize) | (len < 3) | (1 < kind)
}
