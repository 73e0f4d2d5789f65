// A contour's entry in the table: where its points begin, how many there are, hull or hole.
#![tactic(auto)]

ghost use Rattle.std.specs.Prelude.{◌≡◌, ◌<◌, ◌≤◌, length};
ghost use Rattle.laws.specs.Test.{pick};
ghost use Rattle.turn.specs.Limits.{max_links};
ghost use Rattle.enter.specs.Promises.{EnterContourSays};

// A contour's entry in the table.
pub fn enter_contour(
    first: &mut [u32],
    len: &mut [u32],
    kind: &mut [u8],
    hole: bool,
    i: usize,
    at: usize,
    size: usize,
)
    requires i_in_bounds { (i < length first.old) × (i < length len.old) × (i < length kind.old) }
    requires at_le_max_links { (at ≤ max_links) × (size ≤ max_links) }
    ensures { EnterContourSays first.old len.old kind.old hole i at size first.new len.new
        kind.new }
{
    first[i] = at as u32;
    len[i] = size as u32;
    kind[i] = u8::from(hole);
}
