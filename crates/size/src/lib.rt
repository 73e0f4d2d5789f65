// Rule 6's size test, by doubled numbers: whether a walk is kept.
#![tactic(auto)]

ghost use Rattle.size.specs.Promises.{IsKeptSays};

use turn::absolute;

// Twice a minimum of this or more does not fit 64 bits, and no area reaches it.
const HUGE: u64 = 9223372036854775808;

// Rule 6: whether a walk of so many points and such a signed doubled area is kept. The minimum is doubled, and the area not halved.
pub fn is_kept(points: usize, area: i64, minimum: u64) -> bool
    ensures { IsKeptSays points area minimum result }
{
    if HUGE <= minimum {
        return false;
    }
    (3 <= points) & ((minimum == 0) | (2 * minimum <= absolute(area)))
}
