// Which of two holes goes first in binding's order.
#![tactic(auto)]

ghost use Rattle.turn.specs.Points.{OnGrid};
ghost use Rattle.precede.specs.Promises.{GoesBeforeSays};

use anchor::Anchor;

// Hole c, with the anchor a, goes before hole d, with the anchor b.
pub fn goes_before(a: Anchor, b: Anchor, c: u32, d: u32) -> bool
    requires { (OnGrid a.at) × (OnGrid a.to) × (OnGrid b.at) × (OnGrid b.to) }
    ensures { GoesBeforeSays a b c d result }
{
    if turn::before(a.at, b.at) {
        return true;
    }
    if turn::before(b.at, a.at) {
        return false;
    }
    let angle = turn::cross_product(turn::between(a.at, a.to), turn::between(b.at, b.to));
    (0 < angle) | (!(angle < 0) & (c < d))
}
