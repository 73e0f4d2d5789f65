// Binding: checks 10 and 11, the cases by the number of hulls, and the lent owners written on success alone.
#![tactic(auto)]

ghost use Rattle.std.specs.Prelude.{◌≡◌, ℕ, ◌^◌, ◌<◌, ◌≤◌, length, IfErr};
ghost use Rattle.table.specs.Table.{Table, table_of};
ghost use Rattle.table.specs.Sound.{Sound};
ghost use Rattle.anchor.specs.Anchored.{Anchored};
ghost use Rattle.owners.specs.Owners.{owners_of};
ghost use Rattle.bind.specs.Outcome.{outcome, handed};
ghost use Rattle.bind.specs.Promises.{BindSays};

use table::Contours;
use turn::Refusal;

// How many shapes there are and how many holes were dropped.
#[derive(Clone, Copy, Debug, PartialEq, Eq)]
pub struct Bound {
    pub shapes: u32,
    pub dropped: u32,
}

// A table that has passed checks 10 and 11.
fn bind_sound(contours: Contours, clockwise: bool, owner: &mut [u16]) -> Result<Bound, Refusal>
    requires { (let t : Table = table_of contours in
        (Sound t) × (Anchored t clockwise) × (length t.first ≤ length owner.old)) }
    ensures { (let t : Table = table_of contours.entry in
        outcome result owner.new ≡ handed t (owners_of t clockwise) owner.old) }
{
    let n = contours.first.len();
    let hulls = table::hulls_before(contours.kind, n);
    if hulls == 0 {
        deliver::fill(owner, n, table::DROPPED);
        return Ok(Bound {
            shapes: 0,
            dropped: n as u32,
        });
    }
    if hulls == 1 {
        deliver::fill(owner, n, 0);
        return Ok(Bound {
            shapes: 1,
            dropped: 0,
        });
    }
    deliver::bind_holes(contours, clockwise, owner)?;
    Ok(Bound {
        shapes: hulls as u32,
        dropped: 0,
    })
}

// Binding: the owner of every contour, into `owner`, which is written only on success.
pub fn bind(contours: Contours, clockwise: bool, owner: &mut [u16]) -> Result<Bound, Refusal>
    ensures bind_says { BindSays (table_of contours.entry) clockwise owner.old result owner.new }
    ensures place_fits { IfErr result (λ r. r.place < 2 ^ 32) }
{
    check_binding::check(contours, clockwise, owner.len())?;
    bind_sound(contours, clockwise, owner)
}
