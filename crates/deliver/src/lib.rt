// The owner buffer: owners written over its front, and with two hulls or more where every hole has found its own.
#![tactic(auto)]

ghost use Rattle.std.specs.Prelude.{◌≡◌, ℕ, ◌<◌, ◌≤◌, length};
ghost use Rattle.table.specs.Table.{Table, table_of};
ghost use Rattle.table.specs.Sound.{Sound};
ghost use Rattle.anchor.specs.Anchored.{Anchored};
ghost use Rattle.owners.specs.Owners.{owned, searched_owners};
ghost use Rattle.deliver.specs.Delivery.{delivered};
ghost use Rattle.deliver.specs.Promises.{FillSays, BindHolesSays};

use table::Contours;
use turn::Refusal;

// One number n times, in front of the old tail.
pub fn fill(owner: &mut [u16], n: usize, number: u16)
    requires { n ≤ length owner.old }
    ensures { FillSays n number owner.old owner.new }
{
    owner[..n].fill(number);
}

// The owners are worked out in `own`, and `owner` is written only where every hole has found its own.
fn bind_in(
    contours: Contours,
    clockwise: bool,
    own: &mut [u16],
    owner: &mut [u16],
) -> Result<(), Refusal>
    requires fact { (let t : Table = table_of contours in
        (Sound t) × (Anchored t clockwise)) }
    requires own_len { (length own.old ≡ length contours.first.now) × (length contours.first.now ≤ length owner.old) }
    ensures { (let t : Table = table_of contours.entry in
        owned result owner.new ≡ delivered (searched_owners t clockwise) owner.old) }
{
    owners::number_hulls(contours.kind, own);
    owners::search_owners(contours, clockwise, own)?;
    owner[..own.len()].copy_from_slice(own);
    Ok(())
}

// Two hulls or more, with an array of its own.
pub fn bind_holes(contours: Contours, clockwise: bool, owner: &mut [u16]) -> Result<(), Refusal>
    requires { (let t : Table = table_of contours in
        (Sound t) × (Anchored t clockwise) × (length t.first ≤ length owner.old)) }
    ensures { BindHolesSays (table_of contours.entry) clockwise owner.old result owner.new }
{
    let n = contours.first.len();
    let mut own = [0u16; table::MAX_CONTOURS];
    bind_in(contours, clockwise, &mut own[..n], owner)
}
