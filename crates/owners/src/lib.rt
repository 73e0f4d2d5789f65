// The owner of every contour of a table with two hulls or more, hole by hole in binding's order.
#![tactic(auto)]

ghost use Rattle.std.specs.Prelude.{◌≡◌, ℕ, ◌<◌, ◌≤◌, length, take};
ghost use Rattle.turn.specs.Limits.{max_links};
ghost use Rattle.table.specs.Table.{Table, table_of};
ghost use Rattle.table.specs.Sound.{Sound};
ghost use Rattle.anchor.specs.Anchored.{Anchored};
ghost use Rattle.owners.specs.Owners.{owned, given};
ghost use Rattle.owners.specs.Giving.{give_listed, Listed};
ghost use Rattle.owners.specs.Promises.{NumberHullsSays, SearchOwnersSays};

use anchor::Anchor;
use table::Contours;
use turn::{Point, Reason, Refusal};

// The first owners: a hull's is its own number, a hole has none yet.
pub fn number_hulls(kind: &[u8], own: &mut [u16])
    requires { (length own.old ≡ length kind.now) × (length kind.now ≤ max_links) }
    ensures { NumberHullsSays kind.now own.new }
{
    let mut shape: u16 = 0;
    for (c, &k) in kind.iter().enumerate() {
        if k == 0 {
            own[c] = shape;
            shape += 1;
        } else {
            own[c] = table::DROPPED;
        }
    }
}

// What the contour under a hole gives it: its owner, or none.
// By hand: none is `DROPPED`, as it stands in the owners that C lends.
fn parent(under: u32, own: &[u16]) -> u16
    requires { under ≤ length own.now }
    ensures { result ≡ given under own.now }
{
    if under == 0 {
        table::DROPPED
    } else {
        own[(under - 1) as usize]
    }
}

// Each of the m holes, in the order of `ord`, gets its parent's number, until one finds none: it is refused at its contour.
fn give_owners(
    ord: &[u32],
    who: &[u32],
    under: &[u32],
    m: usize,
    own: &mut [u16],
) -> Result<(), Refusal>
    requires { Listed ord.now who.now under.now m (length own.old) }
    ensures { owned result own.new ≡ give_listed who.now under.now (take m ord.now) own.old }
{
    for &j in &ord[..m] {
        let c = who[j as usize];
        let p = parent(under[j as usize], own);
        if p == table::DROPPED {
            return Err(Refusal {
                reason: Reason::NoParent,
                place: c as usize,
            });
        }
        own[c as usize] = p;
    }
    Ok(())
}

// The search with two hulls or more, in arrays of its own.
pub fn search_owners(contours: Contours, clockwise: bool, own: &mut [u16]) -> Result<(), Refusal>
    requires { (let t : Table = table_of contours in
        (Sound t) × (Anchored t clockwise) × (length own.old ≡ length t.first)) }
    ensures { SearchOwnersSays (table_of contours.entry) clockwise own.old result own.new }
{
    let mut who = [0u32; table::MAX_CONTOURS];
    let zero = Point { x: 0, y: 0 };
    let mut anchors = [Anchor { at: zero, to: zero }; table::MAX_CONTOURS];
    let m = order::gather_holes(contours, clockwise, &mut who, &mut anchors);
    let mute = [0u8; table::MAX_CONTOURS];
    let mut under = [0u32; table::MAX_CONTOURS];
    nearest::contours_under(contours, true, clockwise, &mute, &anchors, m, &mut under);
    let mut ord = [0u32; table::MAX_CONTOURS];
    order::order_holes(&who, &anchors, m, &mut ord);
    give_owners(&ord, &who, &under, m, own)
}
