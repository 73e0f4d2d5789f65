// The lookup of a contour's record.
#![tactic(auto)]

ghost use Rattle.std.specs.Prelude.{◌≡◌, ℕ, ◌<◌, length};
ghost use Rattle.table.specs.Table.{Table, table_of};
ghost use Rattle.lookup.specs.Lookups.{role_of, record_if_right};
ghost use Rattle.lookup.specs.Promises.{OwnerRightSays, LookupSays};

use records::{ContourRecord, Role};
use table::Contours;

pub mod records;

// Whether a contour's owner is right, for its own shape number and the number of hulls.
pub fn owner_right(kind: u8, owner: u16, shape: usize, hulls: usize) -> bool
    ensures { OwnerRightSays kind owner shape hulls result }
{
    if kind == 0 {
        return owner as usize == shape;
    }
    if hulls == 0 {
        return owner == table::DROPPED;
    }
    (owner as usize) < hulls
}

// A contour's role, for an owner that is right.
fn role_of(kind: u8, owner: u16, hulls: usize) -> Role
    ensures { result ≡ role_of kind owner hulls }
{
    if kind == 0 {
        return Role::Hull(owner);
    }
    if hulls == 0 {
        return Role::Dropped;
    }
    Role::Hole(owner)
}

// The record of a contour of a table that passes check 10.
fn record_at(contours: Contours, owner: &[u16], c: usize) -> Option<ContourRecord>
    requires { (let t : Table = table_of contours in
        (c < length t.first) × (c < length t.len) × (c < length t.kind) × (c < length owner.now)) }
    ensures { result ≡ record_if_right (table_of contours.entry) owner.now c }
{
    let kind = contours.kind;
    let hulls = table::hulls_before(kind, kind.len());
    if !owner_right(kind[c], owner[c], table::hulls_before(kind, c), hulls) {
        return None;
    }
    let role = role_of(kind[c], owner[c], hulls);
    Some(ContourRecord {
        first: contours.first[c],
        len: contours.len[c],
        role,
    })
}

// The record of one contour of any table.
pub fn lookup(contours: Contours, owner: &[u16], contour: usize) -> Option<ContourRecord>
    ensures { LookupSays (table_of contours.entry) owner.now contour result }
{
    if contours.first.len() <= contour {
        return None;
    }
    check_table::check_table(contours, owner.len()).ok()?;
    record_at(contours, owner, contour)
}
