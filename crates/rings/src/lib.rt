// Ends of links by number: 2 k is link k's a, 2 k + 1 its b.
#![tactic(auto)]

ghost use Rattle.std.specs.Prelude.{◌<◌, length};
ghost use Rattle.rings.specs.Field.{cross_mark};
ghost use Rattle.rings.specs.Promises.{FarSays, EndOfSays};

use turn::wide;

// The marks that stand on top of an end of a `Cross`: on any, and on the ring's last.
pub const CROSS: u32 = 16777216;

pub const WRAP: u32 = 33554432;

// The other end of a link.
pub fn far(h: usize) -> usize
    requires { h < cross_mark }
    ensures { FarSays h result }
{
    if h % 2 == 0 { h + 1 } else { h - 1 }
}

// Link k's end at node v, by the a's nodes.
pub fn end_of(aid: &[u32], v: usize, k: usize) -> usize
    requires { (k < length aid.now) × (k < cross_mark) }
    ensures { EndOfSays aid.now v k result }
{
    if wide(aid[k]) == v { 2 * k } else { 2 * k + 1 }
}
