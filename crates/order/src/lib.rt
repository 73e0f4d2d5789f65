// Binding's order of the holes: the holes gathered with their anchors, and put in order by insertion.
#![tactic(auto)]

ghost use Rattle.std.specs.Prelude.{ℕ, suc, ◌<◌, ◌≤◌, length, get_or};
ghost use Rattle.table.specs.Table.{Table, table_of, max_contours};
ghost use Rattle.table.specs.Sound.{Sound};
ghost use Rattle.anchor.specs.Anchors.{Anchors, anchors_of};
ghost use Rattle.order.specs.HoleLists.{Bounded, slot_of};
ghost use Rattle.order.specs.Insertion.{InsertedInto};
ghost use Rattle.order.specs.Promises.{GatherHolesSays, OrderHolesSays};

use anchor::Anchor;
use table::Contours;

// The holes in contour order: hole j's contour and its anchor. Answers how many there are; past these the lists stay as they are.
pub fn gather_holes(
    contours: Contours,
    clockwise: bool,
    who: &mut [u32],
    anchors: &mut [Anchor],
) -> usize
    requires sound { Sound (table_of contours) }
    requires room { (max_contours ≤ length who.old) × (max_contours ≤ length anchors.old) }
    ensures { (let t : Table = table_of contours.entry in
        GatherHolesSays t clockwise who.old anchors.old result who.new anchors.new) }
{
    let mut m = 0;
    for c in 0..contours.first.len() {
        if contours.kind[c] == 1 {
            who[m] = c as u32;
            anchors[m] = anchor::left_bottom_segment_from(
                contours.points,
                contours.first[c] as usize,
                contours.len[c] as usize,
                clockwise,
            );
            m += 1;
        }
    }
    m
}

// Hole j goes among the first j of `ord`, in front of those at the end that it goes before.
fn insert(who: &[u32], anchors: &[Anchor], ord: &mut [u32], j: usize)
    requires bounded { (Bounded who.now (anchors_of anchors.now) (suc j)) × (j < max_contours) }
    requires j_in_bounds { (j < length ord.old) × ((i : ℕ) → i < j → get_or ord.old i 0 < j) }
    ensures { (let h : Anchors = anchors_of anchors.now in
        InsertedInto ord.old ord.new j (slot_of h who.now ord.old j) j) }
{
    let a = anchors[j];
    let c = who[j];
    let mut p = j;
    // By index: the place where the loop stops is written after it.
    while 0 < p {
        let d = ord[p - 1];
        if !precede::goes_before(a, anchors[d as usize], c, who[d as usize]) {
            break;
        }
        ord[p] = d;
        p -= 1;
    }
    ord[p] = j as u32;
}

// The m holes in binding's order, by their places among the holes. Past place m `ord` stays as it is.
pub fn order_holes(who: &[u32], anchors: &[Anchor], m: usize, ord: &mut [u32])
    requires { (let h : Anchors = anchors_of anchors.now in
        (Bounded who.now h m) × (m ≤ max_contours) × (m ≤ length ord.old)) }
    ensures { (let h : Anchors = anchors_of anchors.now in
        OrderHolesSays h who.now m ord.old ord.new) }
{
    for j in 0..m {
        insert(who, anchors, ord, j);
    }
}
