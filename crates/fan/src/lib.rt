// A copy of the list of entries in which those of a node of many stand in the ring's order, so that each goes at the end of the ring as it is
// laid. In what order they are laid decides time alone: what is proved of the sort is that it keeps the entries.
#![tactic(auto)]

ghost use Rattle.std.specs.Prelude.{◌≡◌, ℕ, ◌+◌, ◌-◌, ◌*◌, ◌<◌, ◌≤◌, length};
ghost use Rattle.turn.specs.Limits.{max_links};
ghost use Rattle.graph.specs.Passes.{Rising};
ghost use Rattle.graph.specs.Known.{Points, Grids};
ghost use Rattle.fan.specs.Rearranged.{Rearranged};
ghost use Rattle.fan.specs.Arranged.{few_entries};
ghost use Rattle.fan.specs.Promises.{ArrangeSays};
ghost use Rattle.fan.specs.Orders.{stands_later, out_of_order, Sortable};

use graph::away;
use turn::{cross_product, wide};

// Up to so many entries are laid in the order in which they come; more are many.
pub const FEW_ENTRIES: usize = 32;

// Whether link e stands later in the ring of node v than link f: b's before a's, each counterclockwise.
fn stands_later(
    ax: &[i32],
    ay: &[i32],
    bx: &[i32],
    by: &[i32],
    aid: &[u32],
    v: usize,
    e: usize,
    f: usize,
) -> bool
    requires points { Points ax.now ay.now bx.now by.now (length aid.now) }
    requires grids { Grids ax.now ay.now bx.now by.now (length aid.now) }
    requires e_in_bounds { (e < length aid.now) × (f < length aid.now) }
    ensures { result ≡ stands_later ax.now ay.now bx.now by.now aid.now v e f }
{
    let e_starts = wide(aid[e]) == v;
    let f_starts = wide(aid[f]) == v;
    if e_starts & !f_starts {
        return true;
    }
    if f_starts & !e_starts {
        return false;
    }
    0 < cross_product(
        away(ax, ay, bx, by, aid, v, f),
        away(ax, ay, bx, by, aid, v, e),
    )
}

// Whether some entry stands later than the one after it.
fn out_of_order(
    ax: &[i32],
    ay: &[i32],
    bx: &[i32],
    by: &[i32],
    aid: &[u32],
    v: usize,
    list: &[u32],
) -> bool
    requires { Sortable ax.now ay.now bx.now by.now aid.now list.now }
    ensures { result ≡ out_of_order ax.now ay.now bx.now by.now aid.now v list.now }
{
    for p in list.windows(2) {
        if stands_later(ax, ay, bx, by, aid, v, wide(p[0]), wide(p[1])) {
            return true;
        }
    }
    false
}

// Of a heap of the first n entries: the later one of those under place i, of which there is one at least.
fn later_child(
    ax: &[i32],
    ay: &[i32],
    bx: &[i32],
    by: &[i32],
    aid: &[u32],
    v: usize,
    list: &[u32],
    i: usize,
    n: usize,
) -> usize
    requires sortable { Sortable ax.now ay.now bx.now by.now aid.now list.now }
    requires i_bound { (2 * i + 1 < n) × (n ≤ length list.now) }
    ensures { (i < result) × (result < n) }
{
    let c = 2 * i + 1;
    if c + 1 < n && stands_later(ax, ay, bx, by, aid, v, wide(list[c + 1]), wide(list[c])) {
        c + 1
    } else {
        c
    }
}

// Of a heap of the first n entries: the one at place `top` goes down until none under it is later.
fn sift_down(
    ax: &[i32],
    ay: &[i32],
    bx: &[i32],
    by: &[i32],
    aid: &[u32],
    v: usize,
    list: &mut [u32],
    top: usize,
    n: usize,
)
    requires sortable { Sortable ax.now ay.now bx.now by.now aid.now list.old }
    requires top_le_n { (top ≤ n) × (n ≤ length list.old) }
    ensures { Rearranged list.old list.new }
{
    let mut i = top;
    while 2 * i + 1 < n {
        let c = later_child(ax, ay, bx, by, aid, v, list, i, n);
        if !stands_later(ax, ay, bx, by, aid, v, wide(list[c]), wide(list[i])) {
            return;
        }
        list.swap(i, c);
        i = c;
    }
}

// The entries become a heap: none is later than the one above it.
fn make_heap(
    ax: &[i32],
    ay: &[i32],
    bx: &[i32],
    by: &[i32],
    aid: &[u32],
    v: usize,
    list: &mut [u32],
)
    requires { Sortable ax.now ay.now bx.now by.now aid.now list.old }
    ensures { Rearranged list.old list.new }
{
    let n = list.len();
    for i in (0..n / 2).rev() {
        sift_down(ax, ay, bx, by, aid, v, list, i, n);
    }
}

// A heap is put in order: the latest entry goes to the end, again and again.
fn empty_heap(
    ax: &[i32],
    ay: &[i32],
    bx: &[i32],
    by: &[i32],
    aid: &[u32],
    v: usize,
    list: &mut [u32],
)
    requires { Sortable ax.now ay.now bx.now by.now aid.now list.old }
    ensures { Rearranged list.old list.new }
{
    for n in (1..list.len()).rev() {
        list.swap(0, n);
        sift_down(ax, ay, bx, by, aid, v, list, 0, n);
    }
}

// The entries are put into the ring's order, where they do not stand in it.
fn put_in_order(
    ax: &[i32],
    ay: &[i32],
    bx: &[i32],
    by: &[i32],
    aid: &[u32],
    v: usize,
    list: &mut [u32],
)
    requires { Sortable ax.now ay.now bx.now by.now aid.now list.old }
    ensures { Rearranged list.old list.new }
{
    if !out_of_order(ax, ay, bx, by, aid, v, list) {
        return;
    }
    make_heap(ax, ay, bx, by, aid, v, list);
    empty_heap(ax, ay, bx, by, aid, v, list);
}

// The entries of node v are put into the ring's order, if they are many. Where they are more than the links, or one is no link,
// they stay as they are: check 5 refuses such a node.
fn order_node(
    ax: &[i32],
    ay: &[i32],
    bx: &[i32],
    by: &[i32],
    aid: &[u32],
    v: usize,
    here: &mut [u32],
)
    requires points { Points ax.now ay.now bx.now by.now (length aid.now) }
    requires grids { Grids ax.now ay.now bx.now by.now (length aid.now) }
    requires aid_len_bound { length aid.now ≤ max_links }
    ensures rearranged { Rearranged here.old here.new }
    ensures here_unchanged { length here.old ≤ few_entries → here.new ≡ here.old }
{
    let n = aid.len();
    if (here.len() <= FEW_ENTRIES) | (n < here.len()) {
        return;
    }
    if here.iter().any(|&e| n <= wide(e)) {
        return;
    }
    put_in_order(ax, ay, bx, by, aid, v, here);
}

// The list is copied, with the entries of every node that has many in the ring's order.
pub fn arrange(
    ax: &[i32],
    ay: &[i32],
    bx: &[i32],
    by: &[i32],
    aid: &[u32],
    start: &[u32],
    list: &[u32],
    copy: &mut [u32],
)
    requires points { Points ax.now ay.now bx.now by.now (length aid.now) }
    requires grids { Grids ax.now ay.now bx.now by.now (length aid.now) }
    requires aid_len_bound { length aid.now ≤ max_links }
    requires rising { (Rising start.now list.now) × (length copy.old ≡ length list.now) }
    ensures { ArrangeSays start.now list.now copy.new }
{
    copy.copy_from_slice(list);
    for v in 0..start.len() - 1 {
        let from = wide(start[v]);
        let to = wide(start[v + 1]);
        order_node(ax, ay, bx, by, aid, v, &mut copy[from..to]);
    }
}
