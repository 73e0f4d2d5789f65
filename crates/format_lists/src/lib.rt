// The lists of a graph, filled from where their bytes stand in a file of right form.
#![tactic(auto)]

ghost use Rattle.std.specs.Prelude.{ℕ, ◌+◌, ◌*◌, ◌<◌, ◌≤◌, length};
ghost use Rattle.format_records.specs.Limits.{max_entries};
ghost use Rattle.format_lists.specs.Columns.{Columns, columns, LinkRoom};
ghost use Rattle.format_lists.specs.NodeLists.{NodesStand};
ghost use Rattle.format_lists.specs.Promises.{FillLinksSays, FillNodesSays};

// The columns of n links.
pub fn fill_links(
    s: &[u8],
    n: usize,
    ax: &mut [i32],
    ay: &mut [i32],
    bx: &mut [i32],
    by: &mut [i32],
    a_id: &mut [u32],
    b_id: &mut [u32],
    top: &mut [u8],
    state: &mut [u8],
)
    requires n_in_bounds { 15 + 28 * n ≤ length s.now }
    requires link_room { LinkRoom n (columns ax.old ay.old bx.old by.old a_id.old b_id.old top.old state.old) }
    ensures { (let before : Columns = columns ax.old ay.old bx.old by.old
        a_id.old b_id.old top.old state.old in
        let after : Columns = columns ax.new ay.new bx.new by.new
        a_id.new b_id.new top.new state.new in
        FillLinksSays s.now n before after) }
{
    format_fill::fill_i32(s, 21, n, ax);
    format_fill::fill_i32(s, 25, n, ay);
    format_fill::fill_i32(s, 29, n, bx);
    format_fill::fill_i32(s, 33, n, by);
    format_fill::fill_u16(s, 37, 28, n, a_id, 0);
    format_fill::fill_u16(s, 39, 28, n, b_id, 0);
    format_fill::fill_u8(s, 41, n, top);
    format_fill::fill_u8(s, 42, n, state);
}

// The starts and the entries of m nodes whose records stand from an offset on.
pub fn fill_nodes(s: &[u8], from: usize, m: usize, start: &mut [u32], list: &mut [u32])
    requires { (m < length start.old) × (max_entries ≤ length list.old)
        × NodesStand s.now max_entries m from 0 }
    ensures { FillNodesSays s.now from m start.old list.old
        start.new list.new }
{
    let mut at = from;
    let mut e = 0;
    for first in start[..m].iter_mut() {
        *first = e;
        let len = format_numbers::u32_at(s, at);
        format_fill::fill_u16(s, at + 6, 2, (len / 2) as usize, list, e as usize);
        at += 6 + len as usize;
        e += len / 2;
    }
    start[m] = e;
}
