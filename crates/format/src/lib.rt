// Document 01's file, read from a slice of bytes into the lent lists of a graph.
//
// The form of the whole file is looked at first, by its heads, so that a refusal leaves every lent list alone;
// then the lists are filled.
#![tactic(auto)]

ghost use Rattle.format.specs.File.{FileLists, file_lists, FileRoom};
ghost use Rattle.format.specs.Promises.{ReadGraphSays};

use format_records::{MAX_ENTRIES, MAX_NODES};
use format_shape::Sizes;
use turn::{MAX_LINKS, Refusal};

// The bytes that decide every input: the settings, as many links, nodes and entries as may be, and one head more.
pub const FILE_BYTES: usize = 15 + MAX_LINKS * 28 + MAX_NODES * 6 + MAX_ENTRIES * 2 + 6;

// What a file holds.
#[derive(Clone, Copy)]
pub struct FileCounts {
    pub links: usize,
    pub nodes: usize,
    pub entries: usize,
    pub clockwise: bool,
    pub minimum: u64,
}

// Reads a file into the lent lists. It asks for the room of the largest file, which the program has in arrays of these
// lengths; a list that was too short would need an answer of its own, and document 01 has none.
pub fn read_graph(
    s: &[u8],
    ax: &mut [i32],
    ay: &mut [i32],
    bx: &mut [i32],
    by: &mut [i32],
    a_id: &mut [u32],
    b_id: &mut [u32],
    top: &mut [u8],
    state: &mut [u8],
    start: &mut [u32],
    list: &mut [u32],
) -> Result<FileCounts, Refusal>
    requires { (let before : FileLists = file_lists ax.old ay.old bx.old by.old a_id.old b_id.old
        top.old state.old start.old list.old in
        FileRoom before) }
    ensures { (let before : FileLists = file_lists ax.old ay.old bx.old by.old
        a_id.old b_id.old top.old state.old
        start.old list.old in
        let after : FileLists = file_lists ax.new ay.new bx.new by.new
        a_id.new b_id.new top.new state.new
        start.new list.new in
        ReadGraphSays s.now before result after) }
{
    let Sizes {
        links,
        nodes,
        entries,
    } = format_shape::shape_of(s)?;
    format_lists::fill_links(s, links, ax, ay, bx, by, a_id, b_id, top, state);
    format_lists::fill_nodes(s, 15 + 28 * links, nodes, start, list);
    Ok(FileCounts {
        links,
        nodes,
        entries,
        clockwise: s[6] == 1,
        minimum: format_numbers::u64_at(s, 7),
    })
}
