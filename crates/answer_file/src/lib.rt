// What the program answers to a file, read into lent lists that have room for every graph.
#![tactic(auto)]

ghost use Rattle.std.specs.Prelude.{◌≤◌, length};
ghost use Rattle.format.specs.File.{FileLists, file_lists, FileRoom};
ghost use Rattle.print.specs.Room.{answer_bytes};
ghost use Rattle.answer_file.specs.Promises.{AnswerFileSays};

// Reads a file into the lent lists, and answers what reading gave.
pub fn answer_file(
    input: &[u8],
    ax: &mut [i32],
    ay: &mut [i32],
    bx: &mut [i32],
    by: &mut [i32],
    a_id: &mut [u32],
    b_id: &mut [u32],
    top: &mut [u8],
    state: &mut [u8],
    start: &mut [u32],
    list: &mut [u32],
    out: &mut [u8],
) -> usize
    requires fact { (let b : FileLists = file_lists ax.old ay.old bx.old by.old a_id.old b_id.old
        top.old state.old start.old list.old in
        FileRoom b) }
    requires answer_bytes_in_bounds { answer_bytes ≤ length out.old }
    ensures { (let b : FileLists = file_lists ax.old ay.old bx.old by.old
        a_id.old b_id.old top.old state.old
        start.old list.old in
        let after : FileLists = file_lists ax.new ay.new bx.new by.new
        a_id.new b_id.new top.new state.new
        start.new list.new in
        AnswerFileSays input.now b out.old after out.new result) }
{
    let read = turn::numbered(format::read_graph(
        input, ax, ay, bx, by, a_id, b_id, top, state, start, list,
    ));
    answer_read::answer_read(
        read, ax, ay, bx, by, a_id, b_id, top, state, start, list, out,
    )
}
