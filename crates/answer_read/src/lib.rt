// What the program answers to what reading gave: its refusal, or the answer to the graph in the lent lists.
#![tactic(auto)]

ghost use Rattle.std.specs.Prelude.{◌≡◌, ◌≤◌, length};
ghost use Rattle.format.specs.File.{FileLists, file_lists};
ghost use Rattle.print.specs.Room.{answer_bytes};
ghost use Rattle.writing.specs.Write.{Wrote};
ghost use Rattle.answer_read.specs.ReadText.{FrontsFit, front_text, front_states, ReadFits};
ghost use Rattle.answer_read.specs.Promises.{AnswerReadSays};

use format::FileCounts;
use turn::NumberedRefusal;

// Answers the graph that stands at the fronts of the lists that a file was read into.
fn answer_fronts(
    ax: &[i32],
    ay: &[i32],
    bx: &[i32],
    by: &[i32],
    a_id: &[u32],
    b_id: &[u32],
    top: &[u8],
    state: &mut [u8],
    start: &[u32],
    list: &[u32],
    counts: FileCounts,
    out: &mut [u8],
) -> usize
    requires fact { (let b : FileLists = file_lists ax.now ay.now bx.now by.now a_id.now b_id.now
        top.now state.old start.now list.now in
        FrontsFit counts b) }
    requires answer_bytes_in_bounds { answer_bytes ≤ length out.old }
    ensures { (let b : FileLists = file_lists ax.now ay.now bx.now by.now
        a_id.now b_id.now top.now state.old
        start.now list.now in
        (Wrote out.old out.new 0 result (front_text counts b)) × (state.new ≡ front_states counts b)) }
{
    let n = counts.links;
    let m = counts.nodes + 1;
    let e = counts.entries;
    answer_graph::answer_graph(
        &ax[..n],
        &ay[..n],
        &bx[..n],
        &by[..n],
        &a_id[..n],
        &b_id[..n],
        &start[..m],
        &list[..e],
        &top[..n],
        counts.clockwise,
        counts.minimum,
        &mut state[..n],
        out,
    )
}

// Answers what reading gave: its refusal, or the graph at the fronts of the lists.
pub fn answer_read(
    read: Result<FileCounts, NumberedRefusal>,
    ax: &[i32],
    ay: &[i32],
    bx: &[i32],
    by: &[i32],
    a_id: &[u32],
    b_id: &[u32],
    top: &[u8],
    state: &mut [u8],
    start: &[u32],
    list: &[u32],
    out: &mut [u8],
) -> usize
    requires fact { (let b : FileLists = file_lists ax.now ay.now bx.now by.now a_id.now b_id.now
        top.now state.old start.now list.now in
        ReadFits read b) }
    requires answer_bytes_in_bounds { answer_bytes ≤ length out.old }
    ensures { (let b : FileLists = file_lists ax.now ay.now bx.now by.now
        a_id.now b_id.now top.now state.old
        start.now list.now in
        AnswerReadSays read b out.old state.new out.new result) }
{
    match read {
        Err(why) => print_refusal::write_refusal(why.number, why.place, out),
        Ok(counts) => answer_fronts(
            ax, ay, bx, by, a_id, b_id, top, state, start, list, counts, out,
        ),
    }
}
