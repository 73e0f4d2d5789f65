// What the program answers to the lists of a graph: extracted, then answered into a slice of bytes.
//
// Each function has the arrays of its stage and makes one call with them; the stages below see slices only.
#![tactic(auto)]

ghost use Rattle.std.specs.Prelude.{◌≡◌, ◌≤◌, length};
ghost use Rattle.graph.specs.Graph.{Lent, lent};
ghost use Rattle.print.specs.Room.{answer_bytes};
ghost use Rattle.writing.specs.Write.{Wrote};
ghost use Rattle.answer_graph.specs.GraphText.{extracted_text, extracted_states};
ghost use Rattle.answer_graph.specs.Promises.{AnswerGraphSays};
ghost use Rattle.finish.specs.Finish.{Buffers, buffers};

use contour::Settings;
use table::MAX_CONTOURS;
use turn::MAX_LINKS;

// The coordinates of as many points as there may be links, x and y in turn.
const COORDINATES: usize = 2 * MAX_LINKS;

// Extracts the contours of a graph into blank buffers, with all their points, and answers them.
fn answer_contours(
    ax: &[i32],
    ay: &[i32],
    bx: &[i32],
    by: &[i32],
    a_id: &[u32],
    b_id: &[u32],
    start: &[u32],
    list: &[u32],
    top: &[u8],
    clockwise: bool,
    minimum: u64,
    state: &mut [u8],
    points: &mut [i32],
    first: &mut [u32],
    len: &mut [u32],
    kind: &mut [u8],
    out: &mut [u8],
) -> usize
    requires { answer_bytes ≤ length out.old }
    ensures { (let g : Lent = lent ax.now ay.now bx.now by.now
        a_id.now b_id.now start.now list.now in
        let b : Buffers = buffers state.old points.old first.old
        len.old kind.old in
        (Wrote out.old out.new 0 result (extracted_text g top.now clockwise minimum b))
        × (state.new ≡ extracted_states g top.now clockwise minimum b)) }
{
    let settings = Settings {
        clockwise,
        minimum,
        drop_straight: false,
    };
    let extraction = turn::numbered(extract::extract(
        ax, ay, bx, by, a_id, b_id, start, list, top, settings, state, points, first, len, kind,
    ));
    answer_table::answer_extraction(extraction, points, first, len, kind, clockwise, out)
}

// The points and the contour table of the largest answer, all zero, lent to extraction.
pub fn answer_graph(
    ax: &[i32],
    ay: &[i32],
    bx: &[i32],
    by: &[i32],
    a_id: &[u32],
    b_id: &[u32],
    start: &[u32],
    list: &[u32],
    top: &[u8],
    clockwise: bool,
    minimum: u64,
    state: &mut [u8],
    out: &mut [u8],
) -> usize
    requires { answer_bytes ≤ length out.old }
    ensures { (let g : Lent = lent ax.now ay.now bx.now by.now
        a_id.now b_id.now start.now list.now in
        AnswerGraphSays g top.now clockwise minimum state.old out.old
        state.new out.new result) }
{
    let mut points = [0i32; COORDINATES];
    let mut first = [0u32; MAX_CONTOURS];
    let mut len = [0u32; MAX_CONTOURS];
    let mut kind = [0u8; MAX_CONTOURS];
    answer_contours(
        ax,
        ay,
        bx,
        by,
        a_id,
        b_id,
        start,
        list,
        top,
        clockwise,
        minimum,
        state,
        &mut points,
        &mut first,
        &mut len,
        &mut kind,
        out,
    )
}
