// Check 2: the lengths of all that is lent.
#![tactic(auto)]

ghost use Rattle.std.specs.Prelude.{◌≡◌};
ghost use Rattle.graph.specs.Graph.{Lent, lent};
ghost use Rattle.graph.specs.Checks.{room, unlike, few_points, unlike_band, few_contours};
ghost use Rattle.check_room.specs.Promises.{NoRoomSays};

// Of the shared graph: whether its lists differ in length, or there is no start.
fn unlike(
    ax: &[i32],
    ay: &[i32],
    bx: &[i32],
    by: &[i32],
    aid: &[u32],
    bid: &[u32],
    start: &[u32],
    list: &[u32],
) -> bool
    ensures { (let g : Lent = lent ax.now ay.now bx.now by.now aid.now
        bid.now start.now list.now in
        result ≡ unlike g) }
{
    let n = aid.len();
    (ax.len() != n)
        | (ay.len() != n)
        | (bx.len() != n)
        | (by.len() != n)
        | (bid.len() != n)
        | (start.len() == 0)
}

// Whether a buffer of so many numbers has no room for n points.
fn few_points(n: usize, points: usize) -> bool
    ensures { result ≡ few_points n points }
{
    points / 2 < n
}

// Of one band: whether its tops or states are not n.
fn unlike_band(n: usize, top: &[u8], state: &[u8]) -> bool
    ensures { result ≡ unlike_band n top.now state.now }
{
    (top.len() != n) | (state.len() != n)
}

// Whether the contour table's lists differ in length, or have no room for n / 3 contours.
fn few_contours(n: usize, firsts: usize, lens: usize, kinds: usize) -> bool
    ensures { result ≡ few_contours n firsts lens kinds }
{
    (lens != firsts) | (kinds != firsts) | (firsts < n / 3)
}

// Whether check 2 refuses what is lent: a list of another length than the links ask for, or a buffer without the room for their answer.
pub fn no_room(
    ax: &[i32],
    ay: &[i32],
    bx: &[i32],
    by: &[i32],
    aid: &[u32],
    bid: &[u32],
    start: &[u32],
    list: &[u32],
    top: &[u8],
    state: &[u8],
    points: usize,
    firsts: usize,
    lens: usize,
    kinds: usize,
) -> bool
    ensures { (let g : Lent = lent ax.now ay.now bx.now by.now aid.now
        bid.now start.now list.now in
        NoRoomSays g top.now state.now (room points firsts lens kinds) result) }
{
    let n = aid.len();
    unlike(ax, ay, bx, by, aid, bid, start, list)
        | few_points(n, points)
        | unlike_band(n, top, state)
        | few_contours(n, firsts, lens, kinds)
}
