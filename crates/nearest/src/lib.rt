// The search for the nearest edge under each of many anchors, driven by edges.
#![tactic(auto)]

ghost use Rattle.std.specs.Prelude.{◌≡◌, ℕ, ◌<◌, ◌≤◌, length, get_or};
ghost use Rattle.turn.specs.Limits.{max_links};
ghost use Rattle.table.specs.Table.{Table, table_of, max_contours};
ghost use Rattle.table.specs.Sound.{Sound};
ghost use Rattle.anchor.specs.Anchors.{Anchors, anchors_of};
ghost use Rattle.edges.specs.Edges.{On};
ghost use Rattle.candidates.specs.EdgeLists.{EdgeLists, lists_of, listed_edge, Fit};
ghost use Rattle.nearest.specs.Search.{kept as kept_of};
ghost use Rattle.nearest.specs.SearchLists.{Flags, SortedAnchors, Sorted, Parted, Numbers, Offered, Nearests, named, NamedInto};
ghost use Rattle.nearest.specs.Promises.{ContoursUnderSays};

use anchor::Anchor;
use candidates::Edges;
use edges::Edge;
use table::Contours;

// The first of m anchors in order by x that is not left of x. The last is looked at first: most edges of long contours begin to the right of
// every anchor, and are done with by that.
fn first_from(anchors: &[Anchor], m: usize, x: i32) -> usize
    requires { (let h : Anchors = anchors_of anchors.now in
        (m ≤ length anchors.now) × (Sorted h.x m)) }
    ensures { (let h : Anchors = anchors_of anchors.now in
        Parted h.x m x result) }
{
    if m == 0 || anchors[m - 1].at.x < x {
        m
    } else {
        anchors[..m].partition_point(|a| a.at.x < x)
    }
}

// What an anchor keeps of the best edge so far, b (its number and 1, or 0: none), and edge k, which spans it.
fn kept(listed: Edges, n: usize, a: Anchor, e: Edge, k: usize, b: u32) -> u32
    requires fit { (Fit (lists_of listed) n) × (n ≤ max_links) }
    requires fact { (let g : EdgeLists = lists_of listed in
        (k < n) × (b ≤ n) × (e ≡ listed_edge g k) × (On a e)) }
    ensures { (let g : EdgeLists = lists_of listed.entry in
        result ≡ kept_of (listed_edge g) a k b) }
{
    if !edges::lies_under(a, e) {
        return b;
    }
    if b == 0 {
        return k as u32 + 1;
    }
    let f = candidates::listed_edge(listed, n, (b - 1) as usize);
    if edges::is_nearer(a, e, f) {
        k as u32 + 1
    } else {
        b
    }
}

// Edge k is offered to every anchor that it spans. They stand together: the anchors are in order by x.
fn offer(listed: Edges, n: usize, anchors: &[Anchor], m: usize, best: &mut [u32], k: usize)
    requires fit { (Fit (lists_of listed) n) × (n ≤ max_links) × (k < n) }
    requires sorted_anchors { SortedAnchors (anchors_of anchors.now) m }
    requires m_in_bounds { (m ≤ length anchors.now) × (m ≤ length best.old) × (Numbers best.old m n) }
    ensures { (let g : EdgeLists = lists_of listed.entry in
        let h : Anchors = anchors_of anchors.now in
        Offered g h m k best.old best.new) }
{
    let e = candidates::listed_edge(listed, n, k);
    let start = e.left.x;
    let end = e.right.x;
    if end <= start {
        return;
    }
    for j in first_from(anchors, m, start)..m {
        if end <= anchors[j].at.x {
            return;
        }
        best[j] = kept(listed, n, anchors[j], e, k, best[j]);
    }
}

// The nearest edge under every anchor, of the first n, of the contours that are not mute.
fn nearest_edges(
    listed: Edges,
    n: usize,
    mute: &[u8],
    anchors: &[Anchor],
    m: usize,
    best: &mut [u32],
)
    requires fact { (let g : EdgeLists = lists_of listed in
        (Fit g n) × (n ≤ max_links) × (Flags listed.of.now mute.now n)) }
    requires sorted_anchors { SortedAnchors (anchors_of anchors.now) m }
    requires m_in_bounds { (m ≤ length anchors.now) × (m ≤ length best.old) × ((j : ℕ) → j < m → get_or best.old j 0 ≡ 0) }
    ensures { (let g : EdgeLists = lists_of listed.entry in
        let h : Anchors = anchors_of anchors.now in
        Nearests g mute.now n h m best.new) }
{
    for k in 0..n {
        if mute[listed.of[k] as usize] == 0 {
            offer(listed, n, anchors, m, best, k);
        }
    }
}

// The contour of an edge, and 1, by the edge's number and 1; 0 where there is none.
fn contour_of(of: &[u32], b: u32) -> u32
    requires { (b ≤ length of.now) × ((k : ℕ) → k < b → get_or of.now k 0 < max_links) }
    ensures { result ≡ named of.now b }
{
    if b == 0 { 0 } else { of[(b - 1) as usize] + 1 }
}

// The contours of m of the first n edges.
fn name_contours(of: &[u32], n: usize, best: &[u32], m: usize, under: &mut [u32])
    requires n_in_bounds { (n ≤ length of.now) × ((k : ℕ) → k < n → get_or of.now k 0 < max_links) }
    requires m_in_bounds { (m ≤ length best.now) × (m ≤ length under.old) × (Numbers best.now m n) }
    ensures { NamedInto of.now best.now m under.old under.new }
{
    for j in 0..m {
        under[j] = contour_of(of, best[j]);
    }
}

// The search: for each of m anchors the contour, and 1, of the nearest edge under it; 0 where there is none.
// Candidate edges have fill above, or below, as is asked; edges come from the contours that are not mute. Past place m `under` stays as it is.
// By hand: a number and 1, or 0 for none, is what `ContoursUnderSays` promises of `under`.
pub fn contours_under(
    contours: Contours,
    above: bool,
    clockwise: bool,
    mute: &[u8],
    anchors: &[Anchor],
    m: usize,
    under: &mut [u32],
)
    requires sound { Sound (table_of contours) }
    requires first_in_bounds { (length contours.first.now ≤ length mute.now) × (m ≤ max_contours) × (m ≤ length under.old) }
    requires sorted_anchors { SortedAnchors (anchors_of anchors.now) m }
    ensures { (let t : Table = table_of contours.entry in
        let h : Anchors = anchors_of anchors.now in
        ContoursUnderSays t above clockwise mute.now h m under.old under.new) }
{
    let n = contours.points.len() / 2;
    let right = above != clockwise;
    let mut next = [0u32; turn::MAX_LINKS];
    let mut of = [0u32; turn::MAX_LINKS];
    let mut best = [0u32; table::MAX_CONTOURS];
    candidates::list_edges(contours.first, contours.len, &mut next, &mut of);
    let listed = Edges {
        points: contours.points,
        next: &next,
        of: &of,
        kind: contours.kind,
        right,
    };
    nearest_edges(listed, n, mute, anchors, m, &mut best);
    name_contours(&of, n, &best, m, under);
}
