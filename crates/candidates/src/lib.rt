// Candidate edges: every edge of a table, listed by its points, with its ends as candidates have them.
#![tactic(auto)]

ghost use Rattle.std.specs.Prelude.{ℕ, ◌<◌, ◌≤◌, length};
ghost use Rattle.turn.specs.Limits.{max_links};
ghost use Rattle.candidates.specs.EdgeLists.{lists_of, Fit, ContourListed, Ranges};
ghost use Rattle.candidates.specs.Promises.{ListedEdgeSays, ListEdgesSays};

use edges::Edge;

// The edges of a table, in lists. Edge k begins at point k; `next` is the point after it round its contour, `of` its contour, `kind` a
// contour's kind. `right` says which way candidates are walked.
// By hand: with `next` and `of` as one list of structs, binding took up to a half longer at long contours.
#[derive(Clone, Copy)]
pub struct Edges<'a> {
    pub points: &'a [i32],
    pub next: &'a [u32],
    pub of: &'a [u32],
    pub kind: &'a [u8],
    pub right: bool,
}

// Edge k, which begins at point k, with its ends the way round that makes a candidate run from left to right.
pub fn listed_edge(listed: Edges, n: usize, k: usize) -> Edge
    requires { (Fit (lists_of listed) n) × (k < n) }
    ensures { ListedEdgeSays (lists_of listed.entry) k result }
{
    let contour = listed.of[k];
    let p = table::point_in(listed.points, k);
    let q = table::point_in(listed.points, listed.next[k] as usize);
    let (left, right) = if listed.right { (p, q) } else { (q, p) };
    Edge {
        left,
        right,
        kind: listed.kind[contour as usize],
        contour,
    }
}

// The points from..to are contour c's.
fn list_contour(next: &mut [u32], of: &mut [u32], c: u32, from: usize, to: usize)
    requires { (from ≤ to) × (to ≤ max_links) × (to ≤ length next.old) × (to ≤ length of.old) }
    ensures { ContourListed c from to next.old of.old next.new of.new }
{
    of[from..to].fill(c);
    for k in from..to {
        next[k] = table::next_position(k, from, to) as u32;
    }
}

// For every point the one after it round its contour, and its contour. Past the last point both lists stay as they are.
pub fn list_edges(first: &[u32], len: &[u32], next: &mut [u32], of: &mut [u32])
    requires { (Ranges first.now len.now) × (max_links ≤ length next.old) × (max_links ≤ length of.old) }
    ensures { ListEdgesSays first.now len.now next.old of.old next.new of.new }
{
    for c in 0..first.len() {
        let from = first[c] as usize;
        list_contour(next, of, c as u32, from, from + len[c] as usize);
    }
}
