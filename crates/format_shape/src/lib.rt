// The form of the file, by the heads of its records: how many links, nodes and entries it has, or its first fault.
#![tactic(auto)]

ghost use Rattle.std.specs.Prelude.{◌≡◌, ℕ, ◌≤◌, List, length};
ghost use Rattle.format_records.specs.Records.{run_at, nodes_after};
ghost use Rattle.format_shape.specs.Shape.{run_end_of, file_shape_of};
ghost use Rattle.format_shape.specs.Promises.{ShapeOfSays};

use format_records::Run;
use format_steps::{settings_right, step_at};
use turn::{Reason, Refusal};

// How many links, nodes and list entries a file of right form has.
#[derive(Clone, Copy, Debug, PartialEq, Eq)]
pub struct Sizes {
    pub links: usize,
    pub nodes: usize,
    pub entries: usize,
}

// The whole run of a kind from an offset on, or the fault in it.
fn run_at(s: &[u8], kind: u32, at: usize) -> Result<Run, Refusal>
    requires { at ≤ length s.now }
    ensures { result ≡ run_end_of (run_at kind s.now at) }
{
    let mut r = Run {
        at,
        count: 0,
        size: 0,
    };
    while let Some(next) = step_at(s, kind, r)? {
        r = next;
    }
    Ok(r)
}

// The form of what follows so many links: the nodes, and after them the end.
fn nodes_after(s: &[u8], links: usize, at: usize) -> Result<Sizes, Refusal>
    requires { at ≤ length s.now }
    ensures { (bodies : List (List ℕ)) → length bodies ≡ links
        → result ≡ file_shape_of (nodes_after s.now bodies at) }
{
    let r = run_at(s, 2, at)?;
    if r.at != s.len() {
        return Err(Refusal {
            reason: Reason::WrongFile,
            place: r.at,
        });
    }
    Ok(Sizes {
        links,
        nodes: r.count,
        entries: r.size / 2,
    })
}

// The form of the whole file: the settings, then the links.
pub fn shape_of(s: &[u8]) -> Result<Sizes, Refusal>
    ensures { ShapeOfSays s.now result }
{
    if !settings_right(s) {
        return Err(Refusal {
            reason: Reason::WrongFile,
            place: 0,
        });
    }
    let links = run_at(s, 1, 15)?;
    nodes_after(s, links.count, links.at)
}
