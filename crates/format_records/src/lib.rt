// The file's records: what a head may say, and how a record is refused.
#![tactic(auto)]

ghost use Rattle.std.specs.Prelude.{◌+◌, ◌^◌, ◌<◌};
ghost use Rattle.format_records.specs.Promises.{HeadNumberSays, RefusedSays};

use turn::{MAX_LINKS, NumberedRefusal, Reason};

// "a 4,097th node or 8,193rd list entry" ends the reading with 5, as a link past MAX_LINKS does with 1.
pub const MAX_NODES: usize = 4096;

pub const MAX_ENTRIES: usize = 8192;

// Records of one kind that come one after the other: the offset after them, how many, and the bytes of their bodies.
#[derive(Clone, Copy)]
pub struct Run {
    pub at: usize,
    pub count: usize,
    pub size: usize,
}

// Why a head of kind 1 or 2 is refused, if it is.
pub fn head_number(kind: u32, count: usize, size: usize, len: usize) -> Option<Reason>
    requires { size + len < 2 ^ 64 }
    ensures { HeadNumberSays kind count size len result }
{
    if kind == 1 {
        if len != 22 {
            return Some(Reason::WrongFile);
        }
        if count < MAX_LINKS {
            None
        } else {
            Some(Reason::TooManyLinks)
        }
    } else {
        if len % 2 != 0 {
            return Some(Reason::WrongFile);
        }
        if (count < MAX_NODES) & (size + len <= 2 * MAX_ENTRIES) {
            None
        } else {
            Some(Reason::WrongNodes)
        }
    }
}

// A refusal of a record at an offset: 13 names the offset, 1 and 5 nothing.
pub fn refused(number: u32, at: usize) -> NumberedRefusal
    ensures { RefusedSays number at result }
{
    if number == 13 {
        NumberedRefusal { number, place: at }
    } else {
        NumberedRefusal { number, place: 0 }
    }
}
