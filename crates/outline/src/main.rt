// The program: reads document 01's file from standard input and prints the answer.
#![tactic(auto)]

ghost use Rattle.std.specs.Prelude.{◌≤◌, length, IfOk};
ghost use Rattle.print.specs.Room.{answer_bytes};

use format::FILE_BYTES;
use print::ANSWER_BYTES;
use std::io::{self, Read, Write};
use std::rt::{Stderr, Stdin, Stdout};

// Reads until the buffer is full or the input ends, and answers how many bytes there are. One read may bring any part of what is still to come.
fn read_input(mut from: Stdin, buf: &mut [u8]) -> io::Result<usize>
    ensures { IfOk result (λ n. n ≤ length buf.old) }
{
    let mut done = 0;
    while done < buf.len() {
        let n = from.read(&mut buf[done..])?;
        if n == 0 {
            break;
        }
        done += n;
    }
    Ok(done)
}

// The answer to all that was read goes out in one piece. Where it cannot, so that part of it at most was written, that is said.
fn print_answer(mut to: Stdout, mut errors: Stderr, input: &[u8], out: &mut [u8])
    requires { answer_bytes ≤ length out.old }
{
    let size = answer::answer(input, out);
    if to.write_all(&out[..size]).is_err() {
        let _ = errors.write_all(b"outline: the answer could not be written whole\n");
    }
}

// Input that cannot be read has no answer, and that is said apart from answers.
fn answer_input(from: Stdin, to: Stdout, mut errors: Stderr, input: &mut [u8], out: &mut [u8])
    requires { answer_bytes ≤ length out.old }
{
    match read_input(from, input) {
        Ok(n) => print_answer(to, errors, &input[..n], out),
        Err(_) => {
            let _ = errors.write_all(b"outline: standard input cannot be read\n");
        }
    }
}

// FILE_BYTES decide every answer: what comes after them is not read.
fn main(rt: HostRuntime) {
    let mut input = [0u8; FILE_BYTES];
    let mut out = [0u8; ANSWER_BYTES];
    answer_input(rt.stdin(), rt.stdout(), rt.stderr(), &mut input, &mut out);
}
