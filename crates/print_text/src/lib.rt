// Texts and decimal numbers, written into a slice of bytes.
//
// Every writer takes the buffer and a position, writes its bytes there and answers the position after them.
#![tactic(auto)]

ghost use Rattle.std.specs.Prelude.{◌+◌, ◌≤◌, length};
ghost use Rattle.print_text.specs.Decimal.{decimal, decimal_z, said};
ghost use Rattle.print_text.specs.Promises.{WriteTextSays, WriteDecimalSays, WriteSignedSays, WriteSaidSays};

// The bytes of a text.
pub fn write_text(word: &[u8], out: &mut [u8], at: usize) -> usize
    requires { at + length word.now ≤ length out.old }
    ensures { WriteTextSays word.now out.old at out.new result }
{
    let next = at + word.len();
    out[at..next].copy_from_slice(word);
    next
}

// A number: the digits before the last, then the last.
// By hand, as all that is written here: each byte is promised, and the position after them is answered, which `write!` does not tell.
pub fn write_decimal(n: u64, out: &mut [u8], at: usize) -> usize
    requires { at + length (decimal n) ≤ length out.old }
    ensures { WriteDecimalSays n out.old at out.new result }
{
    if n < 10 {
        out[at] = b'0' + n as u8;
        at + 1
    } else {
        let last = write_decimal(n / 10, out, at);
        out[last] = b'0' + (n % 10) as u8;
        last + 1
    }
}

// A signed number: a minus sign where it is below 0, then its size.
pub fn write_signed(x: i32, out: &mut [u8], at: usize) -> usize
    requires { at + length (decimal_z x) ≤ length out.old }
    ensures { WriteSignedSays x out.old at out.new result }
{
    let size = x.unsigned_abs() as u64;
    if x < 0 {
        out[at] = b'-';
        write_decimal(size, out, at + 1)
    } else {
        write_decimal(size, out, at)
    }
}

// A text and a number after it.
pub fn write_said(word: &[u8], n: u64, out: &mut [u8], at: usize) -> usize
    requires { at + length (said word.now n) ≤ length out.old }
    ensures { WriteSaidSays word.now n out.old at out.new result }
{
    let next = write_text(word, out, at);
    write_decimal(n, out, next)
}
