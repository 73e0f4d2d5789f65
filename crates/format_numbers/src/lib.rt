// Numbers of the file, "all little-endian", read from a slice of bytes.
#![tactic(auto)]

ghost use Rattle.std.specs.Prelude.{◌+◌, ◌≤◌, length};
ghost use Rattle.format_numbers.specs.Promises.{U16AtSays, U32AtSays, U64AtSays, FromBitsSays};

// Two bytes.
// By hand, once for each width: no trait of the library has `from_le_bytes`.
pub fn u16_at(s: &[u8], i: usize) -> u32
    requires { i + 2 ≤ length s.now }
    ensures { U16AtSays s.now i result }
{
    u16::from_le_bytes([s[i], s[i + 1]]) as u32
}

// Four bytes.
pub fn u32_at(s: &[u8], i: usize) -> u32
    requires { i + 4 ≤ length s.now }
    ensures { U32AtSays s.now i result }
{
    u32::from_le_bytes([s[i], s[i + 1], s[i + 2], s[i + 3]])
}

// Eight bytes.
pub fn u64_at(s: &[u8], i: usize) -> u64
    requires { i + 8 ≤ length s.now }
    ensures { U64AtSays s.now i result }
{
    u64::from_le_bytes([
        s[i],
        s[i + 1],
        s[i + 2],
        s[i + 3],
        s[i + 4],
        s[i + 5],
        s[i + 6],
        s[i + 7],
    ])
}

// The signed number of these bits.
pub fn from_bits(x: u32) -> i32
    ensures { FromBitsSays x result }
{
    x.cast_signed()
}
