// A list filled in one loop with what stands at every so many bytes.
#![tactic(auto)]

ghost use Rattle.std.specs.Prelude.{ℕ, ◌+◌, ◌*◌, ◌^◌, ◌<◌, ◌≤◌, length, slice_index_or};
ghost use Rattle.format_fill.specs.Promises.{FillI32Says, FillU16Says, FillU8Says};

// What `read` reads at every so many bytes, a number for each place of `out`.
fn fill_by<T: Copy, F: Fn(usize) -> T>(out: &mut [T], from: usize, step: usize, read: F)
    requires fits { (k : ℕ) → k < length out.old → from + step * k < 2 ^ 64 }
    requires readable { (k : ℕ) → k < length out.old → F.pre read (from + step * k) }
    ensures { (k : ℕ) (d : T) → k < length out.old → F.post read (from + step * k) (slice_index_or out.new k d) }
{
    for (k, x) in out.iter_mut().enumerate() {
        *x = read(from + step * k);
    }
}

// The numbers at every 28th byte, the bytes of a link's record.
pub fn fill_i32(s: &[u8], from: usize, n: usize, out: &mut [i32])
    requires { (from + 28 * n ≤ length s.now + 24) × (n ≤ length out.old) }
    ensures { FillI32Says s.now from n out.old out.new }
{
    fill_by(&mut out[..n], from, 28, |at| {
        format_numbers::from_bits(format_numbers::u32_at(s, at))
    });
}

// The numbers at every so many bytes, written from index `to` on.
pub fn fill_u16(s: &[u8], from: usize, step: usize, n: usize, out: &mut [u32], to: usize)
    requires { (step ≤ 28) × ((k : ℕ) → k < n → from + step * k + 2 ≤ length s.now)
        × (to + n ≤ length out.old) }
    ensures { FillU16Says s.now from step n out.old to out.new }
{
    fill_by(
        &mut out[to..to + n],
        from,
        step,
        |at| format_numbers::u16_at(s, at),
    );
}

// The bytes at every 28th.
pub fn fill_u8(s: &[u8], from: usize, n: usize, out: &mut [u8])
    requires { (from + 28 * n ≤ length s.now + 27) × (n ≤ length out.old) }
    ensures { FillU8Says s.now from n out.old out.new }
{
    fill_by(&mut out[..n], from, 28, |at| s[at]);
}
