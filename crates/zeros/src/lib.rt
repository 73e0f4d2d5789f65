// One list at a time: states restored, and zeros from an index on.
#![tactic(auto)]

ghost use Rattle.std.specs.Prelude.{◌≡◌, ◌≤◌, length, pos, refl};
ghost use Rattle.walk.specs.Code.{unmark};
ghost use Rattle.zeros.specs.Promises.{RestoreSays, ZeroFromSays};

// An element with a zero, whose clones are that zero.
pub trait Zero: Clone {
    ghost ZERO: { Self };

    const ZERO: Self;

    ghost can_clone: { Self.is_infallible ZERO };

    ghost clones: { (y : Self) → Self.is_clone ZERO y → y ≡ ZERO };
}

impl Zero for u32 {
    ghost ZERO = { 0 };

    const ZERO: u32 = 0;

    ghost can_clone = { tt };

    ghost clones = { λ y e. e };
}

impl Zero for i32 {
    ghost ZERO = { pos 0 };

    const ZERO: i32 = 0;

    ghost can_clone = { tt };

    ghost clones = { λ y e. e };
}

impl Zero for u8 {
    ghost ZERO = { 0 };

    const ZERO: u8 = 0;

    ghost can_clone = { tt };

    ghost clones = { λ y e. e };
}

// States 2 and 3 go back to 0, which they were; 1 stays.
pub fn restore(state: &mut [u8])
    ensures { RestoreSays state.old state.new }
{
    for x in state.iter_mut() {
        *x = u8::from(*x == 1);
    }
}

// Zeros from an index on.
pub fn zero_from<T: Zero>(s: &mut [T], from: usize)
    requires { from ≤ length s.old }
    ensures { ZeroFromSays T.ZERO s.old from s.new }
{
    s[from..].fill(T::ZERO);
}
