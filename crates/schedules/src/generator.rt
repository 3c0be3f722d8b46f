//! The generator of pseudorandom numbers.

ghost use Rattle.std.specs.Prelude.{◌≡◌};
ghost use Rattle.schedules.specs.Choices.{first_state, next_state};

/// The state with which the choices of processor `p` begin, in a run that begins with `start`.
pub fn first_state(start: u32, p: u8) -> u32
    ensures { result ≡ first_state start p }
{
    match start.wrapping_add(u32::from(p)) {
        0 => 1,
        sum => sum,
    }
}

/// The state after this one.
pub fn next_state(state: u32) -> u32
    ensures { result ≡ next_state state }
{
    let mut x = state;
    x ^= x << 13;
    x ^= x >> 17;
    x ^= x << 5;
    x
}
