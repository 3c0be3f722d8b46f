//! Wires as numbers of `k` bits: rotations, and the path through a stage.

ghost use Rattle.std.specs.Prelude.{◌≡◌, ◌<◌, ◌≤◌, ◌^◌, ◌%◌, suc};
ghost use Rattle.omega_wires.specs.Wires.{bit, input_port, path, rotated_left, rotated_right, switch_of, wire_after};
ghost use Rattle.omega_wires.specs.Wires.{wire_before};

/// Bit `i` of a number below 256: the lowest is bit 0.
pub fn bit(i: u8, number: u8) -> u8
    requires { i < 8 }
    ensures exact { result ≡ bit i number }
    ensures small { result < 2 }
{
    (number >> i) & 1
}

/// The shuffle: the `k` bits of the wire's number, rotated to the left by one.
pub fn rotate_left(k: u8, wire: u8) -> u8
    requires stages { k ≤ 6 }
    requires on_a_wire { wire < 2 ^ k }
    ensures exact { result ≡ rotated_left k wire }
    ensures small { result < 2 ^ k }
{
    let twice = wire << 1;
    low_bits(twice, k) + (twice >> k)
}

/// The shuffle undone: the `k` bits of the wire's number, rotated to the right by one.
pub fn rotate_right(k: u8, wire: u8) -> u8
    requires stages { k ≤ 6 }
    requires on_a_wire { wire < 2 ^ k }
    ensures exact { result ≡ rotated_right k wire }
    ensures small { result < 2 ^ k }
{
    (wire >> 1) + (((wire & 1) << k) >> 1)
}

/// The switch that a wire before a stage goes into.
pub fn switch_of(k: u8, wire: u8) -> u8
    requires stages { k ≤ 6 }
    requires on_a_wire { wire < 2 ^ k }
    ensures exact { result ≡ switch_of k wire }
{
    rotate_left(k, wire) >> 1
}

/// The input port of that switch for the wire, 0 or 1.
pub fn input_port(k: u8, wire: u8) -> u8
    requires stages { k ≤ 6 }
    requires on_a_wire { wire < 2 ^ k }
    ensures exact { result ≡ input_port k wire }
    ensures small { result < 2 }
{
    rotate_left(k, wire) & 1
}

/// The wire after a stage, for a message that arrives on `wire` and goes to module `to_module`.
#[tactic(auto, unfolding(crate::specs::Wires::wire_after))]
pub fn wire_after(k: u8, stage: u8, wire: u8, to_module: u8) -> u8
    requires stages { k ≤ 6 }
    requires at_a_stage { stage < k }
    requires on_a_wire { wire < 2 ^ k }
    ensures exact { result ≡ wire_after k stage wire to_module }
    ensures small { result < 2 ^ k }
{
    2 * switch_of(k, wire) + bit(k - 1 - stage, to_module)
}

/// The wire before a stage, for a reply that arrives on `wire` after it and goes to `processor`.
#[tactic(auto, unfolding(crate::specs::Wires::wire_before))]
pub fn wire_before(k: u8, stage: u8, wire: u8, processor: u8) -> u8
    requires stages { k ≤ 6 }
    requires at_a_stage { stage < k }
    requires on_a_wire { wire < 2 ^ k }
    ensures exact { result ≡ wire_before k stage wire processor }
    ensures small { result < 2 ^ k }
{
    rotate_right(k, 2 * (wire >> 1) + bit(k - 1 - stage, processor))
}

/// The module that has a shared word. Words are interleaved over the modules.
pub fn module_of(word: u32, k: u8) -> u8
    requires { k ≤ 6 }
    ensures exact { result ≡ word % 2 ^ k }
    ensures small { result < 2 ^ k }
{
    (word & ((1 << k) - 1)) as u8
}

/// The wire of a message from `processor` to module `to_module` before this stage, or after the last one if `stage` is
/// `k`. Its number is the low bits of the processor's number, followed by the bits of the module's number that the
/// stages have put in.
pub fn path(k: u8, processor: u8, to_module: u8, stage: u8) -> u8
    requires stages { k ≤ 6 }
    requires by_a_stage { stage ≤ k }
    requires a_processor { processor < 2 ^ k }
    requires a_module { to_module < 2 ^ k }
    ensures exact { result ≡ path k processor to_module stage }
    ensures small { result < 2 ^ k }
{
    let left = k - stage;
    (low_bits(processor, left) << stage) + (to_module >> left)
}

/// The lowest bits of a number, as a number.
fn low_bits(number: u8, bits: u8) -> u8
    requires { bits < 8 }
    ensures { result ≡ number % 2 ^ bits }
{
    number & ((1 << bits) - 1)
}
