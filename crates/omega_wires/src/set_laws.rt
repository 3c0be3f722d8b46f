//! A law of every set of wires, the contract of a function that does nothing.

ghost use Rattle.std.specs.Prelude.{◌≡◌, ℕ, false};
ghost use Rattle.omega_wires.specs.Members.{members};

/// The number 0 is the set with no wire.
pub fn no_bits_no_wires()
    ensures { (w : ℕ) → members 0 w ≡ false }
{}
