//! Sets of wires.

ghost use Rattle.std.specs.Prelude.{◌≡◌, ◌≢◌, ◌<◌, ◌==◌, ℕ, Bool, true, false, if◌then◌else◌, IfSome, None};
ghost use Rattle.omega_wires.specs.Members.{HasNoneIn, IsFirst, members};

use std::marker::Model;

/// A set of wires, numbered 0 to 63.
#[derive(Clone, Copy, Debug, Drop)]
pub struct WireSet {
    /// A bit for each wire, wire 0 lowest.
    bits: u64,
}

impl Model for WireSet {
    ghost use Rattle.std.specs.Prelude.{ℕ, ◌<◌, ◌^◌};

    ghost Value = { ℕ };

    ghost view = { λ s. s.bits };

    ghost invariant = { λ s. s.bits < 2 ^ 64 };

    ghost inverse = { λ bits. record { bits = bits } };
}

impl WireSet {
    /// The empty set.
    pub const fn new() -> Self
        ensures { (w : ℕ) → members result w ≡ false }
    {
        WireSet { bits: 0 }
    }

    /// Whether the set has this wire.
    pub fn contains(self, wire: u8) -> bool
        requires { wire < 64 }
        ensures { result ≡ members self wire }
    {
        self.bits >> wire & 1 == 1
    }

    /// Adds a wire, which may be in the set already.
    pub fn insert(&mut self, wire: u8)
        requires { wire < 64 }
        ensures { (w : ℕ) → members self.new w ≡ (if w == wire then true else members self.old w) }
    {
        self.bits |= 1 << wire;
    }

    /// Removes a wire, which need not be in the set.
    pub fn remove(&mut self, wire: u8)
        requires { wire < 64 }
        ensures { (w : ℕ) → members self.new w ≡ (if w == wire then false else members self.old w) }
    {
        self.bits &= !(1 << wire);
    }

    /// The first wire of the set from `wire` on, or `None` if there is none.
    pub fn first_from(self, wire: u8) -> Option<u8>
        ensures first { IfSome result (IsFirst (members self) wire) }
        ensures none { result ≡ None → HasNoneIn (members self) wire 64 }
    {
        if wire >= 64 {
            return None;
        }
        let rest = self.bits >> wire;
        if rest == 0 {
            return None;
        }
        Some(wire + rest.trailing_zeros() as u8)
    }
}
