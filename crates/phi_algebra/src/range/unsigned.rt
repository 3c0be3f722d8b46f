//! Ranges of unsigned words.

ghost use Rattle.std.specs.Prelude.{◌≡◌, ◌≤◌};
ghost use Rattle.phi_algebra.specs.Ranges.{IsUnsignedRange, clamped_unsigned, is_full_unsigned, is_single_unsigned};
ghost use Rattle.phi_algebra.specs.Composition.{brought_unsigned};

use std::marker::Model;

/// The unsigned numbers from `lo` to `hi`, both included. `lo` is at most `hi`.
#[derive(Clone, Copy, Debug, PartialEq, Eq, Drop)]
pub struct UnsignedRange {
    lo: u32,
    hi: u32,
}

impl Model for UnsignedRange {
    ghost use Rattle.std.specs.Prelude.{◌≤◌};
    ghost use Rattle.phi_algebra.specs.Ranges.{UnsignedEnds};

    ghost Value = { UnsignedEnds };

    ghost view = { λ r. record { lo = r.lo; hi = r.hi } };

    ghost invariant = { λ r. r.lo ≤ r.hi };

    ghost inverse = { λ v. record { lo = v.lo; hi = v.hi } };
}

impl UnsignedRange {
    /// The range from `lo` to `hi`, where `lo` is at most `hi`.
    pub fn new(lo: u32, hi: u32) -> Self
        requires { lo ≤ hi }
        ensures { result ≡ record { lo = lo; hi = hi } }
    {
        UnsignedRange { lo, hi }
    }

    /// The least number in the range.
    pub fn lo(self) -> u32
        ensures value { result ≡ self.lo }
        ensures ordered { result ≤ self.hi }
    {
        self.lo
    }

    /// The greatest number in the range.
    pub fn hi(self) -> u32
        ensures value { result ≡ self.hi }
        ensures ordered { self.lo ≤ result }
    {
        self.hi
    }

    /// The number in the range that is nearest to `number`.
    pub(crate) fn clamp(self, number: u32) -> u32
        ensures { result ≡ clamped_unsigned self number }
    {
        number.clamp(self.lo, self.hi)
    }

    /// The range with both ends clamped to `other`. To clamp to it is to clamp to this range and
    /// then to `other`.
    pub(crate) fn brought_into(self, other: UnsignedRange) -> UnsignedRange
        ensures { result ≡ brought_unsigned self other }
    {
        UnsignedRange {
            lo: other.clamp(self.lo),
            hi: other.clamp(self.hi),
        }
    }

    /// A law: the ends are words, and in order.
    pub(crate) fn keeps_order(self)
        ensures { IsUnsignedRange self }
    {
        let _ = (self.lo, self.hi);
    }

    /// Whether every word is in the range.
    pub(crate) fn is_full(self) -> bool
        ensures value { result ≡ is_full_unsigned self }
        ensures in_range { IsUnsignedRange self }
    {
        self.lo == 0 && self.hi == u32::MAX
    }

    /// Whether only one word is in the range.
    pub(crate) fn is_single(self) -> bool
        ensures value { result ≡ is_single_unsigned self }
        ensures in_range { IsUnsignedRange self }
    {
        self.lo == self.hi
    }
}
