//! Ranges of signed numbers.

ghost use Rattle.std.specs.Prelude.{◌≡◌, ◌≤ℤ◌};
ghost use Rattle.phi_algebra.specs.Ranges.{IsSignedRange, clamped_signed, is_full_signed, is_single_signed};
ghost use Rattle.phi_algebra.specs.Composition.{brought_signed};

use std::marker::Model;

/// The signed numbers from `lo` to `hi`, both included. `lo` is at most `hi`.
#[derive(Clone, Copy, Debug, PartialEq, Eq, Drop)]
pub struct SignedRange {
    lo: i32,
    hi: i32,
}

impl Model for SignedRange {
    ghost use Rattle.std.specs.Prelude.{◌≤ℤ◌};
    ghost use Rattle.phi_algebra.specs.Ranges.{SignedEnds};

    ghost Value = { SignedEnds };

    ghost view = { λ r. record { lo = r.lo; hi = r.hi } };

    ghost invariant = { λ r. r.lo ≤ℤ r.hi };

    ghost inverse = { λ v. record { lo = v.lo; hi = v.hi } };
}

impl SignedRange {
    /// The range from `lo` to `hi`, where `lo` is at most `hi`.
    pub fn new(lo: i32, hi: i32) -> Self
        requires { lo ≤ℤ hi }
        ensures { result ≡ record { lo = lo; hi = hi } }
    {
        SignedRange { lo, hi }
    }

    /// The least number in the range.
    pub fn lo(self) -> i32
        ensures value { result ≡ self.lo }
        ensures ordered { result ≤ℤ self.hi }
    {
        self.lo
    }

    /// The greatest number in the range.
    pub fn hi(self) -> i32
        ensures value { result ≡ self.hi }
        ensures ordered { self.lo ≤ℤ result }
    {
        self.hi
    }

    /// The number in the range that is nearest to `number`.
    pub(crate) fn clamp(self, number: i32) -> i32
        ensures { result ≡ clamped_signed self number }
    {
        number.clamp(self.lo, self.hi)
    }

    /// The range with both ends clamped to `other`. To clamp to it is to clamp to this range and
    /// then to `other`.
    pub(crate) fn brought_into(self, other: SignedRange) -> SignedRange
        ensures { result ≡ brought_signed self other }
    {
        SignedRange {
            lo: other.clamp(self.lo),
            hi: other.clamp(self.hi),
        }
    }

    /// A law: the ends are words, and in order.
    pub(crate) fn keeps_order(self)
        ensures { IsSignedRange self }
    {
        let _ = (self.lo, self.hi);
    }

    /// Whether every word is in the range.
    pub(crate) fn is_full(self) -> bool
        ensures value { result ≡ is_full_signed self }
        ensures in_range { IsSignedRange self }
    {
        self.lo == i32::MIN && self.hi == i32::MAX
    }

    /// Whether only one word is in the range.
    pub(crate) fn is_single(self) -> bool
        ensures value { result ≡ is_single_signed self }
        ensures in_range { IsSignedRange self }
    {
        self.lo == self.hi
    }
}
