//! Operands of an instruction, with their ranges.

ghost use Rattle.std.specs.Prelude.{◌≡◌, ℕ, ◌^◌, ◌<◌};

use std::marker::Model;

/// The number of a register, 0 to 31.
#[derive(Clone, Copy, Debug, PartialEq, Eq, Drop)]
pub struct Register {
    number: u8,
}

impl Model for Register {
    ghost Value = { ℕ };

    ghost view = { λ r. r.number };

    ghost invariant = { λ r. r.number < 32 };

    ghost inverse = { λ n. record { number = n } };
}

impl Register {
    /// The register with this number, which is below 32.
    pub fn new(number: u8) -> Self
        requires { number < 32 }
        ensures { result ≡ number }
    {
        Register { number }
    }

    /// The register's number.
    pub fn number(self) -> u8
        ensures value { result ≡ self }
        ensures in_range { result < 32 }
    {
        self.number
    }
}

/// An immediate as encoded in the word: a field of `WIDTH` bits, before sign extension.
#[derive(Clone, Copy, Debug, PartialEq, Eq, Drop)]
pub struct Immediate<const WIDTH: u32> {
    field: u32,
}

impl<const WIDTH: u32> Model for Immediate<WIDTH> {
    ghost Value = { ℕ };

    ghost view = { λ i. i.field };

    ghost invariant = { λ i. i.field < 2 ^ WIDTH };

    ghost inverse = { λ n. record { field = n } };
}

impl<const WIDTH: u32> Immediate<WIDTH> {
    /// The immediate with this field, which has `WIDTH` bits.
    pub fn new(field: u32) -> Self
        requires { field < 2 ^ WIDTH }
        ensures { result ≡ field }
    {
        Immediate { field }
    }

    /// The field, from 0 to 2^`WIDTH` - 1.
    pub fn field(self) -> u32
        ensures value { result ≡ self.entry }
        ensures in_range { result < 2 ^ WIDTH }
    {
        self.field
    }
}
