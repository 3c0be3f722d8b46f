//! Functions on words.

ghost use Rattle.std.specs.Prelude.{◌≡◌, ◌↔◌, IsTrue};
ghost use Rattle.phi_algebra.specs.Functions.{apply, HasValue, IsConstant, IsIdentity, is_constant, is_identity};
ghost use Rattle.phi_algebra.specs.declared.phi.Phi.TheVariants.{Add, Bits};

use crate::range::{SignedRange, UnsignedRange};

/// A function on 32-bit words. Two values may mean one function, as `Add(0)` and
/// `Bits { and: u32::MAX, xor: 0 }`.
#[derive(Clone, Copy, Debug, PartialEq, Eq, Drop)]
pub enum Phi {
    /// The sum with this word, modulo 2^32.
    Add(u32),
    /// The word and `and`, exclusive or `xor`: each bit is kept, inverted, cleared or set.
    Bits { and: u32, xor: u32 },
    /// The nearest word in the range, in two's complement.
    Clamp(SignedRange),
    /// The nearest word in the range, unsigned.
    ClampU(UnsignedRange),
}

impl Phi {
    /// The function that leaves each word as it is.
    #[tactic(auto, unfolding(crate::specs::Functions::apply))]
    pub fn identity() -> Phi
        ensures kind { result ≡ Add 0 }
        ensures meaning { IsIdentity result }
    {
        Phi::Add(0)
    }

    /// The function whose value is `value` at every word.
    #[tactic(auto, using(crate::proofs::Masks::constant_meaning))]
    pub fn constant(value: u32) -> Phi
        ensures kind { result ≡ Bits 0 value }
        ensures meaning { HasValue result value }
    {
        Phi::Bits { and: 0, xor: value }
    }

    /// The function's value at the word `x`.
    #[tactic(auto, unfolding(crate::specs::Functions::apply))]
    pub fn apply(&self, x: u32) -> u32
        ensures { result ≡ apply self.now x }
    {
        match *self {
            Phi::Add(amount) => x.wrapping_add(amount),
            Phi::Bits { and, xor } => (x & and) ^ xor,
            Phi::Clamp(range) => range.clamp(x.cast_signed()).cast_unsigned(),
            Phi::ClampU(range) => range.clamp(x),
        }
    }

    /// Whether the function, of any kind, leaves each word as it is.
    pub fn is_identity(&self) -> bool
        ensures by_kind { result ≡ is_identity self.now }
        ensures exact { IsTrue result ↔ IsIdentity self.now }
    {
        match *self {
            Phi::Add(amount) => amount == 0,
            Phi::Bits { and, xor } => and == u32::MAX && xor == 0,
            Phi::Clamp(range) => range.is_full(),
            Phi::ClampU(range) => range.is_full(),
        }
    }

    /// Whether the function, of any kind, has the same value at all words.
    pub fn is_constant(&self) -> bool
        ensures by_kind { result ≡ is_constant self.now }
        ensures exact { IsTrue result ↔ IsConstant self.now }
    {
        match *self {
            Phi::Add(_) => false,
            Phi::Bits { and, .. } => and == 0,
            Phi::Clamp(range) => range.is_single(),
            Phi::ClampU(range) => range.is_single(),
        }
    }
}
