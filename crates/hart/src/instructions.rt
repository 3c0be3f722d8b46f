//! The function of each instruction that refers to a shared word.

ghost use Rattle.std.specs.Prelude.{◌≡◌, ℕ, ◌+◌, ◌<◌, ◌≤◌, ◌^◌};
ghost use Rattle.flat_machine.specs.Operations.{amo_value, store_size};
ghost use Rattle.flat_machine.specs.Words.{with_part};
ghost use Rattle.phi_algebra.specs.Functions.{apply, IsIdentity};
ghost use Rattle.hart.specs.Table.{amo_phi, load_phi, store_phi};
ghost use Rattle.phi_algebra.specs.declared.phi.Phi.TheVariants.{Bits};
ghost use Rattle.rv_table.specs.declared.operation.AmoOp.TheVariants as amo;

use phi_algebra::{Phi, SignedRange, UnsignedRange};
use rv_table::{AmoOp, StoreOp};

/// A load of any size, which changes nothing.
#[tactic(auto, using(crate::proofs::Meanings::load_meaning), unfolding(crate::specs::Table::load_phi))]
pub fn load() -> Phi
    ensures table { result ≡ load_phi }
    ensures meaning { IsIdentity result }
{
    bits(u32::MAX, 0)
}

/// SB of `value` at the byte `offset` of the word.
pub fn store_byte(offset: u32, value: u32) -> Phi
    requires { offset < 4 }
    ensures table { result ≡ store_phi 1 offset value }
    ensures meaning { (x : ℕ) → x < 2 ^ 32 → apply result x ≡ with_part 1 offset x value }
{
    store_part(1, offset, value)
}

/// SH of `value` at the byte `offset` of the word.
pub fn store_half(offset: u32, value: u32) -> Phi
    requires { offset + 2 ≤ 4 }
    ensures table { result ≡ store_phi 2 offset value }
    ensures meaning { (x : ℕ) → x < 2 ^ 32 → apply result x ≡ with_part 2 offset x value }
{
    store_part(2, offset, value)
}

/// SW of `value`.
#[tactic(auto, using(crate::proofs::Meanings::word_phi, crate::proofs::Meanings::word_meaning))]
pub fn store_word(value: u32) -> Phi
    ensures table { result ≡ store_phi 4 0 value }
    ensures whole { result ≡ Bits 0 value }
    ensures meaning { (x : ℕ) → x < 2 ^ 32 → apply result x ≡ with_part 4 0 x value }
{
    Phi::constant(value)
}

/// The given store of `value` at the byte `offset` of the word.
pub fn store(op: StoreOp, offset: u32, value: u32) -> Phi
    requires { offset + store_size op ≤ 4 }
    ensures table { result ≡ store_phi (store_size op) offset value }
    ensures meaning { (x : ℕ) → x < 2 ^ 32 → apply result x ≡ with_part (store_size op) offset x value }
{
    match op {
        StoreOp::Sb => store_byte(offset, value),
        StoreOp::Sh => store_half(offset, value),
        StoreOp::Sw => store_word(value),
    }
}

/// AMOADD of `value`.
#[tactic(auto, using(crate::proofs::Meanings::add_meaning), unfolding(crate::specs::Table::amo_phi))]
pub fn amo_add(value: u32) -> Phi
    ensures table { result ≡ amo_phi amo.Add value }
    ensures meaning { (x : ℕ) → x < 2 ^ 32 → apply result x ≡ amo_value amo.Add x value }
{
    Phi::Add(value)
}

/// AMOSWAP of `value`.
#[tactic(auto, using(crate::proofs::Meanings::swap_meaning), unfolding(crate::specs::Table::amo_phi))]
pub fn amo_swap(value: u32) -> Phi
    ensures table { result ≡ amo_phi amo.Swap value }
    ensures meaning { (x : ℕ) → x < 2 ^ 32 → apply result x ≡ amo_value amo.Swap x value }
{
    bits(0, value)
}

/// AMOXOR of `value`.
#[tactic(auto, using(crate::proofs::Meanings::xor_meaning), unfolding(crate::specs::Table::amo_phi))]
pub fn amo_xor(value: u32) -> Phi
    ensures table { result ≡ amo_phi amo.Xor value }
    ensures meaning { (x : ℕ) → x < 2 ^ 32 → apply result x ≡ amo_value amo.Xor x value }
{
    bits(u32::MAX, value)
}

/// AMOOR of `value`: it clears the bits of `value`, and then flips them.
#[tactic(auto, using(crate::proofs::Meanings::or_meaning), unfolding(crate::specs::Table::amo_phi))]
pub fn amo_or(value: u32) -> Phi
    ensures table { result ≡ amo_phi amo.Or value }
    ensures meaning { (x : ℕ) → x < 2 ^ 32 → apply result x ≡ amo_value amo.Or x value }
{
    bits(!value, value)
}

/// AMOAND of `value`.
#[tactic(auto, using(crate::proofs::Meanings::and_meaning), unfolding(crate::specs::Table::amo_phi))]
pub fn amo_and(value: u32) -> Phi
    ensures table { result ≡ amo_phi amo.And value }
    ensures meaning { (x : ℕ) → x < 2 ^ 32 → apply result x ≡ amo_value amo.And x value }
{
    bits(value, 0)
}

/// AMOMIN of `value`, in two's complement.
#[tactic(auto, using(crate::proofs::Meanings::min_meaning), unfolding(crate::specs::Table::amo_phi))]
pub fn amo_min(value: u32) -> Phi
    ensures table { result ≡ amo_phi amo.Min value }
    ensures meaning { (x : ℕ) → x < 2 ^ 32 → apply result x ≡ amo_value amo.Min x value }
{
    Phi::Clamp(SignedRange::new(i32::MIN, value.cast_signed()))
}

/// AMOMAX of `value`, in two's complement.
#[tactic(auto, using(crate::proofs::Meanings::max_meaning), unfolding(crate::specs::Table::amo_phi))]
pub fn amo_max(value: u32) -> Phi
    ensures table { result ≡ amo_phi amo.Max value }
    ensures meaning { (x : ℕ) → x < 2 ^ 32 → apply result x ≡ amo_value amo.Max x value }
{
    Phi::Clamp(SignedRange::new(value.cast_signed(), i32::MAX))
}

/// AMOMINU of `value`, unsigned.
#[tactic(auto, using(crate::proofs::Meanings::minu_meaning), unfolding(crate::specs::Table::amo_phi))]
pub fn amo_minu(value: u32) -> Phi
    ensures table { result ≡ amo_phi amo.Minu value }
    ensures meaning { (x : ℕ) → x < 2 ^ 32 → apply result x ≡ amo_value amo.Minu x value }
{
    Phi::ClampU(UnsignedRange::new(0, value))
}

/// AMOMAXU of `value`, unsigned.
#[tactic(auto, using(crate::proofs::Meanings::maxu_meaning), unfolding(crate::specs::Table::amo_phi))]
pub fn amo_maxu(value: u32) -> Phi
    ensures table { result ≡ amo_phi amo.Maxu value }
    ensures meaning { (x : ℕ) → x < 2 ^ 32 → apply result x ≡ amo_value amo.Maxu x value }
{
    Phi::ClampU(UnsignedRange::new(value, u32::MAX))
}

/// The given AMO with `value`. Its result is again a 32-bit word.
#[tactic(auto, using(crate::proofs::Meanings::amo_small))]
pub fn amo(op: AmoOp, value: u32) -> Phi
    ensures table { result ≡ amo_phi op value }
    ensures meaning { (x : ℕ) → x < 2 ^ 32 → apply result x ≡ amo_value op x value }
    ensures in_range { (x : ℕ) → x < 2 ^ 32 → amo_value op x value < 2 ^ 32 }
{
    match op {
        AmoOp::Add => amo_add(value),
        AmoOp::Swap => amo_swap(value),
        AmoOp::Xor => amo_xor(value),
        AmoOp::Or => amo_or(value),
        AmoOp::And => amo_and(value),
        AmoOp::Min => amo_min(value),
        AmoOp::Max => amo_max(value),
        AmoOp::Minu => amo_minu(value),
        AmoOp::Maxu => amo_maxu(value),
    }
}

/// The function that keeps the bits set in `and`, and then flips those set in `xor`.
fn bits(and: u32, xor: u32) -> Phi
    ensures { result ≡ Bits and xor }
{
    Phi::Bits { and, xor }
}

/// A store of the low `size` bytes of `value` at the byte `offset` of the word.
fn store_part(size: u32, offset: u32, value: u32) -> Phi
    requires some { 0 < size }
    requires inside { offset + size ≤ 4 }
    ensures table { result ≡ store_phi size offset value }
    ensures meaning { (x : ℕ) → x < 2 ^ 32 → apply result x ≡ with_part size offset x value }
{
    let ones = u32::MAX >> (32 - 8 * size);
    Phi::Bits {
        and: !(ones << (8 * offset)),
        xor: (value & ones) << (8 * offset),
    }
}
