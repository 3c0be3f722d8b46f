//! The texts of functions on words.

ghost use Rattle.std.specs.Prelude.{◌≡◌, ◌++◌, codes, OnOk, string_bytes};
ghost use Rattle.std.specs.Int.{cast_unsigned, w32};
ghost use Rattle.command_io.specs.Digits.{hex_of_word};
ghost use Rattle.trace_lines.specs.Functions.{bits_text, flips_text, function_text, kind_text, masks_text, signed_end};
ghost use Rattle.trace_lines.specs.Functions.{signed_text, unsigned_end, unsigned_text};

use command_io::push_word;
use phi_algebra::{Phi, SignedRange, UnsignedRange};
use std::alloc::{AllocError, Global};

/// Appends a function: `load` if it changes nothing, `store V` if its value is always V, and otherwise the instructions
/// that compute it, the first one first, such as `add V`, or `max V min W` for both ends of a range.
///
/// # Errors
///
/// [`AllocError`] if there is no memory for it.
#[tactic(auto, unfolding(crate::specs::Functions::function_text))]
pub fn push_function(alloc: Global, text: &mut String, function: &Phi) -> Result<(), AllocError>
    ensures { OnOk result (string_bytes text.new ≡ string_bytes text.old ++ function_text function.now) }
{
    if function.is_identity() {
        text.push_str("load")
    } else if function.is_constant() {
        push_operation(alloc, text, "store ", function.apply(0))
    } else {
        push_kind(alloc, text, function)
    }
}

/// Appends a function of some kind, which may be one that changes nothing, or constant.
fn push_kind(alloc: Global, text: &mut String, function: &Phi) -> Result<(), AllocError>
    ensures { OnOk result (string_bytes text.new ≡ string_bytes text.old ++ kind_text function.now) }
{
    match *function {
        Phi::Add(amount) => push_operation(alloc, text, "add ", amount),
        Phi::Bits { and, xor } => push_bits(alloc, text, and, xor),
        Phi::Clamp(range) => push_signed(alloc, text, range),
        Phi::ClampU(range) => push_unsigned(alloc, text, range),
    }
}

/// Appends the function that keeps the bits set in `and`, and then flips those set in `xor`.
fn push_bits(alloc: Global, text: &mut String, and: u32, xor: u32) -> Result<(), AllocError>
    ensures { OnOk result (string_bytes text.new ≡ string_bytes text.old ++ bits_text and xor) }
{
    if and == u32::MAX {
        push_operation(alloc, text, "xor ", xor)
    } else {
        push_masks(alloc, text, and, xor)
    }
}

/// Appends the same function as an `or`, if it is one, and otherwise as an `and` and an `xor`.
fn push_masks(alloc: Global, text: &mut String, and: u32, xor: u32) -> Result<(), AllocError>
    ensures { OnOk result (string_bytes text.new ≡ string_bytes text.old ++ masks_text and xor) }
{
    if and == !xor {
        push_operation(alloc, text, "or ", xor)
    } else {
        push_and(alloc, text, and, xor)
    }
}

/// Appends an `and`, and an `xor` unless that changes nothing.
fn push_and(alloc: Global, text: &mut String, and: u32, xor: u32) -> Result<(), AllocError>
    ensures { OnOk result (string_bytes text.new ≡ string_bytes text.old ++ codes "and " ++ hex_of_word and
        ++ flips_text xor) }
{
    push_operation(alloc, text, "and ", and)?;
    push_flips(alloc, text, xor)
}

/// Appends an `xor`, unless it changes nothing.
#[tactic(auto, unfolding(crate::specs::Functions::flips_text))]
fn push_flips(alloc: Global, text: &mut String, xor: u32) -> Result<(), AllocError>
    ensures { OnOk result (string_bytes text.new ≡ string_bytes text.old ++ flips_text xor) }
{
    if xor == 0 {
        Ok(())
    } else {
        push_operation(alloc, text, " xor ", xor)
    }
}

/// Appends the function whose value is the nearest word in a range, in two's complement.
fn push_signed(alloc: Global, text: &mut String, range: SignedRange) -> Result<(), AllocError>
    ensures { OnOk result (string_bytes text.new ≡ string_bytes text.old ++ signed_text range) }
{
    let (lo, hi) = (range.lo(), range.hi());
    if lo == i32::MIN {
        push_operation(alloc, text, "min ", hi.cast_unsigned())
    } else {
        push_max(alloc, text, lo, hi)
    }
}

/// Appends a `max`, and a `min` unless that changes nothing.
fn push_max(alloc: Global, text: &mut String, lo: i32, hi: i32) -> Result<(), AllocError>
    ensures { OnOk result (string_bytes text.new ≡ string_bytes text.old ++ codes "max "
        ++ hex_of_word (cast_unsigned w32 lo) ++ signed_end hi) }
{
    push_operation(alloc, text, "max ", lo.cast_unsigned())?;
    push_signed_end(alloc, text, hi)
}

/// Appends a `min`, unless it changes nothing.
#[tactic(auto, unfolding(crate::specs::Functions::signed_end))]
fn push_signed_end(alloc: Global, text: &mut String, hi: i32) -> Result<(), AllocError>
    ensures { OnOk result (string_bytes text.new ≡ string_bytes text.old ++ signed_end hi) }
{
    if hi == i32::MAX {
        Ok(())
    } else {
        push_operation(alloc, text, " min ", hi.cast_unsigned())
    }
}

/// Appends the function whose value is the nearest word in a range, unsigned.
fn push_unsigned(alloc: Global, text: &mut String, range: UnsignedRange) -> Result<(), AllocError>
    ensures { OnOk result (string_bytes text.new ≡ string_bytes text.old ++ unsigned_text range) }
{
    let (lo, hi) = (range.lo(), range.hi());
    if lo == 0 {
        push_operation(alloc, text, "minu ", hi)
    } else {
        push_maxu(alloc, text, lo, hi)
    }
}

/// Appends a `maxu`, and a `minu` unless that changes nothing.
fn push_maxu(alloc: Global, text: &mut String, lo: u32, hi: u32) -> Result<(), AllocError>
    ensures { OnOk result (string_bytes text.new ≡ string_bytes text.old ++ codes "maxu " ++ hex_of_word lo
        ++ unsigned_end hi) }
{
    push_operation(alloc, text, "maxu ", lo)?;
    push_unsigned_end(alloc, text, hi)
}

/// Appends a `minu`, unless it changes nothing.
#[tactic(auto, unfolding(crate::specs::Functions::unsigned_end))]
fn push_unsigned_end(alloc: Global, text: &mut String, hi: u32) -> Result<(), AllocError>
    ensures { OnOk result (string_bytes text.new ≡ string_bytes text.old ++ unsigned_end hi) }
{
    if hi == u32::MAX {
        Ok(())
    } else {
        push_operation(alloc, text, " minu ", hi)
    }
}

/// Appends an instruction's name, which ends with a space, and its operand.
fn push_operation(
    alloc: Global,
    text: &mut String,
    name: &str,
    operand: u32,
) -> Result<(), AllocError>
    ensures { OnOk result (string_bytes text.new ≡ string_bytes text.old ++ name.now
        ++ hex_of_word operand) }
{
    text.push_str(name)?;
    push_word(alloc, text, operand)
}
