//! Decimal and hex numbers.

ghost use Rattle.std.specs.Prelude.{◌≡◌, ◌^◌, ◌≤◌, ◌<◌, ℤ, pos, negsuc, ◌≤ℤ◌, min, IfOk};
ghost use Rattle.asm_lines.specs.Number.{digit_in, digits_in, capped, number_within, natural_within, low_bits};
ghost use Rattle.asm_lines.specs.Number.{CapsNumber};

use crate::fault::LineFault;

/// Above every range, so that a larger value need not be kept.
const CAP: u64 = 0x2_0000_0000;

fn digit_in(base: u8, byte: u8) -> Option<u8>
    ensures { result ≡ digit_in base byte }
{
    let value = match byte {
        b'0'..=b'9' => byte - b'0',
        b'a'..=b'f' => byte - b'a' + 10,
        b'A'..=b'F' => byte - b'A' + 10,
        _ => return None,
    };
    if value < base { Some(value) } else { None }
}

/// The value of the digits, or `CAP` if it is larger.
#[tactic(auto, unfolding(crate::specs::Number::digits_in))]
fn digits_in(base: u8, bytes: &[u8]) -> Option<u64>
    requires { base ≤ 16 }
    ensures { result ≡ capped (digits_in base bytes.now) }
{
    if bytes.is_empty() {
        return None;
    }
    let mut value = 0u64;
    for byte in bytes {
        let digit = digit_in(base, *byte)?;
        value = (value * base as u64 + digit as u64).min(CAP);
    }
    Some(value)
}

#[tactic(auto, unfolding(crate::specs::Number::number_of))]
fn capped_number(bytes: &[u8]) -> Option<i64>
    ensures { CapsNumber bytes.now result }
{
    match bytes {
        [b'-', rest @ ..] => digits_in(10, rest).map(|v| -(v as i64)),
        [b'0', b'x', rest @ ..] => digits_in(16, rest).map(|v| v as i64),
        _ => digits_in(10, bytes).map(|v| v as i64),
    }
}

/// The number that is written as `bytes`, if it is from `least` to `most`.
///
/// # Errors
///
/// [`LineFault::Form`] if `bytes` is not a number, [`LineFault::Range`] if the number is out of
/// range.
#[tactic(auto, unfolding(crate::specs::Number::number_within))]
pub fn number_within(least: i64, most: i64, bytes: &[u8]) -> Result<i64, LineFault>
    requires least { negsuc (2 ^ 32) ≤ℤ least }
    requires most { most ≤ℤ pos (2 ^ 32) }
    ensures value { result ≡ number_within least most bytes.now }
    ensures in_range { IfOk result (λ z. (least ≤ℤ z) × (z ≤ℤ most)) }
{
    let number = capped_number(bytes).ok_or(LineFault::Form)?;
    if number < least || number > most {
        return Err(LineFault::Range);
    }
    Ok(number)
}

/// The number that is written as `bytes`, if it is from 0 to `most`.
///
/// # Errors
///
/// Those of [`number_within`].
#[tactic(auto, unfolding(crate::specs::Number::natural_within))]
pub fn natural_within(most: u32, bytes: &[u8]) -> Result<u32, LineFault>
    ensures value { result ≡ natural_within most bytes.now }
    ensures in_range { IfOk result (λ n. n ≤ most) }
{
    let number = number_within(0, i64::from(most), bytes)?;
    Ok(number.unsigned_abs() as u32)
}

/// The low bits of a number in two's complement: the number modulo a power of 2.
pub fn low_bits(modulus: u64, number: i64) -> u64
    requires { 0 < modulus }
    ensures value { result ≡ low_bits modulus number }
    ensures small { result < modulus }
{
    number.cast_unsigned() % modulus
}
