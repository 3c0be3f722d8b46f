//! The numbers that digits spell.

ghost use Rattle.std.specs.Prelude.{◌≡◌, ◌<◌, ◌≤◌, ◌-◌, length, true};
ghost use Rattle.std.specs.List.{list_all};
ghost use Rattle.line_shapes.specs.Numbers.{decimal_value, decimal_value_after, is_digit, word_value};

use crate::fields::{hex_value, is_hex};

/// The number that eight hex digits spell.
pub fn word_value(text: &str) -> Option<u32>
    ensures { result ≡ word_value text.now }
{
    if text.len() == 8 && is_hex(text) {
        Some(hex_value(text))
    } else {
        None
    }
}

/// The number that at most nine decimal digits spell.
pub fn decimal_value(text: &str) -> Option<u32>
    ensures { result ≡ decimal_value text.now }
{
    if text.len() <= 9 && is_decimal(text) {
        Some(value_of_digits(text))
    } else {
        None
    }
}

/// Whether all bytes are decimal digits.
fn is_decimal(text: &str) -> bool
    ensures { result ≡ list_all is_digit text.now }
{
    text.as_bytes().iter().all(|b| 48 <= *b && *b <= 57)
}

/// The number that decimal digits spell.
fn value_of_digits(digits: &str) -> u32
    requires all { list_all is_digit digits.now ≡ true }
    requires few { length digits.now ≤ 9 }
    ensures { result ≡ decimal_value_after 0 digits.now }
{
    let mut value: u32 = 0;
    for b in digits.as_bytes() {
        value = value * 10 + digit_value(*b);
    }
    value
}

/// The value of a decimal digit.
fn digit_value(digit: u8) -> u32
    requires { is_digit digit ≡ true }
    ensures value { result ≡ digit - 48 }
    ensures small { result < 10 }
{
    u32::from(digit - 48)
}
