//! Numbers in hex digits of either case, and the parts of a line around a space.

ghost use Rattle.std.specs.Prelude.{◌≡◌, ◌<◌, ◌≤◌, length, IfSome};
ghost use Rattle.std.specs.Option.{option_map};
ghost use Rattle.hex.specs.Hex.{hex_digit_value};
ghost use Rattle.debug_lines.specs.Numbers.{number_of, operand_of, cut_at_space};

/// The most digits of a number.
const MAX_DIGITS: usize = 8;

/// The bytes before the first space, and those after it if there is one.
pub(crate) fn cut(bytes: &[u8]) -> (&[u8], Option<&[u8]>)
    ensures word { result.0.now ≡ (cut_at_space bytes.now).0 }
    ensures rest { option_map (λ x. x.now) result.1 ≡ (cut_at_space bytes.now).1 }
    ensures shorter { IfSome result.1 (λ x. length x.now < length bytes.now) }
{
    for (i, byte) in bytes.iter().enumerate() {
        if *byte == b' ' {
            return (&bytes[..i], Some(&bytes[i + 1..]));
        }
    }
    (bytes, None)
}

/// A number, and what follows the space after it.
#[tactic(auto, unfolding(crate::specs::Numbers::operand_of))]
pub(crate) fn operand(bytes: &[u8]) -> Option<(u32, &[u8])>
    ensures value { option_map (λ x. (x.0, x.1.now)) result ≡ operand_of bytes.now }
    ensures shorter { IfSome result (λ x. length x.1.now < length bytes.now) }
{
    let (word, rest) = cut(bytes);
    let rest = rest?;
    let value = number(word)?;
    Some((value, rest))
}

/// The number read from one to eight digits.
#[tactic(auto, unfolding(crate::specs::Numbers::number_of))]
pub(crate) fn number(digits: &[u8]) -> Option<u32>
    ensures { result ≡ number_of digits.now }
{
    if digits.is_empty() || digits.len() > MAX_DIGITS {
        return None;
    }
    let mut value = 0u64;
    for byte in digits {
        let digit = digit(*byte)?;
        value = value * 16 + u64::from(digit);
    }
    Some(value as u32)
}

/// The value of a digit.
fn digit(byte: u8) -> Option<u8>
    ensures value { result ≡ hex_digit_value byte }
    ensures small { IfSome result (λ d. d < 16) }
{
    match byte {
        b'0'..=b'9' => Some(byte - b'0'),
        b'a'..=b'f' => Some(byte - b'a' + 10),
        b'A'..=b'F' => Some(byte - b'A' + 10),
        _ => None,
    }
}
