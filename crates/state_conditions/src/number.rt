//! Numbers and ranges in a text.

ghost use Rattle.std.specs.Prelude.{◌≡◌, ◌≤◌};
ghost use Rattle.state_conditions.specs.Texts.{address_at, number_in, numeral, range_in, range_of};

use crate::names::address_at;
use symbol_table::SymbolTable;

/// The number that a text spells, in decimal digits or in hex digits after `0x`; None if it spells none below 2^32.
pub(crate) fn number_in(text: &str) -> Option<u32>
    ensures { result ≡ number_in text.now }
{
    match text.split_once('x') {
        Some((front, digits)) => {
            if front == "0" {
                numeral(digits, 16)
            } else {
                None
            }
        }
        None => numeral(text, 10),
    }
}

/// The number that digits spell in a radix, if it is below 2^32.
fn numeral(digits: &str, radix: u32) -> Option<u32>
    requires least { 2 ≤ radix }
    requires most { radix ≤ 36 }
    ensures { result ≡ numeral radix digits.now }
{
    u32::from_str_radix(digits, radix).ok()
}

/// The first and the last address of a range; of an address alone it is both.
pub(crate) fn range_in(text: &str, names: &Option<SymbolTable<'_>>) -> Option<(u32, u32)>
    ensures { result ≡ range_in names.now text.now }
{
    match text.split_once('-') {
        Some((front, back)) => range_between(front, back, names),
        None => {
            let address = address_at(text, names)?;
            Some((address, address))
        }
    }
}

/// The range from one address to another.
fn range_between(front: &str, back: &str, names: &Option<SymbolTable<'_>>) -> Option<(u32, u32)>
    ensures { result ≡ range_of (address_at names.now front.now) (address_at names.now back.now) }
{
    range_of(address_at(front, names), address_at(back, names))
}

/// The range from one number to another, if there are both, and the second is not before the first.
fn range_of(first: Option<u32>, last: Option<u32>) -> Option<(u32, u32)>
    ensures { result ≡ range_of first last }
{
    let first = first?;
    let last = last?;
    if first <= last {
        Some((first, last))
    } else {
        None
    }
}
