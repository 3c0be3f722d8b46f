//! Names for addresses.

ghost use Rattle.std.specs.Prelude.{◌≡◌, ◌++◌, OnOk, option_and_then, option_map, string_bytes};
ghost use Rattle.line_formats.specs.Places.{place_between, place_in, place_text};

use std::alloc::AllocError;
use std::fmt::Write;

/// Names for addresses.
pub trait Places {
    ghost use Rattle.std.specs.Prelude.{ℕ, Option};
    ghost use Rattle.line_formats.specs.Places.{NamedPlace};

    /// The place of an address: a name, and how far the address is from what has the name.
    ghost place: { Self → (address : ℕ) → Option NamedPlace };

    /// The place of an address, if it has one.
    fn place(&self, address: u32) -> Option<(&str, u32)>
        ensures { option_map (λ p. (p.0.now, p.1)) result ≡ Self.place self.now address };
}

/// Appends the place of an address between brackets, if there is one.
pub(crate) fn push_place<P: Places>(
    places: &Option<P>,
    address: Option<u32>,
    before: &str,
    after: &str,
    text: &mut String,
) -> Result<(), AllocError>
    ensures { OnOk result (string_bytes text.new ≡ string_bytes text.old
        ++ place_between before.now after.now (option_and_then (place_in P.place places.now) address)) }
{
    match place_of(places, address) {
        Some((name, offset)) => {
            text.push_str(before)?;
            push_name(name, offset, text)?;
            text.push_str(after)
        }
        None => Ok(()),
    }
}

/// The place of an address, if there are an address and a table, and the table has a place for it.
fn place_of<P: Places>(places: &Option<P>, address: Option<u32>) -> Option<(&str, u32)>
    ensures { option_map (λ p. (p.0.now, p.1)) result
        ≡ option_and_then (place_in P.place places.now) address }
{
    let address = address?;
    match places {
        Some(places) => places.place(address),
        None => None,
    }
}

/// Appends a name, and the offset after it unless it is 0.
fn push_name(name: &str, offset: u32, text: &mut String) -> Result<(), AllocError>
    ensures { OnOk result (string_bytes text.new ≡ string_bytes text.old ++ place_text (name.now, offset)) }
{
    text.push_str(name)?;
    if offset == 0 {
        return Ok(());
    }
    write!(text, "+0x{offset:x}")
}
