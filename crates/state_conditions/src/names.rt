//! Names of addresses and of shared words.

ghost use Rattle.std.specs.Prelude.{◌≡◌, option_and_then};
ghost use Rattle.state_conditions.specs.Texts.{address_at, address_in, named_address, shared_word_at, sum_of};
ghost use Rattle.state_conditions.specs.Texts.{word_number};

use crate::number::number_in;
use flat_machine::SHARED_START;
use symbol_table::SymbolTable;

/// The address that a text spells, or the address of the name that it is.
pub(crate) fn address_at(text: &str, names: &Option<SymbolTable<'_>>) -> Option<u32>
    ensures { result ≡ address_at names.now text.now }
{
    number_in(text).or(named_address(text, names))
}

/// The number of a shared word that a text spells, or that of the word which has the name that it is.
pub(crate) fn word_number(text: &str, names: &Option<SymbolTable<'_>>) -> Option<u32>
    ensures { result ≡ word_number names.now text.now }
{
    number_in(text).or(named_word(text, names))
}

/// The number of the shared word at the address of a name.
fn named_word(text: &str, names: &Option<SymbolTable<'_>>) -> Option<u32>
    ensures { result ≡ option_and_then shared_word_at (named_address names.now text.now) }
{
    let address = named_address(text, names)?;
    shared_word_at(address)
}

/// The number of the shared word at an address.
fn shared_word_at(address: u32) -> Option<u32>
    ensures { result ≡ shared_word_at address }
{
    if SHARED_START <= address && address % 4 == 0 {
        Some((address - SHARED_START) / 4)
    } else {
        None
    }
}

/// The address of a name, or of a name and a number of bytes after it, with a plus between them.
fn named_address(text: &str, names: &Option<SymbolTable<'_>>) -> Option<u32>
    ensures { result ≡ named_address names.now text.now }
{
    match text.split_once('+') {
        Some((name, distance)) => sum_of(address_in(name, names), number_in(distance)),
        None => address_in(text, names),
    }
}

/// The address of a name.
fn address_in(name: &str, names: &Option<SymbolTable<'_>>) -> Option<u32>
    ensures { result ≡ address_in names.now name.now }
{
    match names {
        Some(symbols) => symbols.address(name),
        None => None,
    }
}

/// The sum of an address and a distance, if there are both, and it is below 2^32.
fn sum_of(address: Option<u32>, distance: Option<u32>) -> Option<u32>
    ensures { result ≡ sum_of address distance }
{
    let address = address?;
    let distance = distance?;
    let sum = u64::from(address) + u64::from(distance);
    if sum < 0x1_0000_0000 {
        Some(sum as u32)
    } else {
        None
    }
}
