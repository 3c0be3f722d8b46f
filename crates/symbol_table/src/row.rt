//! A symbol, its name, and the place of an address from it on.

ghost use Rattle.std.specs.Prelude.{◌≡◌, ◌++◌, ◌≤◌, OnOk, option_to_list};
ghost use Rattle.std.specs.Option.{option_map};
ghost use Rattle.symbol_table.specs.Names.{is_internal, is_name, is_printable, name_of};
ghost use Rattle.symbol_table.specs.Rows.{place_at, named_place, row_of};

use std::alloc::AllocError;

/// The place of an address among symbols.
#[derive(Clone, Copy, Debug, PartialEq, Eq, Drop)]
pub struct Place<'a> {
    /// The name of the symbol.
    pub name: &'a str,
    /// How far the address is from the symbol's.
    pub offset: u32,
}

/// A symbol of a file.
#[derive(Clone, Copy, Debug, Drop)]
pub struct Symbol<'a> {
    pub address: u32,
    /// How many bytes it has, or 0 if that is not known.
    pub size: u32,
    pub name: &'a str,
}

impl<'a> Symbol<'a> {
    /// The place of an address that is not below the symbol's. `None` if it is past the symbol's end.
    pub fn place(&self, address: u32) -> Option<Place<'a>>
        requires { self.now.address ≤ address }
        ensures { option_map named_place result ≡ place_at address (row_of self.now) }
    {
        let offset = address - self.address;
        if self.size == 0 || offset < self.size {
            Some(Place {
                name: self.name,
                offset,
            })
        } else {
            None
        }
    }
}

/// Appends a symbol, if there is one.
pub fn keep<'a>(symbols: &mut Vec<Symbol<'a>>, found: Option<Symbol<'a>>) -> Result<(), AllocError>
    ensures { OnOk result (symbols.new.items ≡ symbols.old.items ++ option_to_list found.entry) }
{
    if let Some(symbol) = found {
        symbols.push(symbol)?;
    }
    Ok(())
}

/// The bytes as a name, if they are the name of a symbol that counts.
pub fn name_of(bytes: &[u8]) -> Option<&str>
    ensures { option_map (λ name. name.now) result ≡ name_of bytes.now }
{
    if !is_name(bytes) {
        return None;
    }
    match str::from_utf8(bytes) {
        Ok(name) => Some(name),
        Err(_) => None,
    }
}

/// Whether the bytes are the name of a symbol that counts.
#[tactic(auto, unfolding(crate::specs::Names::is_name))]
fn is_name(bytes: &[u8]) -> bool
    ensures { result ≡ is_name bytes.now }
{
    !bytes.is_empty() && is_printable(bytes) && !is_internal(bytes)
}

/// Whether each byte is printable ASCII, and not a blank.
fn is_printable(bytes: &[u8]) -> bool
    ensures { result ≡ is_printable bytes.now }
{
    bytes.iter().all(|byte| byte.is_ascii_graphic())
}

/// Whether the name is that of a mapping symbol or of a local label.
fn is_internal(name: &[u8]) -> bool
    ensures { result ≡ is_internal name.now }
{
    name.starts_with(b"$") || name.starts_with(b".L")
}
