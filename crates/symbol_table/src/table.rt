//! The table of symbols, and names for addresses.

ghost use Rattle.std.specs.Prelude.{◌≡◌, ◌≤◌, IfOk, IfSome, bytes_eq, find, map};
ghost use Rattle.std.specs.Option.{option_map};
ghost use Rattle.symbol_table.specs.Rows.{AreByAddress, address_of, by_address, nearest, place_in, named_place};
ghost use Rattle.symbol_table.specs.Rows.{row_of};
ghost use Rattle.symbol_table.specs.Symbols.{rows_of, symbols_of};

use crate::elf::{elf_symbols, is_elf};
use crate::row::{Place, Symbol};
use crate::text::text_symbols;
use std::alloc::{AllocError, Global};
use std::marker::Model;

/// Names for addresses: the symbols of a file, by address. Of several symbols at one address the last counts, which in
/// an ELF file is a global one.
#[derive(Debug, Drop)]
pub struct SymbolTable<'a> {
    symbols: Vec<Symbol<'a>>,
}

impl<'a> Model for SymbolTable<'a> {
    ghost use Rattle.std.specs.Prelude.{List, map};
    ghost use Rattle.symbol_table.specs.Rows.{AreByAddress, SymbolRow, row_of};

    ghost Value = { List SymbolRow };

    ghost view = { λ t. map row_of t.symbols.items };

    ghost invariant = { λ t. AreByAddress t.symbols.items };
}

impl<'a> SymbolTable<'a> {
    /// The symbols of a file: those of its symbol table if it is an ELF file, else those of its lines, which are as
    /// `nm` prints them.
    ///
    /// An ELF file is one for 32 bits, little-endian. Its symbols are the entries of its first section of type
    /// `SHT_SYMTAB`: functions, objects and labels without a type that are defined in a section. What is not in the
    /// file is missing: an entry, a section header, a name or its end.
    ///
    /// A line has the form `HEX LETTER NAME`, or `HEX HEX LETTER NAME`, as `nm -S` prints it: the address, the size,
    /// the type, which is any letter, and the name, with single blanks between them. A number has 1 to 8 or 16 hex
    /// digits and is below 2^32. Each other line, as one of an undefined symbol, is skipped.
    ///
    /// A name is printable ASCII without blanks, in an ELF file of at most 1,024 bytes. Mapping symbols (`$x`) and
    /// local labels (`.L3`) do not count.
    ///
    /// # Errors
    ///
    /// [`AllocError`] if there is no memory for the table.
    #[tactic(auto, unfolding(crate::specs::Symbols::symbols_of))]
    pub fn of_file(alloc: Global, bytes: &'a [u8]) -> Result<Self, AllocError>
        ensures symbols { IfOk result (λ table. table ≡ symbols_of bytes.now) }
    {
        let symbols = by_address(symbols_in(alloc, bytes)?)?;
        Ok(SymbolTable { symbols })
    }

    /// The symbols, by address.
    pub fn symbols(&self) -> &[Symbol<'a>]
        ensures { map row_of result.now ≡ self.now }
    {
        self.symbols.as_slice()
    }

    /// The place of an address: the name of the symbol nearest at or below it, and how far the address is from it.
    /// `None` if there is no such symbol, or if it has a size and the address is at or past its end.
    pub fn place(&self, address: u32) -> Option<Place<'a>>
        ensures { option_map named_place result ≡ place_in self.now address }
    {
        let symbol = nearest(self.symbols.as_slice(), address)?;
        symbol.place(address)
    }

    /// The address of the symbol with this name; of several, the lowest. `None` if no symbol has it.
    pub fn address(&self, name: &str) -> Option<u32>
        ensures { result ≡ address_of self.now name.now }
    {
        let symbol = first_named(self.symbols.as_slice(), name)?;
        Some(symbol.address)
    }
}

/// The symbols of a file, in its order.
fn symbols_in<'a>(alloc: Global, bytes: &'a [u8]) -> Result<Vec<Symbol<'a>>, AllocError>
    ensures { IfOk result (λ symbols. map row_of symbols.items ≡ rows_of bytes.now) }
{
    if is_elf(bytes) {
        elf_symbols(alloc, bytes)
    } else {
        text_symbols(alloc, bytes)
    }
}

/// The symbols by address. Those at one address stay in their order.
fn by_address<'a>(mut symbols: Vec<Symbol<'a>>) -> Result<Vec<Symbol<'a>>, AllocError>
    ensures rows { IfOk result (λ sorted. map row_of sorted.items ≡ by_address (map row_of symbols.entry.items)) }
    ensures order { IfOk result (λ sorted. AreByAddress sorted.items) }
{
    symbols.sort_by_key(|symbol| symbol.address)?;
    Ok(symbols)
}

/// The last symbol at or below an address.
fn nearest<'a>(symbols: &[Symbol<'a>], address: u32) -> Option<Symbol<'a>>
    requires { AreByAddress symbols.now }
    ensures row { option_map row_of result ≡ nearest (map row_of symbols.now) address }
    ensures below { IfSome result (λ symbol. symbol.address ≤ address) }
{
    let count = symbols.partition_point(|symbol| symbol.address <= address);
    symbols.split_at(count).0.last().copied()
}

/// The first symbol with this name.
fn first_named<'s, 'a>(symbols: &'s [Symbol<'a>], name: &str) -> Option<&'s Symbol<'a>>
    ensures { option_map (λ s. s.now) result ≡ find (λ s. bytes_eq s.name.now name.now) symbols.now }
{
    symbols.iter().find(|symbol| symbol.name == name)
}
