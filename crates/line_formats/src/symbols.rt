//! Names from a symbol table.

use crate::places::Places;
use symbol_table::SymbolTable;

impl Places for SymbolTable<'_> {
    ghost use Rattle.std.specs.Prelude.{option_map};
    ghost use Rattle.symbol_table.specs.Rows.{place_in};

    ghost place = { λ table address. option_map (λ place. (place.name, place.offset)) (place_in table address) };

    fn place(&self, address: u32) -> Option<(&str, u32)> {
        match SymbolTable::place(self, address) {
            Some(place) => Some((place.name, place.offset)),
            None => None,
        }
    }
}
