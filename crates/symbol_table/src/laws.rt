//! Laws of symbol tables: each is the contract of a function that does nothing.

ghost use Rattle.std.specs.Prelude.{◌≡◌, ℕ, List};
ghost use Rattle.std.specs.List.Sorted.{IsNonDecreasingBy};
ghost use Rattle.symbol_table.specs.Rows.{SymbolRow, rows_at};
ghost use Rattle.symbol_table.specs.Symbols.{rows_of, symbols_of};

/// The symbols of a file are by address. At each address they are those that the file has there, in its order.
pub fn symbols_are_by_address()
    ensures order { (bytes : List ℕ) → IsNonDecreasingBy (λ (row : SymbolRow). row.address) (symbols_of bytes) }
    ensures rows { (bytes : List ℕ) (address : ℕ) →
        rows_at address (symbols_of bytes) ≡ rows_at address (rows_of bytes) }
{}
