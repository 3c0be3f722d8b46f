//! Names for addresses, read from the symbol table of an ELF file or from a text as `nm` prints it.
//!
//! `symbols_of` in `specs/Symbols.antt` defines which symbols a file has and in which order. In `specs/Rows.antt`,
//! `place_in` says which of them names an address, and at what distance, and `address_of` which address a name has. A
//! file with a bad table is not refused: it only has fewer names. The law (`laws`): the symbols are by address, and at
//! each address in the order of the file.
//!
//! Source: System V Application Binary Interface, "Object Files" (ELF header, sections, string table, symbol table),
//! whose field names the definitions use; the manual page of GNU `nm`; the RISC-V ELF psABI for mapping symbols.
#![tactic(auto)]

mod bytes;
mod elf;
pub mod laws;
mod row;
mod table;
mod text;

pub use row::{Place, Symbol};
pub use table::SymbolTable;
