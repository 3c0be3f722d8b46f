//! Reads a line of assembler text as a statement, and translates the words of the language in both directions.
//!
//! The language is this project's own: the mnemonics and register names of the RISC-V manual, six directives, labels,
//! decimal and hex numbers, `%hi` and `%lo`. `line_of` in `specs/Statements.antt` defines what a line says, and
//! `text_of` in `specs/Written.antt` how an instruction is written, which is then read back (`written_again`).
//! `specs/Alike.antt` defines which texts say the same.
#![tactic(auto)]

mod directive;
mod fault;
mod instruction;
pub mod laws;
mod line;
mod mnemonic;
mod number;
mod operand;
mod register;
mod statement;
mod text;

pub use directive::Directive;
pub use fault::{LineError, LineFault};
pub use line::read_line;
pub use mnemonic::{Mnemonic, Order};
pub use number::{low_bits, number_within};
pub use operand::is_name;
pub use register::{register as register_named, x_name};
pub use statement::{Instruction, Line, Section, Statement, Value};
pub use text::{cut_last, parts_at, trim};
