//! From words to instructions, and back.
//!
//! Source: The RISC-V Instruction Set Manual, Volume I (Unprivileged ISA): "Base Instruction
//! Formats" and "Immediate Encoding Variants" for the fields, the tables of "RV32/64G Instruction
//! Set Listings" for opcodes and matches.
#![tactic(auto)]

mod decoder;
mod encoder;
mod fields;
mod operations;

pub use decoder::decode;
pub use encoder::encode;
