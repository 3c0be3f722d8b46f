//! The instructions of RV32IM and Zaamo, and the table of their 57 rows.
//!
//! Source: The RISC-V Instruction Set Manual, Volume I (Unprivileged ISA): chapter "RV32I Base
//! Integer Instruction Set", extensions "M" and "A" (only its `Zaamo` part), and the tables of
//! chapter "RV32/64G Instruction Set Listings".
#![tactic(auto)]

mod insn;
pub mod laws;
mod operand;
mod operation;
mod table;

pub use insn::Insn;
pub use operand::{Immediate, Register};
pub use operation::{AmoOp, BranchOp, ImmediateOp, LoadOp, RegisterOp, ShiftOp, StoreOp, UpperOp};
pub use table::{Format, Row, TABLE, row_of};
