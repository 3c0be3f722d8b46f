//! What an instruction does, once its registers are read.

use crate::fault::Fault;
use rv_table::{AmoOp, LoadOp, Register, StoreOp};

/// The effect of an instruction. Unless noted, `pc` advances by 4.
#[derive(Clone, Copy, Debug, PartialEq, Eq, Drop)]
pub enum Effect {
    /// The register gets the value.
    Write {
        rd: Register,
        value: u32,
    },
    /// The register gets the value, and `pc` becomes the target.
    Jump {
        rd: Register,
        value: u32,
        target: u32,
    },
    /// Nothing: a branch that is not taken, or a fence.
    Pass,
    /// The register gets what the operation reads at the address.
    Load {
        op: LoadOp,
        rd: Register,
        address: u32,
    },
    /// The low bytes of the value are written at the address.
    Store {
        op: StoreOp,
        address: u32,
        value: u32,
    },
    /// The register gets the word at the address. The operation makes a new word of that word and
    /// the value.
    Amo {
        op: AmoOp,
        rd: Register,
        address: u32,
        value: u32,
    },
    /// The byte goes to the console.
    Print {
        byte: u8,
    },
    /// The processor halts, with `pc` at the instruction.
    Halt {
        byte: u8,
    },
    /// The processor stops with the fault, with `pc` at the instruction.
    Fail {
        fault: Fault,
    },
}

/// Where a memory access goes.
#[derive(Clone, Copy, Debug, PartialEq, Eq, Drop)]
pub enum Region {
    /// To the shared word with this number, from 0.
    Shared { word: u32 },
    /// To local memory, this many bytes from its first address: 0 to 65,535.
    Local { place: u32 },
    /// To code, this many bytes from its first address: 0 to 65,535.
    Code { place: u32 },
}
