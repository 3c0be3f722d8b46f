//! Entries of a run: processors and pokes.

/// The register number by which a poke names `pc`.
pub const PC: u8 = 32;

/// A write from outside, as a debugger makes it.
#[derive(Clone, Copy, Debug, PartialEq, Eq, Drop)]
pub enum Poke {
    /// Register 1 to 31 of a processor, or its `pc` as register 32. A value for `pc` must be
    /// divisible by 4.
    Register {
        processor: u8,
        register: u8,
        value: u32,
    },
    /// A byte of a processor's local memory.
    Local {
        processor: u8,
        address: u32,
        value: u8,
    },
    /// A byte of shared memory.
    Shared {
        address: u32,
        value: u8,
    },
}

/// An entry of a serial order: a processor that takes one whole instruction, or a poke.
#[derive(Clone, Copy, Debug, PartialEq, Eq, Drop)]
pub enum Entry {
    Processor(u8),
    Poke(Poke),
}
