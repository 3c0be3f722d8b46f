//! What a processor's turn shows.

ghost use Rattle.std.specs.Prelude.{◌≡◌};
ghost use Rattle.flat_machine.specs.State.{status_of};

use crate::fault::Fault;
use rv_table::Insn;

/// What a processor is doing. One that has stopped never runs again.
#[derive(Clone, Copy, Debug, PartialEq, Eq, Drop)]
pub enum Status {
    Running,
    /// Halted by an environment call, with this byte.
    Halted(u8),
    /// Stopped by a fault, with `pc` at the instruction.
    Faulted(Fault),
}

/// Why a processor stopped.
#[derive(Clone, Copy, Debug, PartialEq, Eq, Drop)]
pub enum Cause {
    /// An environment call that halts, with this byte.
    Halt(u8),
    Fault(Fault),
}

impl Cause {
    /// The status of a processor that stopped for this cause.
    pub fn status(self) -> Status
        ensures { result ≡ status_of self }
    {
        match self {
            Cause::Halt(byte) => Status::Halted(byte),
            Cause::Fault(fault) => Status::Faulted(fault),
        }
    }
}

/// An instruction that retired.
#[derive(Clone, Copy, Debug, PartialEq, Eq, Drop)]
pub struct Retired {
    /// The address of the instruction.
    pub pc: u32,
    pub insn: Insn,
    /// The value written to a register other than 0, if any.
    pub result: Option<u32>,
    /// The byte given to the console, if any.
    pub out: Option<u8>,
}

/// What a turn shows: an instruction that retired, or a processor that stopped.
#[derive(Clone, Copy, Debug, PartialEq, Eq, Drop)]
pub enum Event {
    Retired(Retired),
    Stopped(Cause),
}
