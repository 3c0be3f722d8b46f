//! Why a hunt prints nothing.

ghost use Rattle.std.specs.Prelude.{◌≡◌};
ghost use Rattle.command_io.specs.declared.fault.Fault.TheVariants.{Memory as NoMemory};
ghost use Rattle.hunt_command.specs.declared.refused.Refused.TheVariants.{Fault as WithFault};

use command_io::Fault;
use std::alloc::AllocError;

/// Why a hunt prints nothing.
#[derive(Clone, Copy, Debug, PartialEq, Eq, Drop)]
pub enum Refused {
    /// A fault that has a code.
    Fault(Fault),
    /// A trace exists already where that of the run with this number is to be written.
    There(u32),
}

impl From<Fault> for Refused {
    ghost from_gives = { λ e r. r ≡ WithFault e };

    fn from(fault: Fault) -> Self {
        Refused::Fault(fault)
    }
}

impl From<AllocError> for Refused {
    ghost from_gives = { λ e r. r ≡ WithFault NoMemory };

    fn from(_error: AllocError) -> Self {
        Refused::Fault(Fault::Memory)
    }
}
