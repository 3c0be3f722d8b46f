//! Why the command fails.

ghost use Rattle.std.specs.Prelude.{◌≡◌};
ghost use Rattle.command_io.specs.declared.fault.Fault.TheVariants.{Full as NoRoom, Memory as NoMemory};
ghost use Rattle.witness_traces.specs.declared.refused.Refused.TheVariants.{Fault as WithFault};
ghost use Rattle.witness_traces.specs.Refusals.{refused_by_log};

use command_io::Fault;
use machine_log::LockRefusal;
use std::alloc::AllocError;

/// Why there is no witness, or why nothing is printed.
#[derive(Clone, Copy, Debug, PartialEq, Eq, Drop)]
pub enum Refused {
    /// A fault that has a code.
    Fault(Fault),
    /// No result has the number; or the number is 0, and an end can be reached from each state found; or there is no
    /// number, and no lasso.
    Unknown,
    /// The steps taken do not lead to what the number names, or do not follow the lasso.
    Missed,
}

impl From<Fault> for Refused {
    ghost from_gives = { λ e r. r ≡ WithFault e };

    fn from(fault: Fault) -> Self {
        Refused::Fault(fault)
    }
}

impl From<AllocError> for Refused {
    ghost from_gives = { λ e r. r ≡ WithFault NoMemory };

    fn from(_error: AllocError) -> Self {
        Refused::Fault(Fault::Memory)
    }
}

impl From<LockRefusal> for Refused {
    ghost from_gives = { λ e r. r ≡ refused_by_log e };

    fn from(refusal: LockRefusal) -> Self {
        match refusal {
            LockRefusal::Memory => Refused::Fault(Fault::Memory),
            LockRefusal::Full => Refused::Fault(Fault::Full),
            LockRefusal::Unnamed | LockRefusal::NotFree => Refused::Missed,
        }
    }
}
