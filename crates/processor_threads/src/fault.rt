//! Why threads end.

ghost use Rattle.std.specs.Prelude.{◌≡◌, [], ◌∷◌};
ghost use Rattle.processor_threads.specs.Faults.{fault_of, is_of_host, is_own};

use thiserror::Error;

/// Why a thread ended before its processor had stopped, and so why a run did.
#[derive(Clone, Copy, Debug, PartialEq, Eq, Drop, Error)]
pub enum RunFault {
    /// Out of memory for a step in the log, for what a pass stores, or for a loan.
    #[error("memory")]
    Memory,
    /// The log has [`steps::MAX_STEPS`] steps.
    #[error("L2")]
    Full,
    /// A core that a thread had on loan was not taken back.
    #[error("L4")]
    Loan,
    /// Out of memory for the bytes of a console.
    #[error("memory")]
    Console,
    /// A thread has used up all rounds of the budget.
    #[error("budget")]
    Budget,
    /// A thread could not be started.
    #[error("Start")]
    Start,
    /// The fault of another thread had decided how the run ends, so this one stopped before its next round.
    #[error("cancelled")]
    Cancelled,
}

impl RunFault {
    /// Whether the host, which runs the threads, is at fault, and not the run.
    fn is_of_host(self) -> bool
        ensures { result ≡ is_of_host self }
    {
        matches!(self, RunFault::Memory | RunFault::Console | RunFault::Start)
    }

    /// Whether the thread met this fault itself, and was not stopped for that of another.
    fn is_own(self) -> bool
        ensures { result ≡ is_own self }
    {
        !matches!(self, RunFault::Cancelled)
    }

    /// Whether the fault decides how the run ends, so that the other threads need not go on. Each thread has its own
    /// budget, so one that has used it up stops no other.
    pub(crate) fn ends_the_run(self) -> bool {
        !matches!(self, RunFault::Budget | RunFault::Cancelled)
    }
}

/// The fault that is reported of two. The second is of a later thread.
pub(crate) fn graver_of(first: Option<RunFault>, second: Option<RunFault>) -> Option<RunFault>
    ensures { result ≡ fault_of (first ∷ second ∷ []) }
{
    match (first, second) {
        (None, fault) | (fault, None) => fault,
        (Some(one), Some(other)) => {
            if other.is_of_host() && !one.is_of_host() || other.is_own() && !one.is_own() {
                Some(other)
            } else {
                Some(one)
            }
        }
    }
}

/// The fault that is reported after threads ended in these ways, in order.
pub(crate) fn fault_of(ends: &[Option<RunFault>]) -> Option<RunFault>
    ensures { result ≡ fault_of ends.now }
{
    let mut reported = None;
    for end in ends {
        reported = graver_of(reported, *end);
    }
    reported
}
