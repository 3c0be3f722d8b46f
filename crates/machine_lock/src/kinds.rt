//! Kinds of outcomes.

ghost use Rattle.std.specs.Prelude.{◌≡◌};
ghost use Rattle.machine_lock.specs.Lists.{is_stop};
ghost use Rattle.machine_lock.specs.Passes.{is_waiting};
ghost use Rattle.machine_lock.specs.Rows.{counted};

use steps::Outcome;

/// Whether a turn stopped its processor.
pub fn is_stop(outcome: &Outcome) -> bool
    ensures { result ≡ is_stop outcome.now }
{
    matches!(outcome, Outcome::Stopped(_))
}

/// Whether a processor waits after its turn: the turn has begun a reference, or stalled.
pub fn is_waiting(outcome: &Outcome) -> bool
    ensures { result ≡ is_waiting outcome.now }
{
    matches!(outcome, Outcome::Issued | Outcome::Stalled)
}

/// 1 for a step that is entered, and 0 for one that stalls.
pub(crate) fn counts(outcome: &Outcome) -> u32
    ensures { result ≡ counted outcome.now }
{
    if outcome.is_stalled() { 0 } else { 1 }
}
