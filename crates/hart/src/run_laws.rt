//! The law of local runs: the contract of a function that does nothing.

ghost use Rattle.hart.specs.LocalRuns.{LocalRunsAreTurns};

/// The local instructions that a processor takes by itself are its next turns on the flat machine. These turns change
/// nothing else, and show what retired.
pub fn local_runs_are_turns()
    ensures turns { LocalRunsAreTurns }
{}
