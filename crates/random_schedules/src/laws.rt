//! Laws of random schedules, each the contract of a function that does nothing.

ghost use Rattle.random_schedules.specs.Laws.{EpochsAreFair};

/// In an epoch each processor has the same number of turns: 16, 64, 256 or 1024, by the number of the run.
pub fn epochs_are_fair()
    ensures { EpochsAreFair }
{}
