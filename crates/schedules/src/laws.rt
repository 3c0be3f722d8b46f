//! Laws of sweeps and their runs. Each is the contract of a function that does nothing.

ghost use Rattle.std.specs.Prelude.{◌≡◌, ℕ, Some, false, length, slice_get, true};
ghost use Rattle.flat_machine.specs.declared.config.Config.{Config};
ghost use Rattle.machine_steps.specs.elf_image.Images.{ImageContents};
ghost use Rattle.steps.specs.declared.step.Step.{Step};
ghost use Rattle.steps.specs.Kinds.{is_poke, no_poke};
ghost use Rattle.machine_steps.specs.Draining.{drain_steps};
ghost use Rattle.machine_steps.specs.Machines.{IsMachine, MachineLists};
ghost use Rattle.machine_log.specs.Logs.{Log};
ghost use Rattle.schedules.specs.Rounds.{round};
ghost use Rattle.schedules.specs.Skips.{AreQuiet};
ghost use Rattle.machine_steps.specs.Standing.{HasRunning};
ghost use Rattle.schedules.specs.Sweeps.{IsWholeRun};
ghost use Rattle.schedules.specs.declared.sweeping.SweepEnd.{SweepEnd};

pub use crate::choice_laws::choices_are_of_the_network;

/// The steps that a run enters depend only on the machine's configuration, the image and the limit of steps: runs are
/// reproducible.
pub fn runs_have_one_log()
    ensures { (c : Config) (image : ImageContents) (most : ℕ) (end other : SweepEnd) (first second : Log) →
        IsWholeRun c image most end first →
        IsWholeRun c image most other second → first.steps ≡ second.steps }
{}

/// While a processor runs, some step of a round does something.
pub fn rounds_go_on()
    ensures { (m : MachineLists) → IsMachine m → HasRunning m → AreQuiet m 0 (length (round m.config.k)) → ⊥ }
{}

/// No step of a round, and none of a drain, writes from outside.
pub fn sweeps_write_nothing()
    ensures rounds { (k place : ℕ) (s : Step) → slice_get (round k) place ≡ Some s → is_poke s ≡ false }
    ensures drains { (m : MachineLists) → no_poke (drain_steps m) ≡ true }
{}
