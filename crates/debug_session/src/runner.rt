//! Runners of a machine.

ghost use Rattle.std.specs.Prelude.{◌≡◌, ◌↔◌, ℕ, Err, OnErr, OnOk};
ghost use Rattle.machine_steps.specs.Machines.{IsIdle};
ghost use Rattle.debug_session.specs.Runs.{HasDriven, RunSpec};

use debug_replies::Breaks;
use machine_log::{LockRefusal, Logged};

/// Executes a debugger's command to go on.
pub trait Runner {
    /// What the runner does with a budget: which logs lack room for it, and how far it goes with which breaks.
    ghost spec: { (budget : ℕ) → RunSpec };

    /// Takes steps of a machine in which no reference is open, up to a break or as many as the budget allows, and then
    /// steps until no reference is open again. The runner chooses the steps and where they end. None of them is a poke,
    /// and the log appends them to its own.
    ///
    /// # Errors
    ///
    /// [`LockRefusal::Full`] exactly if the log has no room for the steps, else [`LockRefusal::Memory`] if there is no
    /// memory for them. Either leaves the log unchanged.
    fn run(&mut self, log: &mut Logged, breaks: &Breaks, budget: u32) -> Result<(), LockRefusal>
        requires idle { IsIdle log.old.machine }
        ensures ran { OnOk result (HasDriven log.old log.new) }
        ensures runs { OnOk result ((spec budget).runs breaks.now log.old log.new) }
        ensures full { (result ≡ Err LockRefusal.Full) ↔ (spec budget).lacks_room log.old }
        ensures named { result ≡ Err LockRefusal.Unnamed → ⊥ }
        ensures not_free { result ≡ Err LockRefusal.NotFree → ⊥ }
        ensures refused { OnErr result (log.new ≡ log.old) };
}
