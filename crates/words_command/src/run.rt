//! Running the program.

ghost use Rattle.std.specs.Prelude.{◌≡◌, ℕ, ◌<◌, ◌≤◌, ◌+◌, ◌*◌, [], length, true, false, Err, IfOk, IfErr, OnOk};
ghost use Rattle.flat_machine.specs.State.{is_running};
ghost use Rattle.machine_steps.specs.Machines.{IsIdle, IsMachine};
ghost use Rattle.machine_steps.specs.Runs.{flat_state};
ghost use Rattle.machine_steps.specs.Whole.{IsOne};
ghost use Rattle.words_command.specs.Command.{HasProcessor};
ghost use Rattle.words_command.specs.Running.{HasRunAlone, is_retired, processor_of};

use flat_machine::Status;
use machine_log::{LockRefusal, Logged, laws};
use std::alloc::AllocError;
use steps::Outcome;
use thiserror::Error;

/// The most instructions that may retire.
pub const BUDGET: u32 = 1_000_000;

/// Why a run ended before its processor stopped.
#[derive(Clone, Copy, Debug, PartialEq, Eq, Drop, Error)]
pub enum WordsEnd {
    /// [`BUDGET`] instructions have retired, and the processor still runs.
    #[error("budget")]
    Budget,
    /// There was no memory for the log.
    #[error("memory")]
    Memory,
}

/// Runs processor 0 of a machine with one processor, one whole instruction after another, until it stops. No reference
/// is open before, and none after.
///
/// # Errors
///
/// [`WordsEnd::Budget`] if [`BUDGET`] instructions have retired and the processor still runs; [`WordsEnd::Memory`] if
/// there is no memory for the log before as many have retired.
pub fn words_run(log: &mut Logged) -> Result<(), WordsEnd>
    requires fresh { log.old.steps ≡ [] }
    requires idle { IsIdle log.old.machine }
    requires one { log.old.machine.config.k ≡ 0 }
    ensures opening { log.new.opening ≡ log.old.opening }
    ensures idle { IsIdle log.new.machine }
    ensures ran { (retired : ℕ) × (retired ≤ BUDGET)
        × HasRunAlone (flat_state log.old.machine) (flat_state log.new.machine) retired }
    ensures stopped { OnOk result (is_running (processor_of log.new.machine).status ≡ false) }
    ensures budget { result ≡ Err WordsEnd.Budget →
        HasRunAlone (flat_state log.old.machine) (flat_state log.new.machine) BUDGET
        × (is_running (processor_of log.new.machine).status ≡ true) }
    ensures memory { result ≡ Err WordsEnd.Memory →
        (retired : ℕ) × (retired < BUDGET)
        × HasRunAlone (flat_state log.old.machine) (flat_state log.new.machine) retired
        × (is_running (processor_of log.new.machine).status ≡ true) }
    ensures alone { HasProcessor (flat_state log.new.machine) (processor_of log.new.machine) }
    ensures one { log.new.machine.config.k ≡ 0 }
{
    let mut retired = 0;
    while runs(log) {
        if retired == BUDGET {
            return Err(WordsEnd::Budget);
        }
        let Ok(outcome) = take_instruction(log) else {
            return Err(WordsEnd::Memory);
        };
        if !has_retired(&outcome) {
            return Ok(());
        }
        retired += 1;
    }
    Ok(())
}

/// Whether processor 0 runs.
fn runs(log: &Logged) -> bool
    requires one { log.now.machine.config.k ≡ 0 }
    ensures runs { result ≡ is_running (processor_of log.now.machine).status }
    ensures sound { IsMachine log.now.machine }
    ensures alone { HasProcessor (flat_state log.now.machine) (processor_of log.now.machine) }
{
    laws::log_is_well_formed(log);
    log.machine().status(0) == Some(Status::Running)
}

/// Whether an instruction has retired.
fn has_retired(outcome: &Outcome) -> bool
    ensures { result ≡ is_retired outcome.now }
{
    matches!(outcome, Outcome::Retired(_))
}

/// Takes one whole instruction.
fn take_instruction(log: &mut Logged) -> Result<Outcome, AllocError>
    requires idle { IsIdle log.old.machine }
    requires one { log.old.machine.config.k ≡ 0 }
    requires room { length log.old.steps + 3 ≤ 4194304 }
    ensures taken { IfOk result (λ o. IsOne log.old.machine 0 o log.new.machine) }
    ensures sound { IsMachine log.new.machine }
    ensures longer { OnOk result (length log.new.steps ≤ length log.old.steps + 3) }
    ensures opening { log.new.opening ≡ log.old.opening }
    ensures refused { IfErr result (λ e. log.new ≡ log.old) }
{
    let outcome = log.one(0);
    laws::log_is_well_formed(log);
    match outcome {
        Ok(outcome) => Ok(outcome),
        Err(LockRefusal::Memory) => Err(AllocError),
        Err(LockRefusal::Full | LockRefusal::Unnamed | LockRefusal::NotFree) => unreachable!(),
    }
}
