//! Going on by the sweep, up to a break.

ghost use Rattle.std.specs.Prelude.{◌≡◌, ◌≤◌, ◌<◌, ◌+◌, ◌↔◌, ◌⊎◌, ℕ, Err, OnErr, OnOk, IsTrue, length, true, false};
ghost use Rattle.machine_steps.specs.Draining.{drain_bound};
ghost use Rattle.machine_steps.specs.Machines.{IsIdle};
ghost use Rattle.machine_steps.specs.Standing.{HasRunning};
ghost use Rattle.machine_log.specs.Logs.{KeepsCapacity, Log};
ghost use Rattle.schedules.specs.Sweeps.{IsFault};
ghost use Rattle.debug_session.specs.Breaks.{IsAtBreak, MeetsBreak, Retires, is_noted};
ghost use Rattle.debug_session.specs.Runs.{HasDriven};
ghost use Rattle.debug_session.specs.Sweeps.{HasContinued, HasSwept, IsUnderWay, sweep_spec};

use crate::runner::Runner;
use debug_replies::Breaks;
use flat_machine::{Cause, Status};
use machine_log::{LockRefusal, Logged, ReservedLog};
use machine_steps::{Machine, any_runs};
use schedules::Round;
use steps::{Outcome, Step};

/// The maximum number of processors of a machine.
const MOST_PROCESSORS: usize = 64;

/// The runner that follows the sweep, from the beginning of a round: each processor has its turns, and each message
/// moves. It ends before a turn of a processor that runs, has no reference open, has retired an instruction since the
/// sweep began, and is at a break. So a processor that begins at a break gets past it.
#[derive(Clone, Copy, Debug, Drop)]
pub struct Sweep;

impl Runner for Sweep {
    ghost spec = { sweep_spec };

    /// Follows the sweep until a fault stops a processor, a processor is at a break, no processor runs, or the sweep
    /// has taken as many steps as the budget. Then takes steps until no reference is open. Makes room for all these
    /// steps first.
    ///
    /// # Errors
    ///
    /// [`LockRefusal::Full`] if the log could then pass [`steps::MAX_STEPS`] steps, else [`LockRefusal::Memory`] if
    /// there is no memory for them. Either leaves the log unchanged.
    fn run(&mut self, log: &mut Logged, breaks: &Breaks, budget: u32) -> Result<(), LockRefusal>
        requires idle { IsIdle log.old.machine }
        ensures ran { OnOk result (HasDriven log.old log.new) }
        ensures continued { OnOk result (HasContinued breaks.now budget log.old log.new) }
        ensures full { (result ≡ Err LockRefusal.Full)
            ↔ (4194304 < length log.old.steps + (budget + drain_bound log.old.machine.config)) }
        ensures named { result ≡ Err LockRefusal.Unnamed → ⊥ }
        ensures not_free { result ≡ Err LockRefusal.NotFree → ⊥ }
        ensures refused { OnErr result (log.new ≡ log.old) }
    {
        let room = budget.saturating_add(log.machine().drain_bound());
        sweep_and_drain(log.room(room)?, breaks, budget);
        Ok(())
    }
}

/// Follows the sweep for at most this many steps, and then drains the machine. The log has room for the steps.
fn sweep_and_drain(log: &mut ReservedLog, breaks: &Breaks, budget: u32)
    requires room { budget + drain_bound log.old.log.machine.config ≤ log.old.capacity_left }
    ensures ran { HasDriven log.old.log log.new.log }
    ensures continued { HasContinued breaks.now budget log.old.log log.new.log }
{
    machine_steps::laws::replays_are_cut();
    schedules::laws::sweeps_write_nothing();
    machine_log::laws::reserved_log_is_well_formed(log);
    let limit = log.steps().len() + budget as usize;
    follow(log, breaks, limit);
    log.drain();
    machine_log::laws::reserved_log_is_well_formed(log);
}

/// Follows the sweep until it ends, or the log has this many steps.
fn follow(log: &mut ReservedLog, breaks: &Breaks, limit: usize)
    requires few { length log.old.log.steps ≤ limit }
    requires room { limit ≤ length log.old.log.steps + log.old.capacity_left }
    ensures swept { HasSwept breaks.now limit log.old.log log.new.log }
    ensures config { log.new.log.machine.config ≡ log.old.log.machine.config }
    ensures capacity_left { KeepsCapacity log.old log.new }
{
    machine_log::laws::reserved_log_is_well_formed(log);
    let mut retired = none_retired();
    // While a processor runs, a round takes a step that does something, or ends the sweep.
    while log.steps().len() < limit {
        if !any_runs(log.machine()) {
            return;
        }
        if take_round(log, breaks, &mut retired, limit) {
            return;
        }
    }
}

/// The flags before the first step: no processor has retired an instruction.
fn none_retired() -> [bool; MOST_PROCESSORS]
    ensures { (p : ℕ) → is_noted result p ≡ false }
{
    [false; MOST_PROCESSORS]
}

/// Takes a round of the sweep, up to the end of the sweep, or until the log has `limit` steps. Returns whether the
/// sweep ends there.
fn take_round(
    log: &mut ReservedLog,
    breaks: &Breaks,
    retired: &mut [bool; MOST_PROCESSORS],
    limit: usize,
) -> bool
    requires few { length log.old.log.steps < limit }
    requires room { limit ≤ length log.old.log.steps + log.old.capacity_left }
    requires running { HasRunning log.old.log.machine }
    ensures goes_on { result ≡ false → (first : Log) → IsUnderWay breaks.now limit first retired.old log.old.log →
        IsUnderWay breaks.now limit first retired.new log.new.log }
    ensures some { result ≡ false → length log.old.log.steps < length log.new.log.steps }
    ensures over { result ≡ true → (first : Log) → IsUnderWay breaks.now limit first retired.old log.old.log →
        HasSwept breaks.now limit first log.new.log }
    ensures config { log.new.log.machine.config ≡ log.old.log.machine.config }
    ensures capacity_left { KeepsCapacity log.old log.new }
{
    schedules::laws::rounds_go_on();
    schedules::laws::sweeps_write_nothing();
    let mut round = Round::new(log.machine().config().k);
    while log.steps().len() < limit {
        let Some(step) = round.next(log.machine()) else {
            return false;
        };
        if meets_break(&step, log.machine(), breaks, retired) {
            return true;
        }
        let outcome = log.step(step);
        mark_retired(retired, &step, &outcome);
        machine_log::laws::reserved_log_is_well_formed(log);
        if is_fault(&outcome) {
            return true;
        }
    }
    false
}

/// Whether the step is a turn of a processor that is at a break.
fn meets_break(
    step: &Step,
    machine: &Machine,
    breaks: &Breaks,
    retired: &[bool; MOST_PROCESSORS],
) -> bool
    ensures { IsTrue result ↔ MeetsBreak machine.now breaks.now retired.now step.now }
{
    match step.turn_processor() {
        Some(p) => is_at_break(p, machine, breaks, retired),
        None => false,
    }
}

/// Whether a processor is at a break, given which processors have retired an instruction.
fn is_at_break(p: u8, machine: &Machine, breaks: &Breaks, retired: &[bool; MOST_PROCESSORS]) -> bool
    ensures { IsTrue result ↔ IsAtBreak machine.now breaks.now retired.now p }
{
    machine_steps::laws::machine_is_well_formed(machine);
    let Some(pc) = machine.pc(p) else {
        return false;
    };
    if !breaks.contains(pc) || !retired[usize::from(p)] {
        return false;
    }
    let (Some(Status::Running), Some(false)) = (machine.status(p), machine.is_open(p)) else {
        return false;
    };
    true
}

/// Marks the processor whose instruction the step has retired, if any.
fn mark_retired(retired: &mut [bool; MOST_PROCESSORS], step: &Step, outcome: &Outcome)
    ensures { (p : ℕ) → p < 64 → (is_noted retired.new p ≡ true)
        ↔ ((is_noted retired.old p ≡ true) ⊎ Retires step.now outcome.now p) }
{
    if let (Some(p), Outcome::Retired(_)) = (step.turn_processor(), outcome) {
        let place = usize::from(p);
        if place < MOST_PROCESSORS {
            retired[place] = true;
        }
    }
}

/// Whether a fault stopped a processor in the step with this outcome.
fn is_fault(outcome: &Outcome) -> bool
    ensures { IsTrue result ↔ IsFault outcome.now }
{
    matches!(outcome, Outcome::Stopped(Cause::Fault(_)))
}
