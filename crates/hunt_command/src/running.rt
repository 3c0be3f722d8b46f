//! Running a machine by a random schedule.

ghost use Rattle.std.specs.Prelude.{◌≡◌, ◌≤◌, ◌<◌, ◌+◌, ◌↔◌, ℕ, Err, IfErr, IfOk, OnErr, OnOk, [], length, false, true};
ghost use Rattle.machine_steps.specs.Draining.{drain_bound};
ghost use Rattle.machine_steps.specs.Noting.{AreNoted};
ghost use Rattle.steps.specs.Kinds.{no_poke};
ghost use Rattle.steps.specs.Answers.{is_stalled};
ghost use Rattle.schedules.specs.Sweeps.{most_of};
ghost use Rattle.hunt_command.specs.Runs.{HasRunAtRandom, WasAsked};
ghost use Rattle.random_schedules.specs.Schedules.{schedule};
ghost use Rattle.command_io.specs.Tallies.{noted_after};
ghost use Rattle.trace_file.specs.Traces.{HaveRecords};

use crate::policy::Policy;
use command_io::{Fault, Tally};
use machine_log::{LockRefusal, Logged, ReservedLog, laws};
use machine_steps::any_runs;
use random_schedules::Schedule;
use schedules::{MAX_BUDGET, SweepEnd, is_over, most_steps};
use steps::{NoObserver, Outcome, Step, StepObserver};

/// Asks for the steps of the schedule with this number, until a fault stops a processor, no processor runs, or the
/// number of steps logged or of turns asked for reaches the budget, or [`MAX_BUDGET`] if that is smaller. Then takes
/// steps until no reference is open, as [`Logged::drain`] does. Makes room for all these steps first.
///
/// # Errors
///
/// [`LockRefusal::Full`] if the log could then pass [`steps::MAX_STEPS`] steps, else [`LockRefusal::Memory`] if there
/// is no memory for them. Either leaves the log unchanged.
pub fn random_run(log: &mut Logged, number: u32, policy: Policy) -> Result<SweepEnd, LockRefusal>
    ensures ran { IfOk result (λ end. HasRunAtRandom number policy log.old end log.new) }
    ensures records { OnOk result (HaveRecords log.old.machine.config.k log.old.steps →
        HaveRecords log.new.machine.config.k log.new.steps) }
    ensures full { (result ≡ Err LockRefusal.Full)
        ↔ (4194304 < length log.old.steps + (most_of policy.budget + drain_bound log.old.machine.config)) }
    ensures named { result ≡ Err LockRefusal.Unnamed → ⊥ }
    ensures not_free { result ≡ Err LockRefusal.NotFree → ⊥ }
    ensures refused { OnErr result (log.new ≡ log.old) }
{
    let room = most_steps(log.machine(), policy.budget.min(MAX_BUDGET));
    Ok(run(log.room(room)?, number, policy))
}

/// Asks for the steps of the schedule with this number, as [`random_run`] does, in a log that has none yet. The tally
/// notes each step logged. Does not drain the machine.
///
/// # Errors
///
/// [`Fault::Memory`].
pub(crate) fn observed_run(
    log: &mut Logged,
    number: u32,
    policy: Policy,
    tally: &mut Tally,
) -> Result<SweepEnd, Fault>
    requires none { log.old.steps ≡ [] }
    requires noting { tally.old.observed ≡ 0 }
    ensures asked { IfOk result (λ end. WasAsked
        (schedule policy.strategy log.old.machine.config.k number (most_of policy.budget))
        (length log.old.steps + most_of policy.budget) log.old end log.new) }
    ensures noted { OnOk result (AreNoted (λ t step outcome t'. t'
        ≡ noted_after t step outcome) log.old.opening log.new.steps tally.old tally.new) }
    ensures refused { IfErr result (λ fault. fault ≡ Fault.Memory) }
{
    let Ok(reserved) = log.room(policy.budget.min(MAX_BUDGET)) else {
        return Err(Fault::Memory);
    };
    match ask_by_number(reserved, number, policy, tally) {
        Ok(end) => Ok(end),
        Err(_) => Err(Fault::Memory),
    }
}

/// Runs for at most as many steps and turns as the policy says, and then drains the machine. The log has room for the
/// steps.
fn run(log: &mut ReservedLog, number: u32, policy: Policy) -> SweepEnd
    requires room { most_of policy.budget + drain_bound log.old.log.machine.config ≤ log.old.capacity_left }
    ensures ran { HasRunAtRandom number policy log.old.log result log.new.log }
    ensures records { HaveRecords log.old.log.machine.config.k log.old.log.steps →
        HaveRecords log.new.log.machine.config.k log.new.log.steps }
{
    laws::reserved_log_is_well_formed(log);
    let Ok(end) = ask_by_number(log, number, policy, &mut NoObserver);
    log.drain();
    laws::reserved_log_is_well_formed(log);
    end
}

/// Asks for at most as many steps and turns of the schedule with this number as the policy says. The observer sees each
/// step logged. The log has room for the steps.
///
/// # Errors
///
/// The refusal of the observer.
fn ask_by_number<N: StepObserver>(
    log: &mut ReservedLog,
    number: u32,
    policy: Policy,
    observer: &mut N,
) -> Result<SweepEnd, N::Refusal>
    requires room { most_of policy.budget ≤ log.old.capacity_left }
    requires noting { N.has_room observer.old (most_of policy.budget) }
    ensures asked { IfOk result (λ end. WasAsked
        (schedule policy.strategy log.old.log.machine.config.k number (most_of policy.budget))
        (length log.old.log.steps + most_of policy.budget) log.old.log end log.new.log) }
    ensures noted { OnOk result (AreNoted N.observed log.old.log.opening log.old.log.steps observer.old observer.old
        → AreNoted N.observed log.old.log.opening log.new.log.steps observer.old observer.new) }
    ensures config { log.new.log.machine.config ≡ log.old.log.machine.config }
    ensures room { length log.new.log.steps + log.new.capacity_left ≡ length log.old.log.steps + log.old.capacity_left }
{
    laws::reserved_log_is_well_formed(log);
    let most = policy.budget.min(MAX_BUDGET);
    let limit = log.steps().len() + most as usize;
    let k = log.machine().config().k;
    let mut schedule = Schedule::new(policy.strategy, k, number, most);
    ask(log, &mut schedule, limit, observer)
}

/// Asks for the steps of a schedule, until the run is over, the log has this many steps, or all have been asked for.
/// The observer sees each step logged.
///
/// # Errors
///
/// The refusal of the observer.
fn ask<N: StepObserver>(
    log: &mut ReservedLog,
    schedule: &mut Schedule,
    limit: usize,
    observer: &mut N,
) -> Result<SweepEnd, N::Refusal>
    requires own { no_poke schedule.old ≡ true }
    requires few { length log.old.log.steps ≤ limit }
    requires room { limit ≤ length log.old.log.steps + log.old.capacity_left }
    requires noting { (most : ℕ) × (limit ≡ length log.old.log.steps + most) × N.has_room observer.old most }
    ensures asked { IfOk result (λ end. WasAsked schedule.old limit log.old.log end log.new.log) }
    ensures noted { OnOk result (AreNoted N.observed log.old.log.opening log.old.log.steps observer.old observer.old
        → AreNoted N.observed log.old.log.opening log.new.log.steps observer.old observer.new) }
    ensures config { log.new.log.machine.config ≡ log.old.log.machine.config }
    ensures room { length log.new.log.steps + log.new.capacity_left ≡ length log.old.log.steps + log.old.capacity_left }
{
    laws::reserved_log_is_well_formed(log);
    if !any_runs(log.machine()) {
        return Ok(SweepEnd::Over);
    }
    while log.steps().len() < limit {
        let Some(step) = schedule.next() else {
            return Ok(SweepEnd::Budget);
        };
        let outcome = log.step(step);
        observe_unless_stalled(observer, step, &outcome)?;
        if is_over(&outcome, log.machine()) {
            return Ok(SweepEnd::Over);
        }
    }
    Ok(SweepEnd::Budget)
}

/// Shows the observer a step and its outcome, unless the step stalled.
///
/// # Errors
///
/// The refusal of the observer.
#[inline(always)]
fn observe_unless_stalled<N: StepObserver>(
    observer: &mut N,
    step: Step,
    outcome: &Outcome,
) -> Result<(), N::Refusal>
    requires room { (more : ℕ) × N.has_room observer.old (more + 1) }
    ensures noted { OnOk result (is_stalled outcome.now ≡ false →
        N.observed observer.old step outcome.now observer.new) }
    ensures room { OnOk result ((more : ℕ) → N.has_room observer.old (more + 1) → is_stalled outcome.now ≡ false →
        N.has_room observer.new more) }
    ensures stalled { OnOk result (is_stalled outcome.now ≡ true → observer.new ≡ observer.old) }
{
    if outcome.is_stalled() {
        return Ok(());
    }
    observer.observe(step, outcome)
}
