//! Running a machine by the sweep.

ghost use Rattle.std.specs.Prelude.{◌≡◌, ◌≤◌, ◌<◌, ◌+◌, ◌*◌, ◌^◌, ◌↔◌, ◌⊎◌, Err, IfOk, OnErr, OnOk, length, true};
ghost use Rattle.std.specs.Prelude.{false};
ghost use Rattle.trace_file.specs.Traces.{HaveRecords};
ghost use Rattle.machine_steps.specs.Draining.{drain_bound};
ghost use Rattle.machine_steps.specs.Standing.{HasRunning};
ghost use Rattle.schedules.specs.Rounds.{round};
ghost use Rattle.schedules.specs.Sweeps.{HasFollowed, HasGone, HasGoneRow, HasGoneRows, IsFault, IsStop, IsSwept};
ghost use Rattle.schedules.specs.Sweeps.{WasAskedRound, most_of};
ghost use Rattle.schedules.specs.Takers.{EachGoesOn, HasLog};

use crate::row::{Downs, Row, Services, Turns, Ups};
use crate::taker::StepTaker;
use flat_machine::Cause;
use machine_log::{LockRefusal, Logged, ReservedLog};
use machine_steps::{Machine, any_runs};
use steps::Outcome;

/// The largest budget: the most steps that a sweep enters. The log of a new machine has room for them and for those of
/// a drain.
pub const MAX_BUDGET: u32 = 4_000_000;

/// Why a sweep ended.
#[derive(Clone, Copy, Debug, PartialEq, Eq, Drop)]
pub enum SweepEnd {
    /// A fault stopped a processor, or no processor runs.
    Over,
    /// The budget is used up. A processor still runs, and no fault has stopped one.
    Budget,
}

/// Follows the sweep from the beginning of a round, until a fault stops a processor, no processor runs, or the budget,
/// [`MAX_BUDGET`] at most, is used up. Then it takes steps until no reference is open, as [`Logged::drain`] does. It
/// reserves room for all these steps first.
///
/// # Errors
///
/// [`LockRefusal::Full`] if that many steps could take the log past [`steps::MAX_STEPS`]; otherwise
/// [`LockRefusal::Memory`] if out of memory. Either error changes nothing.
pub fn follow_sweep(log: &mut Logged, budget: u32) -> Result<SweepEnd, LockRefusal>
    ensures swept { IfOk result (λ end. IsSwept (most_of budget) log.old end log.new) }
    ensures records { OnOk result (HaveRecords log.old.machine.config.k log.old.steps →
        HaveRecords log.new.machine.config.k log.new.steps) }
    ensures full { (result ≡ Err LockRefusal.Full)
        ↔ (4194304 < length log.old.steps + (most_of budget + drain_bound log.old.machine.config)) }
    ensures named { result ≡ Err LockRefusal.Unnamed → ⊥ }
    ensures not_free { result ≡ Err LockRefusal.NotFree → ⊥ }
    ensures refused { OnErr result (log.new ≡ log.old) }
{
    let most = budget.min(MAX_BUDGET);
    let room = most_steps(log.machine(), most);
    Ok(sweep(log.room(room)?, most))
}

/// The most steps that a sweep of at most `most` steps and its drain enter.
pub fn most_steps(machine: &Machine, most: u32) -> u32
    requires { most ≤ 4000000 }
    ensures { result ≡ most + drain_bound machine.now.config }
{
    machine_steps::laws::machine_is_well_formed(machine);
    most + machine.drain_bound()
}

/// Follows the sweep for at most `most` steps, and then drains the machine. The log has room for all these steps.
fn sweep(log: &mut ReservedLog, most: u32) -> SweepEnd
    requires few { most ≤ 4000000 }
    requires room { most + drain_bound log.old.log.machine.config ≤ log.old.capacity_left }
    ensures swept { IsSwept most log.old.log result log.new.log }
    ensures records { HaveRecords log.old.log.machine.config.k log.old.log.steps →
        HaveRecords log.new.log.machine.config.k log.new.log.steps }
{
    machine_log::laws::reserved_log_is_well_formed(log);
    let limit = log.steps().len() + most as usize;
    let end = follow(log, limit);
    log.drain();
    machine_log::laws::reserved_log_is_well_formed(log);
    end
}

/// Follows the sweep from the beginning of a round, until a fault stops a processor, no processor runs, or `limit`
/// steps are taken.
pub fn follow<T: StepTaker>(taker: &mut T, limit: usize) -> SweepEnd
    requires log { HasLog T.is_log taker.old }
    requires few { T.count taker.old ≤ limit }
    requires room { limit ≤ T.most taker.old }
    ensures followed { EachGoesOn T.is_log taker.old taker.new (λ old new. HasFollowed limit old result new) }
    ensures config { (T.machine taker.new).config ≡ (T.machine taker.old).config }
    ensures most { T.most taker.new ≡ T.most taker.old }
{
    if !any_runs(taker.machine()) {
        return SweepEnd::Over;
    }
    // While the sweep is not over, each round takes at least one step.
    while taker.count() < limit {
        if take_round(taker, limit) {
            return SweepEnd::Over;
        }
    }
    SweepEnd::Budget
}

/// Takes a round of the sweep, up to the step after which the sweep is over or `limit` steps are taken. Returns whether
/// the sweep is over.
fn take_round<T: StepTaker>(taker: &mut T, limit: usize) -> bool
    requires few { T.count taker.old < limit }
    requires room { limit ≤ T.most taker.old }
    requires running { HasRunning (T.machine taker.old) }
    ensures round { EachGoesOn T.is_log taker.old taker.new (λ old new. WasAskedRound limit old result new) }
    ensures config { (T.machine taker.new).config ≡ (T.machine taker.old).config }
    ensures most { T.most taker.new ≡ T.most taker.old }
{
    let machine = taker.machine();
    machine_steps::laws::machine_is_well_formed(machine);
    match take_rows(taker, limit) {
        Some(is_over) => is_over,
        None => false,
    }
}

/// Goes through all rows of a round, as [`take_row`] does through one.
fn take_rows<T: StepTaker>(taker: &mut T, limit: usize) -> Option<bool>
    requires room { limit ≤ T.most taker.old }
    ensures gone { EachGoesOn T.is_log taker.old taker.new
        (λ old new. HasGone limit 0 (length (round old.machine.config.k)) old result new) }
    ensures config { (T.machine taker.new).config ≡ (T.machine taker.old).config }
    ensures most { T.most taker.new ≡ T.most taker.old }
{
    let machine = taker.machine();
    machine_steps::laws::machine_is_well_formed(machine);
    if let Some(is_over) = take_row(taker, limit, &Turns) {
        return Some(is_over);
    }
    if let Some(is_over) = take_ups(taker, limit) {
        return Some(is_over);
    }
    if let Some(is_over) = take_row(taker, limit, &Services) {
        return Some(is_over);
    }
    take_downs(taker, limit)
}

/// Goes through the rows of a round in which requests move up.
fn take_ups<T: StepTaker>(taker: &mut T, limit: usize) -> Option<bool>
    requires room { limit ≤ T.most taker.old }
    ensures gone { EachGoesOn T.is_log taker.old taker.new
        (λ old new. HasGoneRows limit 1 (old.machine.config.k + 1) old result new) }
    ensures config { (T.machine taker.new).config ≡ (T.machine taker.old).config }
    ensures most { T.most taker.new ≡ T.most taker.old }
{
    let machine = taker.machine();
    machine_steps::laws::machine_is_well_formed(machine);
    let stages = machine.config().k;
    for passed in 0..stages {
        let row = Ups {
            stage: stages - 1 - passed,
        };
        if let Some(is_over) = take_row(taker, limit, &row) {
            return Some(is_over);
        }
    }
    None
}

/// Goes through the rows of a round in which replies move down.
fn take_downs<T: StepTaker>(taker: &mut T, limit: usize) -> Option<bool>
    requires room { limit ≤ T.most taker.old }
    ensures gone { EachGoesOn T.is_log taker.old taker.new
        (λ old new. HasGoneRows limit (old.machine.config.k + 2) (2 * old.machine.config.k + 2) old result new) }
    ensures config { (T.machine taker.new).config ≡ (T.machine taker.old).config }
    ensures most { T.most taker.new ≡ T.most taker.old }
{
    let machine = taker.machine();
    machine_steps::laws::machine_is_well_formed(machine);
    let stages = machine.config().k;
    for stage in 0..stages {
        if let Some(is_over) = take_row(taker, limit, &Downs { stage }) {
            return Some(is_over);
        }
    }
    None
}

/// Asks for the steps of a row that may do something, one after another. If the round ends among them, returns whether
/// the sweep is over; if it is not, `limit` steps are taken.
// Inlined for each kind of row, so that the compiler knows what a step of that kind may do and answer.
#[inline(always)]
fn take_row<T: StepTaker, R: Row>(taker: &mut T, limit: usize, row: &R) -> Option<bool>
    requires there { R.is_there row.now (T.machine taker.old).config.k }
    requires room { limit ≤ T.most taker.old }
    ensures gone { EachGoesOn T.is_log taker.old taker.new
        (λ old new. HasGoneRow limit (R.number row.now old.machine.config.k) old result new) }
    ensures config { (T.machine taker.new).config ≡ (T.machine taker.old).config }
    ensures most { T.most taker.new ≡ T.most taker.old }
{
    let machine = taker.machine();
    machine_steps::laws::machine_is_well_formed(machine);
    let mut wire = 0;
    while taker.count() < limit {
        let next = row.first(taker.machine(), wire)?;
        let outcome = taker.step(row.step(next));
        if is_over(&outcome, taker.machine()) {
            return Some(true);
        }
        wire = next + 1;
    }
    Some(false)
}

/// Returns whether a sweep is over after a step with this outcome that left this machine.
pub fn is_over(outcome: &Outcome, machine: &Machine) -> bool
    ensures over { result ≡ true → IsFault outcome.now ⊎ (HasRunning machine.now → ⊥) }
    ensures not { result ≡ false → (IsFault outcome.now → ⊥) × ((IsStop outcome.now → ⊥) ⊎ HasRunning machine.now) }
{
    match outcome {
        Outcome::Stopped(Cause::Fault(_)) => true,
        Outcome::Stopped(Cause::Halt(_)) => !any_runs(machine),
        _ => false,
    }
}
