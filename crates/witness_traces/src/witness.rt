//! Steps that lead to a result, or to a state from which no end can be reached.

ghost use Rattle.std.specs.Prelude.{◌≡◌, ◌≤◌, ◌↔◌, ◌^◌, length, IfErr, IfOk, IsErrOf, IsTrue, OnOk};
ghost use Rattle.flat_machine.specs.Limits.{IsWithinLimits};
ghost use Rattle.steps.specs.Kinds.{no_poke};
ghost use Rattle.machine_steps.specs.Machines.{AreHome};
ghost use Rattle.witness_traces.specs.Refusals.{HasWitness, IsNoWitness, IsNotTaken, IsOfSteps};
ghost use Rattle.witness_traces.specs.Witnesses.{IsEnd, IsStuck, IsWitness, target};

use crate::left::left_by;
use crate::refused::Refused;
use crate::taking::replay_on_copy;
use crate::way::log_of;
use command_io::{Fault, Tally};
use elf_image::Image;
use exploration::{Explored, FinalResult, NoProgress, Refusal, Search, Termination, explore};
use flat_machine::Config;
use machine_log::Logged;
use machine_steps::{Machine, any_runs};
use std::alloc::Global;
use steps::Step;
use trace_file::is_trace;

/// The log of a machine of this size that opens on a copy of the image and ends in the result of this number, counted
/// from 1. For 0, it ends in a state from which no end can be reached, as a second search of fewer than `limit` states
/// confirms. Its references are those of the way that the search of the machine kept.
///
/// # Errors
///
/// [`Refused::Unknown`] exactly if no result has the number, or, for 0, if an end can be reached from each state found;
/// else [`Fault::Size`] exactly if the size is out of limits, [`Refused::Missed`] if the steps lead elsewhere,
/// [`Fault::Full`] if there would be more than [`steps::MAX_STEPS`], and [`Fault::Memory`].
pub fn witness_of(
    alloc: Global,
    image: &Image,
    config: Config,
    explored: &Explored,
    number: u32,
    limit: u32,
) -> Result<Logged, Refused>
    requires words { image.now.shared_words ≡ config.shared_words }
    ensures witness { IfOk result (λ log. IsWitness config image.now
        (target explored.now.results.items number) log.steps) }
    ensures refused { IfErr result (IsNoWitness config (length explored.now.results.items) explored.now.termination
        number) }
    ensures unknown { (HasWitness (length explored.now.results.items) explored.now.termination number → ⊥)
        → IsErrOf result Refused.Unknown }
    ensures size { HasWitness (length explored.now.results.items) explored.now.termination number
        → (IsWithinLimits config → ⊥) → IsErrOf result (Refused.Fault Fault.Size) }
{
    let way = explored.way.as_slice();
    witness_on(alloc, image, config, explored, way, number, limit)
}

/// Does what [`witness_of`] does, with the references of this way.
///
/// # Errors
///
/// Those of [`witness_of`].
#[tactic(auto, using(crate::proofs::Refusing::not_taken))]
pub fn witness_on(
    alloc: Global,
    image: &Image,
    config: Config,
    explored: &Explored,
    way: &[u8],
    number: u32,
    limit: u32,
) -> Result<Logged, Refused>
    requires words { image.now.shared_words ≡ config.shared_words }
    ensures witness { IfOk result (λ log. IsWitness config image.now
        (target explored.now.results.items number) log.steps) }
    ensures refused { IfErr result (IsNoWitness config (length explored.now.results.items) explored.now.termination
        number) }
    ensures unknown { (HasWitness (length explored.now.results.items) explored.now.termination number → ⊥)
        → IsErrOf result Refused.Unknown }
    ensures size { HasWitness (length explored.now.results.items) explored.now.termination number
        → (IsWithinLimits config → ⊥) → IsErrOf result (Refused.Fault Fault.Size) }
{
    let results = explored.results.as_slice();
    if !has_witness(results.len(), explored.termination, number) {
        return Err(Refused::Unknown);
    }
    let log = log_of(alloc, image, config, way, number > 0)?;
    check(alloc, image, config, results, number, limit, log.steps())?;
    Ok(log)
}

/// Whether one of this many results has the number; for 0, whether there is a state from which no end can be reached.
pub fn has_witness(results: usize, termination: Termination, number: u32) -> bool
    ensures { IsTrue result ↔ HasWitness results termination number }
{
    match number.checked_sub(1) {
        Some(before) => (before as usize) < results,
        None => match termination {
            Termination::Deadlock { .. } => true,
            Termination::Always | Termination::Possible => false,
        },
    }
}

/// Checks that the steps are a witness.
fn check(
    alloc: Global,
    image: &Image,
    config: Config,
    results: &[FinalResult],
    number: u32,
    limit: u32,
    steps: &[Step],
) -> Result<(), Refused>
    requires words { image.now.shared_words ≡ config.shared_words }
    requires room { length steps.now ≤ 4194304 }
    ensures witness { OnOk result (IsWitness config image.now (target results.now number) steps.now) }
    ensures refused { IfErr result (IsNotTaken config) }
{
    if !is_trace(&config, steps) || !has_no_poke(steps) {
        return Err(Refused::Missed);
    }
    let (machine, tally) = replay_on_copy(alloc, image, config, steps)?;
    match number.checked_sub(1) {
        Some(before) => match results.get(before as usize) {
            Some(last) => compare(alloc, &machine, &tally, last),
            None => Err(Refused::Missed),
        },
        None => look_for_an_end(alloc, &machine, limit),
    }
}

/// Whether none of the steps is a poke.
pub(crate) fn has_no_poke(steps: &[Step]) -> bool
    ensures { result ≡ no_poke steps.now }
{
    steps.iter().all(|step| !step.is_poke())
}

/// Checks that no processor runs and the machine leaves the result. The tally says what its processors have shown.
fn compare(
    alloc: Global,
    machine: &Machine,
    tally: &Tally,
    last: &FinalResult,
) -> Result<(), Refused>
    requires home { AreHome machine.now }
    requires all { length tally.now.shown ≡ 2 ^ machine.now.config.k }
    ensures same { OnOk result (IsEnd machine.now tally.now.shown last.now) }
    ensures refused { IfErr result IsOfSteps }
{
    let left = left_by(alloc, machine, tally)?;
    if !any_runs(machine) && left.is_same(last) {
        Ok(())
    } else {
        Err(Refused::Missed)
    }
}

/// Checks that no end can be reached from a machine.
fn look_for_an_end(alloc: Global, machine: &Machine, limit: u32) -> Result<(), Refused>
    requires home { AreHome machine.now }
    ensures stuck { OnOk result (IsStuck machine.now) }
    ensures refused { IfErr result IsOfSteps }
{
    if !machine.is_idle() {
        return Err(Refused::Missed);
    }
    let search = Search {
        limit,
        exchanged: true,
        fair: false,
        wanted: None,
    };
    match explore(alloc, machine, search, &mut NoProgress) {
        Ok(found) => {
            if found.results.as_slice().is_empty() {
                Ok(())
            } else {
                Err(Refused::Missed)
            }
        }
        Err(given_up) => Err(refused_by(given_up.why())),
    }
}

/// Why no end is looked for, if the search gives up.
fn refused_by(refusal: Refusal) -> Refused
    ensures { IsOfSteps result }
{
    match refusal {
        Refusal::Memory => Refused::Fault(Fault::Memory),
        Refusal::States | Refusal::Stopped | Refusal::Alone => Refused::Missed,
    }
}
