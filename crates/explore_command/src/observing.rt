//! The search of a machine whose results are observed by chosen words.
//!
//! A search keeps the way to the result of one number. Which result first has the wanted part is known only after the
//! search, so a second search finds the way to it.

ghost use Rattle.std.specs.Prelude.{◌≡◌, ◌≤◌, Bool, List, Some, IfErr, IfOk, OnOk, string_bytes};
ghost use Rattle.exploration.specs.Fairness.{IsFairnessOf};
ghost use Rattle.exploration.specs.state_graph.Laws.{IsTerminationOf};
ghost use Rattle.machine_steps.specs.Machines.{AreHome, IsIdle};
ghost use Rattle.machine_steps.specs.Openings.{flat_state};
ghost use Rattle.machine_steps.specs.Runs.{IsOpening};
ghost use Rattle.run_reports.specs.RunReports.{IsWorking, trace_output};
ghost use Rattle.explore_command.specs.Causes.{IsNotFound, IsNotLedTo, IsNotSearched};
ghost use Rattle.explore_command.specs.Explorations.{AreResultsOf, IsFound, IsWanted, IsWitnessed, LeadsToNumber};
ghost use Rattle.explore_command.specs.Explorations.{problem_of, search_result};
ghost use Rattle.explore_command.specs.Parts.{IsReport};
ghost use Rattle.observed_results.specs.Parts.{AreParts};
ghost use Rattle.trace_file.specs.Traces.{IsTrace, trace_of};

use crate::command::Asked;
use crate::fairness::push_fairness;
use crate::report::{Report, ReportEnd, fault_of_search, report_part};
use crate::searching::{find_results, search_of};
use crate::status::exit_status;
use command_io::Fault;
use exploration::{Explored, Search, SearchObserver};
use flat_machine::Config;
use link::LinkWrite;
use machine_log::Logged;
use machine_steps::Machine;
use observed_results::{ObservedWords, Parts, observed_text, parts_of};
use run_reports::save;
use std::alloc::Global;
use witness_traces::{Refused, has_witness, round_of, witness_on};

/// The report of the different observed parts of the results of a machine that has just opened. Writes the trace of a
/// way to the first result that has the wanted part, or of a lasso, if one is asked for.
pub(crate) fn explore_observed<T: LinkWrite, G: SearchObserver>(
    alloc: Global,
    machine: &Machine,
    config: Config,
    asked: Asked<'_>,
    words: &ObservedWords,
    trace: &mut Option<T>,
    observer: &mut G,
) -> Result<Report, Refused>
    requires opens { IsOpening config machine.now.image machine.now }
    requires words { machine.now.image.shared_words ≡ config.shared_words }
    requires works { IsWorking T.has_failed trace.old }
    ensures report { IfOk result (λ report. IsReport (Some words.now)
        (problem_of config machine.now.image asked.entry) (trace_output T.contents trace.old trace.new)
        (string_bytes report.text) report.end) }
    ensures refused { IfErr result
        (IsNotFound (Some words.now) (problem_of config machine.now.image asked.entry)
        (trace_output T.contents trace.old trace.new)) }
{
    match find_results(alloc, machine, search_of(asked, false), observer) {
        Ok(found) => report_parts(
            alloc, machine, config, asked, words, &found, trace, observer,
        ),
        Err(given_up) => Ok(report_part(alloc, Some(words), asked.filter, &given_up)?),
    }
}

/// The report of the different observed parts of all results of a machine that has just opened. Writes the trace of a
/// way to the first result that has the wanted part, or of a lasso, if one is asked for.
fn report_parts<T: LinkWrite, G: SearchObserver>(
    alloc: Global,
    machine: &Machine,
    config: Config,
    asked: Asked<'_>,
    words: &ObservedWords,
    found: &Explored,
    trace: &mut Option<T>,
    observer: &mut G,
) -> Result<Report, Refused>
    requires opens { IsOpening config machine.now.image machine.now }
    requires words { machine.now.image.shared_words ≡ config.shared_words }
    requires works { IsWorking T.has_failed trace.old }
    requires all { AreResultsOf machine.now found.now.classes.items found.now.results.items }
    requires fact { IsTerminationOf (flat_state machine.now) found.now.termination }
    requires fair { IsFairnessOf (flat_state machine.now) found.now.fairness }
    requires found { IsFound (problem_of config machine.now.image asked)
        (search_result found.now.classes.items found.now.results.items found.now.termination found.now.fairness
        found.now.states) }
    ensures report { IfOk result (λ report. IsReport (Some words.now)
        (problem_of config machine.now.image asked.entry) (trace_output T.contents trace.old trace.new)
        (string_bytes report.text) report.end) }
    ensures refused { IfErr result
        (IsNotFound (Some words.now) (problem_of config machine.now.image asked.entry)
        (trace_output T.contents trace.old trace.new)) }
{
    let results = found.results.as_slice();
    let classes = found.classes.as_slice();
    let termination = Some(found.termination);
    let parts = parts_of(alloc, results, words)?;
    let mut text = observed_text(
        alloc,
        results,
        &parts,
        words,
        asked.filter,
        classes,
        found.states,
        termination,
    )?;
    push_fairness(&mut text, asked.fair, &found.fairness)?;
    save_wanted(
        alloc, machine, config, asked, found, &parts, trace, observer,
    )?;
    let status = exit_status(results, found.termination);
    Ok(Report {
        text,
        end: ReportEnd::Complete(status),
    })
}

/// Writes the trace of a way to the first result that has the wanted part, or of a lasso, if a trace is asked for.
fn save_wanted<T: LinkWrite, G: SearchObserver>(
    alloc: Global,
    machine: &Machine,
    config: Config,
    asked: Asked<'_>,
    found: &Explored,
    parts: &Parts,
    trace: &mut Option<T>,
    observer: &mut G,
) -> Result<(), Refused>
    requires opens { IsOpening config machine.now.image machine.now }
    requires words { machine.now.image.shared_words ≡ config.shared_words }
    requires works { IsWorking T.has_failed trace.old }
    requires all { AreResultsOf machine.now found.now.classes.items found.now.results.items }
    requires fact { IsTerminationOf (flat_state machine.now) found.now.termination }
    requires fair { IsFairnessOf (flat_state machine.now) found.now.fairness }
    ensures saved { OnOk result ((marks : List Bool) →
        AreParts marks found.now.results.items parts.now
        → IsWitnessed (Some marks) (problem_of config machine.now.image asked.entry)
        (search_result found.now.classes.items found.now.results.items found.now.termination found.now.fairness
        found.now.states)
        (trace_output T.contents trace.old trace.new)) }
    ensures refused { IfErr result (λ refused. (marks : List Bool) →
        AreParts marks found.now.results.items parts.now
        → IsNotFound (Some marks) (problem_of config machine.now.image asked.entry)
        (trace_output T.contents trace.old trace.new) refused) }
{
    if trace.is_none() {
        return Ok(());
    }
    let log = wanted_log(alloc, machine, config, asked, found, parts, observer)?;
    save(trace, &config, log.steps())?;
    Ok(())
}

/// The log of a way to the first result that has the wanted part, or, if no number is given, that of a lasso.
fn wanted_log<G: SearchObserver>(
    alloc: Global,
    machine: &Machine,
    config: Config,
    asked: Asked<'_>,
    found: &Explored,
    parts: &Parts,
    observer: &mut G,
) -> Result<Logged, Refused>
    requires opens { IsOpening config machine.now.image machine.now }
    requires words { machine.now.image.shared_words ≡ config.shared_words }
    requires all { AreResultsOf machine.now found.now.classes.items found.now.results.items }
    requires fact { IsTerminationOf (flat_state machine.now) found.now.termination }
    requires fair { IsFairnessOf (flat_state machine.now) found.now.fairness }
    ensures wanted { IfOk result (λ log. (marks : List Bool) →
        AreParts marks found.now.results.items parts.now
        → IsWanted (Some marks) (problem_of config machine.now.image asked.entry)
        (search_result found.now.classes.items found.now.results.items found.now.termination found.now.fairness
        found.now.states) log.steps) }
    ensures trace { IfOk result (λ log. IsTrace (trace_of config log.steps)) }
    ensures refused { IfErr result (λ refused. (marks : List Bool) →
        AreParts marks found.now.results.items parts.now
        → IsNotLedTo (Some marks) (problem_of config machine.now.image asked.entry) asked.entry.witness refused) }
{
    match asked.witness {
        Some(witness) => part_log(
            alloc, machine, config, asked, found, parts, witness, observer,
        ),
        None => round_of(alloc, machine.image(), config, &found.fairness),
    }
}

/// The log of a way to the first result that has the part of this number.
fn part_log<G: SearchObserver>(
    alloc: Global,
    machine: &Machine,
    config: Config,
    asked: Asked<'_>,
    found: &Explored,
    parts: &Parts,
    witness: u32,
    observer: &mut G,
) -> Result<Logged, Refused>
    requires opens { IsOpening config machine.now.image machine.now }
    requires words { machine.now.image.shared_words ≡ config.shared_words }
    requires all { AreResultsOf machine.now found.now.classes.items found.now.results.items }
    requires fact { IsTerminationOf (flat_state machine.now) found.now.termination }
    requires fair { IsFairnessOf (flat_state machine.now) found.now.fairness }
    ensures wanted { IfOk result (λ log. (marks : List Bool) →
        AreParts marks found.now.results.items parts.now
        → LeadsToNumber (Some marks) (problem_of config machine.now.image asked.entry) found.now.results.items witness
        log.steps) }
    ensures trace { IfOk result (λ log. IsTrace (trace_of config log.steps)) }
    ensures refused { IfErr result (λ refused. (marks : List Bool) →
        AreParts marks found.now.results.items parts.now
        → IsNotLedTo (Some marks) (problem_of config machine.now.image asked.entry) (Some witness) refused) }
{
    if !has_witness(parts.count(), found.termination, witness) {
        return Err(Refused::Unknown);
    }
    let Some(number) = parts.first_with(witness) else {
        return Err(Refused::Missed);
    };
    let way = way_to(alloc, machine, asked, number, observer)?;
    let (image, way) = (machine.image(), way.as_slice());
    witness_on(alloc, image, config, found, way, number, asked.limit)
}

/// The way to the result of this number, or for 0 to a state from which no end can be reached.
fn way_to<G: SearchObserver>(
    alloc: Global,
    machine: &Machine,
    asked: Asked<'_>,
    number: u32,
    observer: &mut G,
) -> Result<Vec<u8>, Fault>
    requires idle { IsIdle machine.now }
    requires home { AreHome machine.now }
    ensures refused { IfErr result (IsNotSearched (flat_state machine.now) asked.entry.limit) }
{
    let search = Search {
        wanted: Some(number),
        ..search_of(asked, false)
    };
    match find_results(alloc, machine, search, observer) {
        Ok(Explored { way, .. }) => Ok(way),
        Err(given_up) => Err(fault_of_search(given_up.why())),
    }
}
