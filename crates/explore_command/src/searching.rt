//! The search, its lines and its witness.

ghost use Rattle.std.specs.Prelude.{◌≡◌, ◌≢◌, ◌<◌, ◌≤◌, ◌^◌, None, false, length, not, IfOk, IfErr, IsErrOf, OnOk};
ghost use Rattle.std.specs.Prelude.{string_bytes};
ghost use Rattle.flat_machine.specs.Limits.{IsWithinLimits};
ghost use Rattle.machine_steps.specs.Openings.{flat_state};
ghost use Rattle.machine_steps.specs.Machines.{AreHome, IsIdle};
ghost use Rattle.machine_steps.specs.Runs.{IsOpening};
ghost use Rattle.exploration.specs.Endings.{AreSingle};
ghost use Rattle.exploration.specs.Fairness.{IsFairnessOf};
ghost use Rattle.exploration.specs.Refusals.{HasFoundSome, why_of};
ghost use Rattle.exploration.specs.Results.{IsMachineResult};
ghost use Rattle.exploration.specs.States.{AreAllStates, IsGivenUp};
ghost use Rattle.exploration.specs.state_graph.Laws.{IsTerminationOf};
ghost use Rattle.run_reports.specs.RunReports.{IsWorking};
ghost use Rattle.explore_command.specs.Causes.{IsNotFound, IsNotSaved};
ghost use Rattle.explore_command.specs.Explorations.{AreResultsOf, IsFound, IsWanted, IsWitnessed, marks_of};
ghost use Rattle.explore_command.specs.Explorations.{problem_of, search_result};
ghost use Rattle.explore_command.specs.Parts.{IsReport};
ghost use Rattle.witness_traces.specs.Refusals.{HasWanted, IsNoneWanted};
ghost use Rattle.run_reports.specs.RunReports.{trace_output};
ghost use Rattle.trace_file.specs.Traces.{IsTrace, trace_of};

use crate::command::Asked;
use crate::fairness::push_fairness;
use crate::observing::explore_observed;
use crate::report::{Report, ReportEnd, report_part};
use crate::status::exit_status;
use command_io::{Fault, machine_of};
use elf_image::Image;
use exploration::{Explored, GivenUp, Search, SearchObserver, explore};
use flat_machine::Config;
use link::LinkWrite;
use machine_log::Logged;
use machine_steps::Machine;
use observed_results::results_text;
use run_reports::save;
use std::alloc::Global;
use witness_traces::{Refused, round_of, witness_of};

/// The report of the results. Writes the trace of a witness or a lasso, if one is asked for.
pub(crate) fn explore_image<T: LinkWrite, G: SearchObserver>(
    alloc: Global,
    image: Image,
    config: Config,
    asked: Asked<'_>,
    trace: &mut Option<T>,
    observer: &mut G,
) -> Result<Report, Refused>
    requires words { image.shared_words ≡ config.shared_words }
    requires works { IsWorking T.has_failed trace.old }
    ensures report { IfOk result (λ report. IsReport (marks_of asked.entry) (problem_of config image asked.entry)
        (trace_output T.contents trace.old trace.new) (string_bytes report.text) report.end) }
    ensures size { (IsWithinLimits config → ⊥) → IsErrOf result (Refused.Fault Fault.Size) }
    ensures refused { IfErr result
        (IsNotFound (marks_of asked.entry) (problem_of config image asked.entry)
        (trace_output T.contents trace.old trace.new)) }
{
    let machine = machine_of(alloc, image, config)?;
    explore_machine(alloc, &machine, config, asked, trace, observer)
}

/// The report of the results of a machine that has just opened, or of their different observed parts. Writes the trace
/// of a witness or a lasso, if one is asked for.
// A separate function, so that neither has many values to drop at each return.
fn explore_machine<T: LinkWrite, G: SearchObserver>(
    alloc: Global,
    machine: &Machine,
    config: Config,
    asked: Asked<'_>,
    trace: &mut Option<T>,
    observer: &mut G,
) -> Result<Report, Refused>
    requires opens { IsOpening config machine.now.image machine.now }
    requires words { machine.now.image.shared_words ≡ config.shared_words }
    requires works { IsWorking T.has_failed trace.old }
    ensures report { IfOk result (λ report. IsReport (marks_of asked.entry)
        (problem_of config machine.now.image asked.entry) (trace_output T.contents trace.old trace.new)
        (string_bytes report.text) report.end) }
    ensures refused { IfErr result
        (IsNotFound (marks_of asked.entry) (problem_of config machine.now.image asked.entry)
        (trace_output T.contents trace.old trace.new)) }
{
    match asked.observed {
        Some(words) => explore_observed(alloc, machine, config, asked, words, trace, observer),
        None => explore_all(alloc, machine, config, asked, trace, observer),
    }
}

/// The report of the results of a machine that has just opened. Writes the trace of a witness or a lasso, if one is
/// asked for.
fn explore_all<T: LinkWrite, G: SearchObserver>(
    alloc: Global,
    machine: &Machine,
    config: Config,
    asked: Asked<'_>,
    trace: &mut Option<T>,
    observer: &mut G,
) -> Result<Report, Refused>
    requires opens { IsOpening config machine.now.image machine.now }
    requires words { machine.now.image.shared_words ≡ config.shared_words }
    requires works { IsWorking T.has_failed trace.old }
    ensures report { IfOk result (λ report. IsReport None (problem_of config machine.now.image asked.entry)
        (trace_output T.contents trace.old trace.new) (string_bytes report.text) report.end) }
    ensures refused { IfErr result
        (IsNotFound None (problem_of config machine.now.image asked.entry)
        (trace_output T.contents trace.old trace.new)) }
{
    let search = search_of(asked, trace.is_some());
    match find_results(alloc, machine, search, observer) {
        Ok(found) => report_all(alloc, machine, config, asked, &found, trace),
        Err(given_up) => Ok(report_part(alloc, None, None, &given_up)?),
    }
}

/// The report of all results of a machine that has just opened. Writes the trace of a witness or a lasso, if one is
/// asked for.
fn report_all<T: LinkWrite>(
    alloc: Global,
    machine: &Machine,
    config: Config,
    asked: Asked<'_>,
    found: &Explored,
    trace: &mut Option<T>,
) -> Result<Report, Refused>
    requires opens { IsOpening config machine.now.image machine.now }
    requires words { machine.now.image.shared_words ≡ config.shared_words }
    requires works { IsWorking T.has_failed trace.old }
    requires found { IsFound (problem_of config machine.now.image asked)
        (search_result found.now.classes.items found.now.results.items found.now.termination found.now.fairness
        found.now.states) }
    ensures report { IfOk result (λ report. IsReport None (problem_of config machine.now.image asked.entry)
        (trace_output T.contents trace.old trace.new) (string_bytes report.text) report.end) }
    ensures refused { IfErr result
        (IsNotFound None (problem_of config machine.now.image asked.entry)
        (trace_output T.contents trace.old trace.new)) }
{
    let results = found.results.as_slice();
    let classes = found.classes.as_slice();
    let termination = Some(found.termination);
    let mut text = results_text(alloc, results, classes, found.states, termination)?;
    push_fairness(&mut text, asked.fair, &found.fairness)?;
    save_witness(alloc, machine.image(), config, found, asked, trace)?;
    let status = exit_status(results, found.termination);
    Ok(Report {
        text,
        end: ReportEnd::Complete(status),
    })
}

/// The search that is asked for, with or without the path of a witness.
pub(crate) fn search_of(asked: Asked<'_>, is_wanted: bool) -> Search
    ensures exchanged { result.exchanged ≡ not asked.entry.each }
    ensures limit { result.limit ≡ asked.entry.limit }
{
    Search {
        limit: asked.limit,
        exchanged: !asked.each,
        fair: asked.fair,
        wanted: if is_wanted { asked.witness } else { None },
    }
}

/// The results of a machine that has just opened.
pub(crate) fn find_results<G: SearchObserver>(
    alloc: Global,
    machine: &Machine,
    search: Search,
    observer: &mut G,
) -> Result<Explored, GivenUp>
    requires idle { IsIdle machine.now }
    requires home { AreHome machine.now }
    ensures results { IfOk result (λ found. AreResultsOf machine.now found.classes.items found.results.items) }
    ensures single { IfOk result (λ found. search.exchanged ≡ false →
        AreSingle (2 ^ machine.now.config.k) found.classes.items) }
    ensures termination { IfOk result (λ found. IsTerminationOf (flat_state machine.now) found.termination) }
    ensures fairness { IfOk result (λ found. IsFairnessOf (flat_state machine.now) found.fairness) }
    ensures states { IfOk result (λ found. AreAllStates (flat_state machine.now) found.classes.items found.results.items
        found.termination found.states) }
    ensures few { IfOk result (λ found. found.states < search.limit) }
    ensures given_up { IfErr result (λ g. IsGivenUp (flat_state machine.now) search.limit (why_of g)) }
    ensures so_far { IfErr result (HasFoundSome (IsMachineResult machine.now) (flat_state machine.now)) }
{
    let found = explore(alloc, machine, search, observer);
    observer.over();
    match found {
        Ok(found) => Ok(found),
        Err(given_up) => Err(given_up),
    }
}

/// Writes the trace of a witness or a lasso, if a trace is asked for.
fn save_witness<T: LinkWrite>(
    alloc: Global,
    image: &Image,
    config: Config,
    found: &Explored,
    asked: Asked<'_>,
    trace: &mut Option<T>,
) -> Result<(), Refused>
    requires words { image.now.shared_words ≡ config.shared_words }
    requires works { IsWorking T.has_failed trace.old }
    ensures saved { OnOk result (IsWitnessed None (problem_of config image.now asked.entry)
        (search_result found.now.classes.items found.now.results.items found.now.termination found.now.fairness
        found.now.states)
        (trace_output T.contents trace.old trace.new)) }
    ensures refused { IfErr result (IsNotSaved None (problem_of config image.now asked.entry)
        (search_result found.now.classes.items found.now.results.items found.now.termination found.now.fairness
        found.now.states)
        (trace_output T.contents trace.old trace.new)) }
    ensures unknown { trace.old ≢ None
        → (HasWanted (length found.now.results.items) found.now.termination found.now.fairness asked.entry.witness → ⊥)
        → IsErrOf result Refused.Unknown }
{
    if trace.is_none() {
        return Ok(());
    }
    let log = wanted_log(alloc, image, config, found, asked)?;
    save(trace, &config, log.steps())?;
    Ok(())
}

/// The log of a witness, or, if no number is given, that of a lasso.
fn wanted_log(
    alloc: Global,
    image: &Image,
    config: Config,
    found: &Explored,
    asked: Asked<'_>,
) -> Result<Logged, Refused>
    requires words { image.now.shared_words ≡ config.shared_words }
    ensures wanted { IfOk result (λ log. IsWanted None (problem_of config image.now asked.entry)
        (search_result found.now.classes.items found.now.results.items found.now.termination found.now.fairness
        found.now.states) log.steps) }
    ensures trace { IfOk result (λ log. IsTrace (trace_of config log.steps)) }
    ensures refused { IfErr result (IsNoneWanted config (length found.now.results.items) found.now.termination
        found.now.fairness asked.entry.witness) }
    ensures unknown { (HasWanted (length found.now.results.items) found.now.termination found.now.fairness
        asked.entry.witness → ⊥) → IsErrOf result Refused.Unknown }
{
    match asked.witness {
        Some(number) => witness_of(alloc, image, config, found, number, asked.limit),
        None => round_of(alloc, image, config, &found.fairness),
    }
}
