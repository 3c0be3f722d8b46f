//! What is printed of a search, and how it has ended.

ghost use Rattle.std.specs.Prelude.{◌≡◌, ◌⊎◌, IfOk, IfErr, option_map, string_bytes};
ghost use Rattle.exploration.specs.Refusals.{why_of};
ghost use Rattle.explore_command.specs.Parts.{AreLinesOf, part_lines};
ghost use Rattle.explore_command.specs.Causes.{fault_of_search};

use command_io::Fault;
use exploration::{GivenUp, PartialResults, Refusal};
use observed_results::{ObservedWords, observed_text, parts_of, results_text};
use state_conditions::Condition;
use std::alloc::{AllocError, Global};

/// What is printed of a search.
#[derive(Drop)]
pub(crate) struct Report {
    pub text: String,
    pub end: ReportEnd,
}

/// How a search whose results are printed has ended.
#[derive(Clone, Copy, Debug, PartialEq, Eq, Drop)]
pub(crate) enum ReportEnd {
    /// All results are printed. This is the exit status.
    Complete(u8),
    /// The search has given up, which this fault reports, and the results found so far are printed.
    GivenUp(Fault),
}

/// The fault that reports why a search gives up. One that its observer stops has used up its time.
pub(crate) fn fault_of_search(refusal: Refusal) -> Fault
    ensures { result ≡ fault_of_search refusal }
{
    match refusal {
        Refusal::Memory => Fault::Memory,
        Refusal::States => Fault::States,
        Refusal::Stopped => Fault::Budget,
        Refusal::Alone => Fault::Alone,
    }
}

/// The report of a search that gives up with what it has found: its results, or their different observed parts, or
/// those of results that satisfy a condition.
///
/// # Errors
///
/// Why the search gives up, if it has nothing to report; [`Fault::Memory`] if there is no memory for the report.
pub(crate) fn report_part(
    alloc: Global,
    observed: Option<&ObservedWords>,
    filter: Option<&Condition>,
    given_up: &GivenUp,
) -> Result<Report, Fault>
    ensures lines { IfOk result (λ report. AreLinesOf (option_map (λ words. words.now) observed.entry)
        (option_map (λ condition. condition.now) filter.entry) given_up.now (string_bytes report.text)) }
    ensures end { IfOk result (λ report. report.end ≡ ReportEnd.GivenUp (fault_of_search (why_of given_up.now))) }
    ensures fault { IfErr result (λ fault. (fault ≡ Fault.Memory) ⊎ (fault ≡ fault_of_search (why_of given_up.now))) }
{
    let fault = fault_of_search(given_up.why());
    match given_up {
        GivenUp::States(found) | GivenUp::Stopped(found) => {
            let text = part_text(alloc, observed, filter, found)?;
            Ok(Report {
                text,
                end: ReportEnd::GivenUp(fault),
            })
        }
        GivenUp::Memory | GivenUp::Alone => Err(fault),
    }
}

/// The lines of the results that a search has found, or of their different observed parts.
fn part_text(
    alloc: Global,
    observed: Option<&ObservedWords>,
    filter: Option<&Condition>,
    found: &PartialResults,
) -> Result<String, AllocError>
    ensures { IfOk result (λ text. string_bytes text ≡ part_lines (option_map (λ words. words.now) observed.entry)
        (option_map (λ condition. condition.now) filter.entry) found.now.classes.items found.now.results.items
        found.now.states) }
{
    let results = found.results.as_slice();
    let classes = found.classes.as_slice();
    match observed {
        Some(words) => {
            let parts = parts_of(alloc, results, words)?;
            observed_text(
                alloc,
                results,
                &parts,
                words,
                filter,
                classes,
                found.states,
                None,
            )
        }
        None => results_text(alloc, results, classes, found.states, None),
    }
}
