//! The results that satisfy a condition.
//!
//! An observed part is printed if a result that has it satisfies the condition, which sees the whole result. It keeps
//! the number that it has in the list of all parts.

ghost use Rattle.std.specs.Prelude.{◌≡◌, ◌++◌, IfOk, OnOk, length, map, option_map, string_bytes};
ghost use Rattle.state_conditions.specs.Results.{processor_state};
ghost use Rattle.observed_results.specs.Filters.{chosen_lines, filter_line, filtered_lines, observed_lines, satisfies};
ghost use Rattle.observed_results.specs.Filters.{satisfying, with_satisfying};
ghost use Rattle.observed_results.specs.Lines.{observed_parts};
ghost use Rattle.observed_results.specs.Parts.{AreParts};

use crate::comparison::push_chosen_parts;
use crate::lines::{push_closing, push_count};
use crate::observed::ObservedWords;
use crate::parts::{Parts, add_part, part_of, parts_text};
use exploration::{FinalResult, ProcessorResult, Termination};
use state_conditions::{Condition, ProcessorState};
use std::alloc::{AllocError, Global};
use std::fmt::Write;

/// The lines of the observed parts of results: of all, or of those results that satisfy a condition. In that case a
/// line after them says how many they are. The parts are numbered as in the list of all. Then come the lines that
/// [`results_text`](crate::results_text) has after those of results.
///
/// # Errors
///
/// [`AllocError`] if there is no memory for them.
pub fn observed_text(
    alloc: Global,
    results: &[FinalResult],
    parts: &Parts,
    words: &ObservedWords,
    filter: Option<&Condition>,
    classes: &[u8],
    states: usize,
    termination: Option<Termination>,
) -> Result<String, AllocError>
    requires parts { AreParts words.now results.now parts.now }
    ensures { IfOk result (λ text. string_bytes text
        ≡ observed_lines words.now (option_map (λ c. c.now) filter.entry) results.now classes.now states termination) }
{
    match filter {
        Some(condition) => filtered_text(
            alloc,
            results,
            parts,
            words,
            condition,
            classes,
            states,
            termination,
        ),
        None => parts_text(alloc, parts, classes, states, termination),
    }
}

/// The lines of the observed parts of those results that satisfy a condition.
fn filtered_text(
    alloc: Global,
    results: &[FinalResult],
    parts: &Parts,
    words: &ObservedWords,
    condition: &Condition,
    classes: &[u8],
    states: usize,
    termination: Option<Termination>,
) -> Result<String, AllocError>
    requires parts { AreParts words.now results.now parts.now }
    ensures { IfOk result (λ text. string_bytes text
        ≡ filtered_lines words.now condition.now results.now classes.now states termination) }
{
    let chosen = satisfying_parts(alloc, results, condition, words)?;
    let mut text = chosen_text(alloc, parts, &chosen)?;
    push_closing(&mut text, parts.count(), classes, states, termination)?;
    Ok(text)
}

/// The lines of the parts that are chosen, numbered as in the list of all parts, and one that says how many they are.
fn chosen_text(alloc: Global, parts: &Parts, chosen: &Parts) -> Result<String, AllocError>
    ensures { IfOk result (λ text. string_bytes text ≡ chosen_lines parts.now.texts chosen.now.texts) }
{
    let mut text = String::new(alloc);
    push_chosen_parts(&mut text, parts, chosen)?;
    push_filter_line(&mut text, chosen.count(), parts.count())?;
    Ok(text)
}

/// Appends the line that says how many of all results are printed.
fn push_filter_line(text: &mut String, printed: usize, all: usize) -> Result<(), AllocError>
    ensures { OnOk result (string_bytes text.new ≡ string_bytes text.old ++ filter_line printed all) }
{
    write!(text, "{printed} of ")?;
    push_count(text, all, "result")?;
    if printed == 1 {
        text.push_str(" is printed\n")
    } else {
        text.push_str(" are printed\n")
    }
}

/// The different observed parts of the results that satisfy a condition.
fn satisfying_parts(
    alloc: Global,
    results: &[FinalResult],
    condition: &Condition,
    words: &ObservedWords,
) -> Result<Parts, AllocError>
    ensures { IfOk result (λ chosen. chosen.texts ≡ observed_parts words.now (satisfying condition.now results.now)) }
{
    let mut chosen = Parts::new(alloc);
    for (place, last) in results.iter().enumerate() {
        add_if_satisfying(alloc, &mut chosen, condition, last, place, words)?;
    }
    Ok(chosen)
}

/// Adds the part of the result at a place, if it satisfies a condition.
fn add_if_satisfying(
    alloc: Global,
    chosen: &mut Parts,
    condition: &Condition,
    last: &FinalResult,
    place: usize,
    words: &ObservedWords,
) -> Result<(), AllocError>
    ensures { OnOk result (chosen.new.texts ≡ with_satisfying words.now condition.now chosen.old.texts last.now) }
{
    if !satisfies(alloc, condition, last)? {
        return Ok(());
    }
    let text = part_of(alloc, last, words)?;
    add_part(chosen, text, place)?;
    Ok(())
}

/// Whether a result satisfies a condition.
fn satisfies(alloc: Global, condition: &Condition, last: &FinalResult) -> Result<bool, AllocError>
    ensures { IfOk result (λ is_so. is_so ≡ satisfies condition.now last.now) }
{
    let processors = states_of(alloc, last.processors.as_slice())?;
    Ok(condition.holds(processors.as_slice(), &last.words))
}

/// What a condition sees of processors.
fn states_of(
    alloc: Global,
    processors: &[ProcessorResult],
) -> Result<Vec<ProcessorState>, AllocError>
    ensures { IfOk result (λ states. states.items ≡ map processor_state processors.now) }
{
    let mut states = Vec::new(alloc);
    for processor in processors {
        states.push(ProcessorState {
            pc: processor.pc,
            status: processor.status,
        })?;
    }
    Ok(states)
}
