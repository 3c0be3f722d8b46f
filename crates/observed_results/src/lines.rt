//! The lines of final results.

ghost use Rattle.std.specs.Prelude.{◌≡◌, ◌+◌, ◌++◌, ◌<◌, ◌^◌, codes, length, IfOk, OnOk, string_bytes};
ghost use Rattle.std.specs.Fmt.{decimal};
ghost use Rattle.observed_results.specs.Lines.{counted, end_text, heading, processor_line, processor_lines};
ghost use Rattle.observed_results.specs.Lines.{result_lines};
ghost use Rattle.observed_results.specs.Lines.{results_lines, schedules_text, shared_lines, with_closing};

use crate::classes::push_classes;
use command_io::{push_console, push_shared_word, push_status, push_word};
use exploration::{FinalResult, ProcessorResult, Termination};
use std::alloc::{AllocError, Global};
use std::fmt::Write;

/// The lines of these results, then a line for each class of processors that can be exchanged, one with the numbers of
/// results and states found, and one that says whether schedules end, or, if this is not known, that the search is
/// incomplete.
///
/// # Errors
///
/// [`AllocError`] if there is no memory for them.
pub fn results_text(
    alloc: Global,
    results: &[FinalResult],
    classes: &[u8],
    states: usize,
    termination: Option<Termination>,
) -> Result<String, AllocError>
    ensures { IfOk result (λ text. string_bytes text ≡ results_lines results.now classes.now states termination) }
{
    let mut text = String::new(alloc);
    for (place, result) in results.iter().enumerate() {
        push_result(alloc, &mut text, place, result)?;
    }
    push_closing(&mut text, results.len(), classes, states, termination)?;
    Ok(text)
}

/// Appends the lines after those of this many results.
pub(crate) fn push_closing(
    text: &mut String,
    results: usize,
    classes: &[u8],
    states: usize,
    termination: Option<Termination>,
) -> Result<(), AllocError>
    ensures { OnOk result (string_bytes text.new
        ≡ with_closing (string_bytes text.old) results classes.now states termination) }
{
    push_classes(text, classes)?;
    push_counts(text, results, states)?;
    push_end(text, termination)?;
    text.push_str("\n")?;
    Ok(())
}

/// Appends whether schedules end, or, if this is not known, that the search is incomplete.
fn push_end(text: &mut String, termination: Option<Termination>) -> Result<(), AllocError>
    ensures { OnOk result (string_bytes text.new ≡ string_bytes text.old ++ end_text termination) }
{
    match termination {
        Some(termination) => push_schedules(text, termination),
        None => text.push_str("incomplete: there may be more results"),
    }
}

/// Appends whether schedules end.
///
/// # Errors
///
/// [`AllocError`] if there is no memory for it.
pub fn push_schedules(text: &mut String, termination: Termination) -> Result<(), AllocError>
    ensures { OnOk result (string_bytes text.new ≡ string_bytes text.old ++ schedules_text termination) }
{
    match termination {
        Termination::Always => text.push_str("every schedule ends"),
        Termination::Possible => {
            text.push_str("some schedule never ends; an end can always be reached")
        }
        Termination::Deadlock { states, .. } => {
            text.push_str("from ")?;
            push_count(text, states, "state")?;
            text.push_str(" no end can be reached")
        }
    }
}

/// Appends the line with the numbers of results and states.
fn push_counts(text: &mut String, results: usize, states: usize) -> Result<(), AllocError>
    ensures { OnOk result (string_bytes text.new
        ≡ string_bytes text.old ++ counted results (codes "result") ++ codes ", " ++ counted states (codes "state")
        ++ codes "\n") }
{
    push_count(text, results, "result")?;
    text.push_str(", ")?;
    push_count(text, states, "state")?;
    text.push('\n')
}

/// Appends a count and its noun, in the plural unless the count is 1.
///
/// # Errors
///
/// [`AllocError`] if there is no memory for them.
pub fn push_count(text: &mut String, count: usize, noun: &str) -> Result<(), AllocError>
    ensures { OnOk result (string_bytes text.new ≡ string_bytes text.old ++ counted count noun.now) }
{
    write!(text, "{count} {noun}")?;
    if count != 1 {
        text.push('s')?;
    }
    Ok(())
}

/// Appends the lines of the result at a place.
fn push_result(
    alloc: Global,
    text: &mut String,
    place: usize,
    last: &FinalResult,
) -> Result<(), AllocError>
    requires { place + 1 < 2 ^ 64 }
    ensures { OnOk result (string_bytes text.new ≡ string_bytes text.old ++ result_lines place last.now) }
{
    push_heading(text, place)?;
    push_processors(alloc, text, last.processors.as_slice())?;
    push_words(alloc, text, last)
}

/// Appends the line before those of the result at a place.
pub(crate) fn push_heading(text: &mut String, place: usize) -> Result<(), AllocError>
    requires { place + 1 < 2 ^ 64 }
    ensures { OnOk result (string_bytes text.new ≡ string_bytes text.old ++ heading place) }
{
    writeln!(text, "result {}", place + 1)
}

/// Appends a line for each processor.
pub(crate) fn push_processors(
    alloc: Global,
    text: &mut String,
    processors: &[ProcessorResult],
) -> Result<(), AllocError>
    ensures { OnOk result (string_bytes text.new ≡ string_bytes text.old
        ++ processor_lines processors.now (length processors.now)) }
{
    for (number, processor) in processors.iter().enumerate() {
        push_processor(alloc, text, number, processor)?;
    }
    Ok(())
}

/// Appends the line of a processor.
#[tactic(auto, unfolding(crate::specs::Lines::processor_line))]
fn push_processor(
    alloc: Global,
    text: &mut String,
    number: usize,
    processor: &ProcessorResult,
) -> Result<(), AllocError>
    ensures { OnOk result (string_bytes text.new ≡ string_bytes text.old ++ processor_line number processor.now) }
{
    write!(text, "processor {number} pc ")?;
    push_word(alloc, text, processor.pc)?;
    text.push(' ')?;
    push_status(alloc, text, processor.status)?;
    push_console(alloc, text, processor.console.as_slice())?;
    text.push('\n')
}

/// Appends a line for each shared word that is not zero.
fn push_words(alloc: Global, text: &mut String, last: &FinalResult) -> Result<(), AllocError>
    ensures { OnOk result (string_bytes text.new ≡ string_bytes text.old
        ++ shared_lines last.now.words (length last.now.words)) }
{
    for word in last.words.nonzero() {
        push_shared_word(alloc, text, word.place, word.value)?;
    }
    Ok(())
}
