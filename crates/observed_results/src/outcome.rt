//! The outcomes of results: their observed parts without each pc.

ghost use Rattle.std.specs.Prelude.{◌≡◌, ◌++◌, length, IfOk, OnOk, string_bytes};
ghost use Rattle.observed_results.specs.Outcomes.{outcome_line, outcome_lines, outcome_of};

use crate::observed::ObservedWords;
use crate::parts::push_observed;
use command_io::{push_console, push_status};
use exploration::{FinalResult, ProcessorResult};
use std::alloc::{AllocError, Global};
use std::fmt::Write;

/// The outcome of a result: its observed part without the pc of each processor.
pub(crate) fn outcome_of(
    alloc: Global,
    last: &FinalResult,
    words: &ObservedWords,
) -> Result<String, AllocError>
    ensures { IfOk result (λ text. string_bytes text ≡ outcome_of words.now last.now) }
{
    let mut text = String::new(alloc);
    push_outcomes(alloc, &mut text, last.processors.as_slice())?;
    push_observed(alloc, &mut text, last, words)?;
    Ok(text)
}

/// Appends a line for each processor, without its pc.
fn push_outcomes(
    alloc: Global,
    text: &mut String,
    processors: &[ProcessorResult],
) -> Result<(), AllocError>
    ensures { OnOk result (string_bytes text.new ≡ string_bytes text.old
        ++ outcome_lines processors.now (length processors.now)) }
{
    for (number, processor) in processors.iter().enumerate() {
        push_outcome(alloc, text, number, processor)?;
    }
    Ok(())
}

/// Appends the line of a processor, without its pc.
#[tactic(auto, unfolding(crate::specs::Outcomes::outcome_line))]
fn push_outcome(
    alloc: Global,
    text: &mut String,
    number: usize,
    processor: &ProcessorResult,
) -> Result<(), AllocError>
    ensures { OnOk result (string_bytes text.new ≡ string_bytes text.old ++ outcome_line number processor.now) }
{
    write!(text, "processor {number} ")?;
    push_status(alloc, text, processor.status)?;
    push_console(alloc, text, processor.console.as_slice())?;
    text.push('\n')
}
