//! Reading a text, line by line.

ghost use Rattle.std.specs.Prelude.{◌≡◌, ◌<◌, ℕ, List, Err, Ok, IfErr, IfOk, OnOk, length, map};
ghost use Rattle.asm_lines.specs.Text.{parts_at};
ghost use Rattle.trace_text.specs.Lines.{IsLineFault, IsMistakeOrMemory};
ghost use Rattle.trace_text.specs.Steps.{at_line, said_after, said_from, trace_in, trace_said};
ghost use Rattle.trace_text.specs.Words.{words_of};

use crate::fault::{LineError, Mistake, TextError, TextFault};
use crate::schedule::Schedule;
use crate::size_words::sizes_of;
use crate::step_words::step_of;
use crate::words::{TooMany, cut_line, words_of};
use std::alloc::Global;

/// The trace that a text says.
///
/// # Errors
///
/// [`TextError::Mistake`] with the first mistake, or [`TextError::Memory`].
#[tactic(auto, unfolding(crate::specs::Steps::trace_in))]
pub fn trace_in(alloc: Global, text: &[u8]) -> Result<Schedule, TextError>
    ensures said { IfOk result (λ trace. trace_in text.now ≡ Ok trace) }
    ensures refused { IfErr result (IsMistakeOrMemory (trace_in text.now)) }
{
    let mut said = None;
    let line = add_lines(alloc, &mut said, text)?;
    match said {
        Some(schedule) => Ok(schedule),
        None => Err(TextError::Mistake(Mistake {
            line,
            fault: TextFault::Sizes,
        })),
    }
}

/// Adds what the lines of a text say, and returns their number.
fn add_lines(alloc: Global, said: &mut Option<Schedule>, text: &[u8]) -> Result<usize, TextError>
    ensures said { IfOk result (λ count. said_from 0 said.old (parts_at 10 text.now) ≡ trace_said count said.new) }
    ensures refused { IfErr result (IsMistakeOrMemory (said_from 0 said.old (parts_at 10 text.now))) }
{
    let mut count = 0;
    let mut rest = text;
    while let Some((line, after)) = cut_line(rest) {
        count += 1;
        add_line(alloc, said, count, line)?;
        rest = after;
    }
    count += 1;
    add_line(alloc, said, count, rest)?;
    Ok(count)
}

/// Adds what the line with this number says.
fn add_line(
    alloc: Global,
    said: &mut Option<Schedule>,
    number: usize,
    line: &[u8],
) -> Result<(), TextError>
    ensures said { OnOk result (at_line number (said_after said.old (words_of line.now)) ≡ Ok said.new) }
    ensures refused { IfErr result (IsMistakeOrMemory (at_line number (said_after said.old (words_of line.now)))) }
{
    let added = match words_of(line) {
        Ok(words) => add_words(alloc, said, words.as_slice()),
        Err(TooMany) => Err(LineError::Fault(too_many(said))),
    };
    match added {
        Ok(()) => Ok(()),
        Err(LineError::Fault(fault)) => Err(TextError::Mistake(Mistake {
            line: number,
            fault,
        })),
        Err(LineError::Memory) => Err(TextError::Memory),
    }
}

/// What is wrong with a line of too many words.
#[tactic(auto, using(crate::proofs::Counting::no_sizes, crate::proofs::Counting::no_step))]
fn too_many(said: &Option<Schedule>) -> TextFault
    ensures { (words : List (List ℕ)) → 9 < length words → said_after said.now words ≡ Err result }
{
    match said {
        None => TextFault::Sizes,
        Some(_) => TextFault::Form,
    }
}

/// Adds what the words of a line say.
fn add_words(alloc: Global, said: &mut Option<Schedule>, words: &[&[u8]]) -> Result<(), LineError>
    ensures said { OnOk result (said_after said.old (map (λ word. word.now) words.now) ≡ Ok said.new) }
    ensures refused { IfErr result (IsLineFault (said_after said.old (map (λ word. word.now) words.now))) }
{
    if words.is_empty() {
        return Ok(());
    }
    match said {
        None => {
            let config = sizes_of(words)?;
            *said = Some(Schedule::new(alloc, config));
            Ok(())
        }
        Some(schedule) => schedule.add(step_of(words)?),
    }
}
