//! Which observed results of a program are not among those of another.
//!
//! Results are compared by their outcomes (`specs/Outcomes.antt`). A result of the program is missing if no result of
//! the other has its outcome. What is printed are the observed parts of the missing results, with the numbers that they
//! have in the list of all.

ghost use Rattle.std.specs.Prelude.{◌≡◌, ◌+◌, ◌++◌, ◌<◌, ◌^◌, List, [], IfOk, OnOk, length, slice_index_or};
ghost use Rattle.std.specs.Prelude.{string_bytes};
ghost use Rattle.exploration.specs.local_reduction.Results.{FinalResult as ResultState};
ghost use Rattle.observed_results.specs.Lines.{observed_parts};
ghost use Rattle.observed_results.specs.Outcomes.{HasOutcomes, chosen_part, chosen_parts, comparison_lines, missing_in};
ghost use Rattle.observed_results.specs.Outcomes.{missing_lines, subject, verb, verdict_line, with_missing};

use crate::lines::push_count;
use crate::observed::ObservedWords;
use crate::outcome::outcome_of;
use crate::parts::{Parts, add_part, count_of, part_of, parts_of, push_part};
use exploration::FinalResult;
use indexmap::IndexSet;
use std::alloc::{AllocError, Global};
use std::fmt::Write;

/// The lines for the results of a program that are compared with those of another, and how many observed parts are
/// missing. These are the parts of the results whose outcomes no result of the other has. The lines are those of the
/// missing parts, numbered as in [`parts_text`](crate::parts_text), and one that says how many they are.
///
/// # Errors
///
/// [`AllocError`] if there is no memory for them.
pub fn comparison_text(
    alloc: Global,
    results: &[FinalResult],
    others: &[FinalResult],
    words: &ObservedWords,
) -> Result<(String, usize), AllocError>
    ensures lines { IfOk result (λ done. string_bytes done.0 ≡ comparison_lines words.now others.now results.now) }
    ensures missing { IfOk result (λ done. done.1
        ≡ length (observed_parts words.now (missing_in words.now others.now results.now))) }
{
    let missing = missing_parts(alloc, results, others, words)?;
    let count = count_of(alloc, others, Some(words))?;
    let parts = parts_of(alloc, results, words)?;
    let text = missing_text(alloc, &parts, &missing, count)?;
    Ok((text, missing.count()))
}

/// The different observed parts of the results whose outcomes none of the others has.
fn missing_parts(
    alloc: Global,
    results: &[FinalResult],
    others: &[FinalResult],
    words: &ObservedWords,
) -> Result<Parts, AllocError>
    ensures { IfOk result (λ missing. missing.texts
        ≡ observed_parts words.now (missing_in words.now others.now results.now)) }
{
    let known = outcomes_of(alloc, others, words)?;
    let missing = parts_without(alloc, results, &known, words)?;
    Ok(missing)
}

/// The set of the outcomes of results.
fn outcomes_of(
    alloc: Global,
    results: &[FinalResult],
    words: &ObservedWords,
) -> Result<IndexSet<String>, AllocError>
    ensures { IfOk result (λ known. HasOutcomes words.now results.now known) }
{
    let mut known = IndexSet::new(alloc);
    for last in results {
        let text = outcome_of(alloc, last, words)?;
        known.insert(text)?;
    }
    Ok(known)
}

/// The different observed parts of the results whose outcomes are not known.
fn parts_without(
    alloc: Global,
    results: &[FinalResult],
    known: &IndexSet<String>,
    words: &ObservedWords,
) -> Result<Parts, AllocError>
    ensures { IfOk result (λ missing. (others : List ResultState) → HasOutcomes words.now others known.now
        → missing.texts ≡ observed_parts words.now (missing_in words.now others results.now)) }
{
    let mut missing = Parts::new(alloc);
    for (place, last) in results.iter().enumerate() {
        add_if_missing(alloc, &mut missing, known, last, place, words)?;
    }
    Ok(missing)
}

/// Adds the part of the result at a place, unless its outcome is known.
fn add_if_missing(
    alloc: Global,
    missing: &mut Parts,
    known: &IndexSet<String>,
    last: &FinalResult,
    place: usize,
    words: &ObservedWords,
) -> Result<(), AllocError>
    ensures { OnOk result ((others : List ResultState) → HasOutcomes words.now others known.now
        → missing.new.texts ≡ with_missing words.now others missing.old.texts last.now) }
{
    let outcome = outcome_of(alloc, last, words)?;
    if known.contains(&outcome) {
        return Ok(());
    }
    let text = part_of(alloc, last, words)?;
    add_part(missing, text, place)?;
    Ok(())
}

/// The lines of the parts that are missing, numbered as in the list of all parts, and one that says how many they are.
/// The others have `others` parts.
fn missing_text(
    alloc: Global,
    parts: &Parts,
    missing: &Parts,
    others: usize,
) -> Result<String, AllocError>
    ensures { IfOk result (λ text. string_bytes text ≡ missing_lines parts.now.texts missing.now.texts others) }
{
    let mut text = String::new(alloc);
    push_chosen_parts(&mut text, parts, missing)?;
    push_verdict(&mut text, missing.count(), parts.count(), others)?;
    Ok(text)
}

/// Appends the lines of the parts that are chosen.
pub(crate) fn push_chosen_parts(
    text: &mut String,
    parts: &Parts,
    chosen: &Parts,
) -> Result<(), AllocError>
    ensures { OnOk result (string_bytes text.new ≡ string_bytes text.old
        ++ chosen_parts parts.now.texts chosen.now.texts (length parts.now.texts)) }
{
    for place in 0..parts.count() {
        push_chosen(text, parts, chosen, place)?;
    }
    Ok(())
}

/// Appends the lines of the part at a place, if it is chosen.
fn push_chosen(
    text: &mut String,
    parts: &Parts,
    chosen: &Parts,
    place: usize,
) -> Result<(), AllocError>
    requires there { place < length parts.now.texts }
    requires room { place + 1 < 2 ^ 64 }
    ensures { OnOk result (string_bytes text.new ≡ string_bytes text.old
        ++ chosen_part chosen.now.texts place (slice_index_or parts.now.texts place [])) }
{
    if chosen.has_part_of(parts, place) {
        push_part(text, parts, place)?;
    }
    Ok(())
}

/// Appends the line that says how many of all parts are missing among so many others.
fn push_verdict(
    text: &mut String,
    missing: usize,
    all: usize,
    others: usize,
) -> Result<(), AllocError>
    ensures { OnOk result (string_bytes text.new ≡ string_bytes text.old ++ verdict_line missing all others) }
{
    push_subject(text, missing, all)?;
    writeln!(text, " among the {others} of SPEC")
}

/// Appends how many of all parts are missing.
fn push_subject(text: &mut String, missing: usize, all: usize) -> Result<(), AllocError>
    ensures { OnOk result (string_bytes text.new ≡ string_bytes text.old ++ subject missing all) }
{
    if missing == 0 {
        text.push_str("all ")?;
        push_count(text, all, "observed result")?;
        push_verb(text, all)
    } else {
        write!(text, "{missing} of ")?;
        push_count(text, all, "observed result")?;
        push_verb(text, missing)?;
        text.push_str(" not")
    }
}

/// Appends the verb of a sentence about so many.
fn push_verb(text: &mut String, count: usize) -> Result<(), AllocError>
    ensures { OnOk result (string_bytes text.new ≡ string_bytes text.old ++ verb count) }
{
    if count == 1 {
        text.push_str(" is")
    } else {
        text.push_str(" are")
    }
}
