//! The lines of a result.

ghost use Rattle.std.specs.Prelude.{◌≡◌, ◌<◌, ◌++◌, ◌^◌, codes, IfOk, OnOk, Some, length, option_map, slice_index_or};
ghost use Rattle.std.specs.Prelude.{string_bytes};
ghost use Rattle.std.specs.Fmt.{decimal};
ghost use Rattle.command_io.specs.Tallies.{nothing_shown};
ghost use Rattle.machine_steps.specs.Machines.{AreHome};
ghost use Rattle.machine_steps.specs.machine_theory.Processors.{word_at};
ghost use Rattle.machine_steps.specs.Standing.{processor_of};
ghost use Rattle.hunt_command.specs.Lines.{end_line, observed_lines, outcome_line, outcome_lines, pc_text, result_of};
ghost use Rattle.observed_results.specs.Lines.{observed_line};

use command_io::{Shown, Tally, push_console, push_shared_word, push_status, push_word};
use flat_machine::Status;
use machine_steps::Machine;
use observed_results::ObservedWords;
use run_reports::push_words;
use schedules::SweepEnd;
use std::alloc::{AllocError, Global};
use std::fmt::Write;

/// The result of a run: how it ended, a line for each processor, with its pc or without, and a line for each observed
/// word that is not zero; if no words are chosen, for each shared word that is not zero. The run left this machine, and
/// the tally says what the processors have shown.
///
/// # Errors
///
/// [`AllocError`] if there is no memory for it.
pub fn result_text(
    alloc: Global,
    end: SweepEnd,
    machine: &Machine,
    tally: &Tally,
    observed: Option<&ObservedWords>,
    has_pc: bool,
) -> Result<String, AllocError>
    requires home { AreHome machine.now }
    requires all { length tally.now.shown ≡ 2 ^ machine.now.config.k }
    ensures { IfOk result (λ text. string_bytes text
        ≡ result_of (option_map (λ words. words.now) observed.entry) has_pc end machine.now tally.now.shown) }
{
    let mut text = String::new(alloc);
    push_end(&mut text, end)?;
    push_outcomes(alloc, &mut text, machine, tally, has_pc)?;
    push_observed(alloc, &mut text, machine, observed)?;
    Ok(text)
}

/// Appends how a run ended.
fn push_end(text: &mut String, end: SweepEnd) -> Result<(), AllocError>
    ensures { OnOk result (string_bytes text.new ≡ string_bytes text.old ++ end_line end) }
{
    text.push_str(match end {
        SweepEnd::Over => "over\n",
        SweepEnd::Budget => "budget\n",
    })
}

/// Appends a line for each processor.
fn push_outcomes(
    alloc: Global,
    text: &mut String,
    machine: &Machine,
    tally: &Tally,
    has_pc: bool,
) -> Result<(), AllocError>
    requires home { AreHome machine.now }
    requires all { length tally.now.shown ≡ 2 ^ machine.now.config.k }
    ensures { OnOk result (string_bytes text.new ≡ string_bytes text.old
        ++ outcome_lines has_pc machine.now tally.now.shown (2 ^ machine.now.config.k)) }
{
    for p in 0..machine.config().processors() {
        push_outcome_of(alloc, text, machine, tally, has_pc, p)?;
    }
    Ok(())
}

/// Appends the line of a processor that the machine has.
#[tactic(auto, using(std::proofs::lemmas::Option::get_or_from_slice_get))]
fn push_outcome_of(
    alloc: Global,
    text: &mut String,
    machine: &Machine,
    tally: &Tally,
    has_pc: bool,
    p: u8,
) -> Result<(), AllocError>
    requires there { p < 2 ^ machine.now.config.k }
    requires home { AreHome machine.now }
    requires all { length tally.now.shown ≡ 2 ^ machine.now.config.k }
    ensures { OnOk result (string_bytes text.new ≡ string_bytes text.old
        ++ outcome_line has_pc p (processor_of machine.now p).pc (processor_of machine.now p).status
        (slice_index_or tally.now.shown p nothing_shown)) }
{
    let Some(pc) = machine.pc(p) else {
        unreachable!()
    };
    let Some(status) = machine.status(p) else {
        unreachable!()
    };
    let Some(shown) = tally.of(p) else {
        unreachable!()
    };
    push_outcome(alloc, text, has_pc, p, pc, status, shown)
}

/// Appends the line of a processor.
#[tactic(auto, unfolding(crate::specs::Lines::outcome_line))]
fn push_outcome(
    alloc: Global,
    text: &mut String,
    has_pc: bool,
    number: u8,
    pc: u32,
    status: Status,
    shown: &Shown,
) -> Result<(), AllocError>
    ensures { OnOk result (string_bytes text.new ≡ string_bytes text.old
        ++ outcome_line has_pc number pc status shown.now) }
{
    write!(text, "processor {number} ")?;
    push_pc(alloc, text, has_pc, pc)?;
    push_status(alloc, text, status)?;
    push_console(alloc, text, shown.console())?;
    text.push('\n')
}

/// Appends a pc, if the text has it.
fn push_pc(alloc: Global, text: &mut String, has_pc: bool, pc: u32) -> Result<(), AllocError>
    ensures { OnOk result (string_bytes text.new ≡ string_bytes text.old ++ pc_text has_pc pc) }
{
    if !has_pc {
        return Ok(());
    }
    text.push_str("pc ")?;
    push_word(alloc, text, pc)?;
    text.push(' ')
}

/// Appends a line for each observed word that is not zero, or, if no words are chosen, for each that is not zero.
fn push_observed(
    alloc: Global,
    text: &mut String,
    machine: &Machine,
    observed: Option<&ObservedWords>,
) -> Result<(), AllocError>
    ensures { OnOk result (string_bytes text.new ≡ string_bytes text.old
        ++ observed_lines (option_map (λ words. words.now) observed.entry) machine.now
        machine.now.config.shared_words) }
{
    match observed {
        Some(words) => push_chosen(alloc, text, machine, words),
        None => push_words(alloc, text, machine),
    }
}

/// Appends a line for each of these words that is not zero.
fn push_chosen(
    alloc: Global,
    text: &mut String,
    machine: &Machine,
    words: &ObservedWords,
) -> Result<(), AllocError>
    ensures { OnOk result (string_bytes text.new ≡ string_bytes text.old
        ++ observed_lines (Some words.now) machine.now machine.now.config.shared_words) }
{
    for number in 0..machine.config().shared_words {
        push_if_observed(alloc, text, machine, words, number)?;
    }
    Ok(())
}

/// Appends the line of a word that the machine has, if it is one of these and not zero.
fn push_if_observed(
    alloc: Global,
    text: &mut String,
    machine: &Machine,
    words: &ObservedWords,
    number: u32,
) -> Result<(), AllocError>
    requires { number < machine.now.config.shared_words }
    ensures { OnOk result (string_bytes text.new ≡ string_bytes text.old
        ++ observed_line words.now number (word_at machine.now.config.k machine.now.modules number)) }
{
    let Some(word) = machine.word(number) else {
        unreachable!()
    };
    if words.contains(number) {
        push_shared_word(alloc, text, number, word)?;
    }
    Ok(())
}
