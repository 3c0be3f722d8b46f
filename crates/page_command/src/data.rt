//! The data of a page.

ghost use Rattle.std.specs.Prelude.{◌≡◌, ◌≤◌, ◌++◌, ℕ, List, IfOk, IfErr, OnOk, length, string_bytes};
ghost use Rattle.std.specs.Option.{option_copied};
ghost use Rattle.steps.specs.declared.step.Step.{Step};
ghost use Rattle.machine_steps.specs.Machines.{MachineLists};
ghost use Rattle.machine_steps.specs.Runs.{IsOpening, IsRun};
ghost use Rattle.command_io.specs.Files.{IsFaultOfSize};
ghost use Rattle.machine_views.specs.Names.{rows_in};
ghost use Rattle.trace_commands.specs.Causes.{IsNotTaken};
ghost use Rattle.trace_commands.specs.Explained.{IsDrainedWithSteps};
ghost use Rattle.trace_commands.specs.Orders.{AreOrderLines};
ghost use Rattle.page_command.specs.Openings.{opening_changes};
ghost use Rattle.page_command.specs.Pages.{AreDataOf, changes_line, counts_of, head_lines, symbol_lines, view_lines};
ghost use Rattle.page_command.specs.Pages.{window_story};
ghost use Rattle.page_command.specs.Windows.{entry_choice, entry_count, steps_before, steps_within};

use crate::head::{Counts, push_head, push_symbols};
use crate::opening::push_opening;
use crate::step_changes::push_change_lines;
use crate::window::{Window, entries_between, entries_from};
use command_io::{Fault, machine_of_copy};
use elf_image::Image;
use flat_machine::Config;
use machine_steps::Machine;
use std::alloc::{AllocError, Global};
use steps::Step;
use symbol_table::SymbolTable;
use trace_commands::{drained_steps, entries_of, order_lines, story_text};
use trace_lines::Choice;

/// The data of a page, and the exit status: takes the trace's steps, and then steps until no reference is open. The
/// image was read for that number of shared words. The data is that of the steps in the window, with the symbols of the
/// table if there is one. The exit status is 1 if a fault has stopped a processor.
///
/// # Errors
///
/// [`Fault::Size`] if the size is out of limits, [`Fault::Stalled`] at the first step of the trace that stalls, and
/// [`Fault::Memory`].
pub fn data_text(
    alloc: Global,
    image: &Image,
    config: Config,
    steps: &[Step],
    window: Window,
    symbols: Option<&SymbolTable<'_>>,
) -> Result<(String, u8), Fault>
    requires words { image.now.shared_words ≡ config.shared_words }
    ensures are { IfOk result (λ done. AreDataOf window (rows_in (option_copied symbols.entry)) config image.now
        steps.now (string_bytes done.0) done.1) }
    ensures low { IfOk result (λ done. done.1 ≤ 1) }
    ensures refused { IfErr result (IsNotTaken config image.now steps.now) }
{
    let all = drained_steps(alloc, image, config, steps)?;
    data_of_all(alloc, image, config, all.as_slice(), window, symbols)
}

/// The data of a page, and the exit status, by all steps: those of the trace, and then those of a drain.
// A separate function, so that neither has many values to drop at each return.
fn data_of_all(
    alloc: Global,
    image: &Image,
    config: Config,
    all: &[Step],
    window: Window,
    symbols: Option<&SymbolTable<'_>>,
) -> Result<(String, u8), Fault>
    requires words { image.now.shared_words ≡ config.shared_words }
    ensures are { IfOk result (λ done. (steps : List Step) → IsDrainedWithSteps config image.now steps all.now →
        AreDataOf window (rows_in (option_copied symbols.entry)) config image.now steps (string_bytes done.0)
        done.1) }
    ensures low { IfOk result (λ done. done.1 ≤ 1) }
    ensures refused { IfErr result (IsFaultOfSize config) }
{
    let mut text = text_to_changes(alloc, image, config, all, window, symbols)?;
    push_story(alloc, &mut text, image, config, all, window)?;
    let choice = entry_choice(alloc, image, config, all, window)?;
    let status = push_order(alloc, &mut text, image, config, all, choice)?;
    Ok((text, status))
}

/// Appends the chosen lines of the serial order of all steps: those of a trace, and then those of a drain. Returns the
/// exit status.
fn push_order(
    alloc: Global,
    text: &mut String,
    image: &Image,
    config: Config,
    all: &[Step],
    choice: Choice,
) -> Result<u8, Fault>
    requires words { image.now.shared_words ≡ config.shared_words }
    ensures are { IfOk result (λ status. (order : List ℕ) × (string_bytes text.new ≡ string_bytes text.old ++ order)
        × ((steps : List Step) → IsDrainedWithSteps config image.now steps all.now →
        AreOrderLines choice config image.now steps order status)) }
    ensures low { IfOk result (λ status. status ≤ 1) }
    ensures refused { IfErr result (IsFaultOfSize config) }
{
    let (order, status) = order_lines(alloc, image, config, all, choice)?;
    text.push_str(order.as_str())?;
    Ok(status)
}

/// The choice of the entries of the window's steps in the serial order.
fn entry_choice(
    alloc: Global,
    image: &Image,
    config: Config,
    all: &[Step],
    window: Window,
) -> Result<Choice, Fault>
    requires words { image.now.shared_words ≡ config.shared_words }
    ensures choice { IfOk result (λ choice. (opening : MachineLists) → IsOpening config image.now opening →
        choice ≡ entry_choice window opening all.now) }
    ensures refused { IfErr result (IsFaultOfSize config) }
{
    let (before, _) = window.cut(all);
    let first = entry_count(alloc, image, config, before)?;
    match window.last {
        None => Ok(entries_from(first)),
        Some(_) => {
            let end = entry_count(alloc, image, config, window.until(all))?;
            Ok(entries_between(first, end))
        }
    }
}

/// The number of entries in the serial order of these steps.
fn entry_count(alloc: Global, image: &Image, config: Config, steps: &[Step]) -> Result<u32, Fault>
    requires words { image.now.shared_words ≡ config.shared_words }
    ensures count { IfOk result (λ count. (opening : MachineLists) → IsOpening config image.now opening →
        count ≡ entry_count opening steps.now) }
    ensures refused { IfErr result (IsFaultOfSize config) }
{
    if steps.is_empty() {
        return Ok(0);
    }
    let entries = entries_of(alloc, image, config, steps)?;
    // There are at most as many as steps.
    match u32::try_from(entries.len()) {
        Ok(count) => Ok(count),
        Err(_) => Err(Fault::Memory),
    }
}

/// The data up to the changes of the window's steps.
fn text_to_changes(
    alloc: Global,
    image: &Image,
    config: Config,
    all: &[Step],
    window: Window,
    symbols: Option<&SymbolTable<'_>>,
) -> Result<String, Fault>
    requires words { image.now.shared_words ≡ config.shared_words }
    ensures are { IfOk result (λ text. (opening first : MachineLists) × IsOpening config image.now opening
        × IsRun opening (steps_before window all.now) first
        × (string_bytes text ≡ head_lines config
        (counts_of config window (rows_in (option_copied symbols.entry)) all.now)
        ++ symbol_lines (rows_in (option_copied symbols.entry)) ++ view_lines first (steps_within window all.now))) }
    ensures refused { IfErr result (IsFaultOfSize config) }
{
    let (before, within) = window.cut(all);
    let counts = Counts {
        words: config.shared_words as usize,
        steps: within.len(),
        before: before.len(),
        all: all.len(),
        symbols: symbol_count(symbols),
    };
    let mut machine = machine_of_copy(alloc, image, config)?;
    let mut text = String::new(alloc);
    push_head(&mut text, config, counts)?;
    push_symbols(alloc, &mut text, symbols)?;
    machine.run(before);
    push_views(alloc, &mut text, &mut machine, within)?;
    Ok(text)
}

/// The number of symbols of a table, if there is one.
fn symbol_count(symbols: Option<&SymbolTable<'_>>) -> usize
    ensures { result ≡ length (rows_in (option_copied symbols.entry)) }
{
    match symbols {
        Some(symbols) => symbols.symbols().len(),
        None => 0,
    }
}

/// Appends the view of a machine. Then takes these steps, and appends the changes of each.
#[tactic(auto, unfolding(crate::specs::Pages::view_lines))]
fn push_views(
    alloc: Global,
    text: &mut String,
    machine: &mut Machine,
    steps: &[Step],
) -> Result<(), AllocError>
    ensures { OnOk result (string_bytes text.new ≡ string_bytes text.old ++ view_lines machine.old steps.now) }
{
    push_opening_line(alloc, text, machine)?;
    push_change_lines(alloc, text, machine, steps)?;
    Ok(())
}

/// Appends the line of the view of a machine.
fn push_opening_line(alloc: Global, text: &mut String, machine: &Machine) -> Result<(), AllocError>
    ensures { OnOk result (string_bytes text.new
        ≡ string_bytes text.old ++ changes_line (opening_changes machine.now)) }
{
    push_opening(alloc, text, machine)?;
    text.push_str("\n")?;
    Ok(())
}

/// Appends the story of the window's steps.
fn push_story(
    alloc: Global,
    text: &mut String,
    image: &Image,
    config: Config,
    all: &[Step],
    window: Window,
) -> Result<(), Fault>
    requires words { image.now.shared_words ≡ config.shared_words }
    ensures are { OnOk result ((opening : MachineLists) → IsOpening config image.now opening →
        string_bytes text.new ≡ string_bytes text.old ++ window_story window opening all.now) }
    ensures refused { IfErr result (IsFaultOfSize config) }
{
    let mut machine = machine_of_copy(alloc, image, config)?;
    let story = story_text(alloc, &mut machine, all, window.story_choice(), false)?;
    text.push_str(story.as_str())?;
    Ok(())
}
