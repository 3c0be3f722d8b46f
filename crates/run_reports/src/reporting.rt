//! The report of a machine: a line for each processor, and a line for each shared word that is not zero.

ghost use Rattle.std.specs.Prelude.{◌≡◌, ◌<◌, ◌≤◌, ◌^◌, ◌++◌, IfOk, IfSome, List, OnOk, Some, length, map, slice_get};
ghost use Rattle.std.specs.Prelude.{slice_index_or, string_bytes};
ghost use Rattle.flat_machine.specs.declared.config.Config.{Config};
ghost use Rattle.machine_steps.specs.elf_image.Images.{ImageContents};
ghost use Rattle.steps.specs.declared.step.Step.{Step};
ghost use Rattle.command_io.specs.Lines.{processor_line};
ghost use Rattle.command_io.specs.Tallies.{nothing_shown};
ghost use Rattle.machine_steps.specs.Machines.{AreHome, IsIdle, IsMachine, MachineLists};
ghost use Rattle.machine_steps.specs.Runs.{IsOpening};
ghost use Rattle.machine_steps.specs.Standing.{processor_of};
ghost use Rattle.run_reports.specs.RunReports.{IsReportOf};
ghost use Rattle.run_reports.specs.Reports.{AreHeard, processor_lines, report_of, shared_lines};
ghost use Rattle.run_reports.specs.CountedReplays.{IsReplayCounted};

use crate::states::exit_status;
use command_io::{Shown, Tally, push_processor, push_shared_word};
use machine_steps::{Machine, laws};
use std::alloc::{AllocError, Global};

/// The report of a machine, and its exit status. The tally says what its processors have shown; the bytes of their
/// consoles may come from whoever received them.
///
/// # Errors
///
/// [`AllocError`] if there is no memory for it.
pub fn report_with_status(
    alloc: Global,
    machine: &Machine,
    tally: &Tally,
    consoles: Option<&[Vec<u8>]>,
) -> Result<(String, u8), AllocError>
    requires home { AreHome machine.now }
    requires all { length tally.now.shown ≡ 2 ^ machine.now.config.k }
    requires heard { IfSome consoles (λ cs. AreHeard tally.now.shown cs.now) }
    ensures report { IfOk result (λ done. (c : Config) (image : ImageContents) (steps : List Step)
        (opening : MachineLists)
        → IsOpening c image opening → IsMachine opening → IsReplayCounted opening steps machine.now tally.now →
        IsIdle machine.now
        → IsReportOf c image steps (string_bytes done.0) done.1) }
    ensures low { IfOk result (λ done. done.1 ≤ 1) }
{
    laws::machine_is_well_formed(machine);
    laws::runs_are_serialized();
    let text = report(alloc, machine, tally, consoles)?;
    Ok((text, exit_status(machine)))
}

/// The report of a machine none of whose cores is away. The tally says what its processors have shown; the bytes of
/// their consoles may come from whoever received them.
///
/// # Errors
///
/// [`AllocError`] if there is no memory for it.
fn report(
    alloc: Global,
    machine: &Machine,
    tally: &Tally,
    consoles: Option<&[Vec<u8>]>,
) -> Result<String, AllocError>
    requires home { AreHome machine.now }
    requires all { length tally.now.shown ≡ 2 ^ machine.now.config.k }
    requires heard { IfSome consoles (λ cs. AreHeard tally.now.shown cs.now) }
    ensures { IfOk result (λ text. string_bytes text ≡ report_of machine.now tally.now.shown) }
{
    let mut text = String::new(alloc);
    push_processors(alloc, &mut text, machine, tally, consoles)?;
    push_words(alloc, &mut text, machine)?;
    Ok(text)
}

/// Appends a line for each processor.
fn push_processors(
    alloc: Global,
    text: &mut String,
    machine: &Machine,
    tally: &Tally,
    consoles: Option<&[Vec<u8>]>,
) -> Result<(), AllocError>
    requires home { AreHome machine.now }
    requires all { length tally.now.shown ≡ 2 ^ machine.now.config.k }
    requires heard { IfSome consoles (λ cs. AreHeard tally.now.shown cs.now) }
    ensures { OnOk result (string_bytes text.new ≡ string_bytes text.old
        ++ processor_lines machine.now tally.now.shown (2 ^ machine.now.config.k)) }
{
    for p in 0..machine.config().processors() {
        push_line(alloc, text, machine, tally, consoles, p)?;
    }
    Ok(())
}

/// Appends the line of a processor that the machine has.
#[tactic(auto, using(std::proofs::lemmas::Option::get_or_from_slice_get))]
fn push_line(
    alloc: Global,
    text: &mut String,
    machine: &Machine,
    tally: &Tally,
    consoles: Option<&[Vec<u8>]>,
    p: u8,
) -> Result<(), AllocError>
    requires there { p < 2 ^ machine.now.config.k }
    requires home { AreHome machine.now }
    requires all { length tally.now.shown ≡ 2 ^ machine.now.config.k }
    requires heard { IfSome consoles (λ cs. AreHeard tally.now.shown cs.now) }
    ensures { OnOk result (string_bytes text.new ≡ string_bytes text.old
        ++ processor_line p (processor_of machine.now p).pc (processor_of machine.now p).status (slice_index_or
        tally.now.shown p nothing_shown)) }
{
    let Some(pc) = machine.pc(p) else {
        unreachable!()
    };
    let Some(status) = machine.status(p) else {
        unreachable!()
    };
    let Some(shown) = tally.of(p) else {
        unreachable!()
    };
    let console = console_of(shown, consoles, p);
    push_processor(alloc, text, p, pc, status, shown.retired_count(), console)
}

/// The bytes that a processor wrote to the console: as they were received, or else as the tally has them.
fn console_of<'a>(shown: &'a Shown, consoles: Option<&'a [Vec<u8>]>, p: u8) -> &'a [u8]
    requires { IfSome consoles (λ cs. slice_get (map (λ v. v.items) cs.now) p ≡ Some shown.now.console) }
    ensures { result.now ≡ shown.now.console }
{
    match consoles {
        Some(consoles) => consoles[usize::from(p)].as_slice(),
        None => shown.console(),
    }
}

/// Appends a line for each shared word that is not zero.
///
/// # Errors
///
/// [`AllocError`] if there is no memory for them.
pub fn push_words(alloc: Global, text: &mut String, machine: &Machine) -> Result<(), AllocError>
    ensures { OnOk result (string_bytes text.new ≡ string_bytes text.old
        ++ shared_lines machine.now machine.now.config.shared_words) }
{
    for number in 0..machine.config().shared_words {
        let Some(word) = machine.word(number) else {
            unreachable!()
        };
        push_shared_word(alloc, text, number, word)?;
    }
    Ok(())
}
