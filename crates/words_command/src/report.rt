//! The text of a report.

ghost use Rattle.std.specs.Prelude.{◌≡◌, ◌∷◌, ◌++◌, [], codes, IfOk, OnOk, string_bytes};
ghost use Rattle.std.specs.Fmt.{decimal};
ghost use Rattle.command_io.specs.Digits.{hex_of_word, line_feed, status_text};
ghost use Rattle.words_command.specs.Report.{register_line, register_lines, report_of};
ghost use Rattle.flat_machine.specs.State.{Processor};

use command_io::{push_status, push_word};
use flat_machine::Status;
use std::alloc::{AllocError, Global};
use std::fmt::Write;

/// The report of a processor: its registers, `pc` and status.
#[tactic(auto, unfolding(crate::specs::Report::report_of))]
pub fn report(
    alloc: Global,
    registers: &[u32],
    pc: u32,
    status: Status,
) -> Result<String, AllocError>
    ensures { IfOk result (λ text. (p : Processor) → p.registers ≡ registers.now → p.pc ≡ pc → p.status ≡ status →
        string_bytes text ≡ report_of p) }
{
    let mut text = String::new(alloc);
    push_registers(alloc, &mut text, registers)?;
    text.push_str("pc ")?;
    push_word(alloc, &mut text, pc)?;
    text.push('\n')?;
    push_status(alloc, &mut text, status)?;
    text.push('\n')?;
    Ok(text)
}

/// Appends a line for each register.
fn push_registers(alloc: Global, text: &mut String, registers: &[u32]) -> Result<(), AllocError>
    ensures { OnOk result (string_bytes text.new ≡ string_bytes text.old ++ register_lines 0 registers.now) }
{
    for (number, value) in registers.iter().enumerate() {
        push_register(alloc, text, number, *value)?;
    }
    Ok(())
}

fn push_register(
    alloc: Global,
    text: &mut String,
    number: usize,
    value: u32,
) -> Result<(), AllocError>
    ensures { OnOk result (string_bytes text.new ≡ string_bytes text.old ++ register_line number value) }
{
    write!(text, "x{number} ")?;
    push_word(alloc, text, value)?;
    text.push('\n')
}
