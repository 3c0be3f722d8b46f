//! The lines of the list of faults.

ghost use Rattle.std.specs.Prelude.{◌≡◌, ◌++◌, IfOk, OnOk, string_bytes};
ghost use Rattle.fault_lists.specs.Lines.{IsList, code_of, count_line, fault_line, line_of};

use crate::advice::advice_of;
use crate::text_fault::TextFault;
use crate::words::push_after_code;
use assembler::AsmFault;
use std::alloc::{AllocError, Global};
use std::fmt::Write;

/// A line for each fault, and one with their number.
pub fn list_of(alloc: Global, faults: &[TextFault<'_>]) -> Result<String, AllocError>
    ensures { IfOk result (λ text. IsList faults.now (string_bytes text)) }
{
    let mut text = String::new(alloc);
    for fault in faults {
        push_line(alloc, &mut text, fault)?;
    }
    push_count(&mut text, faults.len())?;
    Ok(text)
}

/// Appends the line of a fault.
fn push_line(alloc: Global, text: &mut String, fault: &TextFault<'_>) -> Result<(), AllocError>
    ensures { OnOk result (string_bytes text.new ≡ string_bytes text.old ++ fault_line fault.now) }
{
    let advice = advice_of(alloc, &fault.hint)?;
    push_with(alloc, text, fault, advice.as_str())?;
    Ok(())
}

/// Appends the line of a fault, with this advice.
#[tactic(auto, unfolding(crate::specs::Lines::line_of))]
fn push_with(
    alloc: Global,
    text: &mut String,
    fault: &TextFault<'_>,
    advice: &str,
) -> Result<(), AllocError>
    ensures { OnOk result (string_bytes text.new ≡ string_bytes text.old ++ line_of fault.now advice.now) }
{
    let TextFault { line, column, .. } = *fault;
    write!(text, "line {line} column {column}: ")?;
    text.push_str(code_of(fault.fault))?;
    push_after_code(alloc, text, fault.word)?;
    text.push_str(": ")?;
    text.push_str(advice)?;
    text.push('\n')
}

/// The code of a fault.
fn code_of(fault: AsmFault) -> &'static str
    ensures { result.now ≡ code_of fault }
{
    match fault {
        AsmFault::UnknownWord => "A1",
        AsmFault::Form => "A2",
        AsmFault::Range => "A3",
        AsmFault::LabelTwice => "A4",
        AsmFault::LabelMissing => "A5",
        AsmFault::SectionFull => "A6",
        AsmFault::Memory => "A7",
    }
}

/// Appends the line with the number of faults.
fn push_count(text: &mut String, count: usize) -> Result<(), AllocError>
    ensures { OnOk result (string_bytes text.new ≡ string_bytes text.old ++ count_line count) }
{
    match count {
        0 => text.push_str("no faults\n"),
        1 => text.push_str("1 fault\n"),
        _ => {
            write!(text, "{count} faults")?;
            text.push('\n')
        }
    }
}
