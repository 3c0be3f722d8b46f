//! The lines of a verdict.

ghost use Rattle.std.specs.Prelude.{◌≡◌, ◌++◌, length, IfOk, OnOk, string_bytes};
ghost use Rattle.property_command.specs.Judging.{kind_text, numbers_text, verdict_lines, verdict_text, way_line};

use crate::command::Asked;
use property_search::{Judged, Verdict};
use state_conditions::Kind;
use std::alloc::{AllocError, Global};
use std::fmt::Write;

/// The line of a verdict, and for a broken property one with the processors that refer on the way.
pub(crate) fn verdict_text(
    alloc: Global,
    asked: &Asked<'_>,
    judged: &Judged,
) -> Result<String, AllocError>
    ensures { IfOk result (λ text. string_bytes text ≡ verdict_lines asked.now.property.now.kind
        asked.now.condition.now judged.now.verdict judged.now.way.items) }
{
    let mut text = String::new(alloc);
    text.push_str(kind_text(asked.property.kind))?;
    text.push_str(asked.condition)?;
    push_verdict(&mut text, judged)?;
    Ok(text)
}

/// Appends what is said of a verdict.
fn push_verdict(text: &mut String, judged: &Judged) -> Result<(), AllocError>
    ensures { OnOk result (string_bytes text.new
        ≡ string_bytes text.old ++ verdict_text judged.now.verdict judged.now.way.items) }
{
    match judged.verdict {
        Verdict::Holds => text.push_str(": holds\n"),
        Verdict::Broken => {
            text.push_str(": broken\n")?;
            push_way(text, judged.way.as_slice())
        }
        Verdict::Unknown => text.push_str(": not known\n"),
    }
}

/// The first word of the line, and a blank.
fn kind_text(kind: Kind) -> &'static str
    ensures { result.now ≡ kind_text kind }
{
    match kind {
        Kind::Never => "never ",
        Kind::Always => "always ",
        Kind::Finally => "finally ",
    }
}

/// Appends the line of a way.
fn push_way(text: &mut String, way: &[u8]) -> Result<(), AllocError>
    ensures { OnOk result (string_bytes text.new ≡ string_bytes text.old ++ way_line way.now) }
{
    text.push_str("way")?;
    push_numbers(text, way)?;
    text.push('\n')
}

/// Appends numbers, each after a blank.
fn push_numbers(text: &mut String, numbers: &[u8]) -> Result<(), AllocError>
    ensures { OnOk result (string_bytes text.new
        ≡ string_bytes text.old ++ numbers_text numbers.now (length numbers.now)) }
{
    for place in 0..numbers.len() {
        write!(text, " {}", numbers[place])?;
    }
    Ok(())
}
