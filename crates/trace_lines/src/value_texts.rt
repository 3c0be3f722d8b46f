//! The texts of the values that a step's line tells.

ghost use Rattle.std.specs.Prelude.{◌≡◌, ◌++◌, OnOk, codes, string_bytes};
ghost use Rattle.trace_lines.specs.Functions.{function_text};
ghost use Rattle.trace_lines.specs.ValueTexts.{value_text, values_text};
ghost use Rattle.trace_lines.specs.declared.values.Values.TheVariants.{Joined, Sent, Served};

use crate::functions::push_function;
use crate::reference::Reference;
use crate::values::Values;
use command_io::push_word;
use phi_algebra::Phi;
use std::alloc::{AllocError, Global};
use std::fmt::Write;

/// Appends the values of a step.
pub fn push_values(alloc: Global, text: &mut String, values: &Values) -> Result<(), AllocError>
    ensures { OnOk result (string_bytes text.new ≡ string_bytes text.old ++ values_text values.now) }
{
    match values {
        Values::Nothing => Ok(()),
        Values::Sent { phi, word } => push_sent(alloc, text, phi, *word),
        Values::Joined { both, kept } => push_joined(alloc, text, both, kept),
        Values::Served(reference) => push_served(alloc, text, reference),
        Values::Answered {
            first,
            second,
            third,
        } => {
            text.push(':')?;
            push_value(alloc, text, *first)?;
            push_value(alloc, text, *second)?;
            push_value(alloc, text, *third)
        }
    }
}

/// Appends the function and the word of a request that is sent.
fn push_sent(alloc: Global, text: &mut String, phi: &Phi, word: u32) -> Result<(), AllocError>
    ensures { OnOk result (string_bytes text.new ≡ string_bytes text.old ++ values_text (Sent phi.now word)) }
{
    text.push(' ')?;
    push_function(alloc, text, phi)?;
    write!(text, " to word {word}")
}

/// Appends the function of two requests that were combined, and the one that is kept.
fn push_joined(alloc: Global, text: &mut String, both: &Phi, kept: &Phi) -> Result<(), AllocError>
    ensures { OnOk result (string_bytes text.new ≡ string_bytes text.old ++ values_text (Joined both.now kept.now)) }
{
    text.push_str(": ")?;
    push_function(alloc, text, both)?;
    text.push_str(" goes on, ")?;
    push_function(alloc, text, kept)?;
    text.push_str(" is kept")
}

/// Appends a word that was served, with its values before and after.
fn push_served(alloc: Global, text: &mut String, reference: &Reference) -> Result<(), AllocError>
    ensures { OnOk result (string_bytes text.new ≡ string_bytes text.old ++ values_text (Served reference.now)) }
{
    let Reference {
        word,
        before,
        after,
    } = *reference;
    write!(text, ": word {word} ")?;
    push_word(alloc, text, before)?;
    text.push_str(" to ")?;
    push_word(alloc, text, after)
}

/// Appends a blank and a value, if there is one.
fn push_value(alloc: Global, text: &mut String, value: Option<u32>) -> Result<(), AllocError>
    ensures { OnOk result (string_bytes text.new ≡ string_bytes text.old ++ value_text value) }
{
    match value {
        Some(value) => {
            text.push(' ')?;
            push_word(alloc, text, value)
        }
        None => Ok(()),
    }
}
