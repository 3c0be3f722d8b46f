//! The text of a trace.

ghost use Rattle.std.specs.Prelude.{◌≡◌, ◌++◌, IfOk, OnOk, string_bytes};
ghost use Rattle.std.specs.List.{flat_map};
ghost use Rattle.trace_text.specs.Texts.{step_line, text_of};

use std::alloc::{AllocError, Global};
use steps::Step;
use trace_commands::push_size;
use trace_file::Trace;
use trace_lines::push_step;

/// The text of a trace: a line for the sizes of the network, and one for each step.
///
/// # Errors
///
/// [`AllocError`] if there is no memory for it.
#[tactic(auto, unfolding(crate::specs::Texts::text_of))]
pub fn text_of_trace(alloc: Global, trace: &Trace) -> Result<String, AllocError>
    ensures { IfOk result (λ text. string_bytes text ≡ text_of trace.now) }
{
    let mut text = String::new(alloc);
    push_size(&mut text, trace.config(1))?;
    push_steps(alloc, &mut text, trace.steps())?;
    Ok(text)
}

/// Appends a line for each step.
fn push_steps(alloc: Global, text: &mut String, steps: &[Step]) -> Result<(), AllocError>
    ensures { OnOk result (string_bytes text.new ≡ string_bytes text.old ++ flat_map step_line steps.now) }
{
    for step in steps {
        push_line(alloc, text, step)?;
    }
    Ok(())
}

/// Appends the line of a step.
fn push_line(alloc: Global, text: &mut String, step: &Step) -> Result<(), AllocError>
    ensures { OnOk result (string_bytes text.new ≡ string_bytes text.old ++ step_line step.now) }
{
    push_step(alloc, text, step)?;
    text.push('\n')
}
