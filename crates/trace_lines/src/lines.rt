//! The line of a step.

ghost use Rattle.std.specs.Prelude.{◌≡◌, ◌++◌, OnOk, codes, string_bytes};
ghost use Rattle.std.specs.Fmt.{decimal};
ghost use Rattle.messages.specs.Seconds.{seconds_of};
ghost use Rattle.trace_lines.specs.StoryLines.{line_of};
ghost use Rattle.trace_lines.specs.StoryTexts.{depth_after, depth_text, group_text, members_text, outcome_text};
ghost use Rattle.trace_lines.specs.StoryTexts.{stage_of, step_text};

use crate::texts::{push_event, push_owner, push_written};
use crate::value_texts::push_values;
use crate::values::Values;
use flat_machine::Event;
use messages::Seconds;
use std::alloc::{AllocError, Global};
use std::fmt::Write;
use steps::{Groups, Outcome, Step};

/// Appends the line of a step: its number, the step, what it did, and the values that it tells. The groups are those
/// before the step.
///
/// # Errors
///
/// [`AllocError`] if there is no memory for it.
#[tactic(auto, unfolding(crate::specs::StoryLines::line_of))]
pub fn push_line(
    alloc: Global,
    text: &mut String,
    groups: &Groups,
    number: usize,
    step: &Step,
    outcome: &Outcome,
    values: &Values,
) -> Result<(), AllocError>
    ensures { OnOk result (string_bytes text.new ≡ string_bytes text.old
        ++ line_of groups.now number step.now outcome.now values.now) }
{
    write!(text, "{number} ")?;
    push_step(alloc, text, step)?;
    text.push_str(": ")?;
    push_outcome(alloc, text, groups, step, outcome)?;
    push_values(alloc, text, values)?;
    text.push('\n')
}

/// Appends the step, as `turn 3` or `up 0 2`.
///
/// # Errors
///
/// [`AllocError`] if there is no memory for it.
pub fn push_step(alloc: Global, text: &mut String, step: &Step) -> Result<(), AllocError>
    ensures { OnOk result (string_bytes text.new ≡ string_bytes text.old ++ step_text step.now) }
{
    match *step {
        Step::Turn(p) => write!(text, "turn {p}"),
        Step::Up { stage, wire } => write!(text, "up {stage} {wire}"),
        Step::Serve(m) => write!(text, "serve {m}"),
        Step::Down { stage, wire } => write!(text, "down {stage} {wire}"),
        Step::Poke(poke) => {
            text.push_str("poke ")?;
            push_owner(text, &poke)?;
            text.push(' ')?;
            push_written(alloc, text, &poke)
        }
    }
}

/// Appends what the step did.
fn push_outcome(
    alloc: Global,
    text: &mut String,
    groups: &Groups,
    step: &Step,
    outcome: &Outcome,
) -> Result<(), AllocError>
    ensures { OnOk result (string_bytes text.new ≡ string_bytes text.old
        ++ outcome_text groups.now step.now outcome.now) }
{
    match outcome {
        Outcome::Retired(retired) => {
            text.push_str("retires ")?;
            push_event(alloc, text, &Event::Retired(*retired))
        }
        Outcome::Stopped(cause) => {
            text.push_str("stops ")?;
            push_event(alloc, text, &Event::Stopped(*cause))
        }
        Outcome::Issued => text.push_str("sends"),
        Outcome::Moved => push_depth(text, step),
        Outcome::Combined { first, second } => {
            let stage = stage_of(step);
            write!(text, "{second} joins {first} at stage {stage}")
        }
        Outcome::Served { leader } => {
            text.push_str("serves ")?;
            push_group(text, groups.of(*leader))
        }
        Outcome::Answered { to } => push_answered(text, to, stage_of(step)),
        Outcome::Poked => text.push_str("writes"),
        Outcome::Stalled => text.push_str("stalls"),
    }
}

/// Appends the depth of a message after its move.
fn push_depth(text: &mut String, step: &Step) -> Result<(), AllocError>
    ensures { OnOk result (string_bytes text.new ≡ string_bytes text.old ++ depth_text step.now) }
{
    let depth = depth_after(step);
    write!(text, "moves to depth {depth}")
}

/// The depth of a message after this move.
fn depth_after(step: &Step) -> u16
    ensures { result ≡ depth_after step.now }
{
    match *step {
        Step::Up { stage, .. } => u16::from(stage) + 1,
        Step::Down { stage, .. } => u16::from(stage),
        _ => 0,
    }
}

/// The stage at which a request is combined or a reply is split.
fn stage_of(step: &Step) -> u8
    ensures { result ≡ stage_of step.now }
{
    match *step {
        Step::Up { stage, .. } | Step::Down { stage, .. } => stage,
        _ => 0,
    }
}

/// Appends the processors that are answered at a stage.
fn push_answered(text: &mut String, to: &Seconds, stage: u8) -> Result<(), AllocError>
    ensures { OnOk result (string_bytes text.new
        ≡ string_bytes text.old ++ codes "answers" ++ members_text (seconds_of to.now) ++ codes " at stage "
        ++ decimal stage) }
{
    text.push_str("answers")?;
    push_seconds(text, to)?;
    write!(text, " at stage {stage}")
}

/// Appends the seconds of a leader.
fn push_seconds(text: &mut String, seconds: &Seconds) -> Result<(), AllocError>
    ensures { OnOk result (string_bytes text.new ≡ string_bytes text.old ++ members_text (seconds_of seconds.now)) }
{
    match *seconds {
        Seconds::One(first) => write!(text, " {first}"),
        Seconds::Two(first, second) => write!(text, " {first} {second}"),
        Seconds::Three(first, second, third) => write!(text, " {first} {second} {third}"),
    }
}

/// Appends the size of a group, and its members.
fn push_group(text: &mut String, group: &[u8]) -> Result<(), AllocError>
    ensures { OnOk result (string_bytes text.new ≡ string_bytes text.old ++ group_text group.now) }
{
    let count = group.len();
    write!(text, "{count}:")?;
    push_members(text, group)
}

/// Appends the members of a group.
fn push_members(text: &mut String, group: &[u8]) -> Result<(), AllocError>
    ensures { OnOk result (string_bytes text.new ≡ string_bytes text.old ++ members_text group.now) }
{
    for member in group {
        write!(text, " {member}")?;
    }
    Ok(())
}
