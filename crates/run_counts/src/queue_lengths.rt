//! The lengths of queues at the ends of rounds, as lines.

ghost use Rattle.std.specs.Prelude.{◌≡◌, ◌≤◌, ◌++◌, ◌*◌, ◌^◌, IfOk, OnOk, length, string_bytes};
ghost use Rattle.run_counts.specs.Lines.{first_lines};
ghost use Rattle.run_counts.specs.QueueLengths.{lengths_line, lengths_lines, lengths_text, number_at, number_of};
ghost use Rattle.run_counts.specs.QueueLengths.{numbers_text, rounds_waited, waited_line, waited_text};

use crate::longest::Held;
use std::alloc::{AllocError, Global};
use std::fmt::Write;

/// How many messages and records the queues and wait buffers of one stage hold at the end of a round.
#[derive(Clone, Copy, Debug, PartialEq, Eq, Drop)]
pub struct StageLengths {
    /// The round, counted from 1; 0 is before the first.
    pub round: usize,
    pub stage: u8,
    /// The requests in the queues of the stage's outputs.
    pub requests: usize,
    /// The records in its wait buffers.
    pub records: usize,
    /// The replies in the queues of its inputs.
    pub replies: usize,
}

/// How lengths are printed.
#[derive(Clone, Copy, Debug, PartialEq, Eq, Drop)]
pub enum LengthsFormat {
    /// A line for each stage and round, and one for each stage with the rounds that all waited there.
    Lines,
    /// A table of comma-separated values.
    Csv,
}

impl StageLengths {
    /// How many of one kind there are.
    fn number_of(&self, held: Held) -> usize
        ensures { result ≡ number_of held self.now }
    {
        match held {
            Held::Requests => self.requests,
            Held::Records => self.records,
            Held::Replies => self.replies,
        }
    }

    /// How many of one kind there are at a stage. None if these are the lengths of another stage.
    fn number_at(&self, held: Held, stage: u8) -> usize
        ensures { result ≡ number_at held stage self.now }
    {
        if self.stage == stage {
            self.number_of(held)
        } else {
            0
        }
    }
}

/// The lines of the lengths, on a network with this many stages.
///
/// # Errors
///
/// [`AllocError`] if there is no memory for them.
#[tactic(auto, unfolding(crate::specs::QueueLengths::lengths_text))]
pub fn lengths_text(
    alloc: Global,
    format: LengthsFormat,
    stages: u8,
    lengths: &[StageLengths],
) -> Result<String, AllocError>
    ensures { IfOk result (λ text. string_bytes text ≡ lengths_text format stages lengths.now) }
{
    let mut text = String::new(alloc);
    match format {
        LengthsFormat::Lines => {
            push_lengths(&mut text, format, lengths)?;
            push_waits(&mut text, stages, lengths)?;
        }
        LengthsFormat::Csv => {
            text.push_str("round,stage,requests,records,replies\n")?;
            push_lengths(&mut text, format, lengths)?;
        }
    }
    Ok(text)
}

/// Appends the lines of all lengths.
fn push_lengths(
    text: &mut String,
    format: LengthsFormat,
    lengths: &[StageLengths],
) -> Result<(), AllocError>
    ensures { OnOk result (string_bytes text.new ≡ string_bytes text.old ++ lengths_lines format lengths.now) }
{
    for one in lengths {
        push_line(text, format, one)?;
    }
    Ok(())
}

/// Appends the line of the lengths of one stage.
#[tactic(auto, unfolding(crate::specs::QueueLengths::lengths_line))]
fn push_line(
    text: &mut String,
    format: LengthsFormat,
    lengths: &StageLengths,
) -> Result<(), AllocError>
    ensures { OnOk result (string_bytes text.new ≡ string_bytes text.old ++ lengths_line format lengths.now) }
{
    let StageLengths { round, stage, .. } = *lengths;
    match format {
        LengthsFormat::Lines => {
            write!(text, "round {round} stage {stage}")?;
            push_three(
                text,
                lengths.requests as u128,
                lengths.records as u128,
                lengths.replies as u128,
            )
        }
        LengthsFormat::Csv => {
            let (requests, records, replies) = (lengths.requests, lengths.records, lengths.replies);
            write!(text, "{round},{stage},{requests},{records},{replies}\n")
        }
    }
}

/// Appends three numbers: of requests, of records and of replies.
#[tactic(auto, unfolding(crate::specs::QueueLengths::numbers_text))]
fn push_three(
    text: &mut String,
    requests: u128,
    records: u128,
    replies: u128,
) -> Result<(), AllocError>
    ensures { OnOk result (string_bytes text.new ≡ string_bytes text.old ++ numbers_text requests records replies) }
{
    write!(
        text,
        " requests {requests} records {records} replies {replies}\n"
    )
}

/// Appends for each stage how many rounds all waited there.
fn push_waits(text: &mut String, stages: u8, lengths: &[StageLengths]) -> Result<(), AllocError>
    ensures { OnOk result (string_bytes text.new ≡ string_bytes text.old
        ++ first_lines (waited_line lengths.now) stages) }
{
    for stage in 0..stages {
        push_wait(text, stage, lengths)?;
    }
    Ok(())
}

/// Appends how many rounds all waited at a stage.
fn push_wait(text: &mut String, stage: u8, lengths: &[StageLengths]) -> Result<(), AllocError>
    ensures { OnOk result (string_bytes text.new ≡ string_bytes text.old ++ waited_line lengths.now stage) }
{
    let requests = rounds_waited(Held::Requests, stage, lengths);
    let records = rounds_waited(Held::Records, stage, lengths);
    let replies = rounds_waited(Held::Replies, stage, lengths);
    push_waited(text, stage, requests, records, replies)
}

/// Appends a line with these numbers of rounds.
#[tactic(auto, unfolding(crate::specs::QueueLengths::waited_text))]
fn push_waited(
    text: &mut String,
    stage: u8,
    requests: u128,
    records: u128,
    replies: u128,
) -> Result<(), AllocError>
    ensures { OnOk result (string_bytes text.new
        ≡ string_bytes text.old ++ waited_text stage requests records replies) }
{
    write!(text, "waited stage {stage}")?;
    push_three(text, requests, records, replies)
}

/// The rounds that all of one kind waited at a stage.
fn rounds_waited(held: Held, stage: u8, lengths: &[StageLengths]) -> u128
    ensures { result ≡ rounds_waited held stage lengths.now }
{
    let mut rounds = 0;
    for one in lengths {
        rounds += one.number_at(held, stage) as u128;
    }
    rounds
}
