//! The chosen lines of a story, step by step.

ghost use Rattle.std.specs.Prelude.{◌≡◌, ◌<◌, ◌+◌, ◌++◌, ◌^◌, IfOk, OnOk, Some, string_bytes, unwrap_or};
ghost use Rattle.steps.specs.Groups.{groups_after};
ghost use Rattle.trace_lines.specs.StoryLines.{chosen_leader, chosen_line, concerns_chosen, mark_text, marked_after};
ghost use Rattle.trace_lines.specs.StoryLines.{no_lines, takes_step, story_step, with_line};

use crate::choice::{Choice, is_word};
use crate::concern::{concerns, leader_after};
use crate::lines::push_line;
use crate::subject::Subject;
use crate::values::Values;
use std::alloc::{AllocError, Global};
use std::fmt::Write;
use std::marker::Model;
use steps::{Groups, Outcome, Step};

/// The chosen lines of some steps.
#[derive(Drop)]
pub struct StoryLines {
    alloc: Global,
    choice: Choice,
    /// How many steps there are.
    number: usize,
    /// The groups of requests after these steps.
    groups: Groups,
    /// The leader of the message that stands for the chosen processor, if one is chosen.
    leader: Option<u8>,
    /// The round of the last mark, 0 if there is none.
    marked: usize,
    text: String,
}

impl Model for StoryLines {
    ghost use Rattle.std.specs.Prelude.{string_bytes};
    ghost use Rattle.trace_lines.specs.StoryLines.{StoryState};

    ghost Value = { StoryState };

    ghost view = { λ l. record {
      choice = l.choice;
      known = record { number = l.number; groups = l.groups; leader = l.leader; marked = l.marked };
      text = string_bytes l.text;
    } };
}

impl StoryLines {
    /// The lines of no step.
    ///
    /// # Errors
    ///
    /// [`AllocError`] if there is no memory for the groups.
    pub fn new(alloc: Global, choice: Choice) -> Result<Self, AllocError>
        ensures { IfOk result (λ lines. lines ≡ no_lines choice) }
    {
        Ok(StoryLines {
            alloc,
            choice,
            number: 0,
            groups: Groups::new(alloc)?,
            leader: None,
            marked: 0,
            text: String::new(alloc),
        })
    }

    /// Appends the line of the next step, if it is chosen, and before it a mark of its round, if it has one that has no
    /// mark yet. The machine before the step tells what it is about, and the machine after it the values.
    ///
    /// # Errors
    ///
    /// [`AllocError`] if there is no memory for the line.
    pub fn push(
        &mut self,
        step: &Step,
        outcome: &Outcome,
        subject: &Subject,
        values: &Values,
        round: Option<usize>,
    ) -> Result<(), AllocError>
        requires { self.old.known.number + 1 < 2 ^ 64 }
        ensures { OnOk result (self.new ≡ with_line self.old (story_step step.now outcome.now subject.now
            values.now round)) }
    {
        self.push_chosen(step, outcome, subject, values, round)?;
        self.know(step, outcome)
    }

    /// Appends the line of the next step, if it is chosen, with its mark.
    fn push_chosen(
        &mut self,
        step: &Step,
        outcome: &Outcome,
        subject: &Subject,
        values: &Values,
        round: Option<usize>,
    ) -> Result<(), AllocError>
        ensures { OnOk result (self.new ≡ record self.old {
          known = record self.old.known {
            marked = marked_after self.old.choice self.old.known (story_step step.now outcome.now subject.now
                values.now round);
          };
          text = self.old.text
              ++ chosen_line self.old.choice self.old.known (story_step step.now outcome.now subject.now
              values.now round);
        }) }
    {
        if self.takes(step, outcome, subject) {
            self.push_mark(round)?;
            push_line(
                self.alloc,
                &mut self.text,
                &self.groups,
                self.number,
                step,
                outcome,
                values,
            )
        } else {
            Ok(())
        }
    }

    /// Appends the mark of a round, unless it is the last mark.
    fn push_mark(&mut self, round: Option<usize>) -> Result<(), AllocError>
        ensures { OnOk result (self.new ≡ record self.old {
          known = record self.old.known { marked = unwrap_or round self.old.known.marked };
          text = self.old.text ++ mark_text self.old.known.marked round;
        }) }
    {
        if let Some(number) = round {
            push_round(&mut self.text, self.marked, number)?;
            self.marked = number;
        }
        Ok(())
    }

    /// Updates what is known by the next step, but for its mark.
    fn know(&mut self, step: &Step, outcome: &Outcome) -> Result<(), AllocError>
        requires { self.old.known.number + 1 < 2 ^ 64 }
        ensures { OnOk result (self.new ≡ record self.old {
          known = record self.old.known {
            number = self.old.known.number + 1;
            groups = groups_after self.old.known.groups step.now outcome.now;
            leader = chosen_leader self.old.choice.processor self.old.known.groups self.old.known.leader step.now
                outcome.now;
          };
        }) }
    {
        self.leader = self.leader_after(step, outcome);
        self.groups.observe(self.alloc, step, outcome)?;
        self.number += 1;
        Ok(())
    }

    /// The text of the lines.
    pub fn into_text(self) -> String
        ensures { string_bytes result ≡ self.text }
    {
        self.text
    }

    /// Whether the next step is chosen.
    fn takes(&self, step: &Step, outcome: &Outcome, subject: &Subject) -> bool
        ensures { result ≡ takes_step self.now.choice self.now.known step.now outcome.now subject.now }
    {
        self.choice.takes_kind(step)
            && self.choice.is_in_range(self.number)
            && is_word(self.choice.word, subject.word)
            && self.concerns_chosen(step, outcome, subject)
    }

    /// Whether the next step concerns the chosen processor; true if none is chosen.
    fn concerns_chosen(&self, step: &Step, outcome: &Outcome, subject: &Subject) -> bool
        ensures { result
            ≡ concerns_chosen self.now.choice.processor self.now.known step.now outcome.now subject.now }
    {
        match self.choice.processor {
            Some(processor) => concerns(processor, self.leader, subject.leader, step, outcome),
            None => true,
        }
    }

    /// The leader of the message that stands for the chosen processor, after the next step.
    fn leader_after(&self, step: &Step, outcome: &Outcome) -> Option<u8>
        ensures { result ≡ chosen_leader self.now.choice.processor self.now.known.groups self.now.known.leader
            step.now outcome.now }
    {
        match self.choice.processor {
            Some(processor) => leader_after(&self.groups, processor, self.leader, step, outcome),
            None => None,
        }
    }
}

/// Appends the mark of a round, unless the last mark is of the same round.
fn push_round(text: &mut String, last: usize, round: usize) -> Result<(), AllocError>
    ensures { OnOk result (string_bytes text.new ≡ string_bytes text.old ++ mark_text last (Some round)) }
{
    if round == last {
        return Ok(());
    }
    write!(text, "round {round}")?;
    text.push('\n')
}
