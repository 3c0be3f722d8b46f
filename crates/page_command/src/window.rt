//! Windows of a run, and why a trace has too many steps for a page.

ghost use Rattle.std.specs.Prelude.{◌≡◌, ◌≤◌, ◌-◌, false, length};
ghost use Rattle.flat_machine.specs.declared.config.Config.{Config as ConfigValue};
ghost use Rattle.page_command.specs.Windows.{entries_between, entries_from, is_too_long, lines_in, steps_before};
ghost use Rattle.page_command.specs.Windows.{steps_until, steps_within, story_choice};

use flat_machine::Config;
use std::fmt::{self, Display, Formatter};
use steps::Step;
use trace_commands::Selection;
use trace_lines::Choice;

/// The greatest number of steps of a trace that a page shows.
const MAX_PAGE_STEPS: usize = 500_000;

/// The steps of a run that a page plays: those with numbers from a first one up to a last one.
#[derive(Clone, Copy, Debug, PartialEq, Eq, Drop)]
pub struct Window {
    /// The number of the first step.
    pub first: u32,
    /// The number of the last step, or None for the last one there is.
    pub last: Option<u32>,
}

impl Window {
    /// The last steps of a trace that has these, as many as a page shows, and those of a drain.
    pub fn of_last(steps: &[Step]) -> Self
        requires { length steps.now ≤ 4194304 }
        ensures first { result.first ≡ length steps.now - 500000 }
        ensures last { result.last ≡ None }
        ensures shown { (c : ConfigValue) → is_too_long result c steps.now ≡ false }
    {
        Window {
            first: steps.len().saturating_sub(MAX_PAGE_STEPS) as u32,
            last: None,
        }
    }

    /// The steps up to the last one in the window.
    pub(crate) fn until<'a>(&self, all: &'a [Step]) -> &'a [Step]
        ensures { result.now ≡ steps_until self.now.last all.now }
    {
        match self.last {
            Some(last) => all.split_at(all.len().min(last as usize + 1)).0,
            None => all,
        }
    }

    /// The steps before the window, and those in it.
    pub(crate) fn cut<'a>(&self, all: &'a [Step]) -> (&'a [Step], &'a [Step])
        ensures before { result.0.now ≡ steps_before self.now all.now }
        ensures within { result.1.now ≡ steps_within self.now all.now }
    {
        let until = self.until(all);
        until.split_at(until.len().min(self.first as usize))
    }

    /// The lines of the window's steps in a story.
    pub(crate) fn story_choice(&self) -> Choice
        ensures { result ≡ story_choice self.now }
    {
        lines_in(self.first, self.last)
    }
}

/// A trace with more steps than a page shows.
#[derive(Clone, Copy, Debug, PartialEq, Eq, Drop)]
pub struct TooLong {
    /// How many steps follow the first one of the window, which is among them.
    pub steps: usize,
}

/// The error in the command line.
impl Display for TooLong {
    fn fmt<W: fmt::Write>(&self, f: &mut Formatter<W>) -> fmt::Result {
        let steps = self.steps;
        write!(
            f,
            "a page shows {MAX_PAGE_STEPS} steps, and the trace has {steps}: choose some with '--from <NUMBER>' and '--steps <NUMBER>'"
        )
    }
}

/// A trace is refused if no last step is chosen, and more than 500,000 steps follow the first one.
impl Selection for Window {
    ghost use Rattle.page_command.specs.Windows.{is_too_long};

    type Refusal = TooLong;

    ghost refuses = { is_too_long };

    fn refusal(&self, _config: Config, steps: &[Step]) -> Option<TooLong> {
        let count = steps.len().saturating_sub(self.first as usize);
        if self.last.is_none() && MAX_PAGE_STEPS < count {
            Some(TooLong { steps: count })
        } else {
            None
        }
    }
}

/// The lines with numbers from one on, or also up to another.
fn lines_in(from: u32, to: Option<u32>) -> Choice
    ensures { result ≡ lines_in from to }
{
    Choice {
        processor: None,
        word: None,
        from: Some(from),
        to,
        network: false,
    }
}

/// The entries with numbers from one on.
pub(crate) fn entries_from(first: u32) -> Choice
    ensures { result ≡ entries_from first }
{
    lines_in(first, None)
}

/// The entries with numbers from one on and below another.
pub(crate) fn entries_between(first: u32, end: u32) -> Choice
    ensures { result ≡ entries_between first end }
{
    if first < end {
        lines_in(first, Some(end - 1))
    } else {
        lines_in(1, Some(0))
    }
}
