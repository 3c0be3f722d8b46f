//! The lines of the steps that a machine takes.

ghost use Rattle.std.specs.Prelude.{◌≡◌, ◌+◌, ◌<◌, ◌^◌, IfOk, OnOk, string_bytes};
ghost use Rattle.machine_steps.specs.Runs.{IsRun};
ghost use Rattle.trace_lines.specs.StoryLines.{story_of};
ghost use Rattle.trace_commands.specs.Stories.{round_of, story_steps_of};

use machine_steps::Machine;
use machine_views::{subject_of, values_of};
use run_counts::{Begun, rounds_after};
use std::alloc::{AllocError, Global};
use steps::Step;
use trace_lines::{Choice, StoryLines};

/// Takes these steps, and makes a line of each that is chosen. If rounds are wanted, a line with the number of the
/// sweep's round stands before the first chosen step of each.
///
/// # Errors
///
/// [`AllocError`] if there is no memory for the lines.
pub fn story_text(
    alloc: Global,
    machine: &mut Machine,
    steps: &[Step],
    choice: Choice,
    rounds: bool,
) -> Result<String, AllocError>
    ensures run { OnOk result (IsRun machine.old steps.now machine.new) }
    ensures lines { IfOk result (λ text. string_bytes text
        ≡ story_of choice (story_steps_of rounds machine.old steps.now)) }
{
    machine_steps::laws::answers_go_on();
    trace_lines::laws::stories_go_on();
    let mut lines = StoryLines::new(alloc, choice)?;
    let mut begun = Begun {
        count: 0,
        last: None,
    };
    for step in steps {
        let round = round_of(rounds, begun, step);
        begun = rounds_after(begun, step);
        let subject = subject_of(machine, step);
        let outcome = machine.apply(*step);
        let values = values_of(machine, subject.word, step, &outcome);
        lines.push(step, &outcome, &subject, &values, round)?;
    }
    Ok(lines.into_text())
}

/// The round of a step, if rounds are wanted and it is no write from outside, after these rounds.
fn round_of(rounds: bool, begun: Begun, step: &Step) -> Option<usize>
    requires { begun.count + 1 < 2 ^ 64 }
    ensures { result ≡ round_of rounds begun step.now }
{
    if rounds && !step.is_poke() {
        Some(rounds_after(begun, step).count)
    } else {
        None
    }
}
