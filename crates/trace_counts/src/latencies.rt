//! The latencies of the references of a machine's steps.

ghost use Rattle.std.specs.Prelude.{◌≡◌, IfOk, OnOk};
ghost use Rattle.machine_steps.specs.Runs.{IsRun};
ghost use Rattle.run_counts.specs.Latencies.{latencies_of};
ghost use Rattle.trace_counts.specs.Latencies.{on_words};

use machine_steps::Machine;
use machine_views::subject_of;
use run_counts::Latencies;
use std::alloc::{AllocError, Global};
use steps::Step;

/// Takes these steps, and finds the latencies of the references that they retire.
///
/// # Errors
///
/// [`AllocError`] if there is no memory for the latencies.
pub fn find_latencies(
    alloc: Global,
    machine: &mut Machine,
    steps: &[Step],
) -> Result<Latencies, AllocError>
    ensures run { OnOk result (IsRun machine.old steps.now machine.new) }
    ensures latencies { IfOk result (λ found. found
        ≡ latencies_of machine.old.config.shared_words (on_words machine.old steps.now)) }
{
    machine_steps::laws::answers_go_on();
    run_counts::laws::latencies_go_on();
    let words = machine.config().shared_words;
    let mut latencies = Latencies::new(alloc, words)?;
    for step in steps {
        let word = subject_of(machine, step).word;
        let outcome = machine.apply(*step);
        latencies.observe(step, &outcome, word)?;
    }
    Ok(latencies)
}
