//! Counts of what a machine's steps do, and its longest queues during them.

ghost use Rattle.std.specs.Prelude.{◌≡◌, IfOk, OnOk};
ghost use Rattle.machine_steps.specs.Runs.{IsRun};
ghost use Rattle.run_counts.specs.Counting.{noted_of, size_of};
ghost use Rattle.run_counts.specs.Counts.{AreCounts};
ghost use Rattle.machine_steps.specs.messages.Network.{IsEmptyNet};
ghost use Rattle.omega_network.specs.Networks.{net_of};
ghost use Rattle.machine_steps.specs.Answers.{answers_of};
ghost use Rattle.trace_counts.specs.Longest.{AreLongest};

use crate::longest::look;
use machine_steps::Machine;
use run_counts::{Counts, Longest};
use std::alloc::{AllocError, Global};
use steps::{Groups, Outcome, Step};

/// Takes these steps, and counts what they do. Finds the longest queues and wait buffers of the network before, between
/// and after the steps, if the network is empty at first.
///
/// # Errors
///
/// [`AllocError`] if there is no memory for the counts.
pub fn count_steps(
    alloc: Global,
    machine: &mut Machine,
    steps: &[Step],
) -> Result<(Counts, Longest), AllocError>
    ensures counts { IfOk result (λ found. AreCounts (noted_of (answers_of machine.old steps.now)) found.0) }
    ensures longest { IfOk result (λ found. IsEmptyNet (net_of machine.old.network) →
        AreLongest machine.old steps.now found.1) }
    ensures run { OnOk result (IsRun machine.old steps.now machine.new) }
{
    machine_steps::laws::machine_is_well_formed(machine);
    machine_steps::laws::answers_go_on();
    steps::laws::groups_go_on();
    run_counts::laws::counts_go_on();
    let mut groups = Groups::new(alloc)?;
    let mut counts = Counts::new(alloc)?;
    let mut longest = Longest::none();
    for step in steps {
        let outcome = machine.apply(*step);
        let size = size_of(&groups, &outcome);
        counts.observe(step, &outcome, size);
        groups.observe(alloc, step, &outcome)?;
        look(&mut longest, machine, step);
    }
    Ok((counts, longest))
}

/// How many processors a service serves: the group of the leader, or 0 if the step is no service.
fn size_of(groups: &Groups, outcome: &Outcome) -> usize
    ensures { result ≡ size_of groups.now outcome.now }
{
    match *outcome {
        Outcome::Served { leader } => groups.of(leader).len(),
        _ => 0,
    }
}
