//! What steps are about.

ghost use Rattle.std.specs.Prelude.{◌≡◌, ◌<◌, ◌≤◌, ◌^◌, true, slice_get};
ghost use Rattle.steps.specs.Kinds.{is_within};
ghost use Rattle.omega_network.specs.Networks.{net_of};
ghost use Rattle.machine_views.specs.Subjects.{processors_of, subject_of, subject_of_reply, subject_of_request};
ghost use Rattle.machine_views.specs.Subjects.{subject_within};
ghost use Rattle.machine_views.specs.Views.{next_word};

use crate::processors::next_word;
use machine_steps::{Machine, laws};
use steps::Step;
use trace_lines::{Subject, word_of_poke};

/// A step about no message and no word.
const NO_SUBJECT: Subject = Subject {
    leader: None,
    word: None,
};

/// What a step is about, on the machine before it.
pub fn subject_of(machine: &Machine, step: &Step) -> Subject
    ensures { result ≡ subject_of machine.now.config machine.now.code (net_of machine.now.network)
        (processors_of machine.now) step.now }
{
    if step.is_within(machine.config().k) {
        subject_within(machine, step)
    } else {
        NO_SUBJECT
    }
}

/// What a step is about, if the machine has the numbers that it names.
fn subject_within(machine: &Machine, step: &Step) -> Subject
    requires { is_within machine.now.config.k step.now ≡ true }
    ensures { result
        ≡ subject_within machine.now.config.k (net_of machine.now.network) (next_word machine.now) step.now }
{
    laws::machine_is_well_formed(machine);
    match *step {
        Step::Turn(p) => Subject {
            leader: None,
            word: next_word(machine, p),
        },
        Step::Up { stage, wire } => subject_of_request(machine, stage, wire),
        Step::Serve(m) => subject_of_request(machine, machine.config().k, m),
        Step::Down { stage, wire } => subject_of_reply(machine, stage + 1, wire),
        Step::Poke(poke) => Subject {
            leader: None,
            word: word_of_poke(&poke),
        },
    }
}

/// What a step is about that takes the first request at a place.
fn subject_of_request(machine: &Machine, depth: u8, wire: u8) -> Subject
    requires depth { depth ≤ machine.now.config.k }
    requires wire { wire < 2 ^ machine.now.config.k }
    ensures { result ≡ subject_of_request (slice_get ((net_of machine.now.network).requests depth wire) 0) }
{
    laws::machine_is_well_formed(machine);
    match machine.network().as_network().request(depth, wire, 0) {
        Some(request) => Subject {
            leader: Some(request.leader),
            word: Some(request.word),
        },
        None => NO_SUBJECT,
    }
}

/// What a step is about that takes the first reply at a place.
fn subject_of_reply(machine: &Machine, depth: u8, wire: u8) -> Subject
    requires depth { depth ≤ machine.now.config.k }
    requires wire { wire < 2 ^ machine.now.config.k }
    ensures { result ≡ subject_of_reply (next_word machine.now)
        (slice_get ((net_of machine.now.network).replies depth wire) 0) }
{
    laws::machine_is_well_formed(machine);
    match machine.network().as_network().reply(depth, wire, 0) {
        Some(reply) => Subject {
            leader: Some(reply.leader),
            word: next_word(machine, reply.leader),
        },
        None => NO_SUBJECT,
    }
}
