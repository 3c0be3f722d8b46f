//! What holds of all runs. Each law is the contract of a function that does nothing.

ghost use Rattle.machine_steps.specs.Laws.{AnswersAreOfTheSteps, AnswersForgetEvents, CoresStay, CoresStayHome};
ghost use Rattle.machine_steps.specs.Laws.{EventsAreShown, FlatProcessorsAreRead, FlatWordsAreRead, ReplaysAreCut};
ghost use Rattle.machine_steps.specs.Laws.{ReplaysAreJoined, ReplaysBegin, RunsAreJoined, RunsAreSerialized};
ghost use Rattle.machine_steps.specs.Laws.{StallsAreNotEntered, StepsAreEntered};

pub use crate::answer_laws::answers_go_on;
pub use crate::machine::machine_is_well_formed;
pub use crate::opening_laws::parts_are_the_opening;

/// A replay begins with no step, and a step that is taken next comes last in it, unless it stalls.
pub fn replays_go_on()
    ensures begins { ReplaysBegin }
    ensures entered { StepsAreEntered }
    ensures stalled { StallsAreNotEntered }
{}

/// A run followed by a run is a run over the steps of both, and likewise for replays.
pub fn runs_are_joined()
    ensures runs { RunsAreJoined }
    ensures replays { ReplaysAreJoined }
{}

/// The steps of a replay after some machine on its way are a replay from that machine.
pub fn replays_are_cut()
    ensures cut { ReplaysAreCut }
{}

/// The outcome of a step depends on the steps taken before, and not on the events shown before.
pub fn answers_are_of_the_steps()
    ensures events { AnswersForgetEvents }
    ensures steps { AnswersAreOfTheSteps }
{}

/// After any steps, the same cores are away as before.
pub fn cores_stay_home()
    ensures cores { CoresStay }
    ensures home { CoresStayHome }
{}

/// From a machine in which no reference is open, one serial order of whole instructions explains any steps, and if
/// again no reference is open, the machine is the flat machine after that order. The outcomes of the steps tell of the
/// events that the flat machine shows in that order: of a processor without an open reference they tell all, in their
/// order, and of each other processor all but at most the last.
pub fn runs_are_serialized()
    ensures each { RunsAreSerialized }
    ensures events { EventsAreShown }
{}

/// The flat machine that a machine's parts make has the processors at its ports and the words in its modules.
pub fn flat_states_are_read()
    ensures processors { FlatProcessorsAreRead }
    ensures words { FlatWordsAreRead }
{}
