//! Laws of counts and latencies: contracts of functions that do nothing.

ghost use Rattle.run_counts.specs.Counting.{NotesGoOn};
ghost use Rattle.run_counts.specs.Counts.{CountsGoOn};
ghost use Rattle.run_counts.specs.Latencies.{LatenciesGoOn, ReferencesTakeRounds};

/// The counts of no step are 0, and each further step increases the counts that count it.
#[tactic(auto, using(crate::proofs::Going::counts_more, crate::proofs::Going::notes_more))]
pub fn counts_go_on()
    ensures counts { CountsGoOn }
    ensures observer { NotesGoOn }
{}

/// Before any step there are no latencies, each step adds its own, and no step begins two rounds.
#[tactic(auto, using(crate::proofs::LatencySteps::latencies_more))]
pub fn latencies_go_on()
    ensures { LatenciesGoOn }
{}

/// A reference takes the rounds from the step that sends its request to the step that retires it.
#[tactic(auto, using(crate::proofs::LatencySteps::references_take))]
pub fn references_take_rounds()
    ensures { ReferencesTakeRounds }
{}
