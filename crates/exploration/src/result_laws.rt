//! Laws of results. Each is the contract of a function that does nothing.

ghost use Rattle.exploration.specs.ResultLaws.{ResultsAreThoseOfTheFlatMachine};

/// A machine in which no reference is open has exactly the results of its flat machine, whatever the sizes of its
/// queues and buffers: steps without writes from outside lead to a result exactly if some order of whole instructions
/// does.
pub fn results_are_those_of_the_flat_machine()
    ensures results { ResultsAreThoseOfTheFlatMachine }
{}
