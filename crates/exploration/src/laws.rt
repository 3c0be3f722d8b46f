//! Laws of results up to exchanges. Each is the contract of a function that does nothing.

ghost use Rattle.exploration.specs.Laws.{ExploringEitherWayStandsForTheSame, ResultsAreClosedUnderExchange};

pub use crate::result_laws::results_are_those_of_the_flat_machine;

/// If a list stands for the results of a machine, every exchange of a result of the machine is again one.
pub fn results_are_closed_under_exchange()
    ensures closed { ResultsAreClosedUnderExchange }
{}

/// Whatever the classes, two lists that stand for the results of one machine stand for the same results.
pub fn exploring_either_way_stands_for_the_same()
    ensures same { ExploringEitherWayStandsForTheSame }
{}
