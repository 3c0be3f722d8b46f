//! Laws of the lists of events that steps give. Each is the contract of a function that does nothing.

ghost use Rattle.machine_lock.specs.Laws.{EventsAreListed, ListsAreJoined, PlacesRise, StoppedAreShut};

/// Places rise along the list of each processor.
#[tactic(auto, using(crate::proofs::Rising::places_rise))]
pub fn places_rise()
    ensures rising { PlacesRise }
{}

/// The list over steps and then others is the list over the steps, followed by that over the others.
#[tactic(auto, using(crate::proofs::Lists::pass_events_joined))]
pub fn lists_are_joined()
    ensures joined { ListsAreJoined }
{}

/// A processor's list has the events that the outcomes of the steps have for it. So by the law
/// [`machine_steps::runs_are_serialized`] they are events that the flat machine shows by the serial order, in that
/// order.
#[tactic(auto, using(crate::proofs::Listing::events_are_listed))]
pub fn events_are_listed()
    ensures listed { EventsAreListed }
{}

/// A processor whose list ends with its stop has no reference open.
#[tactic(auto, using(crate::proofs::Stopping::stopped_are_shut))]
pub fn stopped_are_shut()
    ensures shut { StoppedAreShut }
{}
