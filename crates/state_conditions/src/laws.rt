//! What exchanges of processors do to conditions, as the contract of a function that does nothing.

ghost use Rattle.state_conditions.specs.Laws.{ExchangesKeepConditions};

/// A property is broken by a state exactly if it is broken by the state with its processors in other places.
pub fn exchanges_keep_conditions()
    ensures kept { ExchangesKeepConditions }
{}
