//! Laws of exchanges of processors that are alike. Each law is the contract of a function that does nothing.

ghost use Rattle.local_reduction.specs.Laws.{EachExchangeIsReached, MovesAreOfAny, MovesUpToAreTurns};
ghost use Rattle.local_reduction.specs.Laws.{NumbersAreNotAskedFor, SetsClosedUpToAreNotLeft};
ghost use Rattle.local_reduction.specs.Laws.{SetsClosedUpToContainAllFinalStates, ShortUpToSchedulesEnd};

/// Turns alone that do not ask for the processor's own number are the same for any number.
pub fn numbers_are_not_asked_for()
    ensures same { NumbersAreNotAskedFor }
{}

/// A move after which the processor never asks for its own number can be made by any processor of its class.
pub fn moves_are_of_any()
    ensures any { MovesAreOfAny }
{}

/// A set of states that is closed up to exchanges, and has the state that a flat machine reaches, has each end of
/// that machine up to an exchange. It is closed up to exchanges if it has with each state those after a reference of
/// each of its processors, up to exchanges of processors of one class, or a processor of that state spins.
pub fn sets_closed_up_to_contain_all_final_states()
    ensures ends { SetsClosedUpToContainAllFinalStates }
{}

/// After any turns, the machine reaches an exchange of a state of such a set, if no processor spins.
pub fn sets_closed_up_to_are_not_left()
    ensures stays { SetsClosedUpToAreNotLeft }
{}

/// Such a set need have no other states: if references lead to a state up to exchanges, some order of turns leads to an
/// exchange of it.
pub fn moves_up_to_are_turns()
    ensures turns { MovesUpToAreTurns }
{}

/// If processors of one class begin in equal states, some order of turns leads to each exchange of a state that is
/// reached.
pub fn each_exchange_is_reached()
    ensures each { EachExchangeIsReached }
{}

/// If the number of references that follow one another up to exchanges is bounded, every schedule ends.
pub fn short_up_to_schedules_end()
    ensures ends { ShortUpToSchedulesEnd }
{}
