//! Laws of states between references. Each law is the contract of a function that does nothing.

ghost use Rattle.local_reduction.specs.Laws.{ClosedSetsAreNotLeft, ClosedSetsContainAllFinalStates, MovesAreTurns};
ghost use Rattle.local_reduction.specs.Laws.{FairCyclesNeverEnd, FairlyRankedSchedulesEnd, MovesOfWhatIsKept};
ghost use Rattle.local_reduction.specs.Laws.{ShortSchedulesEnd};
ghost use Rattle.local_reduction.specs.Laws.{StoppedAreForgotten};
ghost use Rattle.local_reduction.specs.Laws.{WhatComesBackNeverAsks, WhatComesBackSpins};

pub use crate::exchanges::{
    each_exchange_is_reached, moves_are_of_any, moves_up_to_are_turns, numbers_are_not_asked_for,
    sets_closed_up_to_are_not_left, sets_closed_up_to_contain_all_final_states,
    short_up_to_schedules_end,
};
pub use crate::live_laws::{dead_registers_are_not_kept, dead_registers_can_be_forgotten};

/// A closed set of states that has the state that a flat machine reaches has each end of that machine: what is kept
/// of each state in which all processors have stopped, and of what they have printed. A set is closed if it has with
/// each state those after a reference of each of its processors, or a processor of that state spins.
pub fn closed_sets_contain_all_final_states()
    ensures ends { ClosedSetsContainAllFinalStates }
{}

/// After any turns, the machine reaches a state of a closed set, if no processor spins.
pub fn closed_sets_are_not_left()
    ensures stays { ClosedSetsAreNotLeft }
{}

/// A closed set need have no other states: each state to which references lead is what is kept of the flat machine
/// after some order of turns.
pub fn moves_are_turns()
    ensures turns { MovesAreTurns }
{}

/// A move can be made from any local state of which the state has what is kept.
pub fn moves_are_of_what_is_kept()
    ensures made { MovesOfWhatIsKept }
{}

/// The registers and the local memory of a processor that has stopped can be forgotten.
pub fn stopped_processors_can_be_forgotten()
    ensures forgotten { StoppedAreForgotten }
{}

/// If turns alone, in each of which it goes on, bring a processor back to where it was, it spins.
pub fn what_comes_back_spins()
    ensures spins { WhatComesBackSpins }
    ensures quiet { WhatComesBackNeverAsks }
{}

/// If the number of references that follow one another is bounded, every schedule ends.
pub fn short_schedules_end()
    ensures ends { ShortSchedulesEnd }
{}

/// If states have ranks that never rise, and that fall as soon as the helper of a state moves, every fair schedule
/// ends.
pub fn fairly_ranked_schedules_end()
    ensures ends { FairlyRankedSchedulesEnd }
{}

/// If references lead from the state that a flat machine reaches to another, and from there back to it, and each
/// processor that is about to refer to a word there makes one of the latter, some fair schedule never ends: its
/// references are these, and then those that lead back, again and again.
pub fn fair_cycles_never_end()
    ensures endless { FairCyclesNeverEnd }
{}
