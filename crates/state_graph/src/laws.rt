//! Laws of the states that a search has found. Each law is the contract of a function that does nothing.

ghost use Rattle.state_graph.specs.Laws.{AllStoodForAreResults, EachFoundStateIsReached, EachResultIsStoodFor};
ghost use Rattle.state_graph.specs.Laws.{EachSpinnerIsReached, EachStateIsStoodFor, SuccessorsDecideTermination};

use local_reduction::laws;

/// What the successors of states say about schedules is true.
pub fn successors_decide_termination()
    ensures termination_claim { SuccessorsDecideTermination }
{
    laws::sets_closed_up_to_contain_all_final_states();
    laws::sets_closed_up_to_are_not_left();
    laws::moves_up_to_are_turns();
    laws::short_up_to_schedules_end();
}

/// For each result of the flat machine there is a state whose result stands for it.
pub fn each_result_is_stood_for()
    ensures complete { EachResultIsStoodFor }
{
    laws::sets_closed_up_to_contain_all_final_states();
}

/// All results for which the result of a state stands are results of the flat machine.
pub fn all_stood_for_are_results()
    ensures sound { AllStoodForAreResults }
{
    laws::each_exchange_is_reached();
}

/// If no processor spins, each state between references that the flat machine reaches shows what a found state shows,
/// up to an exchange.
pub fn each_state_is_stood_for()
    ensures complete { EachStateIsStoodFor }
{
    laws::sets_closed_up_to_are_not_left();
}

/// The flat machine reaches what each found state shows, up to an exchange; and a processor that spins, if one does in
/// a found state.
pub fn each_found_state_is_reached()
    ensures reached { EachFoundStateIsReached }
    ensures spins { EachSpinnerIsReached }
{
    laws::moves_up_to_are_turns();
}
