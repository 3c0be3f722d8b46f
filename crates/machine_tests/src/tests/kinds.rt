//! Kinds of steps.

use flat_machine::Poke;
use steps::Step;
use test_support::assert_same;

/// A step is a turn, of the network, or a poke. A machine of two stages has place 3 of each kind, and one of one stage
/// has none but shared memory.
#[test]
fn each_step_is_of_one_kind(rt: HostRuntime) {
    let poke = Poke::Shared {
        address: 0x8000_0000,
        value: 1,
    };
    for (step, turn, is_network, is_poke) in [
        (Step::Turn(3), Some(3), false, false),
        (Step::Up { stage: 1, wire: 3 }, None, true, false),
        (Step::Serve(3), None, true, false),
        (Step::Down { stage: 1, wire: 3 }, None, true, false),
        (Step::Poke(poke), None, false, true),
    ] {
        assert_same!(rt; step.turn_processor(), turn, step);
        assert_same!(rt; step.is_turn(), turn.is_some(), step);
        assert_same!(rt; step.is_turn_of(3), turn.is_some(), step);
        assert!(rt; !step.is_turn_of(2), "{step:?}");
        assert_same!(rt; step.is_network(), is_network, step);
        assert_same!(rt; step.is_poke(), is_poke, step);
        assert!(rt; step.is_within(2), "{step:?}");
        assert_same!(rt; step.is_within(1), is_poke, step);
    }
}
