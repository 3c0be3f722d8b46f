//! Laws of live registers. Each law is the contract of a function that does nothing.

ghost use Rattle.local_reduction.specs.Forgetting.{DeadAreForgotten, DeadAreNotKept};

use crate::laws;

/// What is written to a register that is not live is not kept.
pub fn dead_registers_are_not_kept()
    ensures not_kept { DeadAreNotKept }
{}

/// The contents of registers that are not live can be forgotten, and so can all registers and the local memory of a
/// processor that has stopped.
pub fn dead_registers_can_be_forgotten()
    ensures forgotten { DeadAreForgotten }
{
    laws::stopped_processors_can_be_forgotten();
}
