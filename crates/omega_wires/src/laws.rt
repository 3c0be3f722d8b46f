//! Laws of every path through the network, each the contract of a function that does nothing.

ghost use Rattle.omega_wires.specs.Laws.{PathEndsAtTheModule, PathsStayOnWires, PathsThatMeetStayTogether};
ghost use Rattle.omega_wires.specs.Laws.{RepliesEndAtTheirLeader, RepliesGoBackTheSameWay, RotationsAreInverse};
ghost use Rattle.omega_wires.specs.Laws.{RotationsStayOnWires};

pub use crate::set_laws::no_bits_no_wires;

/// Each rotation undoes the other, and both take wires to wires.
pub fn rotations_are_inverse()
    ensures inverse { RotationsAreInverse }
    ensures small { RotationsStayOnWires }
{}

/// Each place of a path is a wire of the network.
pub fn paths_stay_on_wires()
    ensures { PathsStayOnWires }
{}

/// After the last stage a message is on the wire of its module.
pub fn path_ends_at_the_module()
    ensures { PathEndsAtTheModule }
{}

/// A reply passes the wires of its request's path in reverse, and ends at its leader.
pub fn replies_go_back_the_same_way()
    ensures each { RepliesGoBackTheSameWay }
    ensures end { RepliesEndAtTheirLeader }
{}

/// Two messages to one module that are on the same wire have the rest of their paths in common.
pub fn paths_that_meet_stay_together()
    ensures { PathsThatMeetStayTogether }
{}
