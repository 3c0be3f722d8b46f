//! Laws of groups: contracts of functions that do nothing.

ghost use Rattle.steps.specs.Groups.{GroupsGoOn};

/// Before any step all groups are empty, and each step updates them.
#[tactic(auto, using(crate::proofs::Going::groups_more))]
pub fn groups_go_on()
    ensures { GroupsGoOn }
{}
