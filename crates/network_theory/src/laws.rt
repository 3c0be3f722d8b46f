//! What combining, answering and serving do. Each law is the contract of a function that does nothing.

ghost use Rattle.network_theory.specs.Changes.{AnsweringGivesEachItsOwn, AnsweringKeepsPlaces, CombiningJoinsGroups};
ghost use Rattle.network_theory.specs.Changes.{CombiningKeepsPlaces, ServingEndsTheGroup, ServingExecutesTheGroup};

pub use crate::path_laws::messages_keep_to_paths;

/// A request is combined with an entry of a queue: each message and record is where its role says, and the entry stands
/// for both groups.
pub fn combining()
    ensures places { CombiningKeepsPlaces }
    ensures meaning { CombiningJoinsGroups }
{}

/// A reply is answered at an output, for any number of records: each message and record is where its role says, and
/// each processor gets what it is owed.
pub fn answering()
    ensures places { AnsweringKeepsPlaces }
    ensures meaning { AnsweringGivesEachItsOwn }
{}

/// A module executes a request: the whole group is executed, one processor after another.
pub fn serving()
    ensures meaning { ServingExecutesTheGroup }
    ensures groups { ServingEndsTheGroup }
{}
