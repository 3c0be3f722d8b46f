//! The group of one request.

ghost use Rattle.std.specs.Prelude.{◌≡◌, []};

use std::alloc::Global;
use std::marker::Model;

/// The processors for which a request stands, in the order in which they are served.
#[derive(Debug, Drop)]
pub struct Group {
    members: Vec<u8>,
}

impl Model for Group {
    ghost use Rattle.std.specs.Prelude.{ℕ, List};

    ghost Value = { List ℕ };

    ghost view = { λ g. g.members.items };
}

impl Group {
    /// A group of no processors.
    pub fn new(alloc: Global) -> Self
        ensures { result ≡ [] }
    {
        Group {
            members: Vec::new(alloc),
        }
    }

    /// The group of these processors.
    pub fn of(members: Vec<u8>) -> Self
        ensures { result ≡ members.items }
    {
        Group { members }
    }

    /// The processors of the group, in their order.
    pub fn members(&self) -> &[u8]
        ensures { result.now ≡ self.now }
    {
        self.members.as_slice()
    }
}
