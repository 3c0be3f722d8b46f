//! The groups of the requests in the network.

ghost use Rattle.std.specs.Prelude.{◌≡◌, ◌∷◌, [], IfOk, OnOk, slice_set};
ghost use Rattle.steps.specs.Groups.{group_in, groups_after, issued, joined, no_groups};

use crate::group::Group;
use crate::step::{Outcome, Step};
use std::alloc::{AllocError, Global};
use std::marker::Model;

/// For each processor, the group of the request that it leads.
#[derive(Debug, Drop)]
pub struct Groups {
    groups: Vec<Group>,
}

impl Model for Groups {
    ghost use Rattle.std.specs.Prelude.{ℕ, List};

    ghost Value = { List (List ℕ) };

    ghost view = { λ g. g.groups.items };
}

impl Groups {
    /// The groups before any step: all are empty.
    ///
    /// # Errors
    ///
    /// [`AllocError`] if there is no memory for them.
    pub fn new(alloc: Global) -> Result<Self, AllocError>
        ensures { IfOk result (λ g. g ≡ no_groups) }
    {
        let mut groups = Vec::new(alloc);
        for _ in 0..256_u16 {
            groups.push(Group::new(alloc))?;
        }
        Ok(Groups { groups })
    }

    /// The group of a leader, the leader first.
    pub fn of(&self, leader: u8) -> &[u8]
        ensures { result.now ≡ group_in self.now leader }
    {
        match self.groups.get(usize::from(leader)) {
            Some(group) => group.members(),
            None => &[],
        }
    }

    /// Updates the groups by what a step did.
    ///
    /// # Errors
    ///
    /// [`AllocError`] if there is no memory for the group.
    pub fn observe(
        &mut self,
        alloc: Global,
        step: &Step,
        outcome: &Outcome,
    ) -> Result<(), AllocError>
        ensures { OnOk result (self.new ≡ groups_after self.old step.now outcome.now) }
    {
        match *outcome {
            Outcome::Issued => self.issue(alloc, step),
            Outcome::Combined { first, second } => self.join(alloc, first, second),
            _ => Ok(()),
        }
    }

    /// A processor's turn has sent a request: its group is the processor alone.
    fn issue(&mut self, alloc: Global, step: &Step) -> Result<(), AllocError>
        ensures { OnOk result (self.new ≡ issued self.old step.now) }
    {
        match *step {
            Step::Turn(p) => {
                let alone = Vec::from_slice(alloc, &[p])?;
                self.set(p, alone);
                Ok(())
            }
            _ => Ok(()),
        }
    }

    /// The request of the second leader is combined into that of the first.
    fn join(&mut self, alloc: Global, first: u8, second: u8) -> Result<(), AllocError>
        ensures { OnOk result (self.new ≡ joined self.old first second) }
    {
        let mut both = Vec::from_slice(alloc, self.of(first))?;
        both.extend_from_slice(self.of(second))?;
        self.set(first, both);
        Ok(())
    }

    /// Sets the group of a leader.
    fn set(&mut self, leader: u8, members: Vec<u8>)
        ensures { self.new ≡ slice_set self.old leader members.items }
    {
        let place = usize::from(leader);
        if place < self.groups.len() {
            self.groups[place] = Group::of(members);
        }
    }
}
