//! The serial order that the outcomes of steps give.

ghost use Rattle.std.specs.Prelude.{◌≡◌, ◌≤◌, ◌<◌, ◌+◌, ◌++◌, ◌∷◌, ℕ, [], length, IfOk};
ghost use Rattle.std.specs.Vec.{vec_capacity};
ghost use Rattle.flat_machine.specs.declared.poke.Entry.TheVariants as entry;
ghost use Rattle.machine_theory.specs.Theory as theory;
ghost use Rattle.machine_steps.specs.Ordering.{outcome_by, group_in, count_in, IsEntered, turn_tells, move_tells};
ghost use Rattle.machine_steps.specs.Ordering.{poke_tells};
ghost use Rattle.machine_theory.specs.Order.{group_after};

use arrayvec::ArrayVec;
use flat_machine::{Entry, Poke};
use std::alloc::{AllocError, Global};
use std::mem;
use steps::{Outcome, Step};

/// The processors for which a request stands, in their order: at most all of them.
type Group = ArrayVec<u8, 64>;

/// The number of leaders that a `u8` can name.
const LEADERS: usize = 256;

/// A serial order, which grows with the outcomes of steps.
///
/// Each reference is entered when it is served, together with its group.
#[derive(Drop)]
pub struct SerialOrder {
    /// The groups that wait to be served, by their leaders.
    groups: Vec<Group>,
    entries: Vec<Entry>,
}

impl SerialOrder {
    /// An empty order, with room for this many entries. No reference waits.
    ///
    /// # Errors
    ///
    /// [`AllocError`] if there is no memory for the entries and groups.
    #[tactic(auto, using(crate::proofs::Grouping::group_more, crate::proofs::Grouping::count_more))]
    pub fn new(alloc: Global, places: usize) -> Result<Self, AllocError>
        ensures leaders { IfOk result (λ order. length order.groups.items ≡ 256) }
        ensures groups { IfOk result (λ order. (p : ℕ) → group_in order.groups.items p ≡ []) }
        ensures entries { IfOk result (λ order. order.entries.items ≡ []) }
        ensures none { IfOk result (λ order. count_in order.groups.items ≡ 0) }
        ensures places { IfOk result (λ order. places ≤ vec_capacity order.entries) }
    {
        let entries = Vec::with_capacity(alloc, places)?;
        let mut groups = Vec::with_capacity(alloc, LEADERS)?;
        for _ in 0..LEADERS {
            groups.push(Group::new())?;
        }
        Ok(SerialOrder { groups, entries })
    }

    /// The entries, in their order.
    pub fn into_entries(self) -> Vec<Entry>
        ensures { result ≡ self.entries }
    {
        self.entries
    }

    /// Enters what a step did. `was_open` says whether it was a turn of an open processor.
    pub fn enter(&mut self, step: Step, was_open: bool, outcome: Outcome)
        requires leaders { length self.old.groups.items ≡ 256 }
        requires few { (p : ℕ) →
            length (group_after (group_in self.old.groups.items) (outcome_by step was_open outcome) p) ≤ 64 }
        requires room { length self.old.entries.items + count_in self.old.groups.items < vec_capacity self.old.entries }
        ensures entered { IsEntered self.old.groups.items self.old.entries.items
            (outcome_by step was_open outcome) self.new.groups.items self.new.entries.items }
        ensures capacity { vec_capacity self.new.entries ≡ vec_capacity self.old.entries }
    {
        match step {
            Step::Turn(p) => self.enter_turn(p, was_open, outcome),
            Step::Poke(poke) => self.enter_poke(poke, outcome),
            Step::Up { .. } | Step::Serve(_) | Step::Down { .. } => self.enter_move(outcome),
        }
    }

    /// Enters a local instruction or a stop at its turn. A reference begins as a group of its own.
    #[tactic(auto, using(crate::proofs::Grouping::enters_nothing, crate::proofs::Grouping::enters_one))]
    fn enter_turn(&mut self, p: u8, was_open: bool, outcome: Outcome)
        requires leaders { length self.old.groups.items ≡ 256 }
        requires room { length self.old.entries.items + count_in self.old.groups.items < vec_capacity self.old.entries }
        ensures entered { IsEntered self.old.groups.items self.old.entries.items
            (turn_tells p was_open outcome) self.new.groups.items self.new.entries.items }
        ensures capacity { vec_capacity self.new.entries ≡ vec_capacity self.old.entries }
    {
        match outcome {
            Outcome::Issued => self.begin(p),
            Outcome::Stopped(_) => self.entries.push_reserved(Entry::Processor(p)),
            Outcome::Retired(_) if !was_open => self.entries.push_reserved(Entry::Processor(p)),
            _ => {}
        }
    }

    /// Enters a poke that is written.
    #[tactic(auto, using(crate::proofs::Grouping::enters_nothing, crate::proofs::Grouping::enters_poke))]
    fn enter_poke(&mut self, poke: Poke, outcome: Outcome)
        requires room { length self.old.entries.items + count_in self.old.groups.items < vec_capacity self.old.entries }
        ensures entered { IsEntered self.old.groups.items self.old.entries.items
            (poke_tells poke outcome) self.new.groups.items self.new.entries.items }
        ensures capacity { vec_capacity self.new.entries ≡ vec_capacity self.old.entries }
    {
        if matches!(outcome, Outcome::Poked) {
            self.entries.push_reserved(Entry::Poke(poke));
        }
    }

    /// Joins groups whose requests are combined, and enters groups that are served.
    #[tactic(auto, using(crate::proofs::Grouping::enters_nothing))]
    fn enter_move(&mut self, outcome: Outcome)
        requires leaders { length self.old.groups.items ≡ 256 }
        requires few { (p : ℕ) → length (group_after (group_in self.old.groups.items) (move_tells outcome) p) ≤ 64 }
        requires room { length self.old.entries.items + count_in self.old.groups.items < vec_capacity self.old.entries }
        ensures entered { IsEntered self.old.groups.items self.old.entries.items
            (move_tells outcome) self.new.groups.items self.new.entries.items }
        ensures capacity { vec_capacity self.new.entries ≡ vec_capacity self.old.entries }
    {
        match outcome {
            Outcome::Combined { first, second } => self.join(first, second),
            Outcome::Served { leader } => self.serve(leader),
            _ => {}
        }
    }

    /// Begins a reference as a group of its own.
    #[tactic(auto, using(crate::proofs::Grouping::enters_issue))]
    fn begin(&mut self, p: u8)
        requires leaders { length self.old.groups.items ≡ 256 }
        ensures entered { IsEntered self.old.groups.items self.old.entries.items
            (theory.Issued p) self.new.groups.items self.new.entries.items }
        ensures entries { self.new.entries ≡ self.old.entries }
    {
        self.groups[usize::from(p)] = one(p);
    }

    /// Appends the second leader's group to the first's.
    #[tactic(auto, using(crate::proofs::Grouping::enters_combined))]
    fn join(&mut self, first: u8, second: u8)
        requires leaders { length self.old.groups.items ≡ 256 }
        requires few { (p : ℕ) →
            length (group_after (group_in self.old.groups.items) (theory.Combined first second) p) ≤ 64 }
        ensures entered { IsEntered self.old.groups.items self.old.entries.items
            (theory.Combined first second) self.new.groups.items self.new.entries.items }
        ensures entries { self.new.entries ≡ self.old.entries }
    {
        let (first, second) = (usize::from(first), usize::from(second));
        let front = self.groups[first].as_slice();
        let back = self.groups[second].as_slice();
        let both = join_groups(front, back);
        self.groups[first] = both;
        self.groups[second] = Group::new();
    }

    /// Enters the leader's group, one processor after another. Then it no longer waits.
    #[tactic(auto, using(crate::proofs::Grouping::enters_served))]
    fn serve(&mut self, leader: u8)
        requires leaders { length self.old.groups.items ≡ 256 }
        requires room { length self.old.entries.items + count_in self.old.groups.items ≤ vec_capacity self.old.entries }
        ensures entered { IsEntered self.old.groups.items self.old.entries.items
            (theory.Served leader) self.new.groups.items self.new.entries.items }
        ensures capacity { vec_capacity self.new.entries ≡ vec_capacity self.old.entries }
    {
        let group = mem::replace(&mut self.groups[usize::from(leader)], Group::new());
        for p in group.as_slice() {
            self.entries.push_reserved(Entry::Processor(*p));
        }
    }
}

/// The group of one processor.
fn one(p: u8) -> Group
    ensures { result.items ≡ p ∷ [] }
{
    let mut group = Group::new();
    group.push(p);
    group
}

/// One group followed by another. What has no room is left out.
fn join_groups(front: &[u8], back: &[u8]) -> Group
    ensures { length front.now + length back.now ≤ 64 → result.items ≡ front.now ++ back.now }
{
    let mut group = Group::new();
    let _ = group.try_extend_from_slice(front);
    let _ = group.try_extend_from_slice(back);
    group
}
