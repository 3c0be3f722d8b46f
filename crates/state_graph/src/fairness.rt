//! Ranks by which fair schedules end.
//!
//! A schedule is fair if each processor that runs takes turns again and again. It ends if each state has a rank and a
//! processor as its helper, so that no move raises the rank, and each move of the helper lowers it. [`fair_ranks_of`]
//! looks for such ranks, by rounds: of the states that have none yet, it ranks those from which moves can lead to no
//! state without a rank in which a certain processor stays without a rank when it moves. In model checking, the others
//! are the states from which fair cycles can be reached (Emerson and Lei). [`are_fair`] checks what was found, so that
//! nothing rests on how it was found.

ghost use Rattle.std.specs.Prelude.{◌≡◌, ◌≤◌, length, IsTrue};
ghost use Rattle.state_graph.specs.Fairness.{AreFairRanks, IsFairFor, IsFairMove, MayLead, helper_at, no_move};
ghost use Rattle.state_graph.specs.Fairness.{target_in};
ghost use Rattle.state_graph.specs.Ranks.{no_rank, rank_at};

use crate::ranks::{NO_RANK, rank_of};
use crate::successors::Successors;
use std::alloc::{AllocError, Global};

/// The target of a processor that has no move.
pub const NO_MOVE: u32 = u32::MAX;

/// A rank and a helper for each state.
#[derive(Drop)]
pub struct FairRanks {
    pub ranks: Vec<u32>,
    pub helpers: Vec<u8>,
}

/// Ranks as many states as it can, given the targets of each state: for each of this many processors, the place of the
/// state to which its move leads, or [`NO_MOVE`].
pub(crate) fn fair_ranks_of(
    alloc: Global,
    processors: u8,
    targets: &Successors,
) -> Result<FairRanks, AllocError> {
    let mut ranking = Ranking::new(alloc, targets.len())?;
    let mut marks = Vec::new(alloc);
    marks.resize(targets.len(), false)?;
    for _ in 0..targets.len() {
        let is_changed = ranking.rank_settled(targets)
            || ranking.rank_unreturning(processors, targets, marks.as_mut_slice());
        if !is_changed {
            break;
        }
    }
    let Ranking { ranks, helpers, .. } = ranking;
    Ok(FairRanks { ranks, helpers })
}

// ---- the check

/// Whether each state may have its rank and helper.
pub(crate) fn are_fair(targets: &Successors, ranks: &[u32], helpers: &[u8]) -> bool
    requires few { length targets.now ≤ no_rank }
    ensures { IsTrue result → AreFairRanks targets.now ranks.now helpers.now }
{
    for at in 0..targets.len() {
        let (rank, helper) = (rank_of(ranks, at as u32), helper_of(helpers, at));
        if !is_fair_for(targets.of(at), ranks, helpers, rank, helper) {
            return false;
        }
    }
    true
}

/// Whether a state with these targets may have this rank and helper.
fn is_fair_for(list: &[u32], ranks: &[u32], helpers: &[u8], rank: u32, helper: u8) -> bool
    ensures { IsTrue result → IsFairFor ranks.now helpers.now rank helper list.now }
{
    for k in 0..list.len() {
        if !is_fair_move(list, ranks, helpers, rank, helper, k) {
            return false;
        }
    }
    true
}

/// Whether a state with these targets may have this rank and helper, as far as processor `k` is concerned.
fn is_fair_move(
    list: &[u32],
    ranks: &[u32],
    helpers: &[u8],
    rank: u32,
    helper: u8,
    k: usize,
) -> bool
    ensures { IsTrue result → IsFairMove ranks.now helpers.now rank helper list.now k }
{
    let target = target_in(list, k);
    target == NO_MOVE
        || target_in(list, usize::from(helper)) != NO_MOVE
            && may_lead(ranks, helpers, rank, helper, k, target)
}

/// Whether a move of processor `k` from a state of this rank and helper may lead to a target.
fn may_lead(ranks: &[u32], helpers: &[u8], rank: u32, helper: u8, k: usize, target: u32) -> bool
    ensures { IsTrue result → MayLead ranks.now helpers.now rank helper k target }
{
    let next = rank_of(ranks, target);
    next < rank
        || next == rank && helper_of(helpers, target as usize) == helper && k != usize::from(helper)
}

/// The target of a processor in a list.
pub(crate) fn target_in(list: &[u32], k: usize) -> u32
    ensures is { result ≡ target_in list.now k }
    ensures most { result ≤ no_move }
{
    match list.get(k) {
        Some(target) => *target,
        None => NO_MOVE,
    }
}

/// The helper of the state at a place.
fn helper_of(helpers: &[u8], place: usize) -> u8
    ensures { result ≡ helper_at helpers.now place }
{
    match helpers.get(place) {
        Some(helper) => *helper,
        None => 0,
    }
}

// ---- the search

/// Ranks that are being found.
#[derive(Drop)]
struct Ranking {
    ranks: Vec<u32>,
    helpers: Vec<u8>,
    /// The next rank.
    next: u32,
}

impl Ranking {
    /// No rank for any of this many states.
    fn new(alloc: Global, count: usize) -> Result<Self, AllocError> {
        let mut ranks = Vec::new(alloc);
        ranks.resize(count, NO_RANK)?;
        let mut helpers = Vec::new(alloc);
        helpers.resize(count, 0)?;
        Ok(Ranking {
            ranks,
            helpers,
            next: 0,
        })
    }

    /// Whether the state at a place has a rank.
    fn is_ranked(&self, place: usize) -> bool {
        match self.ranks.get(place) {
            Some(rank) => *rank != NO_RANK,
            None => true,
        }
    }

    /// Gives a state the next rank, and this helper.
    fn set(&mut self, place: usize, helper: u8) {
        if let Some(rank) = self.ranks.as_mut_slice().get_mut(place) {
            *rank = self.next;
        }
        if let Some(it) = self.helpers.as_mut_slice().get_mut(place) {
            *it = helper;
        }
    }

    /// Ranks each state whose moves lead to ranked states or back to it, and of which some move leads to a ranked
    /// state; also each without moves. Returns whether there was one.
    fn rank_settled(&mut self, targets: &Successors) -> bool {
        let count = targets.len();
        let mut is_changed = false;
        for back in 0..count {
            let at = count - 1 - back;
            if self.is_ranked(at) {
                continue;
            }
            if let Some(helper) = self.settled_helper(targets.of(at), at) {
                self.set(at, helper);
                self.next = self.next.saturating_add(1);
                is_changed = true;
            }
        }
        is_changed
    }

    /// The first processor whose move leads to a ranked state, if each other move leads to a ranked state or back to
    /// this one; 0 if there are no moves.
    fn settled_helper(&self, list: &[u32], at: usize) -> Option<u8> {
        let mut helper = None;
        let mut has_moves = false;
        let mut k = 0u8;
        for target in list {
            if *target != NO_MOVE {
                has_moves = true;
                let place = *target as usize;
                if self.is_ranked(place) {
                    helper = helper.or(Some(k));
                } else if place != at {
                    return None;
                }
            }
            k = k.saturating_add(1);
        }
        if has_moves { helper } else { Some(0) }
    }

    /// Takes the first processor for which there are states without a rank from which moves among such states lead to
    /// none where the processor stays among them when it moves, or has no move. Ranks those, with this helper. Returns
    /// whether there was one.
    fn rank_unreturning(
        &mut self,
        processors: u8,
        targets: &Successors,
        marks: &mut [bool],
    ) -> bool {
        for helper in 0..processors {
            self.mark_staying(helper, targets, marks);
            for _ in 0..targets.len() {
                if !self.spread(targets, marks) {
                    break;
                }
            }
            if self.rank_unmarked(helper, marks) {
                return true;
            }
        }
        false
    }

    /// Marks the states without a rank where a processor stays among them when it moves, or has no move, and no others.
    fn mark_staying(&self, helper: u8, targets: &Successors, marks: &mut [bool]) {
        let mut at = 0;
        for mark in marks.iter_mut() {
            let target = target_in(targets.of(at), usize::from(helper));
            *mark = !self.is_ranked(at) && (target == NO_MOVE || !self.is_ranked(target as usize));
            at = at.saturating_add(1);
        }
    }

    /// Marks states without a rank of which a move leads to a marked state. Returns whether there was one.
    fn spread(&self, targets: &Successors, marks: &mut [bool]) -> bool {
        let count = targets.len();
        let mut is_changed = false;
        for back in 0..count {
            let at = count - 1 - back;
            if !self.is_ranked(at)
                && !is_marked(marks, at)
                && leads_to_marked(targets.of(at), marks)
            {
                if let Some(mark) = marks.get_mut(at) {
                    *mark = true;
                    is_changed = true;
                }
            }
        }
        is_changed
    }

    /// Ranks all states that have no rank and no mark alike, with this helper. Returns whether there was one.
    fn rank_unmarked(&mut self, helper: u8, marks: &[bool]) -> bool {
        let mut is_changed = false;
        for at in 0..marks.len() {
            if !is_marked(marks, at) && !self.is_ranked(at) {
                self.set(at, helper);
                is_changed = true;
            }
        }
        self.next = self.next.saturating_add(1);
        is_changed
    }
}

/// Whether the state at a place is marked.
fn is_marked(marks: &[bool], place: usize) -> bool {
    match marks.get(place) {
        Some(mark) => *mark,
        None => false,
    }
}

/// Whether some target is marked.
fn leads_to_marked(list: &[u32], marks: &[bool]) -> bool {
    list.iter().any(|target| is_marked(marks, *target as usize))
}
