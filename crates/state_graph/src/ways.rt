//! Shortest ways among the states without a rank.

use crate::fairness::{NO_MOVE, target_in};
use crate::ranks::{NO_RANK, rank_of};
use crate::successors::Successors;
use std::alloc::{AllocError, Global};

/// The most states that all searches together may look at.
const MAX_VISITS: u32 = 50_000_000;

/// To which state a way leads.
#[derive(Clone, Copy, Debug, PartialEq, Eq, Drop)]
pub(crate) enum Goal {
    /// To one in which this processor has a move to a state without a rank, or has no move.
    Turn(u8),
    /// To one that is marked.
    Marked,
}

/// How a search reached a state.
#[derive(Clone, Copy, Debug, PartialEq, Eq, Drop)]
struct Arrival {
    /// The number of the search, counted from 1.
    search: u32,
    /// The place from which the move led.
    from: u32,
    /// The processor that moved.
    mover: u8,
}

/// The searches for ways, breadth first.
#[derive(Drop)]
pub(crate) struct Ways {
    /// The last arrival at each state.
    arrivals: Vec<Arrival>,
    /// The states that this search has reached, in their order.
    reached: Vec<u32>,
    /// Which states are marked.
    marks: Vec<bool>,
    /// The number of this search.
    search: u32,
    /// The number of states that all searches have looked at.
    visits: u32,
}

impl Ways {
    /// No search yet, and no mark, among this many states.
    pub(crate) fn new(alloc: Global, count: usize) -> Result<Self, AllocError> {
        let none = Arrival {
            search: 0,
            from: 0,
            mover: 0,
        };
        let mut arrivals = Vec::new(alloc);
        arrivals.resize(count, none)?;
        let mut marks = Vec::new(alloc);
        marks.resize(count, false)?;
        Ok(Ways {
            arrivals,
            reached: Vec::new(alloc),
            marks,
            search: 0,
            visits: 0,
        })
    }

    /// Marks the state at a place.
    pub(crate) fn mark(&mut self, place: u32) {
        if let Some(mark) = self.marks.as_mut_slice().get_mut(place as usize) {
            *mark = true;
        }
    }

    /// The processors whose moves, one after another, lead from a state among those without a rank to the nearest that
    /// is the goal. None if none is, or all searches together have looked at more than [`MAX_VISITS`] states.
    pub(crate) fn to(
        &mut self,
        alloc: Global,
        targets: &Successors,
        ranks: &[u32],
        start: u32,
        goal: Goal,
    ) -> Result<Option<Vec<u8>>, AllocError> {
        self.search = self.search.saturating_add(1);
        self.reached.clear();
        self.reach(start, start, 0)?;
        for next in 0..targets.len() {
            self.visits = self.visits.saturating_add(1);
            let Some(at) = self.reached.get(next).copied() else {
                return Ok(None);
            };
            if self.visits > MAX_VISITS {
                return Ok(None);
            }
            if self.is_goal(targets, ranks, at, goal) {
                return Ok(Some(self.way_from(alloc, start, at)?));
            }
            self.expand(targets, ranks, at)?;
        }
        Ok(None)
    }

    /// Whether the state at a place is the goal.
    fn is_goal(&self, targets: &Successors, ranks: &[u32], place: u32, goal: Goal) -> bool {
        match goal {
            Goal::Turn(k) => {
                let target = target_in(targets.of(place as usize), usize::from(k));
                target == NO_MOVE || rank_of(ranks, target) == NO_RANK
            }
            Goal::Marked => match self.marks.get(place as usize) {
                Some(mark) => *mark,
                None => false,
            },
        }
    }

    /// Reaches the states without a rank to which moves from the state at a place lead.
    fn expand(
        &mut self,
        targets: &Successors,
        ranks: &[u32],
        place: u32,
    ) -> Result<(), AllocError> {
        let mut k = 0u8;
        for target in targets.of(place as usize) {
            if *target != NO_MOVE
                && rank_of(ranks, *target) == NO_RANK
                && !self.is_reached(*target)
            {
                self.reach(*target, place, k)?;
            }
            k = k.saturating_add(1);
        }
        Ok(())
    }

    /// Whether this search has reached the state at a place. One that does not exist counts as reached.
    fn is_reached(&self, place: u32) -> bool {
        match self.arrivals.get(place as usize) {
            Some(arrival) => arrival.search == self.search,
            None => true,
        }
    }

    /// Enters that a move of a processor has reached the state at a place.
    fn reach(&mut self, place: u32, from: u32, mover: u8) -> Result<(), AllocError> {
        let search = self.search;
        if let Some(arrival) = self.arrivals.as_mut_slice().get_mut(place as usize) {
            *arrival = Arrival {
                search,
                from,
                mover,
            };
        }
        self.reached.push(place)?;
        Ok(())
    }

    /// The movers on the way from one state to another, which this search has reached from it.
    fn way_from(&self, alloc: Global, start: u32, end: u32) -> Result<Vec<u8>, AllocError> {
        let mut way = Vec::new(alloc);
        let mut at = end;
        for _ in 0..self.reached.len() {
            if at == start {
                break;
            }
            if let Some(arrival) = self.arrivals.get(at as usize) {
                way.push(arrival.mover)?;
                at = arrival.from;
            }
        }
        way.reverse();
        Ok(way)
    }
}
