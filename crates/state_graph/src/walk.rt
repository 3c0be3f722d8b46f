//! The search for a lasso: a walk among the states without a rank, from the first state on.
//!
//! In each round, each processor in its turn makes a move that leads to a state without a rank. If it has no such
//! move, moves of others lead first to the nearest state in which it has one, or has stopped. The walk is closed as
//! soon as it is in a state in which it was before, and each processor that has a move there has moved since.

use crate::fairness::{NO_MOVE, target_in};
use crate::lasso::{Lasso, place_after};
use crate::successors::Successors;
use crate::ways::{Goal, Ways};
use std::alloc::{AllocError, Global};

/// The most moves of a walk.
const MAX_MOVES: usize = 100_000;

/// The time of what has not happened yet.
const NEVER: usize = usize::MAX;

/// Finds a lasso among the states that have no rank. None if the walk is not closed within [`MAX_MOVES`] moves, or the
/// ways that it takes are too long to find.
pub(crate) fn lasso_of(
    alloc: Global,
    processors: u8,
    targets: &Successors,
    ranks: &[u32],
) -> Result<Option<Lasso>, AllocError> {
    let mut ways = Ways::new(alloc, targets.len())?;
    let mut walk = Walk::new(alloc, targets.len(), processors)?;
    if walk.close(alloc, processors, targets, ranks, &mut ways)? {
        let start = walk.start(targets);
        walk.lasso(alloc, targets, ranks, &mut ways, start)
    } else {
        Ok(None)
    }
}

/// How far a walk is.
#[derive(Clone, Copy, Debug, PartialEq, Eq, Drop)]
enum Stage {
    /// It goes on.
    Open,
    /// Its last moves are a cycle.
    Closed,
    /// It cannot go on.
    Stuck,
}

/// A walk. Its time is the number of its moves.
#[derive(Drop)]
struct Walk {
    /// The place of its state.
    at: u32,
    /// The processor of each move.
    movers: Vec<u8>,
    /// The place from which each move leads.
    places: Vec<u32>,
    /// For each state, the time when the walk was first in it.
    first: Vec<usize>,
    /// For each processor, the time after its last move, or 0.
    last: Vec<usize>,
}

impl Walk {
    /// A walk of this many processors that begins in the first of this many states.
    fn new(alloc: Global, count: usize, processors: u8) -> Result<Self, AllocError> {
        let mut first = Vec::new(alloc);
        first.resize(count, NEVER)?;
        if let Some(time) = first.as_mut_slice().get_mut(0) {
            *time = 0;
        }
        let mut last = Vec::new(alloc);
        last.resize(usize::from(processors), 0)?;
        Ok(Walk {
            at: 0,
            movers: Vec::new(alloc),
            places: Vec::new(alloc),
            first,
            last,
        })
    }

    // ---- moves

    /// Goes on until the walk is closed, or cannot go on. Returns whether it is closed.
    fn close(
        &mut self,
        alloc: Global,
        processors: u8,
        targets: &Successors,
        ranks: &[u32],
        ways: &mut Ways,
    ) -> Result<bool, AllocError> {
        for _round in 0..MAX_MOVES {
            match self.round(alloc, processors, targets, ranks, ways)? {
                Stage::Open => {}
                Stage::Closed => return Ok(true),
                Stage::Stuck => return Ok(false),
            }
        }
        Ok(false)
    }

    /// Takes each processor's turn.
    fn round(
        &mut self,
        alloc: Global,
        processors: u8,
        targets: &Successors,
        ranks: &[u32],
        ways: &mut Ways,
    ) -> Result<Stage, AllocError> {
        let before = self.movers.len();
        for k in 0..processors {
            match self.turn(alloc, k, targets, ranks, ways)? {
                Stage::Open => {}
                stage => return Ok(stage),
            }
        }
        let now = self.movers.len();
        if now == before || now > MAX_MOVES {
            Ok(Stage::Stuck)
        } else {
            Ok(Stage::Open)
        }
    }

    /// Makes the moves to the nearest state in which processor `k` has a move to a state without a rank, or has no
    /// move, and then that move.
    fn turn(
        &mut self,
        alloc: Global,
        k: u8,
        targets: &Successors,
        ranks: &[u32],
        ways: &mut Ways,
    ) -> Result<Stage, AllocError> {
        let Some(way) = ways.to(alloc, targets, ranks, self.at, Goal::Turn(k))? else {
            return Ok(Stage::Stuck);
        };
        match self.follow(targets, way.as_slice())? {
            Stage::Open => {}
            stage => return Ok(stage),
        }
        if target_in(targets.of(self.at as usize), usize::from(k)) == NO_MOVE {
            Ok(Stage::Open)
        } else {
            self.step(targets, k)
        }
    }

    /// Makes moves of these processors until the walk is closed.
    fn follow(&mut self, targets: &Successors, movers: &[u8]) -> Result<Stage, AllocError> {
        for k in movers {
            match self.step(targets, *k)? {
                Stage::Open => {}
                stage => return Ok(stage),
            }
        }
        Ok(Stage::Open)
    }

    /// Makes a move of processor `k`.
    fn step(&mut self, targets: &Successors, k: u8) -> Result<Stage, AllocError> {
        self.places.push(self.at)?;
        self.movers.push(k)?;
        self.at = target_in(targets.of(self.at as usize), usize::from(k));
        let now = self.movers.len();
        if let Some(time) = self.last.as_mut_slice().get_mut(usize::from(k)) {
            *time = now;
        }
        Ok(self.arrive(targets, now))
    }

    /// Enters in which state the walk is now.
    fn arrive(&mut self, targets: &Successors, now: usize) -> Stage {
        let place = self.at as usize;
        let first = self.first.get(place).copied().unwrap_or(NEVER);
        if first == NEVER {
            if let Some(time) = self.first.as_mut_slice().get_mut(place) {
                *time = now;
            }
            Stage::Open
        } else if first < self.least_last(targets.of(place)) {
            Stage::Closed
        } else {
            Stage::Open
        }
    }

    /// The least time after the last move of a processor that has one of these targets.
    fn least_last(&self, list: &[u32]) -> usize {
        let mut least = NEVER;
        let mut k = 0usize;
        for target in list {
            if *target != NO_MOVE {
                least = least.min(self.last.get(k).copied().unwrap_or(0));
            }
            k = k.saturating_add(1);
        }
        least
    }

    // ---- the lasso

    /// The last time at which the closed walk was in its state so that each processor that has a move there has moved
    /// since.
    fn start(&self, targets: &Successors) -> usize {
        let least = self.least_last(targets.of(self.at as usize));
        let limit = least.min(self.places.len());
        for back in 0..limit {
            let time = limit - 1 - back;
            if self.is_from(time, self.at) {
                return time;
            }
        }
        0
    }

    /// Whether the move at this time leads from the state at a place.
    fn is_from(&self, time: usize, place: u32) -> bool {
        match self.places.get(time) {
            Some(from) => *from == place,
            None => false,
        }
    }

    /// The lasso whose cycle is the walk from a time on. Its stem is a shortest way to a state of the cycle.
    fn lasso(
        &self,
        alloc: Global,
        targets: &Successors,
        ranks: &[u32],
        ways: &mut Ways,
        start: usize,
    ) -> Result<Option<Lasso>, AllocError> {
        for time in start..self.places.len() {
            ways.mark(self.places[time]);
        }
        let Some(stem) = ways.to(alloc, targets, ranks, 0, Goal::Marked)? else {
            return Ok(None);
        };
        let place = place_after(targets, 0, stem.as_slice());
        let cycle = self.cycle_from(alloc, start, self.time_at(start, place))?;
        Ok(Some(Lasso { stem, cycle }))
    }

    /// The first time from `start` on at which the walk was in the state at a place.
    fn time_at(&self, start: usize, place: u32) -> usize {
        for time in start..self.places.len() {
            if self.is_from(time, place) {
                return time;
            }
        }
        start
    }

    /// The movers of the cycle that begins at time `start`, from a time in it on.
    fn cycle_from(&self, alloc: Global, start: usize, time: usize) -> Result<Vec<u8>, AllocError> {
        let mut cycle = Vec::new(alloc);
        for at in time..self.movers.len() {
            cycle.push(self.movers[at])?;
        }
        for at in start..time {
            if let Some(k) = self.movers.get(at) {
                cycle.push(*k)?;
            }
        }
        Ok(cycle)
    }
}
