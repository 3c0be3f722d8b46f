//! Whether schedules end, derived from the successors of states.

ghost use Rattle.std.specs.Prelude.{◌≡◌, ◌<◌, ◌≤◌, ℕ, length, IfOk, MatchOption};
ghost use Rattle.state_graph.specs.Ranks.{no_rank, rank_at, unranked};
ghost use Rattle.state_graph.specs.Termination.{IsTrueOf};

use crate::ranks::{NO_RANK, Rule, ranks_of};
use crate::successors::Successors;
use std::alloc::{AllocError, Global};

/// Whether schedules end.
#[derive(Clone, Copy, Debug, PartialEq, Eq, Drop)]
pub enum Termination {
    /// Every schedule ends.
    Always,
    /// Some schedule never ends, but after any turns an end can still be reached.
    Possible,
    /// From `states` states no end can be reached. The first of them is at place `first`.
    Deadlock { states: usize, first: u32 },
}

/// Returns whether the schedules that begin at the first state end.
///
/// # Errors
///
/// [`AllocError`] if there is no memory for the ranks of all states.
pub fn termination_of(alloc: Global, moves: &Successors) -> Result<Termination, AllocError>
    requires few { length moves.now ≤ no_rank }
    ensures { IfOk result (IsTrueOf moves.now) }
{
    let ends = ranks_of(alloc, Rule::Each, moves)?;
    if first_unranked(ends.as_slice()).is_none() {
        return Ok(Termination::Always);
    }
    let reaches = ranks_of(alloc, Rule::One, moves)?;
    match first_unranked(reaches.as_slice()) {
        None => Ok(Termination::Possible),
        Some(first) => Ok(Termination::Deadlock {
            states: count_unranked(reaches.as_slice()),
            first,
        }),
    }
}

/// The place of the first state without a rank.
fn first_unranked(ranks: &[u32]) -> Option<u32>
    requires few { length ranks.now ≤ no_rank }
    ensures { MatchOption result ((i : ℕ) → i < length ranks.now → rank_at ranks.now i < no_rank)
        (λ place. (place < length ranks.now) × (no_rank ≤ rank_at ranks.now place)) }
{
    let mut place = 0;
    for rank in ranks {
        if *rank == NO_RANK {
            return Some(place);
        }
        place += 1;
    }
    None
}

/// The number of states without a rank.
fn count_unranked(ranks: &[u32]) -> usize
    ensures { result ≡ unranked ranks.now }
{
    ranks.iter().filter(|rank| **rank == NO_RANK).count()
}
