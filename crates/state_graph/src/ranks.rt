//! Ranks of states, by the states to which their moves lead.

ghost use Rattle.std.specs.Prelude.{◌≡◌, ◌↔◌, ◌≤◌, ℕ, length, IfOk, IsTrue};
ghost use Rattle.state_graph.specs.Ranks.{AreBelow, AreRanks, AreRanksSoFar, HasBelow, IsPassed, IsReady, no_rank};
ghost use Rattle.state_graph.specs.Ranks.{rank_at};

use crate::successors::Successors;
use std::alloc::{AllocError, Global};

/// When a state can be ranked.
#[derive(Clone, Copy, Debug, PartialEq, Eq, Drop)]
pub enum Rule {
    /// When each of its successors is ranked before it.
    Each,
    /// When it has no successor, or one of its successors is ranked before it.
    One,
}

/// The value for a state without a rank.
pub const NO_RANK: u32 = u32::MAX;

/// Ranks each state that can be ranked by the rule. The others have [`NO_RANK`].
pub fn ranks_of(alloc: Global, rule: Rule, moves: &Successors) -> Result<Vec<u32>, AllocError>
    requires few { length moves.now ≤ no_rank }
    ensures { IfOk result (λ ranks. AreRanks rule moves.now ranks.items) }
{
    let mut ranks = without_ranks(alloc, moves.len())?;
    let mut next = 0;
    while rank_ready(rule, moves, &mut ranks, &mut next) {}
    Ok(ranks)
}

/// No rank for any of this many states.
fn without_ranks(alloc: Global, count: usize) -> Result<Vec<u32>, AllocError>
    ensures all { IfOk result (λ ranks. length ranks.items ≡ count) }
    ensures none { IfOk result (λ ranks. (i : ℕ) → no_rank ≤ rank_at ranks.items i) }
{
    let mut ranks = Vec::new(alloc);
    ranks.resize(count, NO_RANK)?;
    Ok(ranks)
}

/// Ranks each state that is ready, from the last to the first, and returns whether there was one.
fn rank_ready(rule: Rule, moves: &Successors, ranks: &mut Vec<u32>, next: &mut u32) -> bool
    requires few { length moves.now ≤ no_rank }
    requires ranks { AreRanksSoFar rule moves.now ranks.old.items next.old }
    ensures ranks { AreRanksSoFar rule moves.now ranks.new.items next.new }
    ensures passed { IsPassed rule moves.now ranks.old.items ranks.new.items 0 result }
{
    let mut at = moves.len();
    let mut is_found = false;
    while at > 0 {
        at -= 1;
        if ranks[at] == NO_RANK && is_ready(rule, moves.of(at), ranks.as_slice()) {
            ranks[at] = *next;
            *next += 1;
            is_found = true;
        }
    }
    is_found
}

/// Whether a state with these successors can be ranked.
fn is_ready(rule: Rule, successors: &[u32], ranks: &[u32]) -> bool
    ensures { IsTrue result ↔ IsReady rule successors.now ranks.now no_rank }
{
    match rule {
        Rule::Each => are_ranked(successors, ranks),
        Rule::One => successors.is_empty() || has_ranked(successors, ranks),
    }
}

/// Whether each successor is ranked.
fn are_ranked(successors: &[u32], ranks: &[u32]) -> bool
    ensures { IsTrue result ↔ AreBelow successors.now ranks.now no_rank }
{
    successors
        .iter()
        .all(|state| rank_of(ranks, *state) != NO_RANK)
}

/// Whether some successor is ranked.
fn has_ranked(successors: &[u32], ranks: &[u32]) -> bool
    ensures { IsTrue result ↔ HasBelow successors.now ranks.now no_rank }
{
    successors
        .iter()
        .any(|state| rank_of(ranks, *state) != NO_RANK)
}

/// The rank of the state at a place.
pub fn rank_of(ranks: &[u32], place: u32) -> u32
    ensures is { result ≡ rank_at ranks.now place }
    ensures small { result ≤ no_rank }
{
    match ranks.get(place as usize) {
        Some(rank) => *rank,
        None => NO_RANK,
    }
}
