//! Paths from the first state to another.

ghost use Rattle.std.specs.Prelude.{◌↔◌, ◌<◌, ◌≤◌, ℕ, List, Contains, length, IfOk, IsTrue, MatchOption};
ghost use Rattle.state_graph.specs.Paths.{HasNoneBefore, IsBreadthFirst, IsFirstFrom, IsPath};
ghost use Rattle.state_graph.specs.Ranks.{successors_at};

use crate::successors::Successors;
use std::alloc::{AllocError, Global};

/// The states on a path from the first state to the one at a place, in their order, without the first and with the
/// last.
///
/// The state before each one on the path is the first that has it as a successor. If the states are in breadth-first
/// order, no path is shorter.
///
/// # Errors
///
/// [`AllocError`] if there is no memory for them.
pub fn path_to(alloc: Global, moves: &Successors, place: u32) -> Result<Vec<u32>, AllocError>
    ensures path { IfOk result (λ path.
        (first : ℕ) × HasNoneBefore moves.now first × IsPath moves.now first path.items place) }
    ensures short { IfOk result (λ path. IsBreadthFirst moves.now → (other : List ℕ) → IsPath moves.now 0 other place
        → length path.items ≤ length other) }
{
    let mut path = Vec::new(alloc);
    let mut at = place;
    while let Some(before) = found_from(moves, at) {
        path.push(at)?;
        at = before;
    }
    path.reverse();
    Ok(path)
}

/// The first state before this one that has it as a successor.
fn found_from(moves: &Successors, place: u32) -> Option<u32>
    ensures { MatchOption result (HasNoneBefore moves.now place) (λ before. IsFirstFrom moves.now before place) }
{
    (0..place).find(|before| leads_to(moves, *before, place))
}

/// Whether one state has another as a successor.
fn leads_to(moves: &Successors, from: u32, to: u32) -> bool
    ensures { IsTrue result ↔ Contains (successors_at moves.now from) to }
{
    moves.of(from as usize).contains(&to)
}
