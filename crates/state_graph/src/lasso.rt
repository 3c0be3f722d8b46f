//! Lassos by which some fair schedule never ends.
//!
//! A lasso is a way from the first state to another, its stem, and a way from there back to it, its cycle. A schedule
//! that follows the cycle again and again never ends. It is fair if each processor that has a move where the cycle
//! begins moves in it. [`is_fair`] checks a lasso, so that nothing rests on how it was found.

ghost use Rattle.std.specs.Prelude.{◌≡◌, ◌<◌, Contains, IsTrue};
ghost use Rattle.state_graph.specs.Fairness.{no_move, target_in};
ghost use Rattle.state_graph.specs.Lassos.{HaveAllMoved, IsFairLasso, IsFairRound, place_after};

use crate::fairness::{NO_MOVE, target_in};
use crate::successors::Successors;

/// A stem and a cycle, each as the processors that move in it, one after another.
#[derive(Drop)]
pub struct Lasso {
    pub stem: Vec<u8>,
    pub cycle: Vec<u8>,
}

/// Whether some fair schedule never ends by this lasso.
pub(crate) fn is_fair(targets: &Successors, stem: &[u8], cycle: &[u8]) -> bool
    ensures { IsTrue result → IsFairLasso targets.now stem.now cycle.now }
{
    is_fair_round(targets, place_after(targets, 0, stem), cycle)
}

/// Whether moves of these processors lead from the state at a place back to it, and each processor that has a move
/// there makes one of them.
fn is_fair_round(targets: &Successors, place: u32, movers: &[u8]) -> bool
    ensures { IsTrue result → IsFairRound targets.now place movers.now }
{
    (place as usize) < targets.len()
        && !movers.is_empty()
        && place_after(targets, place, movers) == place
        && have_all_moved(targets.of(place as usize), movers)
}

/// The place to which moves of these processors lead, one after another, or [`NO_MOVE`] if one of them has no move.
pub(crate) fn place_after(targets: &Successors, place: u32, movers: &[u8]) -> u32
    ensures { result ≡ place_after targets.now place movers.now }
{
    let mut at = place;
    for k in movers.iter() {
        at = target_in(targets.of(at as usize), usize::from(*k));
    }
    at
}

/// Whether each processor that has one of these targets is among the movers.
fn have_all_moved(list: &[u32], movers: &[u8]) -> bool
    ensures { IsTrue result → HaveAllMoved list.now movers.now }
{
    for k in 0..list.len() {
        if !has_moved(list, movers, k) {
            return false;
        }
    }
    true
}

/// Whether processor `k` has none of these targets, or is among the movers.
fn has_moved(list: &[u32], movers: &[u8], k: usize) -> bool
    ensures { IsTrue result → target_in list.now k < no_move → Contains movers.now k }
{
    target_in(list, k) == NO_MOVE || has(movers, k)
}

/// Whether processor `k` is among the movers.
fn has(movers: &[u8], k: usize) -> bool
    ensures { IsTrue result → Contains movers.now k }
{
    match u8::try_from(k) {
        Ok(k) => movers.contains(&k),
        Err(_) => false,
    }
}
