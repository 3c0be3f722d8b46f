//! The way to a state: the processors whose references lead to it.

ghost use Rattle.std.specs.Prelude.{◌≡◌, ◌<◌, ◌≤◌, length, OnOk};
ghost use Rattle.local_reduction.specs.Live.{HasAllLive};
ghost use Rattle.state_search.specs.Ends.{AreRows};
ghost use Rattle.state_search.specs.state_store.TransitionCache.{KnowsLists, KnowsLocalStates};
ghost use Rattle.state_search.specs.state_store.Moves.{AreClasses};

use crate::order::in_order;
use local_memory::Code;
use state_graph::{Termination, path_to};
use state_search::{Extent, MoveRefusal, StateSpace, StateTables, TransitionCaches, movers_of};
use std::alloc::Global;

/// The place of the row that is wanted, if there is such a row.
pub(crate) fn place_of(
    places: &[u32],
    termination: Termination,
    wanted: Option<u32>,
) -> Option<u32> {
    match wanted?.checked_sub(1) {
        Some(before) => places.get(before as usize).copied(),
        None => match termination {
            Termination::Deadlock { first, .. } => Some(first),
            Termination::Always | Termination::Possible => None,
        },
    }
}

/// Returns the processors whose references, one after another, lead to the row at a place. Each has the number that it
/// has in that row or, if the row is an end, in its result.
///
/// # Errors
///
/// Those of [`movers_of`].
pub fn way_of<const N: usize>(
    alloc: Global,
    state_tables: &mut StateTables,
    transition_caches: &mut TransitionCaches,
    code: &Code,
    extent: Extent,
    classes: &[u8],
    found: &StateSpace<N>,
    place: u32,
    is_end: bool,
) -> Result<Vec<u8>, MoveRefusal>
    requires live { HasAllLive code.now state_tables.old.live }
    requires rows { AreRows extent state_tables.old found.now.rows.keys }
    requires classes { AreClasses extent classes.now }
    requires room { extent.processors < N }
    requires narrow { N ≤ 65 }
    requires local_states { KnowsLocalStates extent.exchanged code.now state_tables.old
        transition_caches.old.local_states }
    requires lists { KnowsLists state_tables.old transition_caches.old.lists }
{
    let Ok(path) = path_to(alloc, &found.moves, place) else {
        return Err(MoveRefusal::Memory);
    };
    let mut walk = movers_of(
        alloc,
        state_tables,
        transition_caches,
        code,
        extent,
        classes,
        &found.rows,
        path.as_slice(),
    )?;
    if is_end {
        let holders = walk.holders.as_mut_slice();
        trade_as_result(state_tables, extent, classes, found, place, holders);
    }
    name_by_places(walk.movers.as_mut_slice(), walk.holders.as_slice());
    Ok(walk.movers)
}

/// Exchanges the holders of a row's places as the order of its result exchanges its processors.
fn trade_as_result<const N: usize>(
    state_tables: &StateTables,
    extent: Extent,
    classes: &[u8],
    found: &StateSpace<N>,
    place: u32,
    holders: &mut [u8],
)
    requires rows { AreRows extent state_tables.now found.now.rows.keys }
    requires classes { AreClasses extent classes.now }
    requires room { extent.processors < N }
    requires narrow { N ≤ 65 }
{
    if let Some(row) = found.rows.get_index(place as usize) {
        in_order(state_tables, extent, classes, row, holders);
    }
}

/// Replaces each processor by the number of the place that it holds.
fn name_by_places(movers: &mut [u8], holders: &[u8]) {
    for mover in movers.iter_mut() {
        *mover = place_held_by(holders, *mover);
    }
}

/// The place that a processor holds; the processor itself if it holds none.
fn place_held_by(holders: &[u8], processor: u8) -> u8 {
    let mut place = 0;
    for holder in holders {
        if *holder == processor {
            return place;
        }
        place = place.saturating_add(1);
    }
    processor
}
