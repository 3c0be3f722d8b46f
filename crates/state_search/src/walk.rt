//! The movers on a path of rows.

ghost use Rattle.std.specs.Prelude.{◌<◌, ◌≤◌, OnOk};
ghost use Rattle.state_store.specs.local_reduction.Live.{HasAllLive};
ghost use Rattle.state_search.specs.Ends.{AreRows};
ghost use Rattle.state_store.specs.TransitionCache.{KnowsLists, KnowsLocalStates};
ghost use Rattle.state_store.specs.Moves.{AreClasses};
ghost use Rattle.state_store.specs.StateTables.{HasGrown, IsRow};

use crate::ordering::canonical;
use indexmap::IndexSet;
use local_memory::Code;
use state_store::{Extent, MoveRefusal, StateTables, StateVector, TransitionCaches};
use std::alloc::{AllocError, Global};

/// The movers on a path of rows.
#[derive(Drop)]
pub struct Walk {
    /// The processors that move, in order.
    pub movers: Vec<u8>,
    /// The processor that is at each place of the last row.
    pub holders: Vec<u8>,
}

/// Returns the processors whose moves lead from the first row along the rows at the places of `path`, and the processor
/// that is at each place of the last row. Processors are exchanged from row to row; at first each is at its own place.
///
/// # Errors
///
/// Those of [`StateTables::next`].
pub fn movers_of<const N: usize>(
    alloc: Global,
    state_tables: &mut StateTables,
    transition_caches: &mut TransitionCaches,
    code: &Code,
    extent: Extent,
    classes: &[u8],
    rows: &IndexSet<StateVector<N>>,
    path: &[u32],
) -> Result<Walk, MoveRefusal>
    requires live { HasAllLive code.now state_tables.old.live }
    requires classes { AreClasses extent classes.now }
    requires rows { AreRows extent state_tables.old rows.now.keys }
    requires room { extent.processors < N }
    requires narrow { N ≤ 65 }
    requires local_states { KnowsLocalStates extent.exchanged code.now state_tables.old
        transition_caches.old.local_states }
    requires lists { KnowsLists state_tables.old transition_caches.old.lists }
    ensures kept { OnOk result (HasGrown state_tables.old state_tables.new) }
{
    let Ok(mut holders) = each_at_its_own(alloc, extent.processors) else {
        return Err(MoveRefusal::Memory);
    };
    let mut movers = Vec::new(alloc);
    let mut at = 0;
    for place in path {
        let next = *place as usize;
        let mover = mover(
            state_tables,
            transition_caches,
            code,
            extent,
            classes,
            rows,
            at,
            next,
            holders.as_mut_slice(),
        )?;
        let Some(mover) = mover else {
            break;
        };
        let Ok(()) = movers.push(mover) else {
            return Err(MoveRefusal::Memory);
        };
        at = next;
    }
    Ok(Walk { movers, holders })
}

/// The holders of the first row: each processor is at its own place.
fn each_at_its_own(alloc: Global, processors: u8) -> Result<Vec<u8>, AllocError> {
    let mut holders = Vec::new(alloc);
    for p in 0..processors {
        holders.push(p)?;
    }
    Ok(holders)
}

/// Returns the processor whose move leads from one row to the next, or None if no move leads there, and exchanges the
/// holders as the move does.
fn mover<const N: usize>(
    state_tables: &mut StateTables,
    transition_caches: &mut TransitionCaches,
    code: &Code,
    extent: Extent,
    classes: &[u8],
    rows: &IndexSet<StateVector<N>>,
    from: usize,
    to: usize,
    holders: &mut [u8],
) -> Result<Option<u8>, MoveRefusal>
    requires live { HasAllLive code.now state_tables.old.live }
    requires classes { AreClasses extent classes.now }
    requires rows { AreRows extent state_tables.old rows.now.keys }
    requires room { extent.processors < N }
    requires narrow { N ≤ 65 }
    requires local_states { KnowsLocalStates extent.exchanged code.now state_tables.old
        transition_caches.old.local_states }
    requires lists { KnowsLists state_tables.old transition_caches.old.lists }
    ensures kept { OnOk result (HasGrown state_tables.old state_tables.new) }
    ensures local_states { OnOk result
        (KnowsLocalStates extent.exchanged code.now state_tables.new transition_caches.new.local_states) }
    ensures lists { OnOk result (KnowsLists state_tables.new transition_caches.new.lists) }
{
    let Some(row) = rows.get_index(from).copied() else {
        return Ok(None);
    };
    let Some(next) = rows.get_index(to).copied() else {
        return Ok(None);
    };
    mover_between(
        state_tables,
        transition_caches,
        code,
        extent,
        classes,
        row,
        next,
        holders,
    )
}

/// Does what [`mover`] does, for two rows instead of their places.
fn mover_between<const N: usize>(
    state_tables: &mut StateTables,
    transition_caches: &mut TransitionCaches,
    code: &Code,
    extent: Extent,
    classes: &[u8],
    row: StateVector<N>,
    to: StateVector<N>,
    holders: &mut [u8],
) -> Result<Option<u8>, MoveRefusal>
    requires live { HasAllLive code.now state_tables.old.live }
    requires classes { AreClasses extent classes.now }
    requires row { IsRow extent state_tables.old row }
    requires room { extent.processors < N }
    requires narrow { N ≤ 65 }
    requires local_states { KnowsLocalStates extent.exchanged code.now state_tables.old
        transition_caches.old.local_states }
    requires lists { KnowsLists state_tables.old transition_caches.old.lists }
    ensures kept { OnOk result (HasGrown state_tables.old state_tables.new) }
    ensures local_states { OnOk result
        (KnowsLocalStates extent.exchanged code.now state_tables.new transition_caches.new.local_states) }
    ensures lists { OnOk result (KnowsLists state_tables.new transition_caches.new.lists) }
{
    for p in 0..extent.processors {
        if let Some(next) = state_tables.next(transition_caches, code, extent, classes, row, p)? {
            if canonical(&next, classes, usize::from(p), &mut []) == to {
                let mover = holders.get(usize::from(p)).copied();
                canonical(&next, classes, usize::from(p), holders);
                return Ok(mover);
            }
        }
    }
    Ok(None)
}
