//! The search.

ghost use Rattle.std.specs.Prelude.{◌≡◌, ◌+◌, ◌<◌, ◌≤◌, [], ◌∷◌, ◌++◌, List, ℕ, length, slice_index_or, IfErr, IfOk};
ghost use Rattle.std.specs.Prelude.{IfSome, IsErrOf, OnOk};
ghost use Rattle.state_store.specs.local_reduction.Closing.{MacroState};
ghost use Rattle.state_store.specs.local_reduction.Live.{HasAllLive};
ghost use Rattle.state_graph.specs.Ranks.{no_rank};
ghost use Rattle.state_search.specs.Ends.{AreFound, AreSome};
ghost use Rattle.state_store.specs.TransitionCache.{KnowsLists, KnowsLocalStates};
ghost use Rattle.state_search.specs.Refusals.{HasFound};
ghost use Rattle.state_search.specs.Rows.{IsRowExchanged};
ghost use Rattle.state_search.specs.Search.{AreAllFound, AreRowsOfSearch, Expanded, IsLike, IsPlaced, Searched};
ghost use Rattle.state_store.specs.Moves.{AreClasses};
ghost use Rattle.state_store.specs.StateTables.{HasGrown, IsRow, means};

use crate::observer::SearchObserver;
use crate::ordering::canonical;
use crate::refusal::Refusal;
use indexmap::IndexSet;
use local_memory::Code;
use state_graph::Successors;
use state_store::{Extent, MoveRefusal, StateTables, StateVector, TransitionCaches};
use std::alloc::Global;

/// All rows that a search found, in the order of their discovery, and the successors of each.
#[derive(Drop)]
pub struct StateSpace<const N: usize> {
    pub rows: IndexSet<StateVector<N>>,
    pub moves: Successors,
}

impl<const N: usize> StateSpace<N> {
    /// No rows.
    pub fn new(alloc: Global) -> Self
        requires narrow { N ≤ 65 }
        ensures { (result.rows.keys ≡ []) × (result.moves ≡ []) }
    {
        StateSpace {
            rows: IndexSet::new(alloc),
            moves: Successors::new(alloc),
        }
    }
}

/// Finds all rows to which references lead from `first`, up to exchanges of processors of one class. It does not search
/// beyond a row in which a processor spins. It reports the number of rows to `observer` as it finds them.
///
/// # Errors
///
/// [`Refusal::States`] if there are at least `limit` rows, and [`Refusal::Stopped`] if the observer stops the search:
/// then `found` has the rows found so far. [`Refusal::Asks`] if a processor asks for its own number after a reference
/// while processors are exchanged; [`Refusal::Alone`] and [`Refusal::Memory`].
// The caller owns `found`, so that this function need not drop it at each of its returns, and what was found is kept if
// the search gives up.
pub fn explore_states<const N: usize, G: SearchObserver>(
    alloc: Global,
    state_tables: &mut StateTables,
    transition_caches: &mut TransitionCaches,
    code: &Code,
    extent: Extent,
    classes: &[u8],
    first: StateVector<N>,
    limit: u32,
    observer: &mut G,
    found: &mut StateSpace<N>,
) -> Result<(), Refusal>
    requires live { HasAllLive code.now state_tables.old.live }
    requires classes { AreClasses extent classes.now }
    requires row { IsRow extent state_tables.old first }
    requires room { extent.processors < N }
    requires narrow { N ≤ 65 }
    requires local_states { KnowsLocalStates extent.exchanged code.now state_tables.old
        transition_caches.old.local_states }
    requires lists { KnowsLists state_tables.old transition_caches.old.lists }
    requires nothing { (found.old.rows.keys ≡ []) × (found.old.moves ≡ []) }
    ensures kept { OnOk result (HasGrown state_tables.old state_tables.new) }
    ensures found { OnOk result
        (AreFound extent code.now classes.now state_tables.new found.new.rows.keys found.new.moves
        (means extent state_tables.old first.entry)) }
    ensures few { OnOk result (length found.new.rows.keys < limit) }
    ensures some { IfErr result (λ why. HasFound why → HasGrown state_tables.old state_tables.new
        × AreSome extent code.now classes.now state_tables.new found.new.rows.keys
        (means extent state_tables.old first.entry)) }
    ensures many { IsErrOf result Refusal.States → limit ≤ length found.new.rows.keys }
    ensures known { IfErr result (λ why. HasFound why →
        KnowsLocalStates extent.exchanged code.now state_tables.new transition_caches.new.local_states
        × KnowsLists state_tables.new transition_caches.new.lists) }
    ensures local_states { OnOk result
        (KnowsLocalStates extent.exchanged code.now state_tables.new transition_caches.new.local_states) }
    ensures lists { OnOk result (KnowsLists state_tables.new transition_caches.new.lists) }
{
    let mut successors = Vec::new(alloc);
    let searched = breadth_first(
        state_tables,
        transition_caches,
        code,
        extent,
        classes,
        first,
        limit,
        observer,
        &mut successors,
        found,
    );
    let _ = found.rows.len();
    state_tables.are_different();
    match searched {
        Ok(()) => Ok(()),
        Err(refusal) => Err(refusal),
    }
}

/// Searches breadth first, from an empty `found`, until there is no new row.
fn breadth_first<const N: usize, G: SearchObserver>(
    state_tables: &mut StateTables,
    transition_caches: &mut TransitionCaches,
    code: &Code,
    extent: Extent,
    classes: &[u8],
    first: StateVector<N>,
    limit: u32,
    observer: &mut G,
    successors: &mut Vec<u32>,
    found: &mut StateSpace<N>,
) -> Result<(), Refusal>
    requires live { HasAllLive code.now state_tables.old.live }
    requires classes { AreClasses extent classes.now }
    requires row { IsRow extent state_tables.old first }
    requires room { extent.processors < N }
    requires narrow { N ≤ 65 }
    requires local_states { KnowsLocalStates extent.exchanged code.now state_tables.old
        transition_caches.old.local_states }
    requires lists { KnowsLists state_tables.old transition_caches.old.lists }
    requires nothing { (found.old.rows.keys ≡ []) × (found.old.moves ≡ []) }
    ensures kept { OnOk result (HasGrown state_tables.old state_tables.new) }
    ensures searched { OnOk result
        (Searched extent code.now classes.now state_tables.new found.new.rows.keys found.new.moves
        (means extent state_tables.old first.entry) (length found.new.rows.keys)) }
    ensures few { OnOk result (length found.new.rows.keys < limit) }
    ensures some { IfErr result (λ why. HasFound why → HasGrown state_tables.old state_tables.new
        × AreRowsOfSearch extent code.now classes.now state_tables.new found.new.rows.keys found.new.moves
        (means extent state_tables.old first.entry)) }
    ensures many { IsErrOf result Refusal.States → limit ≤ length found.new.rows.keys }
    ensures known { IfErr result (λ why. HasFound why →
        KnowsLocalStates extent.exchanged code.now state_tables.new transition_caches.new.local_states
        × KnowsLists state_tables.new transition_caches.new.lists) }
    ensures local_states { OnOk result
        (KnowsLocalStates extent.exchanged code.now state_tables.new transition_caches.new.local_states) }
    ensures lists { OnOk result (KnowsLists state_tables.new transition_caches.new.lists) }
{
    let Ok(_) = found.rows.insert(first) else {
        return Err(Refusal::Memory);
    };
    for at in 0..limit {
        // The rows are never more than the limit.
        if found.rows.len() >= limit as usize {
            return Err(Refusal::States);
        }
        let Some(row) = found.rows.get_index(at as usize).copied() else {
            return Ok(());
        };
        if !observer.progress(found.rows.len()) {
            return Err(Refusal::Stopped);
        }
        expand(
            state_tables,
            transition_caches,
            code,
            extent,
            classes,
            &mut found.rows,
            at,
            row,
            successors,
        )?;
        let Ok(()) = found.moves.push(successors.as_slice()) else {
            return Err(Refusal::Memory);
        };
    }
    Err(Refusal::States)
}

/// Adds the rows to which a move of each processor leads from the row at a place, and replaces the contents of
/// `successors` by their places. A row in which a processor spins is its own and only successor.
fn expand<const N: usize>(
    state_tables: &mut StateTables,
    transition_caches: &mut TransitionCaches,
    code: &Code,
    extent: Extent,
    classes: &[u8],
    rows: &mut IndexSet<StateVector<N>>,
    at: u32,
    row: StateVector<N>,
    successors: &mut Vec<u32>,
) -> Result<(), MoveRefusal>
    requires live { HasAllLive code.now state_tables.old.live }
    requires classes { AreClasses extent classes.now }
    requires there { at < length rows.old.keys }
    requires row { slice_index_or rows.old.keys at [] ≡ row }
    requires is_row { IsRow extent state_tables.old row }
    requires room { extent.processors < N }
    requires narrow { N ≤ 65 }
    requires local_states { KnowsLocalStates extent.exchanged code.now state_tables.old
        transition_caches.old.local_states }
    requires lists { KnowsLists state_tables.old transition_caches.old.lists }
    ensures kept { OnOk result (HasGrown state_tables.old state_tables.new) }
    ensures local_states { OnOk result
        (KnowsLocalStates extent.exchanged code.now state_tables.new transition_caches.new.local_states) }
    ensures lists { OnOk result (KnowsLists state_tables.new transition_caches.new.lists) }
    ensures searched { OnOk result ((first : MacroState) (moves : List (List ℕ)) →
        Searched extent code.now classes.now state_tables.old rows.old.keys moves first at →
        AreAllFound rows.old.keys moves →
        Searched extent code.now classes.now state_tables.new rows.new.keys (moves ++ successors.new.items ∷ []) first
        (at + 1) × AreAllFound rows.new.keys (moves ++ successors.new.items ∷ [])) }
{
    successors.clear();
    if state_tables.has_spinner(code, extent, &row) {
        let Ok(()) = successors.push(at) else {
            return Err(MoveRefusal::Memory);
        };
        return Ok(());
    }
    for p in 0..extent.processors {
        add_successor(
            state_tables,
            transition_caches,
            code,
            extent,
            classes,
            rows,
            &row,
            p,
            successors,
        )?;
    }
    Ok(())
}

/// If the processor has a move, adds the row to which it leads, up to exchanges, and appends its place to `successors`.
/// Of the processors of one class in the same local state, only the first makes its move.
fn add_successor<const N: usize>(
    state_tables: &mut StateTables,
    transition_caches: &mut TransitionCaches,
    code: &Code,
    extent: Extent,
    classes: &[u8],
    rows: &mut IndexSet<StateVector<N>>,
    row: &StateVector<N>,
    p: u8,
    successors: &mut Vec<u32>,
) -> Result<(), MoveRefusal>
    requires live { HasAllLive code.now state_tables.old.live }
    requires classes { AreClasses extent classes.now }
    requires is_row { IsRow extent state_tables.old row.now }
    requires there { p < extent.processors }
    requires room { extent.processors < N }
    requires narrow { N ≤ 65 }
    requires local_states { KnowsLocalStates extent.exchanged code.now state_tables.old
        transition_caches.old.local_states }
    requires lists { KnowsLists state_tables.old transition_caches.old.lists }
    ensures kept { OnOk result (HasGrown state_tables.old state_tables.new) }
    ensures local_states { OnOk result
        (KnowsLocalStates extent.exchanged code.now state_tables.new transition_caches.new.local_states) }
    ensures lists { OnOk result (KnowsLists state_tables.new transition_caches.new.lists) }
    ensures there { OnOk result ((at : ℕ) → at < length rows.old.keys → slice_index_or rows.old.keys at [] ≡ row.now
        → (at < length rows.new.keys) × (slice_index_or rows.new.keys at [] ≡ row.now)) }
    ensures expanded { OnOk result ((first : MacroState) (moves : List (List ℕ)) (at : ℕ) →
        slice_index_or rows.old.keys at [] ≡ row.now →
        Expanded extent code.now classes.now state_tables.old rows.old.keys moves first successors.old.items at p →
        Expanded extent code.now classes.now state_tables.new rows.new.keys moves first successors.new.items at (p +
        1)) }
{
    if like_it(extent, classes, row, p).is_some() {
        return Ok(());
    }
    let Some(next) = state_tables.next(transition_caches, code, extent, classes, *row, p)? else {
        return Ok(());
    };
    let place = place_of(rows, ordered_from(extent, classes, &next, p))?;
    let Ok(()) = successors.push(place) else {
        return Err(MoveRefusal::Memory);
    };
    Ok(())
}

/// An earlier processor of the same class in the same local state, if processors are exchanged. Only the nearest of the
/// class is compared, since in each class the numbers of a row increase.
fn like_it<const N: usize>(
    extent: Extent,
    classes: &[u8],
    row: &StateVector<N>,
    p: u8,
) -> Option<u8>
    requires classes { AreClasses extent classes.now }
    requires there { p < extent.processors }
    requires room { extent.processors < N }
    requires narrow { N ≤ 65 }
    ensures { IfSome result (λ q. IsLike row.now classes.now p q) }
{
    if !extent.exchanged {
        return None;
    }
    for back in 0..p {
        let q = p - 1 - back;
        if classes[usize::from(q)] == classes[usize::from(p)] {
            return if row[usize::from(q)] == row[usize::from(p)] {
                Some(q)
            } else {
                None
            };
        }
    }
    None
}

/// The row with each class sorted, if only processor `p` is out of order; the row itself if processors are not
/// exchanged.
fn ordered_from<const N: usize>(
    extent: Extent,
    classes: &[u8],
    row: &StateVector<N>,
    p: u8,
) -> StateVector<N>
    requires classes { AreClasses extent classes.now }
    requires there { p < extent.processors }
    requires room { extent.processors < N }
    requires narrow { N ≤ 65 }
    ensures { IsRowExchanged classes.now row.now result }
{
    if extent.exchanged {
        canonical(row, classes, usize::from(p), &mut [])
    } else {
        *row
    }
}

/// Returns the place of a row, which it adds if the row is new.
fn place_of<const N: usize>(
    rows: &mut IndexSet<StateVector<N>>,
    row: StateVector<N>,
) -> Result<u32, MoveRefusal>
    requires narrow { N ≤ 65 }
    ensures { IfOk result (IsPlaced rows.old.keys row.entry rows.new.keys) }
{
    let Ok((place, _)) = rows.insert_full(row) else {
        return Err(MoveRefusal::Memory);
    };
    match u32::try_from(place) {
        Ok(place) => Ok(place),
        Err(_) => Err(MoveRefusal::Memory),
    }
}
