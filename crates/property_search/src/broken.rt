//! The rows whose states break a property.

ghost use Rattle.std.specs.Prelude.{◌≡◌, ◌⊎◌, ◌<◌, ◌≤◌, ℕ, true, false, length, map, IfOk, MatchBool, MatchOption};
ghost use Rattle.local_reduction.specs.Live.{HasAllLive};
ghost use Rattle.local_reduction.specs.Results.{local_state_result, result_at};
ghost use Rattle.state_conditions.specs.Results.{breaks_result, processor_state};
ghost use Rattle.state_graph.specs.Ranks.{no_rank};
ghost use Rattle.state_search.specs.Ends.{AreRows};
ghost use Rattle.state_search.specs.Search.{state_at};
ghost use Rattle.state_search.specs.state_store.Moves.{Spinning};
ghost use Rattle.state_search.specs.state_store.StateTables.{IsRow, means};

use local_memory::Code;
use state_conditions::{Kind, ProcessorState, Property};
use state_search::{Extent, SavedLocalState, StateTables, StateVector};
use std::alloc::{AllocError, Global};

/// The place of the first row whose state breaks a property, if there is one.
pub(crate) fn first_broken<const N: usize>(
    alloc: Global,
    state_tables: &StateTables,
    extent: Extent,
    rows: &[StateVector<N>],
    property: &Property,
) -> Result<Option<u32>, AllocError>
    requires rows { AreRows extent state_tables.now rows.now }
    requires room { extent.processors < N }
    requires narrow { N ≤ 65 }
    requires few { length rows.now ≤ no_rank }
    ensures { IfOk result (λ broken. MatchOption broken
        ((i : ℕ) → i < length rows.now → breaks_result property.now.kind property.now.condition
        (result_at (state_at extent state_tables.now rows.now i)) ≡ false)
        (λ place. (place < length rows.now) × (breaks_result property.now.kind property.now.condition
        (result_at (state_at extent state_tables.now rows.now place)) ≡ true))) }
{
    let mut place = 0;
    for row in rows {
        if is_broken(alloc, state_tables, extent, row, property)? {
            return Ok(Some(place));
        }
        place += 1;
    }
    Ok(None)
}

/// Whether the state of a row breaks a property.
fn is_broken<const N: usize>(
    alloc: Global,
    state_tables: &StateTables,
    extent: Extent,
    row: &StateVector<N>,
    property: &Property,
) -> Result<bool, AllocError>
    requires row { IsRow extent state_tables.now row.now }
    requires room { extent.processors < N }
    requires narrow { N ≤ 65 }
    ensures { IfOk result (λ is_broken. is_broken ≡ breaks_result property.now.kind property.now.condition
        (result_at (means extent state_tables.now row.now))) }
{
    let processors = processors_in(alloc, state_tables, extent, row)?;
    let words = state_tables.words(row[usize::from(extent.processors)]);
    Ok(property.is_broken_by(processors.as_slice(), words))
}

/// What a condition sees of the processors of a row.
fn processors_in<const N: usize>(
    alloc: Global,
    state_tables: &StateTables,
    extent: Extent,
    row: &StateVector<N>,
) -> Result<Vec<ProcessorState>, AllocError>
    requires row { IsRow extent state_tables.now row.now }
    requires room { extent.processors < N }
    requires narrow { N ≤ 65 }
    ensures { IfOk result (λ all. all.items
        ≡ map processor_state (result_at (means extent state_tables.now row.now)).processors) }
{
    let mut processors = Vec::with_capacity(alloc, usize::from(extent.processors))?;
    for p in 0..extent.processors {
        processors.push(state_of(state_tables.local_state(row[usize::from(p)])))?;
    }
    Ok(processors)
}

/// What a condition sees of a local state.
fn state_of(local_state: &SavedLocalState) -> ProcessorState
    ensures { result ≡ processor_state (local_state_result local_state.now.local_state) }
{
    ProcessorState {
        pc: local_state.pc(),
        status: local_state.status(),
    }
}

/// Whether a processor spins in the state of a row, and states after that one matter. For a property of the states in
/// which no processor runs they do not: there is none.
pub(crate) fn is_unknown<const N: usize>(
    state_tables: &StateTables,
    code: &Code,
    extent: Extent,
    rows: &[StateVector<N>],
    kind: Kind,
) -> bool
    requires live { HasAllLive code.now state_tables.now.live }
    requires rows { AreRows extent state_tables.now rows.now }
    requires room { extent.processors < N }
    requires narrow { N ≤ 65 }
    ensures { MatchBool result
        ((i : ℕ) × (i < length rows.now) × Spinning extent code.now (state_at extent state_tables.now rows.now i))
        ((kind ≡ Kind.Finally) ⊎ ((i : ℕ) → i < length rows.now →
        Spinning extent code.now (state_at extent state_tables.now rows.now i) → ⊥)) }
{
    match kind {
        Kind::Finally => false,
        Kind::Never | Kind::Always => some_spins(state_tables, code, extent, rows),
    }
}

/// Whether a processor spins in the state of a row.
fn some_spins<const N: usize>(
    state_tables: &StateTables,
    code: &Code,
    extent: Extent,
    rows: &[StateVector<N>],
) -> bool
    requires live { HasAllLive code.now state_tables.now.live }
    requires rows { AreRows extent state_tables.now rows.now }
    requires room { extent.processors < N }
    requires narrow { N ≤ 65 }
    ensures { MatchBool result
        ((i : ℕ) × (i < length rows.now) × Spinning extent code.now (state_at extent state_tables.now rows.now i))
        ((i : ℕ) → i < length rows.now → Spinning extent code.now (state_at extent state_tables.now rows.now i) → ⊥) }
{
    for row in rows {
        if state_tables.has_spinner(code, extent, row) {
            return true;
        }
    }
    false
}
