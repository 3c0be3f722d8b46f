//! The results of the rows in which no processor runs.

ghost use Rattle.std.specs.Prelude.{◌≡◌, ◌↔◌, ◌<◌, ◌≤◌, ℕ, All, length, map, IfOk, IsTrue, OnOk};
ghost use Rattle.local_reduction.specs.Results.{HaveStopped, result_at, local_state_result};
ghost use Rattle.exploration.specs.Endings.{AreInOrder, AreShown, IsEnding, IsEndingAdded, IsOnce, IsRowAdded};
ghost use Rattle.exploration.specs.Endings.{IsStoodFor};
ghost use Rattle.state_graph.specs.Ranks.{no_rank};
ghost use Rattle.state_search.specs.Ends.{AreRows};
ghost use Rattle.state_search.specs.Search.{state_at};
ghost use Rattle.state_search.specs.state_store.Moves.{AreClasses};
ghost use Rattle.state_search.specs.state_store.StateTables.{AreDifferent, IsRow, means, placed_at};

use crate::order::in_order;
use crate::outcome::{FinalResult, ProcessorResult};
use indexmap::IndexSet;
use state_search::{Extent, StateTables, StateVector};
use std::alloc::{AllocError, Global};

/// Results, each with the place of its row.
#[derive(Drop)]
pub(crate) struct Endings<const N: usize> {
    pub results: Vec<FinalResult>,
    pub places: Vec<u32>,
    /// The ordered rows of the results, by which a result is looked up.
    shown: IndexSet<StateVector<N>>,
}

/// Returns the result of each row in which no processor runs, up to exchanges of processors of one class, once each.
pub(crate) fn results_of<const N: usize>(
    alloc: Global,
    state_tables: &StateTables,
    extent: Extent,
    classes: &[u8],
    rows: &[StateVector<N>],
) -> Result<Endings<N>, AllocError>
    requires rows { AreRows extent state_tables.now rows.now }
    requires classes { AreClasses extent classes.now }
    requires room { extent.processors < N }
    requires narrow { N ≤ 65 }
    requires few { length rows.now ≤ no_rank }
    ensures sound { IfOk result (λ e. All (IsEnding extent classes.now state_tables.now rows.now) e.results.items) }
    ensures once { IfOk result (λ e. IsOnce e.results.items) }
    ensures complete { IfOk result (λ e. (i : ℕ) → i < length rows.now →
        HaveStopped (state_at extent state_tables.now rows.now i)
        → IsStoodFor classes.now e.results.items (result_at (state_at extent state_tables.now rows.now i))) }
    ensures order { IfOk result (λ e. AreInOrder classes.now (state_at extent state_tables.now rows.now)
        (length rows.now) e.results.items) }
{
    let mut endings = Endings {
        results: Vec::new(alloc),
        places: Vec::new(alloc),
        shown: IndexSet::new(alloc),
    };
    state_tables.are_different();
    let mut place = 0;
    for row in rows {
        add_ending(
            alloc,
            state_tables,
            extent,
            classes,
            row,
            place,
            &mut endings,
        )?;
        place += 1;
    }
    Ok(endings)
}

/// Adds the result of a row, if no processor runs in it and the result is new.
fn add_ending<const N: usize>(
    alloc: Global,
    state_tables: &StateTables,
    extent: Extent,
    classes: &[u8],
    row: &StateVector<N>,
    place: u32,
    endings: &mut Endings<N>,
) -> Result<(), AllocError>
    requires row { IsRow extent state_tables.now row.now }
    requires classes { AreClasses extent classes.now }
    requires room { extent.processors < N }
    requires narrow { N ≤ 65 }
    requires different { AreDifferent state_tables.now }
    requires shown { AreShown N extent state_tables.now endings.old.shown.keys endings.old.results.items }
    ensures added { OnOk result
        (IsEndingAdded classes.now (means extent state_tables.now row.now) endings.old.results.items
        endings.new.results.items) }
    ensures shown { OnOk result (AreShown N extent state_tables.now endings.new.shown.keys endings.new.results.items) }
{
    if !has_stopped(state_tables, extent, row) {
        return Ok(());
    }
    let shown = in_order(state_tables, extent, classes, row, &mut []);
    if !is_new(&mut endings.shown, shown)? {
        return Ok(());
    }
    let last = result_of(alloc, state_tables, extent, &shown)?;
    endings.results.push(last)?;
    endings.places.push(place)?;
    Ok(())
}

/// Adds a row if it is new, and returns whether it was.
fn is_new<const N: usize>(
    rows: &mut IndexSet<StateVector<N>>,
    row: StateVector<N>,
) -> Result<bool, AllocError>
    requires narrow { N ≤ 65 }
    ensures { IfOk result (λ is_new. IsRowAdded rows.old.keys row.entry is_new rows.new.keys) }
{
    match rows.insert_full(row) {
        Ok((_, is_new)) => Ok(is_new),
        Err(_) => Err(AllocError),
    }
}

/// Returns whether no processor runs.
fn has_stopped<const N: usize>(
    state_tables: &StateTables,
    extent: Extent,
    row: &StateVector<N>,
) -> bool
    requires row { IsRow extent state_tables.now row.now }
    requires room { extent.processors < N }
    requires narrow { N ≤ 65 }
    ensures { IsTrue result ↔ HaveStopped (means extent state_tables.now row.now) }
{
    for p in 0..extent.processors {
        if state_tables.local_state(row[usize::from(p)]).is_running() {
            return false;
        }
    }
    true
}

/// The result of a row in which no processor runs.
fn result_of<const N: usize>(
    alloc: Global,
    state_tables: &StateTables,
    extent: Extent,
    row: &StateVector<N>,
) -> Result<FinalResult, AllocError>
    requires row { IsRow extent state_tables.now row.now }
    requires room { extent.processors < N }
    requires narrow { N ≤ 65 }
    ensures { IfOk result (λ r. r ≡ result_at (means extent state_tables.now row.now)) }
{
    let processors = processors_of(alloc, state_tables, extent, row)?;
    let words = state_tables
        .words(row[usize::from(extent.processors)])
        .copy()?;
    Ok(FinalResult { processors, words })
}

/// The results of the processors of a row.
fn processors_of<const N: usize>(
    alloc: Global,
    state_tables: &StateTables,
    extent: Extent,
    row: &StateVector<N>,
) -> Result<Vec<ProcessorResult>, AllocError>
    requires row { IsRow extent state_tables.now row.now }
    requires room { extent.processors < N }
    requires narrow { N ≤ 65 }
    ensures { IfOk result (λ all. all.items
        ≡ map local_state_result (means extent state_tables.now row.now).local_states) }
{
    let mut processors = Vec::new(alloc);
    for p in 0..extent.processors {
        processors.push(processor_result(alloc, state_tables, row[usize::from(p)])?)?;
    }
    Ok(processors)
}

/// The result of a local state.
fn processor_result(
    alloc: Global,
    state_tables: &StateTables,
    number: u32,
) -> Result<ProcessorResult, AllocError>
    requires { number < length state_tables.now.local_states }
    ensures { IfOk result (λ r. r ≡ local_state_result (placed_at state_tables.now number).local_state) }
{
    let local_state = state_tables.local_state(number);
    let mut console = Vec::new(alloc);
    console.extend_from_slice(local_state.console())?;
    Ok(ProcessorResult {
        pc: local_state.pc(),
        status: local_state.status(),
        console,
    })
}
