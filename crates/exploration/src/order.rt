//! Rows in which the processors of each class are in the order of their results.

ghost use Rattle.std.specs.Prelude.{◌<◌, ◌≤◌, length};
ghost use Rattle.state_search.specs.Rows.{IsRowExchanged};
ghost use Rattle.state_search.specs.state_store.Moves.{AreClasses};
ghost use Rattle.state_search.specs.state_store.StateTables.{IsRow};

use flat_machine::Status;
use state_search::{Extent, SavedLocalState, StateTables, StateVector, trade};
use std::cmp::Ordering;

/// Returns the row with the processors of each class sorted by their `pc`, how they stopped, and what they printed. The
/// holders at the places, if any, are exchanged with them.
pub(crate) fn in_order<const N: usize>(
    state_tables: &StateTables,
    extent: Extent,
    classes: &[u8],
    row: &StateVector<N>,
    holders: &mut [u8],
) -> StateVector<N>
    requires row { IsRow extent state_tables.now row.now }
    requires classes { AreClasses extent classes.now }
    requires room { extent.processors < N }
    requires narrow { N ≤ 65 }
    ensures exchanged { IsRowExchanged classes.now row.now result }
    ensures row { IsRow extent state_tables.now result }
{
    let mut new = *row;
    for last in 0..classes.len() {
        sink(state_tables, extent, classes, &mut new, last, holders);
    }
    new
}

/// Moves a processor down to its place among the earlier processors of its class.
fn sink<const N: usize>(
    state_tables: &StateTables,
    extent: Extent,
    classes: &[u8],
    row: &mut StateVector<N>,
    last: usize,
    holders: &mut [u8],
)
    requires row { IsRow extent state_tables.now row.old }
    requires classes { AreClasses extent classes.now }
    requires room { extent.processors < N }
    requires narrow { N ≤ 65 }
    requires there { last < length classes.now }
    ensures exchanged { IsRowExchanged classes.now row.old row.new }
    ensures row { IsRow extent state_tables.now row.new }
{
    let mut at = last;
    for back in 0..last {
        at = step(
            state_tables,
            extent,
            classes,
            row,
            last - 1 - back,
            at,
            holders,
        );
    }
}

/// Trades two processors of one class if the second precedes the first. Returns the place where the processor at
/// `second` is afterwards.
fn step<const N: usize>(
    state_tables: &StateTables,
    extent: Extent,
    classes: &[u8],
    row: &mut StateVector<N>,
    first: usize,
    second: usize,
    holders: &mut [u8],
) -> usize
    requires row { IsRow extent state_tables.now row.old }
    requires classes { AreClasses extent classes.now }
    requires room { extent.processors < N }
    requires narrow { N ≤ 65 }
    requires first { first < length classes.now }
    requires second { second < length classes.now }
    ensures exchanged { IsRowExchanged classes.now row.old row.new }
    ensures row { IsRow extent state_tables.now row.new }
    ensures there { result < length classes.now }
{
    let later = state_tables.local_state(row[first]);
    if classes[first] != classes[second]
        || !precedes(state_tables.local_state(row[second]), later)
    {
        return second;
    }
    trade(row, classes, first, second, holders);
    first
}

/// Returns whether a processor precedes another.
fn precedes(one: &SavedLocalState, other: &SavedLocalState) -> bool {
    let order = one
        .pc()
        .cmp(&other.pc())
        .then(rank_of(one.status()).cmp(&rank_of(other.status())))
        .then(one.console().cmp(other.console()));
    order == Ordering::Less
}

/// The rank of a status: halts in the order of their bytes, then faults in the order of their numbers.
fn rank_of(status: Status) -> u16 {
    match status {
        Status::Running => 0,
        Status::Halted(byte) => u16::from(byte) + 1,
        Status::Faulted(fault) => u16::from(fault.number()) + 257,
    }
}
