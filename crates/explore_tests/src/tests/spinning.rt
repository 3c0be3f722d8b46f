//! Processors that spin.

use super::texts::{
    ASKS_ON, ASKS_ON_LATE, COUNTS_ON_LOCALLY, DONE, FIRST_SPINS, GLIMPSE, LOOPS, PRINTS_ON, SPIN,
    SPINS_IF_NOT_FIRST, SPINS_LATE, SPINS_WIDELY, TURNS_OVER, TURNS_OVER_LOCALLY,
};
use super::{each, exchanged, explored, found};
use exploration::{Refusal, Search, Termination};
use std::alloc::Global;
use std::process::Abort;
use std::test::Fail;
use test_support::assert_same;

/// Checks the numbers of results, of states, and of states that are stuck, and the number of the first of these.
fn see(
    rt: &impl Abort,
    alloc: Global,
    (text, k, search): (&str, u8, Search),
    (results, states, stuck, first): (usize, usize, usize, u32),
) -> Result<(), Fail> {
    let found = found(alloc, text, k, search)?;
    assert_same!(rt; found.results.len(), results, text);
    assert_same!(rt; found.states, states, text);
    let reported = Termination::Deadlock {
        states: stuck,
        first,
    };
    assert_same!(rt; found.termination, reported, text);
    Ok(())
}

/// A processor that returns to a state of its own without a reference never ends, and the search does not go on from a
/// state in which one spins. In `SPINS_IF_NOT_FIRST` both processors stop only if both load before either stores: in 6
/// of 13 states one stored before the other loaded. In `GLIMPSE` processor 1 can look between the two writes.
#[test]
fn spinning_never_ends(rt: HostRuntime) -> Result<(), Fail> {
    for (text, k, reported) in [
        (SPIN, 0, (0, 1, 1, 0)),
        (SPIN, 1, (0, 1, 1, 0)),
        (TURNS_OVER, 0, (0, 1, 1, 0)),
        (TURNS_OVER_LOCALLY, 0, (0, 1, 1, 0)),
        (SPINS_LATE, 0, (0, 1, 1, 0)),
        (SPINS_WIDELY, 0, (0, 1, 1, 0)),
        (FIRST_SPINS, 1, (0, 1, 1, 0)),
        (ASKS_ON, 1, (0, 1, 1, 0)),
        (ASKS_ON_LATE, 1, (0, 3, 3, 0)),
        (DONE, 0, (0, 2, 2, 0)),
        (DONE, 1, (0, 3, 3, 0)),
        (SPINS_IF_NOT_FIRST, 1, (1, 13, 6, 3)),
        (GLIMPSE, 1, (1, 7, 1, 4)),
    ] {
        see(&rt, rt.alloc(), (text, k, each(100)), reported)?;
    }
    Ok(())
}

/// The same up to exchanges. A processor that asks for its number after a reference is exchanged with no other, even if
/// it spins then.
#[test]
fn spinning_never_ends_up_to_exchanges(rt: HostRuntime) -> Result<(), Fail> {
    for (text, k, reported) in [
        (SPIN, 6, (0, 1, 1, 0)),
        (FIRST_SPINS, 6, (0, 1, 1, 0)),
        (ASKS_ON, 1, (0, 1, 1, 0)),
        (ASKS_ON_LATE, 1, (0, 3, 3, 0)),
        (DONE, 6, (0, 2, 2, 0)),
        (SPINS_IF_NOT_FIRST, 1, (1, 8, 3, 3)),
        (GLIMPSE, 1, (1, 7, 1, 4)),
    ] {
        see(&rt, rt.alloc(), (text, k, exchanged(100)), reported)?;
    }
    Ok(())
}

/// A long loop that ends does not count as spinning.
#[test]
fn loops_end(rt: HostRuntime) -> Result<(), Fail> {
    for (k, search, states) in [(0, each(100), 2), (1, each(100), 4), (1, exchanged(100), 3)] {
        let found = found(rt.alloc(), LOOPS, k, search)?;
        assert_same!(rt; found.results.len(), 1);
        assert_same!(rt; found.states, states);
        assert_same!(rt; found.termination, Termination::Always);
    }
    Ok(())
}

/// A processor that counts in local memory, or prints, never returns to a state of its own.
#[test]
fn others_go_on_too_long(rt: HostRuntime) -> Result<(), Fail> {
    for text in [COUNTS_ON_LOCALLY, PRINTS_ON] {
        let refusal = match explored(rt.alloc(), text, 0, each(100))? {
            Ok(_) => None,
            Err(given_up) => Some(given_up.why()),
        };
        assert_same!(rt; refusal, Some(Refusal::Alone), text);
    }
    Ok(())
}

/// In `GLIMPSE` processor 0 writes the 1, and then processor 1 looks, and spins.
#[test]
fn ways_lead_to_where_one_spins(rt: HostRuntime) -> Result<(), Fail> {
    for (text, search, way) in [
        (GLIMPSE, each(100), [0, 1].as_slice()),
        (GLIMPSE, exchanged(100), [0, 1].as_slice()),
        (SPINS_IF_NOT_FIRST, each(100), [0, 0].as_slice()),
        (SPIN, each(100), [].as_slice()),
    ] {
        let wish = Search {
            wanted: Some(0),
            ..search
        };
        let found = found(rt.alloc(), text, 1, wish)?;
        assert_same!(rt; found.way.as_slice(), way, text);
    }
    Ok(())
}
