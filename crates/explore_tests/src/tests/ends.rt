//! Whether schedules end.

use super::texts::{
    DEADLOCK, DEADLY_EMBRACE, LEADER, LOST_SUM, MISSED, NEEDED_SUM, NEIGHBOURS, PRINTED, SIGNAL,
    SUM,
};
use super::{each, exchanged, found};
use exploration::{Search, Termination};
use std::alloc::Global;
use std::test::Fail;
use test_support::assert_same;

/// The verdict on the schedules of a text.
fn schedules(alloc: Global, text: &str, k: u8, search: Search) -> Result<Termination, Fail> {
    let found = found(alloc, text, k, search)?;
    Ok(found.termination)
}

/// No end can be reached from this many states, the first of which has this number.
fn stuck(states: usize, first: u32) -> Termination {
    Termination::Deadlock { states, first }
}

/// Programs without loops end by every schedule. A processor that waits for another may wait for ever, but can always
/// end while the other can still come. Two that wait for each other cannot end, nor one that waits for a word that
/// nobody writes. In `NEEDED_SUM` both wait for ever if an addition is lost, from when both have loaded: then neither
/// has stored, or one, or the other, or both.
#[test]
fn schedules_are_told(rt: HostRuntime) -> Result<(), Fail> {
    for (text, k, reported) in [
        (SUM, 1, Termination::Always),
        (LOST_SUM, 1, Termination::Always),
        (NEIGHBOURS, 1, Termination::Always),
        (PRINTED, 0, Termination::Always),
        (SIGNAL, 0, Termination::Always),
        (SIGNAL, 1, Termination::Possible),
        (SIGNAL, 2, Termination::Possible),
        (DEADLOCK, 0, stuck(1, 0)),
        (DEADLY_EMBRACE, 1, stuck(1, 0)),
        (MISSED, 1, stuck(1, 3)),
        (NEEDED_SUM, 1, stuck(4, 4)),
    ] {
        assert_same!(rt; schedules(rt.alloc(), text, k, each(1000))?, reported, text);
    }
    Ok(())
}

/// The same up to exchanges. In `NEEDED_SUM` it does not matter then which of the two has stored.
#[test]
fn schedules_are_told_up_to_exchanges(rt: HostRuntime) -> Result<(), Fail> {
    for (text, k, reported) in [
        (SUM, 6, Termination::Always),
        (LOST_SUM, 1, Termination::Always),
        (NEIGHBOURS, 1, Termination::Always),
        (PRINTED, 6, Termination::Always),
        (LEADER, 0, Termination::Always),
        (LEADER, 1, Termination::Possible),
        (LEADER, 6, Termination::Possible),
        (DEADLOCK, 6, stuck(1, 0)),
        (DEADLY_EMBRACE, 1, stuck(1, 0)),
        (NEEDED_SUM, 1, stuck(3, 2)),
    ] {
        assert_same!(rt; schedules(rt.alloc(), text, k, exchanged(1000))?, reported, text);
    }
    Ok(())
}
