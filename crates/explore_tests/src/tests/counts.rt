//! Numbers of results and of states.

use super::texts::{
    ASKS_LATE, CALL, COUNTER, COUNTS_ON, DEADLOCK, LONG_STRETCH, LOST_SUM, NEIGHBOURS, PRINTED,
    SECOND_ASKS, SEEN, SUM, TICKETS, TOO_LONG_STRETCH,
};
use super::{each, exchanged, explored, found, reported};
use exploration::{NonzeroWord, Refusal, Search};
use std::alloc::Global;
use std::test::Fail;
use test_support::assert_same;

/// How many results a text has.
fn results(alloc: Global, text: &str, k: u8, search: Search) -> Result<usize, Fail> {
    let found = found(alloc, text, k, search)?;
    Ok(found.results.len())
}

/// The number of states of a text, or why the search is refused.
fn states(
    alloc: Global,
    text: &str,
    k: u8,
    search: Search,
) -> Result<Result<usize, Refusal>, Fail> {
    Ok(match explored(alloc, text, k, search)? {
        Ok(found) => Ok(found.states),
        Err(given_up) => Err(given_up.why()),
    })
}

/// Two processors that add by a load and a store leave 1 or 2. Of two that look at each other at least one sees the
/// other. The i-th of n to add can see each sum from i to n: these are the (n + 1)^(n - 1) parking functions.
#[test]
fn results_are_counted(rt: HostRuntime) -> Result<(), Fail> {
    for (text, k, count) in [
        (SUM, 0, 1),
        (SUM, 1, 1),
        (LOST_SUM, 0, 1),
        (LOST_SUM, 1, 2),
        (LOST_SUM, 2, 4),
        (NEIGHBOURS, 1, 3),
        (DEADLOCK, 0, 0),
        (DEADLOCK, 6, 0),
        (PRINTED, 1, 1),
        (PRINTED, 6, 1),
        (SEEN, 1, 3),
        (SEEN, 2, 125),
    ] {
        assert_same!(rt; results(rt.alloc(), text, k, each(1000))?, count, text);
    }
    Ok(())
}

/// Up to exchanges there are as many parking functions as the n-th Catalan number.
#[test]
fn results_are_counted_up_to_exchanges(rt: HostRuntime) -> Result<(), Fail> {
    for (text, k, count) in [
        (SUM, 6, 1),
        (LOST_SUM, 1, 2),
        (LOST_SUM, 2, 4),
        (NEIGHBOURS, 1, 3),
        (DEADLOCK, 6, 0),
        (PRINTED, 6, 1),
        (SEEN, 0, 1),
        (SEEN, 1, 2),
        (SEEN, 2, 14),
        (SEEN, 3, 1430),
    ] {
        assert_same!(rt; results(rt.alloc(), text, k, exchanged(50_000))?, count, text);
    }
    Ok(())
}

/// A result has the `pc`, the status and the console of each processor, and the words.
#[test]
fn results_are_told(rt: HostRuntime) -> Result<(), Fail> {
    for (text, k, lines, words) in [
        (
            PRINTED,
            0,
            "1000c Faulted(Breakpoint) [65]\n",
            [].as_slice(),
        ),
        (
            SUM,
            1,
            "1000c Halted(0) []\n1000c Halted(0) []\n",
            [NonzeroWord { place: 0, value: 2 }].as_slice(),
        ),
    ] {
        let found = found(rt.alloc(), text, k, each(100))?;
        for last in found.results.iter() {
            assert_same!(rt; reported(rt.alloc(), last)?.as_str(), lines);
            assert_same!(rt; last.words.len(), 16);
            assert_same!(rt; last.words.nonzero(), words);
        }
    }
    Ok(())
}

/// A search that finds as many states as its limit is refused, also if it began again without exchanges (`ASKS_LATE`).
/// So is one in which a processor takes a million instructions before a reference; `LONG_STRETCH` has 999,999.
#[test]
fn limits(rt: HostRuntime) -> Result<(), Fail> {
    for (text, k, search, count) in [
        (LOST_SUM, 1, each(13), Ok(12)),
        (LOST_SUM, 1, each(12), Err(Refusal::States)),
        (LOST_SUM, 1, each(11), Err(Refusal::States)),
        (LOST_SUM, 1, each(0), Err(Refusal::States)),
        (SUM, 6, exchanged(66), Ok(65)),
        (SUM, 6, exchanged(65), Err(Refusal::States)),
        (ASKS_LATE, 2, exchanged(17), Ok(16)),
        (ASKS_LATE, 2, exchanged(16), Err(Refusal::States)),
        (LONG_STRETCH, 0, each(10), Ok(2)),
        (TOO_LONG_STRETCH, 0, each(10), Err(Refusal::Alone)),
        (COUNTS_ON, 0, each(10), Err(Refusal::Alone)),
        (COUNTS_ON, 1, exchanged(10), Err(Refusal::Alone)),
    ] {
        assert_same!(rt; states(rt.alloc(), text, k, search)?, count, text);
    }
    Ok(())
}

/// A register that is written before it is read does not distinguish states: with three adds a processor has four
/// states, and n processors have 4^n. The states of `LOST_SUM` and `TICKETS` were counted by another program. In `CALL`
/// all registers are live before the jump to an address in a register, but each of two processors is at the add or has
/// stopped: four states.
#[test]
fn states_are_counted(rt: HostRuntime) -> Result<(), Fail> {
    for (text, k, count) in [
        (COUNTER, 0, 4),
        (COUNTER, 1, 16),
        (COUNTER, 2, 256),
        (LOST_SUM, 2, 330),
        (TICKETS, 1, 89),
        (CALL, 1, 4),
        (DEADLOCK, 6, 1),
    ] {
        assert_same!(rt; states(rt.alloc(), text, k, each(1000))?, Ok(count), text);
    }
    Ok(())
}

/// Of n processors with four states each, it matters only how many are in which state: C(n + 3, 3). If one asks for its
/// number, there are as many states as without exchanges.
#[test]
fn states_are_counted_up_to_exchanges(rt: HostRuntime) -> Result<(), Fail> {
    for (text, k, count) in [
        (COUNTER, 0, 4),
        (COUNTER, 1, 10),
        (COUNTER, 2, 35),
        (COUNTER, 3, 165),
        (COUNTER, 4, 969),
        (COUNTER, 5, 6545),
        (COUNTER, 6, 47_905),
        (SUM, 6, 65),
        (LOST_SUM, 1, 8),
        (CALL, 1, 3),
        (DEADLOCK, 6, 1),
        (ASKS_LATE, 1, 4),
        (ASKS_LATE, 2, 16),
        (SECOND_ASKS, 1, 5),
        (SECOND_ASKS, 2, 33),
    ] {
        assert_same!(rt; states(rt.alloc(), text, k, exchanged(50_000))?, Ok(count), text);
    }
    Ok(())
}
