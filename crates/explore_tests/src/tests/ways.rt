//! Ways to results, and to states that are stuck.

use super::texts::{
    ASKS_LATE, DRAWS, DRAWS_BACK, HALVES, LOST_SUM, MISSED, NEEDED_SUM, SIDES, TWICE, TWICE_BACK,
};
use super::{each, exchanged, found};
use exploration::{FinalResult, Search};
use flat_machine::Status;
use std::alloc::Global;
use std::process::Abort;
use std::test::Fail;
use test_support::assert_same;

/// The way to the result with this number, or to the first state that is stuck if it is 0.
fn way_to(alloc: Global, text: &str, k: u8, search: Search, number: u32) -> Result<Vec<u8>, Fail> {
    let wish = Search {
        wanted: Some(number),
        ..search
    };
    let found = found(alloc, text, k, wish)?;
    Ok(found.way)
}

/// The first result is 2, from one processor after the other; the second is 1, because both load before either stores.
#[test]
fn ways_lead_to_results(rt: HostRuntime) -> Result<(), Fail> {
    let found = found(rt.alloc(), LOST_SUM, 1, each(100))?;
    assert_same!(rt; found.results.len(), 2);
    for (last, sum) in found.results.iter().zip([2, 1]) {
        assert_same!(rt; last.words.get(0), sum);
    }
    for (number, way) in [(1, [0, 0, 1, 1]), (2, [0, 1, 0, 1])] {
        let found = way_to(rt.alloc(), LOST_SUM, 1, each(100), number)?;
        assert_same!(rt; found.as_slice(), way.as_slice(), number);
    }
    Ok(())
}

/// The sum that two processors leave that add by a load and a store, if their references come in this order.
fn sum_of(way: &[u8]) -> u32 {
    let mut sum = 0u32;
    let mut loaded = [None; 2];
    for p in way {
        let held = &mut loaded[usize::from(*p & 1)];
        match *held {
            None => *held = Some(sum),
            Some(before) => sum = before.wrapping_add(1),
        }
    }
    sum
}

/// Up to exchanges too, each way has four references, and leaves the sum of its result.
#[test]
fn ways_lead_to_sums(rt: HostRuntime) -> Result<(), Fail> {
    let found = found(rt.alloc(), LOST_SUM, 1, exchanged(100))?;
    assert_same!(rt; found.results.len(), 2);
    for (last, number) in found.results.iter().zip([1, 2]) {
        let way = way_to(rt.alloc(), LOST_SUM, 1, exchanged(100), number)?;
        assert_same!(rt; way.len(), 4);
        assert_same!(rt; last.words.get(0), sum_of(way.as_slice()));
    }
    Ok(())
}

/// Whether a way explains the numbers with which processors halt, after this mask is taken off: the reference that
/// draws number n is at place n of the way, and has to be of the processor that halts with n.
fn is_drawn_on(way: &[u8], last: &FinalResult, mask: u8) -> bool {
    for (p, processor) in last.processors.iter().enumerate() {
        let Status::Halted(byte) = processor.status else {
            return false;
        };
        let drawn = byte ^ mask;
        for number in [drawn & 7, drawn >> 3 & 7] {
            match way.get(usize::from(number)) {
                Some(mover) if usize::from(*mover) == p => {}
                _ => return false,
            }
        }
    }
    true
}

/// Checks that the way to each result leads to it.
fn see_ways(
    rt: &impl Abort,
    alloc: Global,
    (text, k, search): (&str, u8, Search),
    mask: u8,
    references: usize,
) -> Result<(), Fail> {
    let found = found(alloc, text, k, search)?;
    let mut number = 0u32;
    for last in found.results.iter() {
        number = number.saturating_add(1);
        let way = way_to(alloc, text, k, search, number)?;
        assert_same!(rt; way.len(), references, text);
        assert!(rt; is_drawn_on(way.as_slice(), last, mask), "{text}: {number}");
    }
    Ok(())
}

/// If processors halt with the numbers that they drew, a result determines its way. Up to exchanges, the processors of
/// a way have the numbers that they have in the result.
#[test]
fn ways_lead_to_numbers(rt: HostRuntime) -> Result<(), Fail> {
    for (text, k, search, mask, references) in [
        (DRAWS, 2, each(1000), 0, 4),
        (DRAWS, 2, exchanged(1000), 0, 4),
        (DRAWS_BACK, 2, exchanged(1000), 63, 4),
        (DRAWS_BACK, 3, exchanged(1000), 63, 8),
        (TWICE, 1, each(1000), 0, 4),
        (TWICE, 1, exchanged(1000), 0, 4),
        (TWICE_BACK, 1, exchanged(1000), 63, 4),
        (TWICE, 2, exchanged(10_000), 0, 8),
        (TWICE_BACK, 2, exchanged(10_000), 63, 8),
        (SIDES, 2, each(1000), 0, 4),
        (SIDES, 2, exchanged(1000), 0, 4),
        (HALVES, 2, exchanged(1000), 0, 4),
    ] {
        see_ways(&rt, rt.alloc(), (text, k, search), mask, references)?;
    }
    Ok(())
}

/// In `MISSED` processor 1 writes twice before the other reads. In `NEEDED_SUM` both load before either stores.
#[test]
fn ways_lead_to_where_no_end_can_be_reached(rt: HostRuntime) -> Result<(), Fail> {
    for (text, search, way) in [
        (MISSED, each(100), [1, 1]),
        (MISSED, exchanged(100), [1, 1]),
        (NEEDED_SUM, each(100), [0, 1]),
    ] {
        let found = way_to(rt.alloc(), text, 1, search, 0)?;
        assert_same!(rt; found.as_slice(), way.as_slice(), text);
    }
    let found = way_to(rt.alloc(), NEEDED_SUM, 1, exchanged(100), 0)?;
    assert!(rt; matches!(found.as_slice(), [0, 1] | [1, 0]));
    Ok(())
}

/// There is no way to a result that does not exist, to a state that is stuck if none is, or if none is wanted.
#[test]
fn there_may_be_no_way(rt: HostRuntime) -> Result<(), Fail> {
    for (text, wanted) in [
        (LOST_SUM, Some(3)),
        (LOST_SUM, Some(u32::MAX)),
        (LOST_SUM, Some(0)),
        (LOST_SUM, None),
        (MISSED, None),
    ] {
        for search in [each(100), exchanged(100)] {
            let found = found(rt.alloc(), text, 1, Search { wanted, ..search })?;
            assert_same!(rt; found.way.len(), 0, text);
        }
    }
    Ok(())
}

/// If a processor asks for its number, the way is that of the second search, without exchanges: 0 comes first.
#[test]
fn way_where_one_asks(rt: HostRuntime) -> Result<(), Fail> {
    let way = way_to(rt.alloc(), ASKS_LATE, 1, exchanged(100), 1)?;
    assert_same!(rt; way.as_slice(), [0, 1].as_slice());
    Ok(())
}
