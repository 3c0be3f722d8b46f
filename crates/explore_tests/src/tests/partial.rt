//! Searches that give up, and what they have found. Of the states of one processor that adds three times, each has one
//! successor: the first state, one after each add, and the last is the end.

use super::texts::{COUNTER, COUNTS_ON};
use super::{each, explored};
use exploration::{GivenUp, PartialResults, Refusal, SearchObserver, explore};
use property_search::{Verdict, judge};
use state_conditions::{Condition, Kind, Property};
use std::alloc::Global;
use std::test::Fail;
use test_support::{assert_same, machine_of, tight_size};

/// An observer that stops a search once it has found this many states.
#[derive(Clone, Copy, Debug, Drop)]
struct StopsAt(usize);

impl SearchObserver for StopsAt {
    fn progress(&mut self, states: usize) -> bool {
        states < self.0
    }

    fn over(&mut self) {}
}

/// How many results and states were found.
fn counts(found: &PartialResults) -> (usize, usize) {
    (found.results.len(), found.states)
}

/// A search that finds too many states has those that it found until then, and the results among them. Two processors
/// that add three times have 16 states; the end is the last.
#[test]
fn too_many_states(rt: HostRuntime) -> Result<(), Fail> {
    for (text, k, limit, wanted) in [
        (COUNTER, 0, 1, (0, 1)),
        (COUNTER, 0, 3, (0, 3)),
        (COUNTER, 0, 4, (1, 4)),
        (COUNTER, 1, 15, (0, 15)),
        (COUNTER, 1, 16, (1, 16)),
    ] {
        match explored(rt.alloc(), text, k, each(limit))? {
            Err(GivenUp::States(found)) => assert_same!(rt; counts(&found), wanted, limit),
            _ => return Err(Fail::new(format_args!("{text} up to {limit}"))),
        }
    }
    Ok(())
}

/// The results that are found are those of an end, with a class for each processor.
#[test]
fn results_so_far(rt: HostRuntime) -> Result<(), Fail> {
    let Err(GivenUp::States(found)) = explored(rt.alloc(), COUNTER, 1, each(16))? else {
        return Err(Fail::new(format_args!("no results")));
    };
    assert_same!(rt; found.classes.as_slice(), [0, 1].as_slice());
    let Some(last) = found.results.first() else {
        return Err(Fail::new(format_args!("no result")));
    };
    assert_same!(rt; super::reported(rt.alloc(), last)?.as_str(),
        "10014 Halted(0) []\n10014 Halted(0) []\n");
    assert_same!(rt; last.words.get(0), 6);
    Ok(())
}

/// How many results and states a search has found that is stopped at this many states; None if it is complete.
fn stopped_at(alloc: Global, states: usize) -> Result<Option<(usize, usize)>, Fail> {
    let machine = machine_of(alloc, COUNTER, tight_size(0))?;
    let mut observer = StopsAt(states);
    match explore(alloc, &machine, each(100), &mut observer) {
        Ok(_) => Ok(None),
        Err(given_up) => match given_up {
            GivenUp::Stopped(found) => Ok(Some(counts(&found))),
            _ => Err(Fail::new(format_args!("another reason"))),
        },
    }
}

/// An observer stops a search before it looks at the moves of the next state.
#[test]
fn observers_stop_searches(rt: HostRuntime) -> Result<(), Fail> {
    let alloc = rt.alloc();
    assert_same!(rt; stopped_at(alloc, 1)?, Some((0, 1)));
    assert_same!(rt; stopped_at(alloc, 4)?, Some((1, 4)));
    assert_same!(rt; stopped_at(alloc, 5)?, None);
    Ok(())
}

/// A search that gives up for another reason has nothing.
#[test]
fn others_have_nothing(rt: HostRuntime) -> Result<(), Fail> {
    match explored(rt.alloc(), COUNTS_ON, 0, each(10))? {
        Err(GivenUp::Alone) => Ok(()),
        _ => Err(Fail::new(format_args!("the processor makes a reference"))),
    }
}

/// The verdict on `never TEXT`, with the length of the way, or why there is none, of a search that gives up at `limit`
/// states or is stopped at `stops` states.
fn judged(
    alloc: Global,
    text: &str,
    limit: u32,
    stops: usize,
) -> Result<Result<(Verdict, usize), Refusal>, Fail> {
    let machine = machine_of(alloc, COUNTER, tight_size(0))?;
    let Some(condition) = Condition::of_text(alloc, text, 1, &None)? else {
        return Err(Fail::new(format_args!("no condition")));
    };
    let property = Property {
        kind: Kind::Never,
        condition,
    };
    let mut observer = StopsAt(stops);
    match judge(alloc, &machine, limit, &property, &mut observer) {
        Ok(found) => Ok(Ok((found.verdict, found.way.len()))),
        Err(refusal) => Ok(Err(refusal)),
    }
}

/// A property that a state found so far breaks is broken, whatever the search has not found: the second state has a sum
/// of 1. If none breaks it, there is no verdict.
#[test]
fn properties_so_far(rt: HostRuntime) -> Result<(), Fail> {
    let alloc = rt.alloc();
    assert_same!(rt; judged(alloc, "word 0 > 0", 2, 100)?, Ok((Verdict::Broken, 1)));
    assert_same!(rt; judged(alloc, "word 0 > 0", 1, 100)?, Err(Refusal::States));
    assert_same!(rt; judged(alloc, "word 0 > 1", 2, 100)?, Err(Refusal::States));
    assert_same!(rt; judged(alloc, "word 0 > 1", 3, 100)?, Ok((Verdict::Broken, 2)));
    assert_same!(rt; judged(alloc, "word 0 > 0", 100, 2)?, Ok((Verdict::Broken, 1)));
    assert_same!(rt; judged(alloc, "word 0 > 1", 100, 2)?, Err(Refusal::Stopped));
    assert_same!(rt; judged(alloc, "word 0 > 3", 100, 100)?, Ok((Verdict::Holds, 0)));
    Ok(())
}
