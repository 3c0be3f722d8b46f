//! The results up to exchanges stand for all results, and no two of them for the same one.

use super::texts::{
    ASKS_LATE, BREAK_BEHIND, DEADLOCK, DRAWS, HALVES, KEPT, LEADER, LOST_SUM, NEEDED_SUM,
    NEIGHBOURS, NO_ADDRESS, PRINTS_OFTEN, SECOND, SEEN, SIDE, SIDES, SIGNAL, TICKETS, TWICE,
    UNKNOWN_CALL,
};
use super::{each, exchanged, found};
use exploration::{Explored, FinalResult, ProcessorResult, Termination};
use std::process::Abort;
use std::test::Fail;
use test_support::assert_same;

/// Programs, each with its `k` and the numbers of its results, up to exchanges and one by one. If each of n processors
/// draws a number, there are n! results, and one up to exchanges; with two classes of two processors, C(4, 2). If each
/// draws two numbers, there is a result for each order of the draws, (2n)! / 2^n, and n! of them are one up to
/// exchanges. If each shows only its second number, these are the places of second draws in a row of 2n draws that
/// nowhere has had more second draws than first ones. There are as many such rows as the n-th Catalan number, and n!
/// ways to give the numbers to processors.
const COUNTED: [(&str, u8, usize, usize); 23] = [
    (LOST_SUM, 1, 2, 2),
    (LOST_SUM, 2, 4, 4),
    (NEEDED_SUM, 1, 1, 1),
    (SEEN, 1, 2, 3),
    (SEEN, 2, 14, 125),
    (TICKETS, 1, 1, 1),
    (DEADLOCK, 1, 0, 0),
    (NEIGHBOURS, 1, 3, 3),
    (SIGNAL, 2, 1, 1),
    (LEADER, 2, 1, 1),
    (KEPT, 1, 1, 1),
    (SIDE, 2, 1, 1),
    (ASKS_LATE, 1, 1, 1),
    (DRAWS, 2, 1, 24),
    (TWICE, 1, 3, 6),
    (SECOND, 1, 2, 4),
    (SECOND, 2, 14, 336),
    (SIDES, 2, 6, 24),
    (HALVES, 2, 6, 24),
    (UNKNOWN_CALL, 2, 1, 4),
    (BREAK_BEHIND, 1, 1, 2),
    (NO_ADDRESS, 2, 1, 4),
    (PRINTS_OFTEN, 2, 1, 24),
];

/// Whether two processors show the same.
fn are_same(one: &ProcessorResult, other: &ProcessorResult) -> bool {
    one.pc == other.pc
        && one.status == other.status
        && one.console.as_slice() == other.console.as_slice()
}

/// How many processors of a class show the same as this one.
fn count(last: &FinalResult, classes: &[u8], class: u8, shown: &ProcessorResult) -> usize {
    let mut count = 0usize;
    for (processor, of) in last.processors.iter().zip(classes) {
        if *of == class && are_same(processor, shown) {
            count = count.saturating_add(1);
        }
    }
    count
}

/// Whether one result stands for the other: in both the words are the same, and each class shows the same in any order.
fn stands_for(one: &FinalResult, other: &FinalResult, classes: &[u8]) -> bool {
    if one.words != other.words {
        return false;
    }
    for (processor, class) in one.processors.iter().zip(classes) {
        if count(one, classes, *class, processor) != count(other, classes, *class, processor) {
            return false;
        }
    }
    one.processors.len() == classes.len() && other.processors.len() == classes.len()
}

/// How many of these results stand for this one.
fn standing_for(results: &[FinalResult], last: &FinalResult, classes: &[u8]) -> usize {
    let mut count = 0usize;
    for one in results {
        if stands_for(one, last, classes) {
            count = count.saturating_add(1);
        }
    }
    count
}

/// The verdict on schedules, without the number of states.
fn kind(schedules: Termination) -> u8 {
    match schedules {
        Termination::Always => 0,
        Termination::Possible => 1,
        Termination::Deadlock { .. } => 2,
    }
}

/// Checks that each result stands for itself alone.
fn see_once(rt: &impl Abort, found: &Explored, text: &str) {
    for last in found.results.iter() {
        let count = standing_for(found.results.as_slice(), last, found.classes.as_slice());
        assert_same!(rt; count, 1, text);
    }
}

/// Checks that for each of all results exactly one of some stands, that each of some stands for at least one, and that
/// the verdicts on schedules agree.
fn see_agreement(rt: &impl Abort, some: &Explored, all: &Explored, text: &str) {
    let classes = some.classes.as_slice();
    for last in all.results.iter() {
        assert_same!(rt; standing_for(some.results.as_slice(), last, classes), 1, text);
    }
    for last in some.results.iter() {
        assert!(rt;
            standing_for(all.results.as_slice(), last, classes) > 0,
            "{text}"
        );
    }
    assert_same!(rt; kind(some.termination), kind(all.termination), text);
}

#[test]
fn no_two_results_stand_for_the_same(rt: HostRuntime) -> Result<(), Fail> {
    for (text, k, some, _) in COUNTED {
        let found = found(rt.alloc(), text, k, exchanged(1000))?;
        assert_same!(rt; found.results.len(), some, text);
        see_once(&rt, &found, text);
    }
    let found = found(rt.alloc(), TWICE, 2, exchanged(10_000))?;
    assert_same!(rt; found.results.len(), 105);
    see_once(&rt, &found, TWICE);
    Ok(())
}

#[test]
fn each_result_is_stood_for_once(rt: HostRuntime) -> Result<(), Fail> {
    for (text, k, _, count) in COUNTED {
        let all = found(rt.alloc(), text, k, each(10_000))?;
        assert_same!(rt; all.results.len(), count, text);
        let some = found(rt.alloc(), text, k, exchanged(10_000))?;
        see_agreement(&rt, &some, &all, text);
    }
    Ok(())
}
