//! Whether every fair schedule ends.

use super::texts::{
    ADDS_ON, DEADLOCK, DEADLY_EMBRACE, LEADER, LOST_SUM, MISSED, POLITE, SIGNAL, SPIN, SUM,
    SWAP_LOCK, TICKETS,
};
use super::{each, exchanged, found};
use exploration::{Fairness, Search};
use std::alloc::Global;
use std::fmt::Write;
use std::test::Fail;
use test_support::assert_same;

/// What is said of fair schedules: `ends`, the stem and the cycle of one that never does, or `unknown`.
fn said(alloc: Global, fairness: &Fairness) -> Result<String, Fail> {
    let mut text = String::new(alloc);
    match fairness {
        Fairness::Ends => text.push_str("ends")?,
        Fairness::Endless(lasso) => {
            let (stem, cycle) = (lasso.stem.as_slice(), lasso.cycle.as_slice());
            write!(text, "{stem:?} {cycle:?}")?;
        }
        Fairness::Unknown => text.push_str("unknown")?,
    }
    Ok(text)
}

/// Programs without loops end. One that waits for what another will surely do ends if the other takes turns again and
/// again: a signal, a ticket, or a lock that each takes a bounded number of times.
///
/// No fair schedule helps those that wait for what nobody does, or that go on for ever. One that waits alone refers again
/// and again, as do two that wait for each other, in turn. In `MISSED` processor 1 writes twice and stops, and the other
/// waits. Two that are polite raise their flags, see both up, and lower them, in step, so that neither ends although
/// both take turns. Of processors that spin nothing is known.
#[test]
fn fair_schedules_end(rt: HostRuntime) -> Result<(), Fail> {
    let alloc = rt.alloc();
    for (text, k, expected) in [
        (SUM, 1, "ends"),
        (LOST_SUM, 1, "ends"),
        (SIGNAL, 1, "ends"),
        (SIGNAL, 2, "ends"),
        (LEADER, 1, "ends"),
        (TICKETS, 1, "ends"),
        (SWAP_LOCK, 1, "ends"),
        (SWAP_LOCK, 2, "ends"),
        (DEADLOCK, 0, "[] [0]"),
        (DEADLY_EMBRACE, 1, "[] [0, 1]"),
        (MISSED, 1, "[1, 1] [0]"),
        (POLITE, 1, "[] [0, 1, 0, 1, 0, 1]"),
        (ADDS_ON, 0, "[] [0]"),
        (SPIN, 1, "unknown"),
    ] {
        let asked = Search {
            fair: true,
            ..exchanged(10000)
        };
        let found = found(alloc, text, k, asked)?;
        assert_same!(rt; said(alloc, &found.fairness)?.as_str(), expected, text);
    }
    Ok(())
}

/// It is not told unless it is asked for.
#[test]
fn fairness_is_not_asked_for(rt: HostRuntime) -> Result<(), Fail> {
    let alloc = rt.alloc();
    for text in [SUM, DEADLOCK] {
        let found = found(alloc, text, 0, each(100))?;
        assert_same!(rt; said(alloc, &found.fairness)?.as_str(), "unknown", text);
    }
    Ok(())
}
