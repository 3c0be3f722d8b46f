//! Which processors are exchanged.

use super::texts::{
    ASKS_HOW_MANY, ASKS_LATE, COUNTER, HALVES, KEPT, LAST_TWO, LEADER, NEIGHBOURS, SECOND_ASKS,
    SIDE, SIDES, SIGNAL, SUM,
};
use super::{each, exchanged, found};
use exploration::Search;
use std::alloc::Global;
use std::process::Abort;
use std::test::Fail;
use test_support::assert_same;

/// Checks the classes of the processors and the number of states.
fn see(
    rt: &impl Abort,
    alloc: Global,
    (text, k, search): (&str, u8, Search),
    classes: &[u8],
    states: usize,
) -> Result<(), Fail> {
    let found = found(alloc, text, k, search)?;
    assert_same!(rt; found.classes.as_slice(), classes, text);
    assert_same!(rt; found.states, states, text);
    Ok(())
}

/// Processors that are alike before their first reference are of one class. Their numbers distinguish them if they may
/// still read them, from a register or from local memory.
#[test]
fn alike_processors_are_exchanged(rt: HostRuntime) -> Result<(), Fail> {
    for (text, k, classes, states) in [
        (SUM, 0, [0].as_slice(), 2),
        (SUM, 2, [0, 0, 0, 0].as_slice(), 5),
        (NEIGHBOURS, 1, [0, 1].as_slice(), 13),
        (SIGNAL, 2, [0, 1, 2, 3].as_slice(), 17),
        (LEADER, 2, [0, 1, 1, 1].as_slice(), 9),
        (KEPT, 1, [0, 1].as_slice(), 4),
        (SIDE, 2, [0, 1, 0, 1].as_slice(), 1),
        (SIDES, 2, [0, 1, 0, 1].as_slice(), 19),
        (HALVES, 2, [0, 0, 2, 2].as_slice(), 19),
        (ASKS_HOW_MANY, 1, [0, 0].as_slice(), 3),
    ] {
        see(&rt, rt.alloc(), (text, k, exchanged(1000)), classes, states)?;
    }
    Ok(())
}

/// If processors are not exchanged, or one asks for its number after a reference, each has a class of its own.
#[test]
fn others_have_classes_of_their_own(rt: HostRuntime) -> Result<(), Fail> {
    for (text, k, search, classes, states) in [
        (SUM, 2, each(1000), [0, 1, 2, 3].as_slice(), 16),
        (LEADER, 2, each(1000), [0, 1, 2, 3].as_slice(), 17),
        (SIDE, 2, each(1000), [0, 1, 2, 3].as_slice(), 1),
        (ASKS_LATE, 1, exchanged(1000), [0, 1].as_slice(), 4),
        (ASKS_LATE, 2, exchanged(1000), [0, 1, 2, 3].as_slice(), 16),
        (SECOND_ASKS, 1, exchanged(1000), [0, 1].as_slice(), 5),
        (COUNTER, 1, each(1000), [0, 1].as_slice(), 16),
    ] {
        see(&rt, rt.alloc(), (text, k, search), classes, states)?;
    }
    Ok(())
}

/// The last two of 64 processors may lose an addition, and are one class. The others stop at once, and are another: so
/// there are as many states as of `LOST_SUM` on two processors.
#[test]
fn last_two_are_exchanged(rt: HostRuntime) -> Result<(), Fail> {
    let mut classes = [0; 64];
    classes[62] = 62;
    classes[63] = 62;
    see(
        &rt,
        rt.alloc(),
        (LAST_TWO, 6, exchanged(100)),
        classes.as_slice(),
        8,
    )?;
    let mut own = [0; 64];
    for p in 0..64 {
        own[usize::from(p)] = p;
    }
    see(
        &rt,
        rt.alloc(),
        (LAST_TWO, 6, each(100)),
        own.as_slice(),
        12,
    )
}
