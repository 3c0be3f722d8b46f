//! Stop replies.

use super::{poke, stop, two};
use arrayvec::ArrayVec;
use debug_replies::{Breaks, Faults, named_stop, show_stop};
use flat_machine::{PC, Poke};
use machine_steps::Machine;
use std::process::Abort;
use std::test::Fail;
use test_support::{assert_same, lend};

/// Checks the stop reply that names this processor, which replaces the text before it.
fn shows(rt: &impl Abort, machine: &Machine, named: Option<u8>, reply: &str) {
    let mut text = ArrayVec::<u8, 1024>::new();
    let _ = text.try_extend_from_slice(b"before");
    if machine.are_home() {
        show_stop(machine, named, &mut text);
    }
    assert_same!(rt; text.as_slice(), reply.as_bytes(), named);
}

/// The processor that is named, on a machine none of whose cores is away.
fn named(rt: &impl Abort, machine: &Machine, breaks: &Breaks, before: &Faults) -> Option<u8> {
    assert!(rt; machine.are_home());
    named_stop(machine, breaks, before)
}

/// The faults of a machine none of whose cores is away.
fn faults_of(rt: &impl Abort, machine: &Machine) -> Faults {
    assert!(rt; machine.are_home());
    Faults::of(machine)
}

/// Processors, or none, each with its stop reply: in hex without leading zeros.
static NAMES: [(Option<u8>, &str); 8] = [
    (None, "at -"),
    (Some(0), "at 0"),
    (Some(9), "at 9"),
    (Some(10), "at a"),
    (Some(15), "at f"),
    (Some(16), "at 10"),
    (Some(31), "at 1f"),
    (Some(63), "at 3f"),
];

#[test]
fn names(rt: HostRuntime) -> Result<(), Fail> {
    lend(two(rt.alloc())?, |machine| {
        for (named, reply) in &NAMES {
            shows(&rt, machine, *named, reply);
        }
    });
    Ok(())
}

/// `halted` is reported after all processors have halted: the word at 0x00010008 is an `ecall`, which halts if `a7` is
/// 0.
#[test]
fn halts(rt: HostRuntime) -> Result<(), Fail> {
    lend(two(rt.alloc())?, |machine| {
        for (processor, reply) in [(1, "at 1"), (0, "halted")] {
            let at = Poke::Register {
                processor,
                register: PC,
                value: 0x0001_0008,
            };
            poke(&rt, machine, at);
            stop(&rt, machine, processor);
            shows(&rt, machine, Some(1), reply);
        }
    });
    Ok(())
}

/// A processor that a fault stopped has not halted.
#[test]
fn faulted_is_not_halted(rt: HostRuntime) -> Result<(), Fail> {
    lend(two(rt.alloc())?, |machine| {
        for processor in [0, 1] {
            stop(&rt, machine, processor);
            shows(&rt, machine, None, "at -");
        }
    });
    Ok(())
}

/// A processor that runs at a break is named rather than one that a fault stopped, and the smallest if there are
/// several. One that a fault stopped before the run is not named.
#[test]
fn named_after_a_run(rt: HostRuntime) -> Result<(), Fail> {
    lend((two(rt.alloc())?, Breaks::new()), |(machine, breaks)| {
        let none = faults_of(&rt, machine);
        assert_same!(rt; named(&rt, machine, breaks, &none), None);
        assert!(rt; breaks.set(0x0001_0000));
        assert_same!(rt; named(&rt, machine, breaks, &none), Some(0));
        stop(&rt, machine, 0);
        assert_same!(rt; named(&rt, machine, breaks, &none), Some(1));
        assert!(rt; breaks.clear(0x0001_0000));
        assert_same!(rt; named(&rt, machine, breaks, &none), Some(0));
        let one = faults_of(&rt, machine);
        assert_same!(rt; named(&rt, machine, breaks, &one), None);
        stop(&rt, machine, 1);
        assert_same!(rt; named(&rt, machine, breaks, &one), Some(1));
        assert_same!(rt; named(&rt, machine, breaks, &none), Some(0));
    });
    Ok(())
}
