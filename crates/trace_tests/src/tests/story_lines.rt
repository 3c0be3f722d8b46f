//! Lines of a story, written by hand: two adds that combine in a switch and come back, and pokes.

use flat_machine::{Cause, Fault, PC, Poke};
use messages::Seconds;
use phi_algebra::{Phi, SignedRange, UnsignedRange};
use std::test::Fail;
use steps::{Groups, Outcome, Step};
use test_support::assert_same;
use trace_lines::{Reference, Values, push_function, push_line};

/// Processors 0 and 1 add 2 and 5 to word 7, which holds 100. The request of 1 moves first, so 1 leads.
const MEETING: [(Step, Outcome, Values, &str); 8] = [
    (
        Step::Poke(Poke::Shared {
            address: 0x8000_0001,
            value: 0xAB,
        }),
        Outcome::Poked,
        Values::Nothing,
        "0 poke - 80000001 ab: writes\n",
    ),
    (
        Step::Turn(0),
        Outcome::Issued,
        Values::Sent {
            phi: Phi::Add(2),
            word: 7,
        },
        "1 turn 0: sends add 00000002 to word 7\n",
    ),
    (
        Step::Turn(1),
        Outcome::Issued,
        Values::Sent {
            phi: Phi::Add(5),
            word: 7,
        },
        "2 turn 1: sends add 00000005 to word 7\n",
    ),
    (
        Step::Up { stage: 0, wire: 1 },
        Outcome::Moved,
        Values::Nothing,
        "3 up 0 1: moves to depth 1\n",
    ),
    (
        Step::Up { stage: 0, wire: 0 },
        Outcome::Combined {
            first: 1,
            second: 0,
        },
        Values::Joined {
            both: Phi::Add(7),
            kept: Phi::Add(5),
        },
        "4 up 0 0: 0 joins 1 at stage 0: add 00000007 goes on, add 00000005 is kept\n",
    ),
    (
        Step::Serve(1),
        Outcome::Served { leader: 1 },
        Values::Served(Reference {
            word: 7,
            before: 100,
            after: 107,
        }),
        "5 serve 1: serves 2: 1 0: word 7 00000064 to 0000006b\n",
    ),
    (
        Step::Down { stage: 0, wire: 1 },
        Outcome::Answered {
            to: Seconds::One(0),
        },
        Values::Answered {
            first: Some(105),
            second: None,
            third: None,
        },
        "6 down 0 1: answers 0 at stage 0: 00000069\n",
    ),
    (
        Step::Turn(2),
        Outcome::Stopped(Cause::Fault(Fault::Breakpoint)),
        Values::Nothing,
        "7 turn 2: stops fault 8\n",
    ),
];

#[test]
fn adds_that_meet(rt: HostRuntime) -> Result<(), Fail> {
    let alloc = rt.alloc();
    let mut groups = Groups::new(alloc)?;
    for (number, (step, outcome, values, expected)) in MEETING.iter().enumerate() {
        let mut line = String::new(alloc);
        push_line(alloc, &mut line, &groups, number, step, outcome, values)?;
        groups.observe(alloc, step, outcome)?;
        assert_same!(rt; line.as_str(), *expected);
    }
    Ok(())
}

/// Other pokes, replies that move and that are split, a halt, and a step that stalls.
#[test]
fn other_lines(rt: HostRuntime) -> Result<(), Fail> {
    let alloc = rt.alloc();
    let groups = Groups::new(alloc)?;
    let register = Poke::Register {
        processor: 3,
        register: 7,
        value: 0x12,
    };
    let counter = Poke::Register {
        processor: 0,
        register: PC,
        value: 0x0001_0004,
    };
    let local = Poke::Local {
        processor: 63,
        address: 0x0002_0000,
        value: 9,
    };
    for (step, outcome, values, expected) in [
        (
            Step::Poke(register),
            Outcome::Poked,
            Values::Nothing,
            "9 poke 3 x7 00000012: writes\n",
        ),
        (
            Step::Poke(counter),
            Outcome::Poked,
            Values::Nothing,
            "9 poke 0 pc 00010004: writes\n",
        ),
        (
            Step::Poke(local),
            Outcome::Poked,
            Values::Nothing,
            "9 poke 63 00020000 09: writes\n",
        ),
        (
            Step::Down { stage: 5, wire: 63 },
            Outcome::Moved,
            Values::Nothing,
            "9 down 5 63: moves to depth 5\n",
        ),
        (
            Step::Down { stage: 1, wire: 0 },
            Outcome::Answered {
                to: Seconds::Two(2, 1),
            },
            Values::Answered {
                first: Some(0),
                second: Some(u32::MAX),
                third: None,
            },
            "9 down 1 0: answers 2 1 at stage 1: 00000000 ffffffff\n",
        ),
        (
            Step::Down { stage: 1, wire: 0 },
            Outcome::Answered {
                to: Seconds::Three(2, 1, 63),
            },
            Values::Answered {
                first: Some(1),
                second: Some(2),
                third: Some(3),
            },
            "9 down 1 0: answers 2 1 63 at stage 1: 00000001 00000002 00000003\n",
        ),
        (
            Step::Turn(4),
            Outcome::Stopped(Cause::Halt(0xFF)),
            Values::Nothing,
            "9 turn 4: stops halt ff\n",
        ),
        (
            Step::Serve(0),
            Outcome::Stalled,
            Values::Nothing,
            "9 serve 0: stalls\n",
        ),
    ] {
        let mut line = String::new(alloc);
        push_line(alloc, &mut line, &groups, 9, &step, &outcome, &values)?;
        assert_same!(rt; line.as_str(), expected);
    }
    Ok(())
}

/// The functions of loads, stores and AMOs, and compositions of them.
#[test]
fn functions(rt: HostRuntime) -> Result<(), Fail> {
    let alloc = rt.alloc();
    let full = SignedRange::new(i32::MIN, i32::MAX);
    for (phi, expected) in [
        (Phi::Add(0), "load"),
        (Phi::Add(u32::MAX), "add ffffffff"),
        // A swap, and the store of a word.
        (Phi::Bits { and: 0, xor: 7 }, "store 00000007"),
        (
            Phi::Bits {
                and: u32::MAX,
                xor: 0,
            },
            "load",
        ),
        (Phi::Bits { and: 12, xor: 0 }, "and 0000000c"),
        (
            Phi::Bits {
                and: u32::MAX,
                xor: 3,
            },
            "xor 00000003",
        ),
        (
            Phi::Bits {
                and: 0xFFFF_FFF0,
                xor: 15,
            },
            "or 0000000f",
        ),
        // The store of the byte 5 at an address divisible by 4.
        (
            Phi::Bits {
                and: 0xFFFF_FF00,
                xor: 5,
            },
            "and ffffff00 xor 00000005",
        ),
        (Phi::Clamp(full), "load"),
        (Phi::Clamp(SignedRange::new(i32::MIN, -1)), "min ffffffff"),
        (Phi::Clamp(SignedRange::new(3, i32::MAX)), "max 00000003"),
        (
            Phi::Clamp(SignedRange::new(-2, 3)),
            "max fffffffe min 00000003",
        ),
        (Phi::Clamp(SignedRange::new(4, 4)), "store 00000004"),
        (Phi::ClampU(UnsignedRange::new(0, 9)), "minu 00000009"),
        (
            Phi::ClampU(UnsignedRange::new(9, u32::MAX)),
            "maxu 00000009",
        ),
        (
            Phi::ClampU(UnsignedRange::new(2, 9)),
            "maxu 00000002 minu 00000009",
        ),
    ] {
        let mut text = String::new(alloc);
        push_function(alloc, &mut text, &phi)?;
        assert_same!(rt; text.as_str(), expected);
    }
    Ok(())
}
