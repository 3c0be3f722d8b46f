//! Each kind of step, written and read back.

use super::{compare, config};
use flat_machine::{Config, PC, Poke};
use steps::Step;
use test_support::{ONE_TURN, assert_same, trace_of};
use trace_file::is_trace;

/// A poke of a processor's register.
macro_rules! register {
    ($processor:expr, $register:expr, $value:expr) => {
        Step::Poke(Poke::Register {
            processor: $processor,
            register: $register,
            value: $value,
        })
    };
}

/// A poke of a byte of a processor's local memory.
macro_rules! local {
    ($processor:expr, $address:expr, $value:expr) => {
        Step::Poke(Poke::Local {
            processor: $processor,
            address: $address,
            value: $value,
        })
    };
}

/// A poke of a byte of shared memory.
macro_rules! shared {
    ($address:expr, $value:expr) => {
        Step::Poke(Poke::Shared {
            address: $address,
            value: $value,
        })
    };
}

/// Steps of each kind on a machine of four processors.
static STEPS: [Step; 12] = [
    Step::Turn(3),
    Step::Up { stage: 0, wire: 2 },
    Step::Up { stage: 1, wire: 3 },
    Step::Serve(2),
    Step::Down { stage: 1, wire: 0 },
    register!(1, 1, 0xFFFF_FFFE),
    register!(0, 31, 1),
    register!(3, PC, 0x0001_0004),
    local!(2, 0x0002_0000, 255),
    local!(0, 0x0002_FFFF, 0),
    shared!(0x8000_0000, 0x2A),
    shared!(0x800F_FFFF, 255),
];

/// The record of each of these steps, worked out by hand.
static RECORDS: [[u8; 12]; 12] = [
    [1, 3, 0, 0, 0, 0, 0, 0, 0, 0, 0, 0],
    [2, 0, 2, 0, 0, 0, 0, 0, 0, 0, 0, 0],
    [2, 1, 3, 0, 0, 0, 0, 0, 0, 0, 0, 0],
    [3, 2, 0, 0, 0, 0, 0, 0, 0, 0, 0, 0],
    [4, 1, 0, 0, 0, 0, 0, 0, 0, 0, 0, 0],
    [5, 1, 1, 0, 0, 0, 0, 0, 0xFE, 0xFF, 0xFF, 0xFF],
    [5, 0, 31, 0, 0, 0, 0, 0, 1, 0, 0, 0],
    [5, 3, 32, 0, 0, 0, 0, 0, 4, 0, 1, 0],
    [6, 2, 0, 0, 0, 0, 2, 0, 255, 0, 0, 0],
    [6, 0, 0, 0, 0xFF, 0xFF, 2, 0, 0, 0, 0, 0],
    [7, 0, 0, 0, 0, 0, 0, 0x80, 0x2A, 0, 0, 0],
    [7, 0, 0, 0, 0xFF, 0xFF, 0x0F, 0x80, 255, 0, 0, 0],
];

/// The trace of a program that halts at its first instruction.
#[test]
fn one_turn(rt: HostRuntime) {
    compare(&rt, &config(0), &[Step::Turn(0)], &ONE_TURN);
}

/// No steps at all, on the smallest machine and on the largest.
#[test]
fn no_steps(rt: HostRuntime) {
    for (k, c, b) in [(0, 2, 0), (6, 16, 16)] {
        let config = Config {
            k,
            c,
            b,
            r: 1,
            shared_words: 7,
        };
        let trace = [0x55, 0x4C, 0x54, 0x52, 1, k, c, b, 0, 0, 0, 0];
        compare(&rt, &config, &[], &trace);
    }
}

/// Each of these steps by itself, and then all of them.
#[test]
fn each_kind(rt: HostRuntime) {
    for at in 0..12 {
        let trace = trace_of(rt.alloc(), (2, 4, 4), &[RECORDS[at]]).expect(&rt, "memory");
        compare(&rt, &config(2), &[STEPS[at]], trace.as_slice());
    }
    let trace = trace_of(rt.alloc(), (2, 4, 4), &RECORDS).expect(&rt, "memory");
    compare(&rt, &config(2), &STEPS, trace.as_slice());
}

/// Steps that no machine of four processors has.
static NO_STEPS: [Step; 6] = [
    Step::Turn(4),
    Step::Up { stage: 2, wire: 0 },
    Step::Down { stage: 0, wire: 4 },
    register!(0, 0, 0),
    register!(0, PC, 2),
    shared!(0x8010_0000, 0),
];

/// A step that the machine does not have, and a size that no machine has, have no trace.
#[test]
fn what_has_no_trace(rt: HostRuntime) {
    for step in &NO_STEPS {
        assert_same!(rt; is_trace(&config(2), &[Step::Turn(0), *step]), false, step);
    }
    assert_same!(rt; is_trace(&config(7), &[]), false);
    assert_same!(rt; is_trace(&config(6), &[Step::Turn(63)]), true);
}
