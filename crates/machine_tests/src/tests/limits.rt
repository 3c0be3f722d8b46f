//! The limits of a machine's size, and what its readers return at the limits of their arguments.

use super::REFERENCES;
use super::pieces::ADDS;
use elf_image::Image;
use flat_machine::Config;
use machine_steps::{Machine, NewError};
use std::alloc::{AllocError, AllocGlobal, Global};
use std::process::Abort;
use std::test::Fail;
use test_support::{Case, assert_same, check};

/// The image of most tests, read for machines with this many shared words.
fn image(alloc: Global, shared_words: u32) -> Result<Image, Fail> {
    let config = Config {
        k: 2,
        c: 4,
        b: 4,
        r: 1,
        shared_words,
    };
    REFERENCES.image(alloc, &config)
}

/// Each number of a configuration at its limits, and one past them, and images that were read for another number of
/// shared words than the configuration's.
#[test]
fn limits_of_a_machine(rt: HostRuntime) -> Result<(), Fail> {
    for (k, c, b, r, shared_words, read_for, refusal) in [
        (0, 2, 0, 1, 1, 1, None),
        (6, 16, 16, 1, 262_144, 262_144, None),
        (7, 2, 0, 1, 1, 1, Some(NewError::Config)),
        (255, 2, 0, 1, 1, 1, Some(NewError::Config)),
        (0, 1, 0, 1, 1, 1, Some(NewError::Config)),
        (0, 0, 0, 1, 1, 1, Some(NewError::Config)),
        (0, 17, 0, 1, 1, 1, Some(NewError::Config)),
        (0, 2, 17, 1, 1, 1, Some(NewError::Config)),
        (0, 2, 0, 1, 0, 0, Some(NewError::Config)),
        (0, 2, 0, 1, 262_145, 262_145, Some(NewError::Config)),
        (2, 4, 4, 1, 1024, 1024, None),
        (2, 4, 4, 1, 1024, 1023, Some(NewError::Config)),
        (2, 4, 4, 1, 1024, 1025, Some(NewError::Config)),
        (2, 4, 4, 1, 1, 1024, Some(NewError::Config)),
        (0, 3, 0, 2, 1, 1, None),
        (0, 4, 0, 3, 1, 1, None),
        (0, 2, 0, 0, 1, 1, Some(NewError::Config)),
        (0, 2, 0, 2, 1, 1, Some(NewError::Config)),
        (0, 3, 0, 3, 1, 1, Some(NewError::Config)),
        (0, 16, 0, 4, 1, 1, Some(NewError::Config)),
    ] {
        let config = Config {
            k,
            c,
            b,
            r,
            shared_words,
        };
        let found = refusal_of(&rt, config, read_for)?;
        assert_same!(rt; found, refusal, (&config, &read_for));
    }
    Ok(())
}

/// The error of a machine of this size on an image that was read for this many shared words. A machine that is made
/// must be idle and have this size.
fn refusal_of(
    rt: &(impl Abort + AllocGlobal),
    config: Config,
    read_for: u32,
) -> Result<Option<NewError>, Fail> {
    let image = image(rt.alloc(), read_for)?;
    match Machine::new(rt.alloc(), image, config) {
        Ok(machine) => {
            expect_idle(rt, &machine, config);
            Ok(None)
        }
        Err(error) => Ok(Some(error)),
    }
}

fn expect_idle(rt: &impl Abort, machine: &Machine, config: Config) {
    assert_same!(rt; machine.config(), config);
    assert!(rt; machine.is_idle());
}

/// The codes that report the errors.
#[test]
fn codes_of_refusals(rt: HostRuntime) -> Result<(), Fail> {
    let code = text_of(rt.alloc(), NewError::Config)?;
    assert_same!(rt; code.as_str(), "K1");
    let code = text_of(rt.alloc(), NewError::Memory)?;
    assert_same!(rt; code.as_str(), "K2");
    Ok(())
}

fn text_of(alloc: Global, error: NewError) -> Result<String, AllocError> {
    Ok(format!(in alloc; "{error}")?)
}

#[test]
fn readers_at_their_ends(rt: HostRuntime) -> Result<(), Fail> {
    check(rt.alloc(), &CASES)
}

static CASES: [Case; 3] = [
    // The machine has four processors, numbered from 0, with 32 registers each. Processor 2 faults because its address
    // is 0, which is in no region.
    Case {
        name: "processors and registers",
        pokes: &["poke 0 11 5, poke 1 11 6, poke 2 11 7, poke 3 11 8, poke 2 32 0x10004"],
        calls: &[
            "
            turn 2: faulted 5
            pc 0, pc 1: is 0x10000
            pc 2: is 0x10004
            pc 3: is 0x10000
            pc 4, pc 63, pc 64, pc 255: none
            status 0, status 1: running
            status 2: faulted 5
            status 3: running
            status 4, status 63, status 64, status 255: none
            register 0 11: is 5
            register 1 11: is 6
            register 2 11: is 7
            register 3 11: is 8
            register 4 11, register 63 11, register 64 11, register 255 11: none
            register 0 0, register 1 0, register 2 0, register 3 0: is 0
            register 4 0, register 63 0, register 64 0, register 255 0: none
            register 0 31, register 1 31, register 2 31, register 3 31: is 0
            register 4 31, register 63 31, register 64 31, register 255 31, register 0 32, register 1 32: none
            register 2 32, register 3 32, register 4 32, register 63 32, register 64 32, register 255 32: none
            register 0 255, register 1 255, register 2 255, register 3 255, register 4 255, register 63 255: none
            register 64 255, register 255 255: none",
        ],
        order: "turn 2",
        ..ADDS
    },
    // Each processor has local bytes of its own, from 0x00020000 to 0x0002FFFF.
    Case {
        name: "local bytes",
        pokes: &[],
        calls: &[
            "
            poke_local 0 0x20000 1, poke_local 1 0x20000 2, poke_local 3 0x2FFFF 3: poked
            byte 0 0x20000: is 1
            byte 0 0x20001: is 0
            byte 1 0x20000: is 2
            byte 2 0x20000, byte 2 0x2FFFF: is 0
            byte 3 0x2FFFF: is 3
            byte 4 0x20000, byte 64 0x20000, byte 0 0x1FFFF, byte 0 0x30000, byte 0 0, byte 0 0x80000000: none
            byte 0 0xFFFFFFFF: none",
        ],
        order: "poke_local 0 0x20000 1, poke_local 1 0x20000 2, poke_local 3 0x2FFFF 3",
        ..ADDS
    },
    // Shared words go to the modules in turn, and there are as many as the configuration says, although the modules
    // have room for two more.
    Case {
        name: "shared words",
        machine: "machine 2 4 4 6",
        pokes: &[
            "word 0 0x11223300, word 1 0x11223301, word 2 0x11223302, word 3 0x11223303, word 4 0x11223304, word 5 0x11223305",
        ],
        calls: &[
            "
            word 0: is 0x11223300
            word 1: is 0x11223301
            word 3: is 0x11223303
            word 4: is 0x11223304
            word 5: is 0x11223305
            word 6, word 7, word 8, word 0xFFFFFFFF: none",
        ],
        ..ADDS
    },
];
