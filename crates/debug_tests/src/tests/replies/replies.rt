//! What commands show.

use super::{poke, stop, two};
use arrayvec::ArrayVec;
use debug_lines::Command;
use debug_replies::show;
use flat_machine::{LOCAL_START, PC, Poke, SHARED_START};
use machine_steps::Machine;
use std::alloc::AllocGlobal;
use std::process::Abort;
use std::test::Fail;
use test_support::{assert_same, lend};

/// Lines, each with what it shows of a machine of two processors. Processor 0 stopped at `ebreak`, and processor 1 runs
/// after pokes.
const REPLIES: &str = "\
state 0: fault 8
state 1: run
state 2: 
state 101: 
reg 0 20: 00010000
reg 1 20: 00010ac4
reg 1 0: 00000000
reg 1 1f: fedcba98
reg 1 A: 0000000b
reg 1 21: 
reg 2 1: 
mem 0 10000 5: 73001000c7
mem 1 1fffe 4: 000001f0
mem 0 1fffe 4: 000001f0
mem 0 20002 1: 00
mem 1 20002 1: ab
mem 0 80000000 8: 2a00008000000cd0
mem 1 80000006 2: 0cd0
mem 0 80000006 2: 0cd0
mem 0 ffffffff 2: 
set 0 1 7: ok
set 0 0 7: ok
write 0 20000 00: ok
break 10000: ok
clear 10000: ok
quit: ok
step 0: 
cont: 
step: 
";

/// What a command shows, which replaces the text before it.
fn shown(machine: &Machine, line: &str) -> ArrayVec<u8, 1024> {
    let mut text = ArrayVec::new();
    let _ = text.try_extend_from_slice(b"before");
    if machine.are_home() {
        show(machine, &Command::read(line.as_bytes()), &mut text);
    }
    text
}

/// Pokes of processor 1 and of shared memory.
static WRITTEN: [Poke; 6] = [
    Poke::Register {
        processor: 1,
        register: 10,
        value: 11,
    },
    Poke::Register {
        processor: 1,
        register: 31,
        value: 0xFEDC_BA98,
    },
    Poke::Register {
        processor: 1,
        register: PC,
        value: 0x0001_0AC4,
    },
    Poke::Local {
        processor: 1,
        address: LOCAL_START + 2,
        value: 0xAB,
    },
    Poke::Shared {
        address: SHARED_START + 6,
        value: 0x0C,
    },
    Poke::Shared {
        address: SHARED_START + 7,
        value: 0xD0,
    },
];

/// A machine whose two processors show different things.
fn written(rt: &(impl Abort + AllocGlobal)) -> Result<Machine, Fail> {
    let mut machine = two(rt.alloc())?;
    for written in &WRITTEN {
        poke(rt, &mut machine, *written);
    }
    stop(rt, &mut machine, 0);
    Ok(machine)
}

#[test]
fn replies(rt: HostRuntime) -> Result<(), Fail> {
    lend(written(&rt)?, |machine| {
        for row in REPLIES.lines() {
            let (line, expected) = row.split_once(": ").ok_or("a row")?;
            assert_same!(rt; shown(machine, line).as_slice(), expected.as_bytes(), line);
        }
        Ok(())
    })
}

/// All registers and then `pc`, 264 digits.
#[test]
fn registers_in_a_line(rt: HostRuntime) -> Result<(), Fail> {
    let text = lend(written(&rt)?, |machine| shown(machine, "regs 1"));
    assert_same!(rt; text.len(), 264);
    for (place, eight) in text.as_slice().chunks(8).enumerate() {
        let expected = match place {
            10 => b"0000000b",
            31 => b"fedcba98",
            32 => b"00010ac4",
            _ => b"00000000",
        };
        assert_same!(rt; eight, expected.as_slice(), place);
    }
    Ok(())
}

/// The longest reply has 1,024 digits.
#[test]
fn longest_reply(rt: HostRuntime) -> Result<(), Fail> {
    let text = lend(written(&rt)?, |machine| shown(machine, "mem 1 1ffff 200"));
    assert!(rt; text.len() == 1024);
    assert_same!(rt; &text.as_slice()[..8], b"0001f0ab".as_slice());
    assert!(rt; text.as_slice()[8..].iter().all(|digit| *digit == b'0'));
    Ok(())
}
