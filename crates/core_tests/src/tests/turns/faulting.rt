//! Instructions that fault. They change nothing but the status.

use super::at_word;
use flat_machine::{Cause, Event, Status};
use std::test::Fail;
use test_support::assert_same;

struct Row {
    text: &'static str,
    word: u32,
    x1: u32,
    fault: u8,
}

macro_rules! rows {
    ($($text:literal $word:literal $x1:literal $fault:literal)*) => {
        [$(Row { text: $text, word: $word, x1: $x1, fault: $fault }),*]
    };
}

/// The instruction, its word, `x1` and the number of its fault (`flat_machine`, `Fault`).
static FAULTING: [Row; 25] = rows![
    "zeros"                  0x0000_0000 0           1
    "ones"                   0xFFFF_FFFF 0           1
    "slli x1, x1, 32"        0x0200_9093 0           1
    "srai x0, x0, 32"        0x4200_5013 0           1
    "mul x1, x2, x3, bit 26" 0x0631_00B3 0           1
    "jal x1, 2"              0x0020_00EF 5           3
    "jalr x1, 0(x1)"         0x0000_80E7 0x0001_0006 3
    "beq x1, x1, 2"          0x0010_8163 5           3
    "lh x3, 1(x1)"           0x0010_9183 0x0002_0000 4
    "lw x3, 2(x1)"           0x0020_A183 0x0002_0000 4
    "sh x1, 1(x1)"           0x0010_90A3 0x8000_0000 4
    "sw x1, 2(x1)"           0x0010_A123 0x8000_0000 4
    "amoadd.w x3, x1, (x1)"  0x0010_A1AF 0x8000_0002 4
    "sw x1, 0(x1)"           0x0010_A023 0x0001_0002 4
    "lw x3, 0(x1)"           0x0000_A183 0x0004_0001 4
    "lw x3, 0(x1)"           0x0000_A183 0x0004_0000 5
    "lb x3, 0(x1)"           0x0000_8183 0xFFFF      5
    "sb x1, 0(x1)"           0x0010_8023 0x0003_0000 5
    "amoswap.w x3, x1, (x1)" 0x0810_A1AF 0x8000_0040 5
    "lw x3, 0(x1)"           0x0000_A183 0x8000_0040 5
    "sw x1, -4(x1)"          0xFE10_AE23 0x8000_0000 5
    "sw x1, 0(x1)"           0x0010_A023 0x0001_0000 6
    "sb x1, 3(x1)"           0x0010_81A3 0x0001_FFFC 6
    "amoadd.w x3, x1, (x1)"  0x0010_A1AF 0x0001_0000 6
    "ebreak"                 0x0010_0073 0           8
];

#[test]
fn instructions_fault(rt: HostRuntime) -> Result<(), Fail> {
    for row in &FAULTING {
        let text = row.text;
        let mut rig = at_word(&rt, row.word, row.x1, 0, &[1, 2, 3, 4])?;
        match rig.turn(0) {
            Event::Stopped(Cause::Fault(fault)) => {
                assert_same!(rt; fault.number(), row.fault, text);
                assert_same!(rt; rig.core.status(), Status::Faulted(fault), text);
            }
            event => assert!(rt; false, "{text}: {event:?}"),
        }
        rig.stands(&rt, text, 0x0001_0000, row.x1, 0, (0, 0));
        assert_same!(rt; rig.core.byte(0x0002_0000), Ok(1), text);
    }
    Ok(())
}
