//! Stores and AMOs on local memory.

use super::{Rig, at_word};
use std::process::Abort;
use std::test::Fail;
use test_support::assert_same;

struct Row {
    text: &'static str,
    word: u32,
    before: u32,
    x2: u32,
    after: u32,
    rd: usize,
}

macro_rules! rows {
    ($($text:literal $word:literal $before:literal $x2:literal $after:literal $rd:literal)*) => {
        [$(Row { text: $text, word: $word, before: $before, x2: $x2, after: $after, rd: $rd }),*]
    };
}

/// The instruction, its word, the local word at 0x00020000 before it, `x2`, that local word after it, and the register
/// that gets the old local word (0 for none). `x1` is 0x00020000.
static WRITING: [Row; 21] = rows![
    "sb x2, 0(x1)"               0x0020_8023 0x4433_2211 0xAABB_CCDD 0x4433_22DD 0
    "sb x2, 1(x1)"               0x0020_80A3 0x4433_2211 0xAABB_CCDD 0x4433_DD11 0
    "sb x2, 2(x1)"               0x0020_8123 0x4433_2211 0xAABB_CCDD 0x44DD_2211 0
    "sb x2, 3(x1)"               0x0020_81A3 0x4433_2211 0xAABB_CCDD 0xDD33_2211 0
    "sh x2, 0(x1)"               0x0020_9023 0x4433_2211 0xAABB_CCDD 0x4433_CCDD 0
    "sh x2, 2(x1)"               0x0020_9123 0x4433_2211 0xAABB_CCDD 0xCCDD_2211 0
    "sw x2, 0(x1)"               0x0020_A023 0x4433_2211 0xAABB_CCDD 0xAABB_CCDD 0
    "amoadd.w x3, x2, (x1)"      0x0020_A1AF 0xFFFF_FFFF 2           1           3
    "amoadd.w.aqrl x3, x2, (x1)" 0x0620_A1AF 0xFFFF_FFFF 2           1           3
    "amoswap.w x3, x2, (x1)"     0x0820_A1AF 5           6           6           3
    "amoxor.w x3, x2, (x1)"      0x2020_A1AF 0xFF00_FF00 0x0FF0_0FF0 0xF0F0_F0F0 3
    "amoor.w x3, x2, (x1)"       0x4020_A1AF 0xFF00_FF00 0x0FF0_0FF0 0xFFF0_FFF0 3
    "amoand.w x3, x2, (x1)"      0x6020_A1AF 0xFF00_FF00 0x0FF0_0FF0 0x0F00_0F00 3
    "amomin.w x3, x2, (x1)"      0x8020_A1AF 1           0x8000_0000 0x8000_0000 3
    "amomin.w x3, x2, (x1)"      0x8020_A1AF 0x8000_0000 1           0x8000_0000 3
    "amomax.w x3, x2, (x1)"      0xA020_A1AF 1           0x8000_0000 1           3
    "amomax.w x3, x2, (x1)"      0xA020_A1AF 0x8000_0000 1           1           3
    "amominu.w x3, x2, (x1)"     0xC020_A1AF 1           0x8000_0000 1           3
    "amominu.w x3, x2, (x1)"     0xC020_A1AF 0x8000_0000 1           1           3
    "amomaxu.w x3, x2, (x1)"     0xE020_A1AF 1           0x8000_0000 0x8000_0000 3
    "amomaxu.w x3, x2, (x1)"     0xE020_A1AF 0x8000_0000 1           0x8000_0000 3
];

#[test]
fn local_words_change(rt: HostRuntime) -> Result<(), Fail> {
    for row in &WRITING {
        let text = row.text;
        let mut rig = at_word(
            &rt,
            row.word,
            0x0002_0000,
            row.x2,
            &row.before.to_le_bytes(),
        )?;
        rig.turn(0);
        rig.stands(
            &rt,
            text,
            0x0001_0004,
            0x0002_0000,
            row.x2,
            (row.rd, row.before),
        );
        assert_same!(rt; local_word(&rt, &rig, 0x0002_0000)?, row.after, text);
        assert_same!(rt; local_word(&rt, &rig, 0x0002_0004)?, 0, text);
    }
    Ok(())
}

/// The little-endian word at an address of local memory.
fn local_word(rt: &impl Abort, rig: &Rig, address: u32) -> Result<u32, Fail> {
    assert!(rt; address < 0x0003_0000);
    let low = rig.core.byte(address)?;
    let next = rig.core.byte(address + 1)?;
    let third = rig.core.byte(address + 2)?;
    let high = rig.core.byte(address + 3)?;
    Ok(u32::from_le_bytes([low, next, third, high]))
}
