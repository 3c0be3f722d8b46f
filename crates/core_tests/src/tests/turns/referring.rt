//! References to shared words: the word, the function and the operation of each.

ghost use Rattle.std.specs.Prelude.{◌≤◌, ◌≤ℤ◌};

use super::at_word;
use hart::{Decision, Shape};
use phi_algebra::{Phi, SignedRange, UnsignedRange};
use rv_table::{AmoOp, LoadOp, StoreOp};
use std::test::Fail;
use test_support::assert_same;

struct Row {
    text: &'static str,
    word: u32,
    and: u32,
    xor: u32,
    shape: Shape,
}

macro_rules! rows {
    ($($text:literal $word:literal $and:literal $xor:literal $shape:ident($op:expr))*) => {
        [$(Row { text: $text, word: $word, and: $and, xor: $xor, shape: Shape::$shape($op) }),*]
    };
}

/// The instruction, its word, the bits that it keeps, the bits that it then inverts, and its operation. `x1` is the
/// address of shared word 2, and `x2` is 0xAABBCCDD.
static REFERRING: [Row; 16] = rows![
    "lb x3, 0(x1)"           0x0000_8183 0xFFFF_FFFF 0           Load(LoadOp::Lb)
    "lh x3, 2(x1)"           0x0020_9183 0xFFFF_FFFF 0           Load(LoadOp::Lh)
    "lw x3, 0(x1)"           0x0000_A183 0xFFFF_FFFF 0           Load(LoadOp::Lw)
    "lbu x3, 3(x1)"          0x0030_C183 0xFFFF_FFFF 0           Load(LoadOp::Lbu)
    "lhu x3, 0(x1)"          0x0000_D183 0xFFFF_FFFF 0           Load(LoadOp::Lhu)
    "sb x2, 0(x1)"           0x0020_8023 0xFFFF_FF00 0xDD        Store(StoreOp::Sb)
    "sb x2, 1(x1)"           0x0020_80A3 0xFFFF_00FF 0xDD00      Store(StoreOp::Sb)
    "sb x2, 2(x1)"           0x0020_8123 0xFF00_FFFF 0x00DD_0000 Store(StoreOp::Sb)
    "sb x2, 3(x1)"           0x0020_81A3 0x00FF_FFFF 0xDD00_0000 Store(StoreOp::Sb)
    "sh x2, 0(x1)"           0x0020_9023 0xFFFF_0000 0xCCDD      Store(StoreOp::Sh)
    "sh x2, 2(x1)"           0x0020_9123 0x0000_FFFF 0xCCDD_0000 Store(StoreOp::Sh)
    "sw x2, 0(x1)"           0x0020_A023 0           0xAABB_CCDD Store(StoreOp::Sw)
    "amoswap.w x3, x2,(x1)" 0x0820_A1AF 0           0xAABB_CCDD Amo(AmoOp::Swap)
    "amoxor.w x3, x2,(x1)"  0x2020_A1AF 0xFFFF_FFFF 0xAABB_CCDD Amo(AmoOp::Xor)
    "amoor.w x3, x2,(x1)"   0x4020_A1AF 0x5544_3322 0xAABB_CCDD Amo(AmoOp::Or)
    "amoand.w x3, x2,(x1)"  0x6020_A1AF 0xAABB_CCDD 0           Amo(AmoOp::And)
];

#[test]
fn instructions_refer(rt: HostRuntime) -> Result<(), Fail> {
    for row in &REFERRING {
        let rig = at_word(&rt, row.word, 0x8000_0008, 0xAABB_CCDD, &[])?;
        let wanted = Decision::Refer {
            word: 2,
            phi: Phi::Bits {
                and: row.and,
                xor: row.xor,
            },
            shape: row.shape,
        };
        assert_same!(rt; rig.core.decide(&rig.code), wanted, row.text);
    }
    Ok(())
}

/// Instructions `op x3, x2, (x1)` that add -5 to the last shared word, or clamp it at -5.
#[test]
fn sums_and_clamps(rt: HostRuntime) -> Result<(), Fail> {
    let value = 0xFFFF_FFFB;
    for (word, op, phi) in [
        (0x0020_A1AF, AmoOp::Add, Phi::Add(value)),
        (0x8020_A1AF, AmoOp::Min, signed(i32::MIN, -5)),
        (0xA020_A1AF, AmoOp::Max, signed(-5, i32::MAX)),
        (0xC020_A1AF, AmoOp::Minu, unsigned(0, value)),
        (0xE020_A1AF, AmoOp::Maxu, unsigned(value, u32::MAX)),
    ] {
        let rig = at_word(&rt, word, 0x8000_003C, value, &[])?;
        let wanted = Decision::Refer {
            word: 15,
            phi,
            shape: Shape::Amo(op),
        };
        assert_same!(rt; rig.core.decide(&rig.code), wanted);
    }
    Ok(())
}

fn signed(lo: i32, hi: i32) -> Phi
    requires { lo ≤ℤ hi }
{
    Phi::Clamp(SignedRange::new(lo, hi))
}

fn unsigned(lo: u32, hi: u32) -> Phi
    requires { lo ≤ hi }
{
    Phi::ClampU(UnsignedRange::new(lo, hi))
}
