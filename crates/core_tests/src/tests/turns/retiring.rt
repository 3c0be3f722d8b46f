//! Instructions that retire: the register that they write, and the next `pc`.

use super::at_word;
use flat_machine::{Event, Retired, Status};
use std::test::Fail;
use test_support::assert_same;

struct Row {
    text: &'static str,
    word: u32,
    x1: u32,
    x2: u32,
    rd: usize,
    value: u32,
    pc: u32,
}

macro_rules! rows {
    ($($text:literal $word:literal $x1:literal $x2:literal $rd:literal $value:literal $pc:literal)*) => {
        [$(Row { text: $text, word: $word, x1: $x1, x2: $x2, rd: $rd, value: $value, pc: $pc }),*]
    };
}

/// The instruction, its word, `x1`, `x2`, the register that it writes (0 for none) and the value, and `pc` afterwards.
/// The instruction is at 0x00010000. Local memory begins with the bytes 80 FF 7F 01 EF BE AD DE, and each shared word
/// is 0x80FF7F01.
static RETIRING: [Row; 128] = rows![
    "add x3, x1, x2"             0x0020_81B3 0xFFFF_FFFF 2           3 1           0x0001_0004
    "sub x3, x1, x2"             0x4020_81B3 1           2           3 0xFFFF_FFFF 0x0001_0004
    "sll x3, x1, x2"             0x0020_91B3 1           33          3 2           0x0001_0004
    "slt x3, x1, x2"             0x0020_A1B3 0x8000_0000 0           3 1           0x0001_0004
    "slt x3, x1, x2"             0x0020_A1B3 0           0x8000_0000 3 0           0x0001_0004
    "sltu x3, x1, x2"            0x0020_B1B3 0x8000_0000 0           3 0           0x0001_0004
    "sltu x3, x1, x2"            0x0020_B1B3 0           0x8000_0000 3 1           0x0001_0004
    "xor x3, x1, x2"             0x0020_C1B3 0xFF00_FF00 0x0FF0_0FF0 3 0xF0F0_F0F0 0x0001_0004
    "srl x3, x1, x2"             0x0020_D1B3 0x8000_0000 31          3 1           0x0001_0004
    "srl x3, x1, x2"             0x0020_D1B3 0x8000_0000 36          3 0x0800_0000 0x0001_0004
    "sra x3, x1, x2"             0x4020_D1B3 0x8000_0000 36          3 0xF800_0000 0x0001_0004
    "sra x3, x1, x2"             0x4020_D1B3 0x4000_0000 36          3 0x0400_0000 0x0001_0004
    "or x3, x1, x2"              0x0020_E1B3 0xFF00_FF00 0x0FF0_0FF0 3 0xFFF0_FFF0 0x0001_0004
    "and x3, x1, x2"             0x0020_F1B3 0xFF00_FF00 0x0FF0_0FF0 3 0x0F00_0F00 0x0001_0004
    "mul x3, x1, x2"             0x0220_81B3 0xFFFF_FFFF 2           3 0xFFFF_FFFE 0x0001_0004
    "mulh x3, x1, x2"            0x0220_91B3 0xFFFF_FFFF 2           3 0xFFFF_FFFF 0x0001_0004
    "mulhsu x3, x1, x2"          0x0220_A1B3 0x8000_0000 0xFFFF_FFFF 3 0x8000_0000 0x0001_0004
    "mulhu x3, x1, x2"           0x0220_B1B3 0x8000_0000 0xFFFF_FFFF 3 0x7FFF_FFFF 0x0001_0004
    "div x3, x1, x2"             0x0220_C1B3 0x8000_0000 0xFFFF_FFFF 3 0x8000_0000 0x0001_0004
    "div x3, x1, x2"             0x0220_C1B3 7           0           3 0xFFFF_FFFF 0x0001_0004
    "divu x3, x1, x2"            0x0220_D1B3 0xFFFF_FFFF 2           3 0x7FFF_FFFF 0x0001_0004
    "divu x3, x1, x2"            0x0220_D1B3 7           0           3 0xFFFF_FFFF 0x0001_0004
    "rem x3, x1, x2"             0x0220_E1B3 0xFFFF_FFFF 2           3 0xFFFF_FFFF 0x0001_0004
    "rem x3, x1, x2"             0x0220_E1B3 0x8000_0000 0xFFFF_FFFF 3 0           0x0001_0004
    "rem x3, x1, x2"             0x0220_E1B3 7           0           3 7           0x0001_0004
    "remu x3, x1, x2"            0x0220_F1B3 0x8000_0000 0xFFFF_FFFF 3 0x8000_0000 0x0001_0004
    "remu x3, x1, x2"            0x0220_F1B3 7           0           3 7           0x0001_0004
    "addi x3, x1, -1"            0xFFF0_8193 0           0           3 0xFFFF_FFFF 0x0001_0004
    "addi x3, x1, 2047"          0x7FF0_8193 1           0           3 0x800       0x0001_0004
    "slti x3, x1, -1"            0xFFF0_A193 0x8000_0000 0           3 1           0x0001_0004
    "slti x3, x1, -1"            0xFFF0_A193 0           0           3 0           0x0001_0004
    "sltiu x3, x1, -1"           0xFFF0_B193 0x8000_0000 0           3 1           0x0001_0004
    "sltiu x3, x1, -1"           0xFFF0_B193 0xFFFF_FFFF 0           3 0           0x0001_0004
    "xori x3, x1, -1"            0xFFF0_C193 0xFF00_FF00 0           3 0x00FF_00FF 0x0001_0004
    "ori x3, x1, -2048"          0x8000_E193 0x7FF       0           3 0xFFFF_FFFF 0x0001_0004
    "andi x3, x1, -2048"         0x8000_F193 0xFFFF      0           3 0xF800      0x0001_0004
    "slli x3, x1, 31"            0x01F0_9193 3           0           3 0x8000_0000 0x0001_0004
    "srli x3, x1, 4"             0x0040_D193 0x8000_0000 0           3 0x0800_0000 0x0001_0004
    "srai x3, x1, 4"             0x4040_D193 0x8000_0000 0           3 0xF800_0000 0x0001_0004
    "srai x3, x1, 31"            0x41F0_D193 0x8000_0000 0           3 0xFFFF_FFFF 0x0001_0004
    "lui x3, 0xFFFFF"            0xFFFF_F1B7 0           0           3 0xFFFF_F000 0x0001_0004
    "auipc x3, 0xFFFFF"          0xFFFF_F197 0           0           3 0xF000      0x0001_0004
    "auipc x3, 0"                0x0000_0197 0           0           3 0x0001_0000 0x0001_0004
    "beq x1, x2, 8"              0x0020_8463 5           5           0 0           0x0001_0008
    "beq x1, x2, 8"              0x0020_8463 5           6           0 0           0x0001_0004
    "bne x1, x2, 8"              0x0020_9463 5           6           0 0           0x0001_0008
    "bne x1, x2, 8"              0x0020_9463 5           5           0 0           0x0001_0004
    "blt x1, x2, 8"              0x0020_C463 0x8000_0000 0           0 0           0x0001_0008
    "blt x1, x2, 8"              0x0020_C463 0           0x8000_0000 0 0           0x0001_0004
    "blt x1, x2, 8"              0x0020_C463 5           5           0 0           0x0001_0004
    "bge x1, x2, 8"              0x0020_D463 0           0x8000_0000 0 0           0x0001_0008
    "bge x1, x2, 8"              0x0020_D463 0x8000_0000 0           0 0           0x0001_0004
    "bge x1, x2, 8"              0x0020_D463 5           5           0 0           0x0001_0008
    "bltu x1, x2, 8"             0x0020_E463 0           0x8000_0000 0 0           0x0001_0008
    "bltu x1, x2, 8"             0x0020_E463 0x8000_0000 0           0 0           0x0001_0004
    "bltu x1, x2, 8"             0x0020_E463 5           5           0 0           0x0001_0004
    "bgeu x1, x2, 8"             0x0020_F463 0x8000_0000 0           0 0           0x0001_0008
    "bgeu x1, x2, 8"             0x0020_F463 0           0x8000_0000 0 0           0x0001_0004
    "bgeu x1, x2, 8"             0x0020_F463 5           5           0 0           0x0001_0008
    "bne x1, x2, -4096"          0x8020_9063 1           2           0 0           0x0000_F000
    "bne x1, x2, 4092"           0x7E20_9EE3 1           2           0 0           0x0001_0FFC
    "bne x1, x2, 2"              0x0020_9163 5           5           0 0           0x0001_0004
    "jal x3, 8"                  0x0080_01EF 0           0           3 0x0001_0004 0x0001_0008
    "jal x3, -4"                 0xFFDF_F1EF 0           0           3 0x0001_0004 0x0000_FFFC
    "jal x3, -1048576"           0x8000_01EF 0           0           3 0x0001_0004 0xFFF1_0000
    "jalr x3, 1(x1)"             0x0010_81E7 0x0001_0010 0           3 0x0001_0004 0x0001_0010
    "jalr x3, -16(x1)"           0xFF00_81E7 8           0           3 0x0001_0004 0xFFFF_FFF8
    "fence x0, x0, 0x0FF"        0x0FF0_000F 0           0           0 0           0x0001_0004
    "fence x3, x1, 0xFFF"        0xFFF0_818F 5           0           0 0           0x0001_0004
    "lb x3, 0(x1)"               0x0000_8183 0x0002_0000 0           3 0xFFFF_FF80 0x0001_0004
    "lb x3, 2(x1)"               0x0020_8183 0x0002_0000 0           3 0x7F        0x0001_0004
    "lbu x3, 0(x1)"              0x0000_C183 0x0002_0000 0           3 0x80        0x0001_0004
    "lbu x3, 1(x1)"              0x0010_C183 0x0002_0000 0           3 0xFF        0x0001_0004
    "lh x3, 0(x1)"               0x0000_9183 0x0002_0000 0           3 0xFFFF_FF80 0x0001_0004
    "lh x3, 2(x1)"               0x0020_9183 0x0002_0000 0           3 0x17F       0x0001_0004
    "lhu x3, 0(x1)"              0x0000_D183 0x0002_0000 0           3 0xFF80      0x0001_0004
    "lhu x3, 6(x1)"              0x0060_D183 0x0002_0000 0           3 0xDEAD      0x0001_0004
    "lw x3, 0(x1)"               0x0000_A183 0x0002_0000 0           3 0x017F_FF80 0x0001_0004
    "lw x3, -4(x1)"              0xFFC0_A183 0x0002_0008 0           3 0xDEAD_BEEF 0x0001_0004
    "lw x3, 0(x1)"               0x0000_A183 0x0002_FFFC 0           3 0           0x0001_0004
    "lw x3, 0(x1)"               0x0000_A183 0x0001_0000 0           3 0xA183      0x0001_0004
    "lb x3, 0(x1)"               0x0000_8183 0x0001_0000 0           3 0xFFFF_FF83 0x0001_0004
    "lbu x3, 2(x1)"              0x0020_C183 0x0001_0000 0           3 32          0x0001_0004
    "lw x3, 4(x1)"               0x0040_A183 0x0001_0000 0           3 0           0x0001_0004
    "lb x3, 0(x1)"               0x0000_8183 0x8000_0008 0           3 1           0x0001_0004
    "lb x3, 1(x1)"               0x0010_8183 0x8000_0008 0           3 0x7F        0x0001_0004
    "lb x3, 2(x1)"               0x0020_8183 0x8000_0008 0           3 0xFFFF_FFFF 0x0001_0004
    "lb x3, 3(x1)"               0x0030_8183 0x8000_0008 0           3 0xFFFF_FF80 0x0001_0004
    "lbu x3, 3(x1)"              0x0030_C183 0x8000_0008 0           3 0x80        0x0001_0004
    "lh x3, 0(x1)"               0x0000_9183 0x8000_0008 0           3 0x7F01      0x0001_0004
    "lh x3, 2(x1)"               0x0020_9183 0x8000_0008 0           3 0xFFFF_80FF 0x0001_0004
    "lhu x3, 2(x1)"              0x0020_D183 0x8000_0008 0           3 0x80FF      0x0001_0004
    "lhu x3, -2(x1)"             0xFFE0_D183 0x8000_000A 0           3 0x7F01      0x0001_0004
    "lw x3, 0(x1)"               0x0000_A183 0x8000_0008 0           3 0x80FF_7F01 0x0001_0004
    "sb x2, 1(x1)"               0x0020_80A3 0x8000_0008 5           0 0           0x0001_0004
    "sh x2, 2(x1)"               0x0020_9123 0x8000_0008 5           0 0           0x0001_0004
    "sw x2, 0(x1)"               0x0020_A023 0x8000_0008 5           0 0           0x0001_0004
    "amoadd.w x3, x2, (x1)"      0x0020_A1AF 0x8000_0008 5           3 0x80FF_7F01 0x0001_0004
    "amoadd.w.aqrl x3, x2, (x1)" 0x0620_A1AF 0x8000_0008 5           3 0x80FF_7F01 0x0001_0004
    "amoswap.w x3, x2, (x1)"     0x0820_A1AF 0x8000_0008 5           3 0x80FF_7F01 0x0001_0004
    "amoxor.w x3, x2, (x1)"      0x2020_A1AF 0x8000_0008 5           3 0x80FF_7F01 0x0001_0004
    "amoor.w x3, x2, (x1)"       0x4020_A1AF 0x8000_0008 5           3 0x80FF_7F01 0x0001_0004
    "amoand.w x3, x2, (x1)"      0x6020_A1AF 0x8000_0008 5           3 0x80FF_7F01 0x0001_0004
    "amomin.w x3, x2, (x1)"      0x8020_A1AF 0x8000_0008 5           3 0x80FF_7F01 0x0001_0004
    "amomax.w x3, x2, (x1)"      0xA020_A1AF 0x8000_0008 5           3 0x80FF_7F01 0x0001_0004
    "amominu.w x3, x2, (x1)"     0xC020_A1AF 0x8000_0008 5           3 0x80FF_7F01 0x0001_0004
    "amomaxu.w x3, x2, (x1)"     0xE020_A1AF 0x8000_0008 5           3 0x80FF_7F01 0x0001_0004
    "add x0, x1, x1"             0x0010_8033 5           0           0 0           0x0001_0004
    "mul x0, x1, x1"             0x0210_8033 5           0           0 0           0x0001_0004
    "addi x0, x1, 1"             0x0010_8013 5           0           0 0           0x0001_0004
    "srai x0, x1, 1"             0x4010_D013 5           0           0 0           0x0001_0004
    "lui x0, 1"                  0x0000_1037 5           0           0 0           0x0001_0004
    "auipc x0, 1"                0x0000_1017 5           0           0 0           0x0001_0004
    "jal x0, 8"                  0x0080_006F 5           0           0 0           0x0001_0008
    "jalr x0, 0(x1)"             0x0000_8067 0x0001_0008 0           0 0           0x0001_0008
    "lw x0, 0(x1)"               0x0000_A003 0x0001_0000 0           0 0           0x0001_0004
    "lw x0, 0(x1)"               0x0000_A003 0x0002_0000 0           0 0           0x0001_0004
    "amoadd.w x0, x1, (x1)"      0x0010_A02F 0x0002_0000 0           0 0           0x0001_0004
    "lb x0, 0(x1)"               0x0000_8003 0x8000_0008 0           0 0           0x0001_0004
    "amoswap.w x0, x1, (x1)"     0x0810_A02F 0x8000_0008 0           0 0           0x0001_0004
    "add x1, x1, x1"             0x0010_80B3 5           0           1 10          0x0001_0004
    "addi x1, x1, 1"             0x0010_8093 5           0           1 6           0x0001_0004
    "slli x1, x1, 1"             0x0010_9093 5           0           1 10          0x0001_0004
    "jalr x1, 0(x1)"             0x0000_80E7 0x0001_0008 0           1 0x0001_0004 0x0001_0008
    "lw x1, 0(x1)"               0x0000_A083 0x0002_0000 0           1 0x017F_FF80 0x0001_0004
    "amoadd.w x1, x1, (x1)"      0x0010_A0AF 0x0002_0000 0           1 0x017F_FF80 0x0001_0004
    "lhu x1, 0(x1)"              0x0000_D083 0x8000_0008 0           1 0x7F01      0x0001_0004
    "amoadd.w x1, x1, (x1)"      0x0010_A0AF 0x8000_0008 0           1 0x80FF_7F01 0x0001_0004
];

#[test]
fn instructions_retire(rt: HostRuntime) -> Result<(), Fail> {
    for row in &RETIRING {
        let text = row.text;
        let local = [0x80, 0xFF, 0x7F, 0x01, 0xEF, 0xBE, 0xAD, 0xDE];
        let mut rig = at_word(&rt, row.word, row.x1, row.x2, &local)?;
        let retired = Retired {
            pc: 0x0001_0000,
            insn: rig.code.fetch(0x0001_0000)?,
            result: if row.rd == 0 { None } else { Some(row.value) },
            out: None,
        };
        assert_same!(rt; rig.turn(0x80FF_7F01), Event::Retired(retired), text);
        rig.stands(&rt, text, row.pc, row.x1, row.x2, (row.rd, row.value));
        assert_same!(rt; rig.core.status(), Status::Running, text);
    }
    Ok(())
}
