//! Instructions that are disassembled, and their texts assembled again.

use arrayvec::ArrayString;
use assembler::{assemble, disassemble};
use decode::{decode, encode};
use std::test::Fail;
use test_support::assert_same;

#[test]
fn words_have_their_texts(rt: HostRuntime) -> Result<(), Fail> {
    for (word, written) in [
        (0x0010_0093, "addi x1, x0, 1"),
        (0x00B6_252F, "amoadd.w x10, x11, (x12)"),
        (0x06B6_252F, "amoadd.w.aqrl x10, x11, (x12)"),
        (0xFE03_1CE3, "bne x6, x0, -8"),
        (0x0010_0073, "ebreak"),
        (0x0000_0073, "ecall"),
        (0x0FF0_000F, "fence x0, x0, 255"),
        (0x4031_50B3, "sra x1, x2, x3"),
        (0x4031_5093, "srai x1, x2, 3"),
        (0x0231_00B3, "mul x1, x2, x3"),
        (0x02C5_A533, "mulhsu x10, x11, x12"),
        (0x03DF_7FB3, "remu x31, x30, x29"),
        (0x0041_00E7, "jalr x1, 4(x2)"),
        (0xFE51_2E23, "sw x5, -4(x2)"),
        (0x8000_2003, "lw x0, -2048(x0)"),
        (0x8000_02B7, "lui x5, 524288"),
        (0x0020_00EF, "jal x1, 2"),
        (0x8000_006F, "jal x0, -1048576"),
        (0x7FFF_F06F, "jal x0, 1048574"),
        (0xC7FF_AFAF, "amominu.w.aqrl x31, x31, (x31)"),
    ] {
        let insn = decode(word).ok_or("spells nothing")?;
        let mut text = ArrayString::new();
        text.push_str("something else");
        disassemble(&insn, &mut text);
        assert_same!(rt; text.as_str(), written);
        let program = assemble(rt.alloc(), text.as_str())?;
        let bytes = encode(&insn).to_le_bytes();
        assert_same!(rt; program.layout().code.as_slice(), bytes.as_slice());
    }
    Ok(())
}
