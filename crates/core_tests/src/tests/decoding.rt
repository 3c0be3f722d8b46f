//! Words from the manual, and others encoded by hand from its formats.

ghost use Rattle.std.specs.Prelude.{◌≡◌, ◌<◌};

use decode::{decode, encode};
use rv_table::{
    AmoOp, BranchOp, Immediate, ImmediateOp, Insn, LoadOp, Register, RegisterOp, ShiftOp, StoreOp,
    UpperOp,
};
use test_support::assert_same;

fn x(number: u8) -> Register
    requires { number < 32 }
{
    Register::new(number)
}

/// `amoadd.w rd, rs2, (rs1)`.
fn amoadd(rd: Register, rs2: Register, rs1: Register, aq: bool, rl: bool) -> Insn {
    Insn::Amo {
        op: AmoOp::Add,
        rd,
        rs1,
        rs2,
        aq,
        rl,
    }
}

#[test]
fn computations(rt: HostRuntime) {
    let addi = Insn::OpImm {
        op: ImmediateOp::Addi,
        rd: x(1),
        rs1: x(0),
        imm: Immediate::new(1),
    };
    let addi_minus_one = Insn::OpImm {
        op: ImmediateOp::Addi,
        rd: x(6),
        rs1: x(0),
        imm: Immediate::new(0xFFF),
    };
    let srai = Insn::Shift {
        op: ShiftOp::Srai,
        rd: x(1),
        rs1: x(2),
        amount: Immediate::new(3),
    };
    let sra = Insn::Op {
        op: RegisterOp::Sra,
        rd: x(1),
        rs1: x(2),
        rs2: x(3),
    };
    let mul = Insn::Op {
        op: RegisterOp::Mul,
        rd: x(1),
        rs1: x(2),
        rs2: x(3),
    };
    let remu = Insn::Op {
        op: RegisterOp::Remu,
        rd: x(31),
        rs1: x(30),
        rs2: x(29),
    };
    let lui = Insn::Upper {
        op: UpperOp::Lui,
        rd: x(5),
        upper: Immediate::new(0x80000),
    };
    for (word, insn) in [
        (0x0010_0093, addi), // addi x1, x0, 1
        (0xFFF0_0313, addi_minus_one), // addi x6, x0, -1
        (0x4031_5093, srai), // srai x1, x2, 3
        (0x4031_50B3, sra), // sra x1, x2, x3
        (0x0231_00B3, mul), // mul x1, x2, x3
        (0x03DF_7FB3, remu), // remu x31, x30, x29
        (0x8000_02B7, lui), // lui x5, 0x80000
    ] {
        assert_same!(rt; decode(word), Some(insn));
        assert_same!(rt; encode(&insn), word);
    }
}

#[test]
fn memory(rt: HostRuntime) {
    let lw = Insn::Load {
        op: LoadOp::Lw,
        rd: x(9),
        rs1: x(5),
        imm: Immediate::new(0),
    };
    let sw = Insn::Store {
        op: StoreOp::Sw,
        rs1: x(5),
        rs2: x(6),
        imm: Immediate::new(0),
    };
    let sw_below = Insn::Store {
        op: StoreOp::Sw,
        rs1: x(2),
        rs2: x(5),
        imm: Immediate::new(0xFFC),
    };
    let fence = Insn::Fence {
        rd: x(0),
        rs1: x(0),
        ordering: Immediate::new(0x0FF),
    };
    for (word, insn) in [
        (0x0002_A483, lw), // lw x9, 0(x5)
        (0x0062_A023, sw), // sw x6, 0(x5)
        (0xFE51_2E23, sw_below), // sw x5, -4(x2)
        (0x0FF0_000F, fence), // fence
        (0x00B6_252F, amoadd(x(10), x(11), x(12), false, false)), // amoadd.w x10, x11, (x12)
        (0x06B6_252F, amoadd(x(10), x(11), x(12), true, true)), // amoadd.w.aqrl x10, x11, (x12)
        (0x04B6_252F, amoadd(x(10), x(11), x(12), true, false)), // amoadd.w.aq x10, x11, (x12)
        (0x0072_A42F, amoadd(x(8), x(7), x(5), false, false)), // amoadd.w x8, x7, (x5)
    ] {
        assert_same!(rt; decode(word), Some(insn));
        assert_same!(rt; encode(&insn), word);
    }
}

/// The immediate of a branch or a jump counts units of two bytes.
#[test]
fn control(rt: HostRuntime) {
    let jal = Insn::Jal {
        rd: x(1),
        offset: Immediate::new(1),
    };
    let jal_back = Insn::Jal {
        rd: x(0),
        offset: Immediate::new(0xF_FFFE),
    };
    let jalr = Insn::Jalr {
        rd: x(1),
        rs1: x(2),
        imm: Immediate::new(4),
    };
    let bne = Insn::Branch {
        op: BranchOp::Bne,
        rs1: x(6),
        rs2: x(0),
        offset: Immediate::new(0xFFC),
    };
    for (word, insn) in [
        (0x0020_00EF, jal), // jal x1, 2
        (0xFFDF_F06F, jal_back), // jal x0, -4
        (0x0041_00E7, jalr), // jalr x1, 4(x2)
        (0xFE03_1CE3, bne), // bne x6, x0, -8
        (0x0000_0073, Insn::Ecall),
        (0x0010_0073, Insn::Ebreak),
    ] {
        assert_same!(rt; decode(word), Some(insn));
        assert_same!(rt; encode(&insn), word);
    }
}

#[test]
fn words_that_spell_nothing(rt: HostRuntime) {
    for word in [
        0x0000_0000,
        0xFFFF_FFFF,
        0x4200_5013, // srai with bit 25 set
        0x0200_5013, // srli with bit 25 set
        0x0631_00B3, // mul with bit 26 set
        0x4231_00B3, // sub with bit 25 set
    ] {
        assert_same!(rt; decode(word), None);
    }
}
