//! Rows of the table, words of instructions, what instructions compute, functions of shared words, and a module.

use decode::{decode, encode};
use hart_ops::{
    amo_result, branch_offset, immediate_result, immediate_word, is_aligned, is_branch_taken,
    jump_offset, load_result, load_size, part, register_result, shift_result, store_size, sum,
};
use local_memory::Size;
use memory_module::Module;
use phi_algebra::{Phi, SignedRange, UnsignedRange, compose};
use rv_table::{
    AmoOp, BranchOp, Format, Immediate, ImmediateOp, Insn, LoadOp, Register, RegisterOp, Row,
    ShiftOp, StoreOp, TABLE, row_of,
};
use std::test::Fail;
use test_support::{assert_same, lend};

/// `addi x1, x0, 1` in the table of 57 rows, and as a word.
#[test]
fn one_instruction(rt: HostRuntime) {
    let addi = Insn::OpImm {
        op: ImmediateOp::Addi,
        rd: Register::new(1),
        rs1: Register::new(0),
        imm: Immediate::new(1),
    };
    let row = Row {
        mask: 0x0000_707F,
        match_: 0x0000_0013,
        format: Format::IType,
    };
    assert_same!(rt; *row_of(&addi), row);
    assert_same!(rt; TABLE.len(), 57);
    assert!(rt; TABLE.iter().any(|listed| *listed == row));
    assert_same!(rt; encode(&addi), 0x0010_0093);
    for (word, wanted) in [
        (0x0010_0093, Some(addi)),
        (0x0000_0000, None),
        (0xFFFF_FFFF, None),
        (0x4200_5013, None),
    ] {
        assert_same!(rt; decode(word), wanted, word);
    }
}

#[test]
fn effects_of_rows(rt: HostRuntime) {
    for (found, wanted) in [
        (register_result(RegisterOp::Sub, 1, 2), 0xFFFF_FFFF),
        (immediate_result(ImmediateOp::Xori, 0x00FF, 0x000F), 0x00F0),
        (shift_result(ShiftOp::Slli, 1, 31), 0x8000_0000),
        (load_result(LoadOp::Lb, 0x80), 0xFFFF_FF80),
        (amo_result(AmoOp::Max, 0xFFFF_FFFF, 1), 1),
        (part(Size::Byte, 3, 0xAABB_CCDD), 0xAA),
        (sum(0xFFFF_FFFF, 1), 0),
        (immediate_word(Immediate::new(0xFFF)), 0xFFFF_FFFF),
        (branch_offset(Immediate::new(4)), 8),
        (jump_offset(Immediate::new(0xF_FFFE)), 0xFFFF_FFFC),
    ] {
        assert_same!(rt; found, wanted);
    }
}

#[test]
fn conditions_and_sizes_of_rows(rt: HostRuntime) {
    for (found, wanted) in [
        (is_branch_taken(BranchOp::Bne, 0, 1), true),
        (is_branch_taken(BranchOp::Bgeu, 0, 1), false),
        (is_aligned(Size::Half, 2), true),
        (is_aligned(Size::Word, 2), false),
    ] {
        assert_same!(rt; found, wanted);
    }
    assert_same!(rt; (load_size(LoadOp::Lw), store_size(StoreOp::Sb)), (Size::Word, Size::Byte));
}

#[test]
fn functions_apply(rt: HostRuntime) {
    let signed = Phi::Clamp(SignedRange::new(-1, 3));
    let unsigned = Phi::ClampU(UnsignedRange::new(1, 9));
    let bits = Phi::Bits {
        and: 0xFFFF_FF00,
        xor: 0x0000_00AA,
    };
    for (found, wanted) in [
        (signed.apply(5), 3),
        (signed.apply(0x8000_0000), 0xFFFF_FFFF),
        (unsigned.apply(0), 1),
        (unsigned.apply(0x8000_0000), 9),
        (bits.apply(0x1122_3344), 0x1122_33AA),
        (Phi::Add(1).apply(0xFFFF_FFFF), 0),
        (Phi::identity().apply(7), 7),
        (Phi::constant(7).apply(9), 7),
    ] {
        assert_same!(rt; found, wanted);
    }
    assert!(rt; Phi::identity().is_identity() && !bits.is_identity());
    assert!(rt; Phi::constant(7).is_constant() && !bits.is_constant());
}

#[test]
fn functions_compose(rt: HostRuntime) {
    let least = Phi::Clamp(SignedRange::new(i32::MIN, 3));
    let quarter = Phi::Add(0x4000_0000);
    assert_same!(rt; compose(&least, &Phi::Add(1)), None);
    assert_same!(rt; compose(&Phi::Add(0xFFFF_FFFF), &Phi::Add(1)), Some(Phi::Add(0)));
    assert_same!(rt; compose(&quarter, &quarter), Some(Phi::Add(0x8000_0000)));
    let after_nothing = compose(&Phi::Add(0), &least).map(|phi| phi.apply(5));
    assert_same!(rt; after_nothing, Some(3));
}

/// A module returns the word as it was, and stores what the function makes of it.
#[test]
fn words_are_served(rt: HostRuntime) -> Result<(), Fail> {
    lend(Module::new(rt.alloc(), 2)?, |module| {
        assert!(rt; module.len() == 2);
        assert_same!(rt; module.serve(1, &Phi::Add(7)), 0);
        assert!(rt; module.len() == 2);
        assert_same!(rt; module.serve(1, &Phi::constant(5)), 7);
        assert_same!(rt; [module.word(0), module.word(1), module.word(2)], [Some(0), Some(5), None]);
    });
    Ok(())
}
