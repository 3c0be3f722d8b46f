//! Results of instructions, by the definitions of the manual.

use flat_machine::Size;
use hart_ops::{
    amo_result, branch_offset, immediate_result, immediate_word, is_branch_taken, jump_offset,
    load_result, load_size, part, register_result, shift_result, store_size, sum,
};
use rv_table::{AmoOp, BranchOp, Immediate, ImmediateOp, LoadOp, RegisterOp, ShiftOp, StoreOp};
use test_support::assert_same;

#[test]
fn operations_on_registers(rt: HostRuntime) {
    assert_same!(rt; register_result(RegisterOp::Slt, 0x8000_0000, 1), 1);
    assert_same!(rt; register_result(RegisterOp::Sltu, 0x8000_0000, 1), 0);
    assert_same!(rt; register_result(RegisterOp::Sll, 1, 33), 2);
    assert_same!(rt; register_result(RegisterOp::Sra, 0x8000_0000, 36), 0xF800_0000);
    assert_same!(rt; immediate_result(ImmediateOp::Sltiu, 5, 0xFFFF_FFFF), 1);
    assert_same!(rt; immediate_result(ImmediateOp::Slti, 5, 0xFFFF_FFFF), 0);
    assert_same!(rt; shift_result(ShiftOp::Srai, 0xFFFF_FF00, 4), 0xFFFF_FFF0);
    assert_same!(rt; shift_result(ShiftOp::Srli, 0xFFFF_FF00, 4), 0x0FFF_FFF0);
    assert!(rt; is_branch_taken(BranchOp::Blt, 0xFFFF_FFFF, 0));
    assert!(rt; !is_branch_taken(BranchOp::Bltu, 0xFFFF_FFFF, 0));
}

/// Two operands, and the result of each operation of extension M on them.
struct Row {
    a: u32,
    b: u32,
    values: [u32; 8],
}

macro_rules! rows {
    ($($a:literal $b:literal $mul:literal $mulh:literal $mulhsu:literal $mulhu:literal $div:literal $divu:literal $rem:literal $remu:literal)*) => {
        [$(Row {
            a: $a,
            b: $b,
            values: [$mul, $mulh, $mulhsu, $mulhu, $div, $divu, $rem, $remu],
        }),*]
    };
}

/// The overflow of a division, a divisor of zero, and operands of each sign.
static PRODUCTS_AND_QUOTIENTS: [Row; 9] = rows![
    // a        b           mul         mulh        mulhsu      mulhu       div         divu        rem         remu
    0x8000_0000 0xFFFF_FFFF 0x8000_0000 0           0x8000_0000 0x7FFF_FFFF 0x8000_0000 0           0           0x8000_0000
    7           0           0           0           0           0           0xFFFF_FFFF 0xFFFF_FFFF 7           7
    0xFFFF_FFF9 0           0           0           0           0           0xFFFF_FFFF 0xFFFF_FFFF 0xFFFF_FFF9 0xFFFF_FFF9
    7           2           14          0           0           0           3           3           1           1
    7           0xFFFF_FFFE 0xFFFF_FFF2 0xFFFF_FFFF 6           6           0xFFFF_FFFD 0           1           7
    0xFFFF_FFF9 2           0xFFFF_FFF2 0xFFFF_FFFF 0xFFFF_FFFF 1           0xFFFF_FFFD 0x7FFF_FFFC 0xFFFF_FFFF 1
    0xFFFF_FFF9 0xFFFF_FFFE 14          0           0xFFFF_FFF9 0xFFFF_FFF7 3           0           0xFFFF_FFFF 0xFFFF_FFF9
    0xFFFF_FFFF 2           0xFFFF_FFFE 0xFFFF_FFFF 0xFFFF_FFFF 1           0           0x7FFF_FFFF 0xFFFF_FFFF 1
    0x8000_0000 0x8000_0000 0           0x4000_0000 0xC000_0000 0x4000_0000 1           1           0           0
];

#[test]
fn products_and_quotients(rt: HostRuntime) {
    let operations = [
        RegisterOp::Mul,
        RegisterOp::Mulh,
        RegisterOp::Mulhsu,
        RegisterOp::Mulhu,
        RegisterOp::Div,
        RegisterOp::Divu,
        RegisterOp::Rem,
        RegisterOp::Remu,
    ];
    for row in &PRODUCTS_AND_QUOTIENTS {
        let (a, b) = (row.a, row.b);
        for (op, value) in operations.iter().zip(row.values.iter()) {
            assert_same!(rt; register_result(*op, a, b), *value, (&op, &a, &b));
        }
    }
}

#[test]
fn operations_on_memory(rt: HostRuntime) {
    assert_same!(rt; load_size(LoadOp::Lhu), Size::Half);
    assert_same!(rt; store_size(StoreOp::Sb), Size::Byte);
    assert_same!(rt; load_result(LoadOp::Lb, 0x80), 0xFFFF_FF80);
    assert_same!(rt; load_result(LoadOp::Lh, 0x7FFF), 0x7FFF);
    assert_same!(rt; load_result(LoadOp::Lh, 0x8000), 0xFFFF_8000);
    assert_same!(rt; load_result(LoadOp::Lhu, 0x8000), 0x8000);
    assert_same!(rt; amo_result(AmoOp::Min, 0xFFFF_FFFF, 1), 0xFFFF_FFFF);
    assert_same!(rt; amo_result(AmoOp::Minu, 0xFFFF_FFFF, 1), 1);
    assert_same!(rt; part(Size::Half, 2, 0xAABB_CCDD), 0xAABB);
}

#[test]
fn offsets(rt: HostRuntime) {
    assert_same!(rt; sum(0xFFFF_FFFF, 2), 1);
    assert_same!(rt; immediate_word(Immediate::new(0x7FF)), 0x7FF);
    assert_same!(rt; immediate_word(Immediate::new(0x800)), 0xFFFF_F800);
    assert_same!(rt; branch_offset(Immediate::new(0x7FF)), 0xFFE);
    assert_same!(rt; branch_offset(Immediate::new(0x800)), 0xFFFF_F000);
    assert_same!(rt; jump_offset(Immediate::new(0x7_FFFF)), 0xF_FFFE);
    assert_same!(rt; jump_offset(Immediate::new(0x8_0000)), 0xFFF0_0000);
}
