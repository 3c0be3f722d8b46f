//! Operations on registers.

ghost use Rattle.std.specs.Prelude.{◌≡◌, ◌<◌};
ghost use Rattle.flat_machine.specs.Operations.{immediate_value, is_taken, register_value, shift_value};

use crate::products::{
    mixed_product, quotient, remainder, signed_product, unsigned_quotient, unsigned_remainder,
    unsigned_upper_half, upper_half,
};
use rv_table::{BranchOp, ImmediateOp, RegisterOp, ShiftOp};

/// What `rd` gets from the values of two registers.
#[tactic(auto, unfolding(flat_machine::specs::Operations::register_value, flat_machine::specs::Words::plus, flat_machine::specs::Words::minus, flat_machine::specs::Words::is_below))]
pub fn register_result(op: RegisterOp, a: u32, b: u32) -> u32
    ensures { result ≡ register_value op a b }
{
    match op {
        RegisterOp::Add => a.wrapping_add(b),
        RegisterOp::Sub => a.wrapping_sub(b),
        RegisterOp::Sll => a.wrapping_shl(b),
        RegisterOp::Slt => u32::from(a.cast_signed() < b.cast_signed()),
        RegisterOp::Sltu => u32::from(a < b),
        RegisterOp::Xor => a ^ b,
        RegisterOp::Srl => a.wrapping_shr(b),
        RegisterOp::Sra => a.cast_signed().wrapping_shr(b).cast_unsigned(),
        RegisterOp::Or => a | b,
        RegisterOp::And => a & b,
        RegisterOp::Mul => a.wrapping_mul(b),
        RegisterOp::Mulh => upper_half(signed_product(a.cast_signed(), b.cast_signed())),
        RegisterOp::Mulhsu => upper_half(mixed_product(a.cast_signed(), b)),
        RegisterOp::Mulhu => unsigned_upper_half(a, b),
        RegisterOp::Div => quotient(a, b),
        RegisterOp::Divu => unsigned_quotient(a, b),
        RegisterOp::Rem => remainder(a, b),
        RegisterOp::Remu => unsigned_remainder(a, b),
    }
}

/// What `rd` gets from a register's value and a sign-extended immediate.
#[tactic(auto, unfolding(flat_machine::specs::Operations::immediate_value, flat_machine::specs::Words::plus, flat_machine::specs::Words::is_below))]
pub fn immediate_result(op: ImmediateOp, a: u32, immediate: u32) -> u32
    ensures { result ≡ immediate_value op a immediate }
{
    match op {
        ImmediateOp::Addi => a.wrapping_add(immediate),
        ImmediateOp::Slti => u32::from(a.cast_signed() < immediate.cast_signed()),
        ImmediateOp::Sltiu => u32::from(a < immediate),
        ImmediateOp::Xori => a ^ immediate,
        ImmediateOp::Ori => a | immediate,
        ImmediateOp::Andi => a & immediate,
    }
}

/// What `rd` gets from a register's value and a shift amount.
#[tactic(auto, unfolding(flat_machine::specs::Operations::shift_value))]
pub fn shift_result(op: ShiftOp, a: u32, amount: u32) -> u32
    requires { amount < 32 }
    ensures { result ≡ shift_value op a amount }
{
    match op {
        ShiftOp::Slli => a << amount,
        ShiftOp::Srli => a >> amount,
        ShiftOp::Srai => (a.cast_signed() >> amount).cast_unsigned(),
    }
}

/// Whether a branch on the values of two registers is taken.
#[tactic(auto, unfolding(flat_machine::specs::Operations::is_taken, flat_machine::specs::Words::is_below))]
pub fn is_branch_taken(op: BranchOp, a: u32, b: u32) -> bool
    ensures { result ≡ is_taken op a b }
{
    match op {
        BranchOp::Beq => a == b,
        BranchOp::Bne => a != b,
        BranchOp::Blt => a.cast_signed() < b.cast_signed(),
        BranchOp::Bge => a.cast_signed() >= b.cast_signed(),
        BranchOp::Bltu => a < b,
        BranchOp::Bgeu => a >= b,
    }
}
