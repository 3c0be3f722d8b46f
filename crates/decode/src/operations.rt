//! The operation that has a given match, for each shape of instruction.

ghost use Rattle.std.specs.Prelude.{◌≡◌, IsNone, IfSome};
ghost use Rattle.rv_table.specs.Rows.{register_match, immediate_match, shift_match, load_match, store_match};
ghost use Rattle.rv_table.specs.Rows.{branch_match, amo_match};
ghost use Rattle.rv_table.specs.declared.operation.RegisterOp.{RegisterOp};
ghost use Rattle.rv_table.specs.declared.operation.ImmediateOp.{ImmediateOp};
ghost use Rattle.rv_table.specs.declared.operation.ShiftOp.{ShiftOp};
ghost use Rattle.rv_table.specs.declared.operation.LoadOp.{LoadOp};
ghost use Rattle.rv_table.specs.declared.operation.StoreOp.{StoreOp};
ghost use Rattle.rv_table.specs.declared.operation.BranchOp.{BranchOp};
ghost use Rattle.rv_table.specs.declared.operation.AmoOp.{AmoOp};

use rv_table::{AmoOp, BranchOp, ImmediateOp, LoadOp, RegisterOp, ShiftOp, StoreOp};

/// The register-register operation with this match.
pub fn register_op(match_: u32) -> Option<RegisterOp>
    ensures found { IfSome result (λ op. register_match op ≡ match_) }
    ensures none { IsNone result → (op : RegisterOp) → ¬ register_match op ≡ match_ }
{
    Some(match match_ {
        0x0000_0033 => RegisterOp::Add,
        0x4000_0033 => RegisterOp::Sub,
        0x0000_1033 => RegisterOp::Sll,
        0x0000_2033 => RegisterOp::Slt,
        0x0000_3033 => RegisterOp::Sltu,
        0x0000_4033 => RegisterOp::Xor,
        0x0000_5033 => RegisterOp::Srl,
        0x4000_5033 => RegisterOp::Sra,
        0x0000_6033 => RegisterOp::Or,
        0x0000_7033 => RegisterOp::And,
        0x0200_0033 => RegisterOp::Mul,
        0x0200_1033 => RegisterOp::Mulh,
        0x0200_2033 => RegisterOp::Mulhsu,
        0x0200_3033 => RegisterOp::Mulhu,
        0x0200_4033 => RegisterOp::Div,
        0x0200_5033 => RegisterOp::Divu,
        0x0200_6033 => RegisterOp::Rem,
        0x0200_7033 => RegisterOp::Remu,
        _ => return None,
    })
}

/// The register-immediate operation with this match.
pub fn immediate_op(match_: u32) -> Option<ImmediateOp>
    ensures found { IfSome result (λ op. immediate_match op ≡ match_) }
    ensures none { IsNone result → (op : ImmediateOp) → ¬ immediate_match op ≡ match_ }
{
    Some(match match_ {
        0x0000_0013 => ImmediateOp::Addi,
        0x0000_2013 => ImmediateOp::Slti,
        0x0000_3013 => ImmediateOp::Sltiu,
        0x0000_4013 => ImmediateOp::Xori,
        0x0000_6013 => ImmediateOp::Ori,
        0x0000_7013 => ImmediateOp::Andi,
        _ => return None,
    })
}

/// The shift by a constant with this match.
pub fn shift_op(match_: u32) -> Option<ShiftOp>
    ensures found { IfSome result (λ op. shift_match op ≡ match_) }
    ensures none { IsNone result → (op : ShiftOp) → ¬ shift_match op ≡ match_ }
{
    Some(match match_ {
        0x0000_1013 => ShiftOp::Slli,
        0x0000_5013 => ShiftOp::Srli,
        0x4000_5013 => ShiftOp::Srai,
        _ => return None,
    })
}

/// The load with this match.
pub fn load_op(match_: u32) -> Option<LoadOp>
    ensures found { IfSome result (λ op. load_match op ≡ match_) }
    ensures none { IsNone result → (op : LoadOp) → ¬ load_match op ≡ match_ }
{
    Some(match match_ {
        0x0000_0003 => LoadOp::Lb,
        0x0000_1003 => LoadOp::Lh,
        0x0000_2003 => LoadOp::Lw,
        0x0000_4003 => LoadOp::Lbu,
        0x0000_5003 => LoadOp::Lhu,
        _ => return None,
    })
}

/// The store with this match.
pub fn store_op(match_: u32) -> Option<StoreOp>
    ensures found { IfSome result (λ op. store_match op ≡ match_) }
    ensures none { IsNone result → (op : StoreOp) → ¬ store_match op ≡ match_ }
{
    Some(match match_ {
        0x0000_0023 => StoreOp::Sb,
        0x0000_1023 => StoreOp::Sh,
        0x0000_2023 => StoreOp::Sw,
        _ => return None,
    })
}

/// The conditional branch with this match.
pub fn branch_op(match_: u32) -> Option<BranchOp>
    ensures found { IfSome result (λ op. branch_match op ≡ match_) }
    ensures none { IsNone result → (op : BranchOp) → ¬ branch_match op ≡ match_ }
{
    Some(match match_ {
        0x0000_0063 => BranchOp::Beq,
        0x0000_1063 => BranchOp::Bne,
        0x0000_4063 => BranchOp::Blt,
        0x0000_5063 => BranchOp::Bge,
        0x0000_6063 => BranchOp::Bltu,
        0x0000_7063 => BranchOp::Bgeu,
        _ => return None,
    })
}

/// The atomic memory operation with this match.
pub fn amo_op(match_: u32) -> Option<AmoOp>
    ensures found { IfSome result (λ op. amo_match op ≡ match_) }
    ensures none { IsNone result → (op : AmoOp) → ¬ amo_match op ≡ match_ }
{
    Some(match match_ {
        0x0000_202F => AmoOp::Add,
        0x0800_202F => AmoOp::Swap,
        0x2000_202F => AmoOp::Xor,
        0x4000_202F => AmoOp::Or,
        0x6000_202F => AmoOp::And,
        0x8000_202F => AmoOp::Min,
        0xA000_202F => AmoOp::Max,
        0xC000_202F => AmoOp::Minu,
        0xE000_202F => AmoOp::Maxu,
        _ => return None,
    })
}
