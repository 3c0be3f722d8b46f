//! Which registers an instruction needs.

ghost use Rattle.std.specs.Prelude.{◌≡◌, ◌==◌, ◌||◌};
ghost use Rattle.local_reduction.specs.Live.{is_needed, is_passed};

use crate::table::LiveTable;
use hart_ops::{branch_offset, jump_offset, sum};
use rv_table::{Insn, Register};

impl LiveTable {
    /// Whether an instruction at `pc`, or one after it, may read a register before it is written.
    #[tactic(auto, unfolding(crate::specs::Live::is_needed))]
    pub(crate) fn needs(&self, pc: u32, insn: &Insn, register: Register) -> bool
        ensures { result ≡ is_needed self.now pc insn.now register }
    {
        let next = sum(pc, 4);
        match *insn {
            Insn::Op { rd, rs1, rs2, .. } | Insn::Amo { rd, rs1, rs2, .. } => {
                is_same(register, rs1) || is_same(register, rs2) || self.passes(next, rd, register)
            }
            Insn::OpImm { rd, rs1, .. }
            | Insn::Shift { rd, rs1, .. }
            | Insn::Load { rd, rs1, .. } => {
                is_same(register, rs1) || self.passes(next, rd, register)
            }
            Insn::Store { rs1, rs2, .. } => {
                is_same(register, rs1) || is_same(register, rs2) || self.has(next, register)
            }
            Insn::Branch {
                rs1,
                rs2,
                offset,
                ..
            } => {
                is_same(register, rs1)
                    || is_same(register, rs2)
                    || self.has(next, register)
                    || self.has(sum(pc, branch_offset(offset)), register)
            }
            Insn::Upper { rd, .. } => self.passes(next, rd, register),
            Insn::Jal { rd, offset } => self.passes(sum(pc, jump_offset(offset)), rd, register),
            Insn::Jalr { .. } => true,
            Insn::Fence { .. } => self.has(next, register),
            Insn::Ecall => is_of_call(register) || self.has(next, register),
            Insn::Ebreak => false,
        }
    }

    /// Whether a register is live at a target, and is not the one written before it.
    fn passes(&self, target: u32, rd: Register, register: Register) -> bool
        ensures { result ≡ is_passed self.now target rd register }
    {
        !is_same(register, rd) && self.has(target, register)
    }
}

/// Whether an environment call reads the register: a7, which names the call, or a0, its argument.
fn is_of_call(register: Register) -> bool
    ensures { result ≡ (register == 17 || register == 10) }
{
    register.number() == 17 || register.number() == 10
}

/// Whether both are the same register.
fn is_same(one: Register, other: Register) -> bool
    ensures { result ≡ one == other }
{
    one.number() == other.number()
}
