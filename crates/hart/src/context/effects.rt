//! What an instruction does, given the values of its registers.

ghost use Rattle.std.specs.Prelude.{◌≡◌};
ghost use Rattle.flat_machine.specs.Effects.{call_of, effect_of, register_of};
ghost use Rattle.flat_machine.specs.Words.{extended, plus};

use super::Context;
use flat_machine::{Effect, Fault};
use hart_ops::{
    branch_offset, immediate_result, immediate_word, is_branch_taken, jump_offset, register_result,
    shift_result, sum,
};
use rv_table::{BranchOp, Immediate, Insn, Register, UpperOp};

impl Context {
    /// What the instruction does.
    #[tactic(auto, unfolding(flat_machine::specs::Effects::effect_of))]
    pub(crate) fn effect(&self, insn: &Insn) -> Effect
        ensures { result ≡ effect_of self.now.setting self.now.pc self.now.registers insn.now }
    {
        match *insn {
            Insn::Op { op, rd, rs1, rs2 } => Effect::Write {
                rd,
                value: register_result(op, self.read(rs1), self.read(rs2)),
            },
            Insn::OpImm { op, rd, rs1, imm } => Effect::Write {
                rd,
                value: immediate_result(op, self.read(rs1), immediate_word(imm)),
            },
            Insn::Shift {
                op,
                rd,
                rs1,
                amount,
            } => Effect::Write {
                rd,
                value: shift_result(op, self.read(rs1), amount.field()),
            },
            Insn::Load { op, rd, rs1, imm } => Effect::Load {
                op,
                rd,
                address: self.address(rs1, imm),
            },
            Insn::Store { op, rs1, rs2, imm } => Effect::Store {
                op,
                address: self.address(rs1, imm),
                value: self.read(rs2),
            },
            Insn::Branch {
                op,
                rs1,
                rs2,
                offset,
            } => self.branch(op, rs1, rs2, offset),
            Insn::Upper { op, rd, upper } => self.upper(op, rd, upper),
            Insn::Jal { rd, offset } => self.jump(rd, sum(self.pc, jump_offset(offset))),
            Insn::Jalr { rd, rs1, imm } => self.jump(rd, self.address(rs1, imm) / 2 * 2),
            Insn::Fence { .. } => Effect::Pass,
            Insn::Ecall => self.call(),
            Insn::Ebreak => Effect::Fail {
                fault: Fault::Breakpoint,
            },
            Insn::Amo {
                op,
                rd,
                rs1,
                rs2,
                ..
            } => Effect::Amo {
                op,
                rd,
                address: self.read(rs1),
                value: self.read(rs2),
            },
        }
    }

    /// A register's value. Register 0 is 0.
    #[tactic(auto, unfolding(flat_machine::specs::Effects::register_of))]
    fn read(&self, register: Register) -> u32
        ensures { result ≡ register_of self.now.registers register }
    {
        let number = register.number();
        if number == 0 {
            0
        } else {
            self.registers[number as usize]
        }
    }

    /// The address that is the sum of a register and a 12-bit offset.
    fn address(&self, rs1: Register, imm: Immediate<12>) -> u32
        ensures { result ≡ plus (register_of self.now.registers rs1) (extended 12 imm) }
    {
        sum(self.read(rs1), immediate_word(imm))
    }

    /// What a branch does.
    #[tactic(auto, unfolding(flat_machine::specs::Effects::effect_of))]
    fn branch(&self, op: BranchOp, rs1: Register, rs2: Register, offset: Immediate<12>) -> Effect
        ensures { result
            ≡ effect_of self.now.setting self.now.pc self.now.registers (Insn.Branch op rs1 rs2 offset) }
    {
        if is_branch_taken(op, self.read(rs1), self.read(rs2)) {
            Effect::Jump {
                rd: Register::new(0),
                value: 0,
                target: sum(self.pc, branch_offset(offset)),
            }
        } else {
            Effect::Pass
        }
    }

    /// What LUI and AUIPC do.
    #[tactic(auto, unfolding(flat_machine::specs::Effects::effect_of))]
    fn upper(&self, op: UpperOp, rd: Register, upper: Immediate<20>) -> Effect
        ensures { result
            ≡ effect_of self.now.setting self.now.pc self.now.registers (Insn.Upper op rd upper) }
    {
        let high = upper.field() << 12;
        let value = match op {
            UpperOp::Lui => high,
            UpperOp::Auipc => sum(self.pc, high),
        };
        Effect::Write { rd, value }
    }

    /// A jump to the target, with the address of the next instruction in `rd`.
    fn jump(&self, rd: Register, target: u32) -> Effect
        ensures { result ≡ Effect.Jump rd (plus self.now.pc 4) target }
    {
        Effect::Jump {
            rd,
            value: sum(self.pc, 4),
            target,
        }
    }

    /// What the environment call that `a7` names does, with the argument in `a0`.
    #[tactic(auto, unfolding(flat_machine::specs::Effects::call_of))]
    fn call(&self) -> Effect
        ensures { result
            ≡ call_of self.now.setting (register_of self.now.registers 17)
            (register_of self.now.registers 10) }
    {
        let a0 = Register::new(10);
        let byte = (self.read(a0) % 256) as u8;
        match self.read(Register::new(17)) {
            0 => Effect::Halt { byte },
            1 => Effect::Print { byte },
            2 => Effect::Write {
                rd: a0,
                value: u32::from(self.setting.number),
            },
            3 => Effect::Write {
                rd: a0,
                value: u32::from(self.setting.processors),
            },
            _ => Effect::Fail {
                fault: Fault::UnknownCall,
            },
        }
    }
}
