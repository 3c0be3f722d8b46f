//! Taking turns: local ones, and references after their reply.

ghost use Rattle.std.specs.Prelude.{◌≡◌, ◌%◌, ℕ, List, Ok, Some};
ghost use Rattle.rv_table.specs.declared.insn.Insn.{Insn};
ghost use Rattle.flat_machine.specs.Effects.{effect_of, with_register};
ghost use Rattle.flat_machine.specs.Turns.{Retires, fetched, gone_to, next_pc, performed, retired_printing};
ghost use Rattle.flat_machine.specs.Turns.{retired_writing, turn_of};
ghost use Rattle.hart.specs.Deciding.{Decides, HasPhiOf, IsLocal, IsOfEffect, IsReference, IsTaken, after_reply};

use super::Core;
use crate::decision::{Decision, Taken};
use flat_machine::{Effect, Region, Retired, Size};
use hart_ops::{amo_result, load_result, load_size, part, store_size};
use local_memory::Code;
use rv_table::{AmoOp, Insn, LoadOp, Register, StoreOp};

impl Core {
    /// Takes a local turn: one that needs only the core itself.
    pub fn take_local(&mut self, code: &Code) -> Retired
        requires { IsLocal (turn_of self.old.setting code.now self.old.state) }
        ensures turn { turn_of self.old.setting code.now self.old.state ≡ Retires self.new.state result }
        ensures setting { self.new.setting ≡ self.old.setting }
    {
        match code.fetch(self.pc()) {
            Ok(insn) => {
                let effect = self.context.effect(&insn);
                self.perform(code, insn, effect)
            }
            Err(_) => unreachable!(),
        }
    }

    /// Takes the next turn of a running processor if the turn is local, and returns what happened. It decodes the
    /// instruction once; [`Core::decide`] followed by [`Core::take_local`] decodes it twice.
    // Inlined, so that the large result is written only if the caller reads it.
    #[inline(always)]
    pub fn take(&mut self, code: &Code) -> Taken
        ensures turn { IsTaken result self.old.state self.new.state (turn_of self.old.setting code.now self.old.state) }
        ensures table { (i : Insn) → fetched code.now self.old.state.pc ≡ Ok i
            → HasPhiOf result (effect_of self.old.setting self.old.state.pc self.old.state.registers i) }
        ensures setting { self.new.setting ≡ self.old.setting }
    {
        match code.fetch(self.pc()) {
            Ok(insn) => {
                let effect = self.context.effect(&insn);
                self.take_effect(code, insn, effect)
            }
            Err(fault) => Taken::Faults(fault),
        }
    }

    /// Carries out an effect if it needs only the core itself.
    fn take_effect(&mut self, code: &Code, insn: Insn, effect: Effect) -> Taken
        ensures turn { IsTaken result self.old.state self.new.state
            (performed self.old.setting code.now self.old.state insn effect) }
        ensures table { HasPhiOf result effect }
        ensures setting { self.new.setting ≡ self.old.setting }
    {
        let asked = effect;
        match self.decision(asked) {
            Decision::Local => Taken::Retired(self.perform(code, insn, effect)),
            Decision::Refer { word, phi, .. } => Taken::Refers { word, phi },
            Decision::Halt(byte) => Taken::Halts(byte),
            Decision::Fault(fault) => Taken::Faults(fault),
        }
    }

    /// What an effect asks for.
    fn decision(&self, effect: Effect) -> Decision
        ensures turn { (code : List ℕ) (insn : Insn) →
            Decides result (performed self.now.setting code self.now.state insn effect) }
        ensures table { IsOfEffect result effect }
    {
        self.context.decision(effect)
    }

    /// Completes a turn that refers to a shared word, given the word's old value.
    #[inline(always)]
    pub fn retire(&mut self, code: &Code, reply: u32) -> Retired
        requires { IsReference (turn_of self.old.setting code.now self.old.state) }
        ensures turn { after_reply (turn_of self.old.setting code.now self.old.state) reply
            ≡ Some (self.new.state, result) }
        ensures setting { self.new.setting ≡ self.old.setting }
    {
        match code.fetch(self.pc()) {
            Ok(insn) => {
                let effect = self.context.effect(&insn);
                self.finish(code, insn, effect, reply)
            }
            Err(_) => unreachable!(),
        }
    }

    /// Carries out an effect that needs only the core itself.
    fn perform(&mut self, code: &Code, insn: Insn, effect: Effect) -> Retired
        requires { IsLocal (performed self.old.setting code.now self.old.state insn effect) }
        ensures turn { performed self.old.setting code.now self.old.state insn effect ≡ Retires self.new.state result }
        ensures setting { self.new.setting ≡ self.old.setting }
    {
        match effect {
            Effect::Write { rd, value } => self.go_on(insn, rd, value),
            Effect::Jump { rd, value, target } => self.go(insn, rd, value, target),
            Effect::Pass => self.go_on(insn, Register::new(0), 0),
            Effect::Print { byte } => Retired {
                out: Some(byte),
                ..self.go_on(insn, Register::new(0), 0)
            },
            Effect::Load { op, rd, address } => self.load(code, insn, op, rd, address),
            Effect::Store { op, address, value } => self.store(code, insn, op, address, value),
            Effect::Amo {
                op,
                rd,
                address,
                value,
            } => self.amo(code, insn, op, rd, address, value),
            Effect::Halt { .. } | Effect::Fail { .. } => unreachable!(),
        }
    }

    /// Loads from local memory or from code.
    fn load(&mut self, code: &Code, insn: Insn, op: LoadOp, rd: Register, address: u32) -> Retired
        requires { IsLocal (performed self.old.setting code.now self.old.state insn (Effect.Load op rd address)) }
        ensures turn { performed self.old.setting code.now self.old.state insn (Effect.Load op rd address)
            ≡ Retires self.new.state result }
        ensures setting { self.new.setting ≡ self.old.setting }
    {
        let size = load_size(op);
        let old = match self.context.region(size, address, false) {
            Ok(Region::Local { place }) => self.local.number(place, size),
            Ok(Region::Code { place }) => code.number(place, size),
            Ok(Region::Shared { .. }) | Err(_) => unreachable!(),
        };
        self.go_on(insn, rd, load_result(op, old))
    }

    /// Stores into local memory.
    fn store(&mut self, code: &Code, insn: Insn, op: StoreOp, address: u32, value: u32) -> Retired
        requires { IsLocal (performed self.old.setting code.now self.old.state insn (Effect.Store op address value)) }
        ensures turn { performed self.old.setting code.now self.old.state insn (Effect.Store op address value)
            ≡ Retires self.new.state result }
        ensures setting { self.new.setting ≡ self.old.setting }
    {
        let size = store_size(op);
        match self.context.region(size, address, true) {
            Ok(Region::Local { place }) => {
                self.local.set_number(place, size, value);
                self.go_on(insn, Register::new(0), 0)
            }
            Ok(Region::Shared { .. } | Region::Code { .. }) | Err(_) => unreachable!(),
        }
    }

    /// Applies an AMO to a word of local memory, and writes its old value to `rd`.
    fn amo(
        &mut self,
        code: &Code,
        insn: Insn,
        op: AmoOp,
        rd: Register,
        address: u32,
        value: u32,
    ) -> Retired
        requires { IsLocal (performed self.old.setting code.now self.old.state insn (Effect.Amo op rd address value)) }
        ensures turn { performed self.old.setting code.now self.old.state insn (Effect.Amo op rd address value)
            ≡ Retires self.new.state result }
        ensures setting { self.new.setting ≡ self.old.setting }
    {
        match self.context.region(Size::Word, address, true) {
            Ok(Region::Local { place }) => {
                let old = self.local.number(place, Size::Word);
                let new = amo_result(op, old, value);
                self.local.set_number(place, Size::Word, new);
                self.go_on(insn, rd, old)
            }
            Ok(Region::Shared { .. } | Region::Code { .. }) | Err(_) => unreachable!(),
        }
    }

    /// Completes a reference, given the word's old value.
    #[tactic(auto, using(crate::proofs::References::amo_leaves))]
    fn finish(&mut self, code: &Code, insn: Insn, effect: Effect, reply: u32) -> Retired
        requires { IsReference (performed self.old.setting code.now self.old.state insn effect) }
        ensures turn { after_reply (performed self.old.setting code.now self.old.state insn effect) reply
            ≡ Some (self.new.state, result) }
        ensures setting { self.new.setting ≡ self.old.setting }
    {
        match effect {
            Effect::Load { op, rd, address } => {
                let old = part(load_size(op), address % 4, reply);
                self.go_on(insn, rd, load_result(op, old))
            }
            Effect::Store { .. } => self.go_on(insn, Register::new(0), 0),
            Effect::Amo { rd, .. } => self.go_on(insn, rd, reply),
            _ => unreachable!(),
        }
    }

    /// Writes a register, and advances to the next instruction.
    #[tactic(auto, unfolding(flat_machine::specs::Words::plus))]
    fn go_on(&mut self, insn: Insn, rd: Register, value: u32) -> Retired
        ensures gone { self.new ≡ record self.old { state = gone_to (next_pc self.old.state) rd value self.old.state } }
        ensures retired { result ≡ retired_writing self.old.state.pc insn rd value }
    {
        let next = self.pc().wrapping_add(4);
        self.go(insn, rd, value, next)
    }

    /// Writes a register, and sets the `pc` to `target`.
    fn go(&mut self, insn: Insn, rd: Register, value: u32, target: u32) -> Retired
        requires { target % 4 ≡ 0 }
        ensures gone { self.new ≡ record self.old { state = gone_to target rd value self.old.state } }
        ensures retired { result ≡ retired_writing self.old.state.pc insn rd value }
    {
        self.context.go(insn, rd, value, target)
    }
}
