//! What a processor's next turn is.

ghost use Rattle.std.specs.Prelude.{◌≡◌, ℕ, List, Ok};
ghost use Rattle.flat_machine.specs.Effects.{effect_of};
ghost use Rattle.flat_machine.specs.Turns.{fetched, performed, turn_of};
ghost use Rattle.rv_table.specs.declared.insn.Insn.{Insn};
ghost use Rattle.hart.specs.Deciding.{Allows, Decides, IsOfEffect, NamesWord};
ghost use Rattle.hart.specs.State.{processor_of};

use super::Context;
use crate::decision::{Decision, Shape};
use crate::instructions;
use flat_machine::{Effect, Fault, Region, Size};
use hart_ops::{load_size, store_size};
use local_memory::Code;
use rv_table::{AmoOp, LoadOp, StoreOp};

impl Context {
    /// What the processor's next turn is if it runs. It does not depend on the contents of local memory.
    #[tactic(auto, using(crate::proofs::Decisions::allowed))]
    pub(crate) fn decide(&self, code: &Code) -> Decision
        ensures turn { (local : List ℕ) →
            Decides result (turn_of self.now.setting code.now (processor_of self.now local)) }
        ensures table { (i : Insn) → fetched code.now self.now.pc ≡ Ok i
            → IsOfEffect result (effect_of self.now.setting self.now.pc self.now.registers i) }
        ensures word { NamesWord result self.now.setting }
        ensures allows { (local : List ℕ) →
            Allows result (turn_of self.now.setting code.now (processor_of self.now local)) }
    {
        match code.fetch(self.pc()) {
            Ok(insn) => self.decision(self.effect(&insn)),
            Err(fault) => Decision::Fault(fault),
        }
    }

    /// What an effect asks for.
    pub(crate) fn decision(&self, effect: Effect) -> Decision
        ensures turn { (code local : List ℕ) (insn : Insn) →
            Decides result (performed self.now.setting code (processor_of self.now local) insn effect) }
        ensures table { IsOfEffect result effect }
        ensures word { NamesWord result self.now.setting }
    {
        match effect {
            Effect::Write { .. } | Effect::Pass | Effect::Print { .. } => Decision::Local,
            Effect::Jump { target, .. } => if target % 4 == 0 {
                Decision::Local
            } else {
                Decision::Fault(Fault::TargetNotAligned)
            },
            Effect::Load { op, address, .. } => self.load_decision(op, address),
            Effect::Store { op, address, value } => self.store_decision(op, address, value),
            Effect::Amo {
                op,
                address,
                value,
                ..
            } => self.amo_decision(op, address, value),
            Effect::Halt { byte } => Decision::Halt(byte),
            Effect::Fail { fault } => Decision::Fault(fault),
        }
    }

    /// What a load asks for.
    fn load_decision(&self, op: LoadOp, address: u32) -> Decision
        ensures turn { (code local : List ℕ) (insn : Insn) (rd : ℕ) → Decides result
            (performed self.now.setting code (processor_of self.now local) insn (Effect.Load op rd address)) }
        ensures table { (rd : ℕ) → IsOfEffect result (Effect.Load op rd address) }
        ensures word { NamesWord result self.now.setting }
    {
        match self.region(load_size(op), address, false) {
            Ok(Region::Shared { word }) => Decision::Refer {
                word,
                phi: instructions::load(),
                shape: Shape::Load(op),
            },
            Ok(Region::Local { .. } | Region::Code { .. }) => Decision::Local,
            Err(fault) => Decision::Fault(fault),
        }
    }

    /// What a store asks for.
    fn store_decision(&self, op: StoreOp, address: u32, value: u32) -> Decision
        ensures turn { (code local : List ℕ) (insn : Insn) → Decides result
            (performed self.now.setting code (processor_of self.now local) insn (Effect.Store op address value)) }
        ensures table { IsOfEffect result (Effect.Store op address value) }
        ensures word { NamesWord result self.now.setting }
    {
        match self.region(store_size(op), address, true) {
            Ok(Region::Shared { word }) => Decision::Refer {
                word,
                phi: instructions::store(op, address % 4, value),
                shape: Shape::Store(op),
            },
            Ok(Region::Local { .. } | Region::Code { .. }) => Decision::Local,
            Err(fault) => Decision::Fault(fault),
        }
    }

    /// What an AMO asks for.
    fn amo_decision(&self, op: AmoOp, address: u32, value: u32) -> Decision
        ensures turn { (code local : List ℕ) (insn : Insn) (rd : ℕ) → Decides result
            (performed self.now.setting code (processor_of self.now local) insn (Effect.Amo op rd address value)) }
        ensures table { (rd : ℕ) → IsOfEffect result (Effect.Amo op rd address value) }
        ensures word { NamesWord result self.now.setting }
    {
        match self.region(Size::Word, address, true) {
            Ok(Region::Shared { word }) => Decision::Refer {
                word,
                phi: instructions::amo(op, value),
                shape: Shape::Amo(op),
            },
            Ok(Region::Local { .. } | Region::Code { .. }) => Decision::Local,
            Err(fault) => Decision::Fault(fault),
        }
    }
}
