//! A saved core.

ghost use Rattle.std.specs.Prelude.{◌≡◌, ◌↔◌, Ok, length, IfOk, IsTrue};
ghost use Rattle.flat_machine.specs.Effects.{effect_of};
ghost use Rattle.flat_machine.specs.Turns.{fetched, turn_of};
ghost use Rattle.rv_table.specs.declared.insn.Insn.{Insn};
ghost use Rattle.hart.specs.Deciding.{Allows, Decides, IsOfEffect, NamesWord};
ghost use Rattle.hart.specs.State.{processor_of};

use crate::context::Context;
use crate::decision::Decision;
use crate::processor::Core;
use flat_machine::{Setting, Status};
use local_memory::{Code, SavedLocal};
use std::alloc::AllocError;
use std::marker::Model;

/// A saved core ([`Core::save`]). It takes no turns. Of its local memory it stores only the bytes up to the last one
/// that is not zero.
#[derive(Drop)]
pub struct SavedCore {
    context: Context,
    local: SavedLocal,
}

impl Model for SavedCore {
    ghost use Rattle.hart.specs.State.{CoreState, processor_of};

    ghost Value = { CoreState };

    ghost view = { λ c. record { setting = c.context.setting; state = processor_of c.context c.local } };
}

impl SavedCore {
    /// The saved core with this context and this local memory.
    pub(crate) fn new(context: Context, local: SavedLocal) -> Self
        ensures { result ≡ record { setting = context.setting; state = processor_of context local } }
    {
        SavedCore { context, local }
    }

    /// Returns the core that was saved.
    pub fn restore(&self) -> Result<Core, AllocError>
        ensures { IfOk result (λ core. core ≡ self.now) }
    {
        Ok(Core::of_parts(self.context.copy(), self.local.restore()?))
    }

    /// Returns whether both are equal.
    pub fn equals(&self, other: &Self) -> bool
        ensures { IsTrue result ↔ (self.now ≡ other.now) }
    {
        self.context.equals(&other.context) && self.local.equals(&other.local)
    }

    /// What the processor's next turn is if it runs, as [`Core::decide`] says it.
    pub fn decide(&self, code: &Code) -> Decision
        ensures turn { Decides result (turn_of self.now.setting code.now self.now.state) }
        ensures table { (i : Insn) → fetched code.now self.now.state.pc ≡ Ok i
            → IsOfEffect result (effect_of self.now.setting self.now.state.pc self.now.state.registers i) }
        ensures word { NamesWord result self.now.setting }
        ensures allows { Allows result (turn_of self.now.setting code.now self.now.state) }
    {
        self.context.decide(code)
    }

    /// The address of the next instruction.
    pub fn pc(&self) -> u32
        ensures { result ≡ self.now.state.pc }
    {
        self.context.pc()
    }

    /// What the processor is doing.
    pub fn status(&self) -> Status
        ensures { result ≡ self.now.state.status }
    {
        self.context.status()
    }

    /// Registers 0 to 31, in order.
    pub fn registers(&self) -> &[u32; 32]
        ensures { result.now ≡ self.now.state.registers }
    {
        self.context.registers()
    }

    /// What the processor knows of its machine.
    pub fn setting(&self) -> Setting
        ensures { result ≡ self.now.setting }
    {
        self.context.setting()
    }
}
