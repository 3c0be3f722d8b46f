//! A core, and what can be read and written from outside.

ghost use Rattle.std.specs.Prelude.{◌≡◌, ◌↔◌, ◌<◌, ◌≤◌, ◌^◌, ◌%◌, Ok, true, length, IfOk, IsTrue};
ghost use Rattle.flat_machine.specs.Effects.{effect_of};
ghost use Rattle.flat_machine.specs.Flat.{with_poked_byte, with_poked_register};
ghost use Rattle.flat_machine.specs.Memory.{in_local};
ghost use Rattle.flat_machine.specs.State.{status_of};
ghost use Rattle.flat_machine.specs.Turns.{fetched, turn_of};
ghost use Rattle.local_memory.specs.Accesses.{load_of};
ghost use Rattle.rv_table.specs.declared.insn.Insn.{Insn};
ghost use Rattle.hart.specs.Deciding.{Allows, Decides, IsOfEffect, NamesWord};
ghost use Rattle.hart.specs.State.{new_core, processor_of, IsStandingAs};

mod taking;

use crate::context::Context;
use crate::decision::Decision;
use crate::saved::SavedCore;
use flat_machine::{Cause, Fault, PC, REGION_BYTES, Setting, Size, Status};
use local_memory::{Code, Local, SavedLocal};
use rv_table::Register;
use std::alloc::{AllocError, Global};
use std::marker::Model;

/// One processor's core.
#[derive(Drop)]
pub struct Core {
    context: Context,
    local: Local,
}

impl Model for Core {
    ghost use Rattle.hart.specs.State.{CoreState, processor_of};

    ghost Value = { CoreState };

    ghost view = { λ c. record { setting = c.context.setting; state = processor_of c.context c.local } };
}

impl Core {
    /// A running core at `pc`, with every register 0. Its local memory begins with the given bytes; the rest is zero.
    pub fn new(alloc: Global, setting: Setting, pc: u32, local: &[u8]) -> Result<Self, AllocError>
        requires words { setting.shared_words ≤ 262144 }
        requires aligned { pc % 4 ≡ 0 }
        requires fits { length local.now ≤ 2 ^ 16 }
        ensures { IfOk result (λ core. core ≡ new_core setting pc local.now) }
    {
        Ok(Core {
            context: Context::new(setting, pc),
            local: Local::new(alloc, local)?,
        })
    }

    /// Returns a core equal to this one.
    pub fn copy(&self) -> Result<Self, AllocError>
        ensures { IfOk result (λ core. core ≡ self.now) }
    {
        Ok(Core {
            context: self.context.copy(),
            local: self.local.copy()?,
        })
    }

    /// Makes this core equal to another, without allocating memory.
    pub fn copy_from(&mut self, other: &Self)
        ensures { self.new ≡ other.now }
    {
        self.context.copy_from(&other.context);
        self.local.copy_from(&other.local);
    }

    /// Saves the core, in as much memory as it needs.
    pub fn save(&self) -> Result<SavedCore, AllocError>
        ensures { IfOk result (λ saved. saved ≡ self.now) }
    {
        Ok(SavedCore::new(self.context.copy(), SavedLocal::new(&self.local)?))
    }

    /// The core with this context and this local memory.
    pub(crate) fn of_parts(context: Context, local: Local) -> Self
        ensures { result ≡ record { setting = context.setting; state = processor_of context local } }
    {
        Core { context, local }
    }

    /// Returns whether both are equal.
    pub fn equals(&self, other: &Self) -> bool
        ensures { IsTrue result ↔ (self.now ≡ other.now) }
    {
        self.context.equals(&other.context) && self.local.equals(&other.local)
    }

    /// Returns whether both have the same setting, the same `pc` and the same status.
    pub fn stands_as(&self, other: &Self) -> bool
        ensures { IsTrue result ↔ IsStandingAs self.now other.now }
    {
        self.pc() == other.pc()
            && self.setting() == other.setting()
            && self.status() == other.status()
    }

    /// What the processor's next turn is if it runs. A local turn may then be taken ([`Core::take_local`]), and a
    /// reference may retire ([`Core::retire`]).
    pub fn decide(&self, code: &Code) -> Decision
        ensures turn { Decides result (turn_of self.now.setting code.now self.now.state) }
        ensures table { (i : Insn) → fetched code.now self.now.state.pc ≡ Ok i
            → IsOfEffect result (effect_of self.now.setting self.now.state.pc self.now.state.registers i) }
        ensures word { NamesWord result self.now.setting }
        ensures allows { Allows result (turn_of self.now.setting code.now self.now.state) }
    {
        self.context.decide(code)
    }

    /// The address of the next instruction. It is divisible by 4.
    pub fn pc(&self) -> u32
        ensures value { result ≡ self.now.state.pc }
        ensures aligned { result % 4 ≡ 0 }
    {
        self.context.pc()
    }

    /// What the processor is doing.
    pub fn status(&self) -> Status
        ensures { result ≡ self.now.state.status }
    {
        self.context.status()
    }

    /// Registers 0 to 31, in order.
    pub fn registers(&self) -> &[u32; 32]
        ensures { result.now ≡ self.now.state.registers }
    {
        self.context.registers()
    }

    /// What the processor knows of its machine.
    pub fn setting(&self) -> Setting
        ensures { result ≡ self.now.setting }
    {
        self.context.setting()
    }

    /// The byte of local memory at an address.
    ///
    /// # Errors
    ///
    /// [`Fault::NoRegion`] if the address is outside local memory.
    pub fn byte(&self, address: u32) -> Result<u8, Fault>
        ensures { result ≡ load_of self.now.state.local 1 address (in_local address) }
    {
        let byte = self.local.load(address, Size::Byte)?;
        Ok(byte as u8)
    }

    /// Writes a register from outside. Register 0 stays 0.
    #[tactic(auto, unfolding(flat_machine::specs::Effects::with_register))]
    pub fn set_register(&mut self, register: Register, value: u32)
        ensures zero { register ≡ 0 → self.new ≡ self.old }
        ensures written { 0 < register →
            self.new ≡ record self.old { state = with_poked_register register value self.old.state } }
    {
        self.context.set_register(register, value);
    }

    /// Sets the `pc` from outside, to an address divisible by 4.
    pub fn set_pc(&mut self, value: u32)
        requires { value % 4 ≡ 0 }
        ensures { self.new ≡ record self.old { state = with_poked_register PC value self.old.state } }
    {
        self.context.set_pc(value);
    }

    /// Writes a byte of local memory from outside.
    #[tactic(auto, unfolding(flat_machine::specs::Memory::with_number))]
    pub fn set_byte(&mut self, address: u32, value: u8)
        requires { in_local address ≡ true }
        ensures { self.new ≡ record self.old { state = with_poked_byte address value self.old.state } }
    {
        self.local
            .set_number(address % REGION_BYTES, Size::Byte, u32::from(value));
    }

    /// Sets the number, below 64, that the processor reads as its own.
    pub fn set_number(&mut self, number: u8)
        ensures { self.new ≡ record self.old { setting = record self.old.setting { number = number } } }
    {
        self.context.set_number(number);
    }

    /// Records why the processor stopped.
    pub fn stop(&mut self, cause: Cause)
        ensures { self.new ≡ record self.old { state = record self.old.state { status = status_of cause } } }
    {
        self.context.stop(cause);
    }
}

/// A core has 32 registers. Proofs can cite this at no run-time cost.
pub fn core_has_registers(core: &Core)
    ensures { length core.now.state.registers ≡ 32 }
{
    let _ = core.context.registers();
}
