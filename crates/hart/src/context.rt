//! What a processor has besides its local memory.

ghost use Rattle.std.specs.Prelude.{◌≡◌, ◌↔◌, ◌≤◌, ◌^◌, ◌%◌, length, replicate, IsTrue};
ghost use Rattle.flat_machine.specs.declared.event.Status.TheVariants.{Running};
ghost use Rattle.flat_machine.specs.Effects.{with_register};
ghost use Rattle.flat_machine.specs.State.{status_of};
ghost use Rattle.flat_machine.specs.Turns.{retired_writing};

mod deciding;
mod effects;
mod regions;

use flat_machine::{Cause, Retired, Setting, Status};
use rv_table::{Insn, Register};
use std::marker::Model;

/// A processor's registers, its `pc` and its status, and what it knows of its machine. The kind of its next turn
/// depends on nothing else.
#[derive(Drop)]
pub(crate) struct Context {
    setting: Setting,
    pc: u32,
    registers: [u32; 32],
    status: Status,
}

impl Model for Context {
    ghost use Rattle.std.specs.Prelude.{◌≡◌, ◌≤◌, ◌^◌, ◌%◌, length};
    ghost use Rattle.hart.specs.State.{ContextState};

    ghost Value = { ContextState };

    ghost view = { λ c. record {
      setting = c.setting;
      pc = c.pc;
      registers = c.registers;
      status = c.status;
    } };

    ghost invariant = { λ c. (c.setting.shared_words ≤ 2 ^ 18) × (c.pc % 4 ≡ 0) × (length c.registers ≡ 32) };
}

impl Context {
    /// A running processor at `pc`, with every register 0.
    pub(crate) fn new(setting: Setting, pc: u32) -> Self
        requires words { setting.shared_words ≤ 262144 }
        requires aligned { pc % 4 ≡ 0 }
        ensures { result ≡ record { setting = setting; pc = pc; registers = replicate 32 0; status = Running } }
    {
        Context {
            setting,
            pc,
            registers: [0; 32],
            status: Status::Running,
        }
    }

    /// Returns an equal context.
    pub(crate) fn copy(&self) -> Self
        ensures { result ≡ self.now }
    {
        Context {
            setting: self.setting,
            pc: self.pc,
            registers: self.registers,
            status: self.status,
        }
    }

    /// Makes this context equal to another.
    pub(crate) fn copy_from(&mut self, other: &Self)
        ensures { self.new ≡ other.now }
    {
        self.setting = other.setting;
        self.pc = other.pc;
        self.registers = other.registers;
        self.status = other.status;
    }

    /// Returns whether both are equal.
    pub(crate) fn equals(&self, other: &Self) -> bool
        ensures { IsTrue result ↔ (self.now ≡ other.now) }
    {
        self.pc == other.pc
            && self.setting == other.setting
            && self.status == other.status
            && self.registers == other.registers
    }

    /// What the processor knows of its machine.
    pub(crate) fn setting(&self) -> Setting
        ensures { result ≡ self.now.setting }
    {
        self.setting
    }

    /// The address of the next instruction. It is divisible by 4.
    pub(crate) fn pc(&self) -> u32
        ensures value { result ≡ self.now.pc }
        ensures aligned { result % 4 ≡ 0 }
    {
        self.pc
    }

    /// What the processor is doing.
    pub(crate) fn status(&self) -> Status
        ensures { result ≡ self.now.status }
    {
        self.status
    }

    /// Registers 0 to 31, in order.
    pub(crate) fn registers(&self) -> &[u32; 32]
        ensures value { result.now ≡ self.now.registers }
        ensures all { length self.now.registers ≡ 32 }
    {
        &self.registers
    }

    /// Writes a register. Register 0 stays 0.
    #[tactic(auto, unfolding(flat_machine::specs::Effects::with_register))]
    pub(crate) fn set_register(&mut self, register: Register, value: u32)
        ensures { self.new ≡ record self.old { registers = with_register self.old.registers register value } }
    {
        let number = register.number();
        if number != 0 {
            self.registers[number as usize] = value;
        }
    }

    /// Writes a register, and sets the `pc` to `target`.
    #[tactic(auto, unfolding(flat_machine::specs::Effects::with_register))]
    pub(crate) fn go(&mut self, insn: Insn, rd: Register, value: u32, target: u32) -> Retired
        requires { target % 4 ≡ 0 }
        ensures gone { self.new
            ≡ record self.old { pc = target; registers = with_register self.old.registers rd value } }
        ensures retired { result ≡ retired_writing self.old.pc insn rd value }
    {
        let pc = self.pc;
        let number = rd.number();
        let result = if number == 0 {
            None
        } else {
            self.registers[number as usize] = value;
            Some(value)
        };
        self.pc = target;
        Retired {
            pc,
            insn,
            result,
            out: None,
        }
    }

    /// Sets the `pc`, to an address divisible by 4.
    pub(crate) fn set_pc(&mut self, value: u32)
        requires { value % 4 ≡ 0 }
        ensures { self.new ≡ record self.old { pc = value } }
    {
        self.pc = value;
    }

    /// Sets the number that the processor reads as its own.
    pub(crate) fn set_number(&mut self, number: u8)
        ensures { self.new ≡ record self.old { setting = record self.old.setting { number = number } } }
    {
        self.setting.number = number;
    }

    /// Records why the processor stopped.
    pub(crate) fn stop(&mut self, cause: Cause)
        ensures { self.new ≡ record self.old { status = status_of cause } }
    {
        self.status = cause.status();
    }
}
