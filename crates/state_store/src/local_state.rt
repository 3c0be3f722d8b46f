//! A processor between two references.

ghost use Rattle.std.specs.Prelude.{◌≡◌, ◌↔◌, false, IfOk, IsTrue, OnOk};
ghost use Rattle.local_reduction.specs.Exchanging.{Asks};
ghost use Rattle.flat_machine.specs.State.{is_running};
ghost use Rattle.flat_machine.specs.Turns.{turn_of};
ghost use Rattle.hart.specs.Deciding.{IsReference};
ghost use Rattle.state_store.specs.Placed.{placed_of, printing, IsBare, IsEqual, IsGoingOn, IsQuiet, IsSame};
ghost use Rattle.state_store.specs.Placed.{IsStanding};
ghost use Rattle.state_store.specs.Placed.{IsStill, HasGone, HasRetired, HasTurned};

use crate::refusal::MoveRefusal;
use flat_machine::{Cause, Retired, Status};
use hart::{Core, Taken};
use local_memory::Code;
use local_reduction::{LiveTable, laws};
use rv_table::{Insn, Register};
use std::alloc::{AllocError, Global};
use std::marker::Model;

/// How many instructions a processor may take alone before the search looks for a spin. Few take more.
const UNWATCHED: u32 = 1_024;

/// A processor with the bytes that it has printed.
#[derive(Drop)]
pub struct LocalState {
    core: Core,
    console: Vec<u8>,
}

impl Model for LocalState {
    ghost use Rattle.state_store.specs.Placed.{Placed};

    ghost Value = { Placed };

    ghost view = { λ s. record {
      setting = s.core.setting;
      local_state = record { processor = s.core.state; console = s.console.items };
    } };
}

impl LocalState {
    /// A processor that has printed nothing.
    pub fn new(alloc: Global, core: &Core) -> Result<Self, AllocError>
        ensures { IfOk result (λ s. s ≡ placed_of core.now) }
    {
        Ok(LocalState {
            core: core.copy()?,
            console: Vec::new(alloc),
        })
    }

    /// The local state with this core and this console.
    pub(crate) fn of_parts(core: Core, console: Vec<u8>) -> Self
        ensures setting { result.setting ≡ core.setting }
        ensures local_state { result.local_state ≡ record { processor = core.state; console = console.items } }
    {
        LocalState { core, console }
    }

    /// The allocator of the console.
    pub(crate) fn allocator(&self) -> Global {
        *self.console.allocator()
    }

    /// The processor.
    pub fn core(&self) -> &Core
        ensures { result.now ≡ record { setting = self.now.setting; state = self.now.local_state.processor } }
    {
        &self.core
    }

    /// The bytes that it has printed.
    pub fn console(&self) -> &[u8]
        ensures { result.now ≡ self.now.local_state.console }
    {
        self.console.as_slice()
    }

    /// Returns whether the processor runs.
    pub fn is_running(&self) -> bool
        ensures { result ≡ is_running self.now.local_state.processor.status }
    {
        match self.core.status() {
            Status::Running => true,
            Status::Halted(_) | Status::Faulted(_) => false,
        }
    }

    /// Returns an equal local state.
    pub fn copy(&self) -> Result<Self, AllocError>
        ensures { IfOk result (λ s. s ≡ self.now) }
    {
        Ok(LocalState {
            core: self.core.copy()?,
            console: self.console.clone()?,
        })
    }

    /// Returns whether both are equal. Registers and local memory of stopped processors do not count.
    pub(crate) fn is_equal(&self, other: &LocalState) -> bool
        ensures { IsTrue result ↔ IsEqual self.now other.now }
    {
        self.core.stands_as(&other.core)
            && self.console.as_slice() == other.console.as_slice()
            && (!self.is_running() || self.core.equals(&other.core))
    }

    /// Sets the registers that are not live to 0.
    pub fn forget(&mut self, live: &LiveTable)
        ensures same { IsSame live.now self.new self.old }
        ensures bare { IsBare live.now self.new }
    {
        laws::dead_registers_are_not_kept();
        let pc = self.core.pc();
        for number in 1..32 {
            let register = Register::new(number);
            if !live.has(pc, register) {
                self.core.set_register(register, 0);
            }
        }
    }

    /// Completes a turn that refers to a shared word, given the word's old value.
    pub fn retire(&mut self, code: &Code, before: u32) -> Result<(), AllocError>
        requires { IsReference (turn_of self.old.setting code.now self.old.local_state.processor) }
        ensures retired { OnOk result (HasRetired code.now before self.old self.new) }
    {
        let retired = self.core.retire(code, before);
        self.print(retired)
    }

    /// Takes turns alone until the processor stops, is at a reference to a shared word, or is found to spin.
    ///
    /// # Errors
    ///
    /// [`MoveRefusal::Asks`] if a turn asks for the processor's own number and `quietly` is set;
    /// [`MoveRefusal::Alone`] if it takes 1,000,000 turns and is not found to spin; [`MoveRefusal::Memory`].
    pub fn run_to_reference(&mut self, code: &Code, quietly: bool) -> Result<(), MoveRefusal>
        ensures gone { OnOk result (HasGone quietly code.now self.old self.new) }
        ensures still { OnOk result (IsStill code.now self.new) }
        ensures quiet { OnOk result (IsQuiet quietly code.now self.new) }
    {
        for _turn in 0..UNWATCHED {
            if self.step(code, quietly)? {
                return Ok(());
            }
        }
        self.run_watched(code, quietly)?;
        Ok(())
    }

    /// Takes a turn alone, if there is one. Returns whether the processor has stopped or is at a reference.
    pub(crate) fn step(&mut self, code: &Code, quietly: bool) -> Result<bool, MoveRefusal>
        ensures turned { OnOk result (HasTurned quietly code.now self.old self.new) }
        ensures stands { IfOk result (λ stands. IsTrue stands → IsStanding code.now self.new) }
        ensures goes_on { IfOk result (λ stands. stands ≡ false → IsGoingOn code.now self.old) }
    {
        if !self.is_running() {
            return Ok(true);
        }
        if quietly && self.asks(code) {
            return Err(MoveRefusal::Asks);
        }
        match self.core.take(code) {
            Taken::Retired(retired) => match self.print(retired) {
                Ok(()) => Ok(false),
                Err(_) => Err(MoveRefusal::Memory),
            },
            Taken::Refers { .. } => Ok(true),
            Taken::Halts(byte) => {
                self.core.stop(Cause::Halt(byte));
                Ok(true)
            }
            Taken::Faults(fault) => {
                self.core.stop(Cause::Fault(fault));
                Ok(true)
            }
        }
    }

    /// Returns whether the next turn asks for the processor's own number.
    #[tactic(auto, unfolding(flat_machine::specs::Effects::register_of))]
    fn asks(&self, code: &Code) -> bool
        ensures { result ≡ false → Asks code.now self.now.local_state.processor → ⊥ }
    {
        match code.fetch(self.core.pc()) {
            Ok(Insn::Ecall) => self.core.registers()[17] == 2,
            _ => false,
        }
    }

    /// Gives the processor another number.
    pub fn set_number(&mut self, number: u8)
        ensures setting { self.new.setting ≡ record self.old.setting { number = number } }
        ensures local_state { self.new.local_state ≡ self.old.local_state }
    {
        self.core.set_number(number);
    }

    /// Appends the byte that an instruction wrote to the console, if any.
    fn print(&mut self, retired: Retired) -> Result<(), AllocError>
        ensures { OnOk result (self.new ≡ printing self.old retired) }
    {
        match retired.out {
            Some(byte) => Ok(self.console.push(byte)?),
            None => Ok(()),
        }
    }
}
