//! A port.

ghost use Rattle.std.specs.Prelude.{◌≡◌, ℕ, ◌<◌, ◌≤◌, ◌^◌, ◌%◌, true, false, List, length, IfOk, Some, None};
ghost use Rattle.std.specs.Prelude.{if◌then◌else◌, slice_get, slice_index};
ghost use Rattle.std.specs.Option.{option_copied};
ghost use Rattle.flat_machine.specs.State.{is_running, status_of};
ghost use Rattle.flat_machine.specs.Flat.{is_lawful_register, with_poked_byte, with_poked_register};
ghost use Rattle.flat_machine.specs.Memory.{in_local};
ghost use Rattle.hart.specs.State.{new_core};
ghost use Rattle.hart.specs.Deciding.{IsReference, after_reply};
ghost use Rattle.machine_ports.specs.Ports.{begun, is_away, no_processor, turn, with_state};
ghost use Rattle.machine_ports.specs.declared.begun.Begun.TheVariants as begins;

use crate::begun::Begun;
use flat_machine::{Cause, LOCAL_START, PC, REGION_BYTES, Retired, Setting, Status};
use hart::{Core, Taken, laws};
use local_memory::Code;
use rv_table::Register;
use std::alloc::{AllocError, Global};
use std::marker::Model;

/// A processor's port, seen as a `PortState`. Its core may be away.
#[derive(Drop)]
pub struct Port {
    /// What the core knows of its machine, whether it is here or away.
    setting: Setting,
    core: Option<Core>,
    is_open: bool,
}

impl Model for Port {
    ghost use Rattle.std.specs.Prelude.{◌≡◌};
    ghost use Rattle.machine_ports.specs.Ports.{PortState, seen_core};

    ghost Value = { PortState };

    ghost view = { λ p. record { core = seen_core p.setting p.core; is_open = p.is_open } };

    ghost invariant = { λ p. (seen_core p.setting p.core).setting ≡ p.setting };
}

impl Port {
    /// The port of a processor that starts at `pc` with all registers 0. Its local memory begins with the given bytes
    /// and is zero after them. No reference is open.
    ///
    /// # Errors
    ///
    /// [`AllocError`] if there is no memory for the local memory.
    pub fn new(alloc: Global, setting: Setting, pc: u32, local: &[u8]) -> Result<Self, AllocError>
        requires words { setting.shared_words ≤ 262144 }
        requires aligned { pc % 4 ≡ 0 }
        requires fits { length local.now ≤ 2 ^ 16 }
        ensures { IfOk result (λ port. port ≡ record { core = new_core setting pc local.now; is_open = false }) }
    {
        Ok(Port {
            setting,
            core: Some(Core::new(alloc, setting, pc, local)?),
            is_open: false,
        })
    }

    /// Whether a reference is open: its request was sent, and its instruction has not retired.
    pub fn is_open(&self) -> bool
        ensures { result ≡ self.now.is_open }
    {
        self.is_open
    }

    /// Whether the processor runs and its core is here.
    pub fn is_running(&self) -> bool
        ensures { result ≡ is_running self.now.core.state.status }
    {
        match &self.core {
            Some(core) => core.status() == Status::Running,
            None => false,
        }
    }

    /// Whether the core is away.
    pub fn is_away(&self) -> bool
        ensures { result ≡ is_away self.now.core.state }
    {
        match &self.core {
            Some(core) => {
                laws::core_has_registers(core);
                false
            }
            None => true,
        }
    }

    /// The processor's core, or `None` if it is away.
    pub fn core(&self) -> Option<&Core>
        ensures { option_copied result ≡ (if is_away self.now.core.state then None else Some self.now.core) }
    {
        match &self.core {
            Some(core) => {
                laws::core_has_registers(core);
                Some(core)
            }
            None => None,
        }
    }

    /// Takes the core out. Returns `None` if it is away.
    pub fn take_core(&mut self) -> Option<Core>
        ensures core { result ≡ (if is_away self.old.core.state then None else Some self.old.core) }
        ensures away { self.new ≡ with_state self.old no_processor }
    {
        let core = self.core.take()?;
        laws::core_has_registers(&core);
        Some(core)
    }

    /// Puts in a core of this processor.
    pub fn put_core(&mut self, core: Core)
        requires setting { core.setting ≡ self.old.core.setting }
        ensures { self.new ≡ record self.old { core = core } }
    {
        self.core = Some(core);
    }

    /// Begins a turn: an instruction retires or stops the processor, or it refers to a shared word and opens the port.
    // The result is large. Inlined, it is written only where the caller reads it.
    #[inline(always)]
    #[tactic(auto, unfolding(crate::specs::Ports::reference_phi))]
    pub fn begin(&mut self, code: &Code) -> Begun
        requires closed { self.old.is_open ≡ false }
        requires running { is_running self.old.core.state.status ≡ true }
        ensures begun { result ≡ (begun self.old code.now (turn self.old code.now)).0 }
        ensures after { self.new ≡ (begun self.old code.now (turn self.old code.now)).1 }
    {
        let Some(core) = &mut self.core else {
            unreachable!()
        };
        match core.take(code) {
            Taken::Retired(retired) => Begun::Retired(retired),
            Taken::Refers { word, phi } => {
                self.is_open = true;
                Begun::Referred { word, phi }
            }
            Taken::Halts(byte) => stop(core, Cause::Halt(byte)),
            Taken::Faults(fault) => stop(core, Cause::Fault(fault)),
        }
    }

    /// Finishes the turn of an open port, with the word that its reference found.
    #[inline(always)]
    pub fn finish(&mut self, code: &Code, found: u32) -> Retired
        requires { IsReference (turn self.old code.now) }
        ensures turn { after_reply (turn self.old code.now) found ≡ Some (self.new.core.state, result) }
        ensures setting { self.new.core.setting ≡ self.old.core.setting }
        ensures closed { self.new.is_open ≡ false }
    {
        let Some(core) = &mut self.core else {
            unreachable!()
        };
        self.is_open = false;
        core.retire(code, found)
    }

    /// Writes register 1 to 31, or `pc` as register 32, of a core that is here, from outside. Returns whether that is
    /// lawful: `pc` gets only a value divisible by 4. If it is not, nothing changes.
    pub fn poke_register(&mut self, register: u8, value: u32) -> bool
        requires home { is_away self.old.core.state ≡ false }
        ensures lawful { result ≡ is_lawful_register register value }
        ensures written { self.new
            ≡ (if is_lawful_register register value
            then with_state self.old (with_poked_register register value self.old.core.state)
            else self.old) }
    {
        let Some(core) = &mut self.core else {
            unreachable!()
        };
        match register {
            PC if value % 4 == 0 => core.set_pc(value),
            1..PC => core.set_register(Register::new(register), value),
            _ => return false,
        }
        true
    }

    /// Writes a byte of the local memory of a core that is here, from outside. Returns whether the address is in local
    /// memory. If it is not, nothing changes.
    pub fn poke_byte(&mut self, address: u32, value: u8) -> bool
        requires home { is_away self.old.core.state ≡ false }
        ensures lawful { result ≡ in_local address }
        ensures written { self.new
            ≡ (if in_local address then with_state self.old (with_poked_byte address value self.old.core.state)
            else self.old) }
    {
        if address / REGION_BYTES != LOCAL_START / REGION_BYTES {
            return false;
        }
        let Some(core) = &mut self.core else {
            unreachable!()
        };
        core.set_byte(address, value);
        true
    }
}

/// Stops the processor.
fn stop(core: &mut Core, cause: Cause) -> Begun
    ensures begun { result ≡ begins.Stopped cause }
    ensures after { core.new ≡ record core.old { state = record core.old.state { status = status_of cause } } }
{
    core.stop(cause);
    Begun::Stopped(cause)
}
