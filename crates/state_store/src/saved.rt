//! What tables store of a processor between two references.

ghost use Rattle.std.specs.Prelude.{◌≡◌, ◌↔◌, true, [], IfOk, IsTrue};
ghost use Rattle.flat_machine.specs.State.{is_running};
ghost use Rattle.flat_machine.specs.Turns.{turn_of};
ghost use Rattle.hart.specs.Deciding.{Allows, Decides, NamesWord};
ghost use Rattle.local_reduction.specs.Closing.{if_running};
ghost use Rattle.state_store.specs.Placed.{IsBare, IsEqual, IsSame};
ghost use Rattle.state_store.specs.Saved.{core_of, IsKept};

use crate::local_state::LocalState;
use flat_machine::{Cause, Setting, Status};
use hart::{Core, Decision, SavedCore};
use local_memory::Code;
use local_reduction::LiveTable;
use std::alloc::{AllocError, Global};
use std::hash::{Hash, Hasher};
use std::marker::Model;

/// A saved local state, in as much memory as it needs. It stores neither registers nor local memory of a stopped
/// processor.
#[derive(Drop)]
pub struct SavedLocalState {
    processor: SavedProcessor,
    console: Vec<u8>,
}

/// What is stored of a processor.
#[derive(Drop)]
enum SavedProcessor {
    Running(Box<SavedCore>),
    Stopped {
        setting: Setting,
        pc: u32,
        cause: Cause,
    },
}

impl Model for SavedLocalState {
    ghost use Rattle.state_store.specs.Placed.{Placed};

    ghost Value = { Placed };

    ghost use Rattle.state_store.specs.Saved.{core_of, IsKept};

    ghost view = { λ s. record {
      setting = (core_of s.processor).setting;
      local_state = record { processor = (core_of s.processor).state; console = s.console.items };
    } };

    ghost invariant = { λ s. IsKept s.processor };
}

// A table looks up a local state by its key. Local memory is compared, but not hashed.
impl PartialEq for SavedLocalState {
    ghost use Rattle.std.specs.Cmp.{on_per, partial_equiv_from_equiv};
    ghost use Rattle.state_store.specs.KeyLaws.{keys_equiv};
    ghost use Rattle.state_store.specs.Keys.{key_of, same_key};

    ghost eq = { same_key };

    ghost laws = { on_per key_of (partial_equiv_from_equiv keys_equiv) };

    fn eq(&self, other: &SavedLocalState) -> bool {
        self.is_equal(other)
    }
}

impl Eq for SavedLocalState {
    ghost use Rattle.std.specs.Cmp.{on_equiv};
    ghost use Rattle.state_store.specs.KeyLaws.{keys_equiv};
    ghost use Rattle.state_store.specs.Keys.{key_of};

    ghost laws = { on_equiv key_of keys_equiv };
}

impl Hash for SavedLocalState {
    ghost use Rattle.std.specs.Prelude.{◌++◌};
    ghost use Rattle.std.specs.Hash as fed;
    ghost use Rattle.local_reduction.specs.Closing.{if_running};
    ghost use Rattle.state_store.specs.KeyLaws.{hashed_alike};

    ghost hash_input = { λ a. fed.u32 a.local_state.processor.pc ++ fed.slice fed.u8 a.local_state.console
        ++ fed.slice fed.u32 (if_running a.local_state).processor.registers };

    ghost respects_eq = { hashed_alike };

    fn hash<H: Hasher>(&self, state: &mut H) {
        self.pc().hash(state);
        self.console().hash(state);
        self.kept_registers().hash(state);
    }
}

impl SavedLocalState {
    /// Saves a local state, with 0 in the registers that are not live.
    pub(crate) fn new(local_state: LocalState, live: &LiveTable) -> Result<Self, AllocError>
        ensures same { IfOk result (λ saved. IsSame live.now saved local_state) }
        ensures bare { IfOk result (λ saved. IsBare live.now saved) }
    {
        let mut local_state = local_state;
        local_state.forget(live);
        let alloc = local_state.allocator();
        Ok(SavedLocalState {
            processor: saved_processor(alloc, local_state.core())?,
            console: Vec::from_slice(alloc, local_state.console())?,
        })
    }

    /// Returns the local state that was saved, of a running processor.
    pub(crate) fn restore(&self) -> Result<LocalState, AllocError>
        requires { is_running self.now.local_state.processor.status ≡ true }
        ensures { IfOk result (λ local_state. local_state ≡ self.now) }
    {
        match &self.processor {
            SavedProcessor::Running(core) => {
                Ok(LocalState::of_parts(core.restore()?, self.console.clone()?))
            }
            SavedProcessor::Stopped { .. } => unreachable!(),
        }
    }

    /// What the next turn of a running processor is.
    pub(crate) fn decide(&self, code: &Code) -> Decision
        requires { is_running self.now.local_state.processor.status ≡ true }
        ensures turn { Decides result (turn_of self.now.setting code.now self.now.local_state.processor) }
        ensures word { NamesWord result self.now.setting }
        ensures allows { Allows result (turn_of self.now.setting code.now self.now.local_state.processor) }
    {
        match &self.processor {
            SavedProcessor::Running(core) => core.decide(code),
            SavedProcessor::Stopped { .. } => unreachable!(),
        }
    }

    /// Returns whether the processor runs.
    pub fn is_running(&self) -> bool
        ensures { result ≡ is_running self.now.local_state.processor.status }
    {
        match &self.processor {
            SavedProcessor::Running(_) => true,
            SavedProcessor::Stopped { .. } => false,
        }
    }

    /// The address of the processor's next instruction.
    pub fn pc(&self) -> u32
        ensures { result ≡ self.now.local_state.processor.pc }
    {
        match &self.processor {
            SavedProcessor::Running(core) => core.pc(),
            SavedProcessor::Stopped { pc, .. } => *pc,
        }
    }

    /// What the processor is doing.
    pub fn status(&self) -> Status
        ensures { result ≡ self.now.local_state.processor.status }
    {
        match &self.processor {
            SavedProcessor::Running(core) => core.status(),
            SavedProcessor::Stopped { cause, .. } => cause.status(),
        }
    }

    /// The bytes that the processor has printed.
    pub fn console(&self) -> &[u8]
        ensures { result.now ≡ self.now.local_state.console }
    {
        self.console.as_slice()
    }

    /// Returns whether both are equal.
    fn is_equal(&self, other: &SavedLocalState) -> bool
        ensures { IsTrue result ↔ IsEqual self.now other.now }
    {
        self.processor.equals(&other.processor)
            && self.console.as_slice() == other.console.as_slice()
    }

    /// The registers of a running processor; empty if it has stopped.
    fn kept_registers(&self) -> &[u32]
        ensures { result.now ≡ (if_running self.now.local_state).processor.registers }
    {
        match &self.processor {
            SavedProcessor::Running(core) => core.registers(),
            SavedProcessor::Stopped { .. } => &[],
        }
    }
}

impl SavedProcessor {
    /// Returns whether both are equal.
    fn equals(&self, other: &SavedProcessor) -> bool
        requires this { IsKept self.now }
        requires other { IsKept other.now }
        ensures { IsTrue result ↔ (core_of self.now ≡ core_of other.now) }
    {
        match (self, other) {
            (SavedProcessor::Running(core), SavedProcessor::Running(other)) => core.equals(other),
            (
                SavedProcessor::Stopped { setting, pc, cause },
                SavedProcessor::Stopped {
                    setting: other_setting,
                    pc: other_pc,
                    cause: other_cause,
                },
            ) => pc == other_pc && cause == other_cause && setting == other_setting,
            _ => false,
        }
    }
}

/// Saves a processor: a running one as a whole, a stopped one without registers and local memory.
fn saved_processor(alloc: Global, core: &Core) -> Result<SavedProcessor, AllocError>
    ensures setting { IfOk result (λ saved. (core_of saved).setting ≡ core.now.setting) }
    ensures state { IfOk result (λ saved. (core_of saved).state
        ≡ (if_running (record { processor = core.now.state; console = [] })).processor) }
    ensures kept { IfOk result IsKept }
{
    match core.status() {
        Status::Running => {
            let Ok(saved) = Box::new(alloc, core.save()?) else {
                return Err(AllocError);
            };
            Ok(SavedProcessor::Running(saved))
        }
        Status::Halted(byte) => Ok(stopped_processor(core, Cause::Halt(byte))),
        Status::Faulted(fault) => Ok(stopped_processor(core, Cause::Fault(fault))),
    }
}

/// What is stored of a core that has stopped for this cause.
fn stopped_processor(core: &Core, cause: Cause) -> SavedProcessor
    ensures { result ≡ SavedProcessor.Stopped core.now.setting core.now.state.pc cause }
{
    SavedProcessor::Stopped {
        setting: core.setting(),
        pc: core.pc(),
        cause,
    }
}
