//! The machine.

ghost use Rattle.std.specs.Prelude.{◌≡◌, ◌↔◌, ◌<◌, ◌≤◌, ◌*◌, ◌+◌, ◌-◌, ◌/◌, ◌%◌, ◌^◌, ◌&&◌, ℕ};
ghost use Rattle.std.specs.Prelude.{List, [], true, false, nat_lt, is_some, slice_get, slice_index};
ghost use Rattle.std.specs.Prelude.{Some, None, Err, IfNone, IfOk, IsTrue, if◌then◌else◌};
ghost use Rattle.std.specs.Arc.{arc_value};
ghost use Rattle.std.specs.Option.{option_copied};
ghost use Rattle.flat_machine.specs.declared.event.Event.{Event};
ghost use Rattle.flat_machine.specs.declared.poke.Poke.TheVariants as pokes;
ghost use Rattle.flat_machine.specs.Laws.{AreBelow, HasWords};
ghost use Rattle.flat_machine.specs.Limits.{IsWithinLimits};
ghost use Rattle.flat_machine.specs.Flat.{is_lawful_register};
ghost use Rattle.flat_machine.specs.Memory.{in_local, in_shared, number_at};
ghost use Rattle.flat_machine.specs.Words.{part_of};
ghost use Rattle.omega_wires.specs.Members.{members};
ghost use Rattle.omega_network.specs.Networks.{net_of};
ghost use Rattle.machine_theory.specs.serialization.Steadiness.{Few};
ghost use Rattle.machine_theory.specs.Processors.{is_lawful_poke, no_processor, open_at, port_at, setting_of, word_at};
ghost use Rattle.machine_theory.specs.Processors.{sizes_of};
ghost use Rattle.machine_theory.specs.Cores.{with_core, without};
ghost use Rattle.machine_theory.specs.Steps.{outcome_of};
ghost use Rattle.machine_theory.specs.Turning.{outcome_of_down, outcome_of_up};
ghost use Rattle.flat_machine.specs.State.{is_running};
ghost use Rattle.machine_steps.specs.Machines.{MachineLists, AreHome, IsIdle, IsMachine, IsStep, away_at, is_free};
ghost use Rattle.machine_steps.specs.Machines.{is_there, machine_of, with_core_at, without_core_at};
ghost use Rattle.machine_steps.specs.Openings.{flat_state, IsOpening};
ghost use Rattle.machine_steps.specs.Poking.{IsPoked};
ghost use Rattle.machine_steps.specs.Readers.{local_byte_at, register_at, registers_at, shared_byte_at};
ghost use Rattle.machine_steps.specs.Seeing.{byte_seen};
ghost use Rattle.machine_steps.specs.AnsweringSeconds.{AnswersAllSeconds};

use crate::error::NewError;
use crate::modules::new_modules;
use crate::ports::new_ports;
use crate::service::execute;
use crate::turns;
use elf_image::Image;
use flat_machine::{
    CODE_START, Config, LOCAL_START, PC, Poke, REGION_BYTES, SHARED_START, Size, Status,
};
use hart::Core;
use local_memory::Code;
use machine_ports::Port;
use memory_module::Module;
use messages::{DownMove, UpMove};
use omega_network::IndexedNetwork;
use omega_wires::{WireSet, module_of};
use std::alloc::{AllocError, Global};
use std::marker::Model;
use std::sync::Arc;
use steps::{Outcome, Step};

/// A machine of 1 to 64 processors and as many memory modules, connected by a network of combining switches.
#[derive(Drop)]
pub struct Machine {
    config: Config,
    image: Image,
    code: Arc<Code, Global>,
    ports: Vec<Port>,
    network: IndexedNetwork,
    modules: Vec<Module>,
}

impl Model for Machine {
    ghost use Rattle.std.specs.Arc.{arc_value};
    ghost use Rattle.machine_steps.specs.Machines.{MachineLists, ArePartsOfOne};

    ghost Value = { MachineLists };

    ghost view = { λ m. record {
      config = m.config;
      image = m.image;
      network = m.network;
      ports = m.ports.items;
      modules = m.modules.items;
      code = arc_value m.code;
    } };

    ghost invariant = { λ m. ArePartsOfOne m.config m.image m.network m.ports.items m.modules.items
        (arc_value m.code) };
}

impl Machine {
    /// Makes a machine of this configuration that opens on an image: each processor runs from the image's entry, with
    /// all registers 0. No reference is open.
    ///
    /// # Errors
    ///
    /// [`NewError::Config`] if a number of the configuration is out of its limits, or the image was read for another
    /// number of shared words; otherwise [`NewError::Memory`] if there is no memory.
    pub fn new(alloc: Global, image: Image, config: Config) -> Result<Self, NewError>
        ensures opening { IfOk result (λ m. IsOpening config image m) }
        ensures refused { (result ≡ Err NewError.Config)
            ↔ ((IsWithinLimits config × (image.shared_words ≡ config.shared_words)) → ⊥) }
    {
        if !config.is_within_limits() || image.shared_words() != config.shared_words {
            return Err(NewError::Config);
        }
        match open_machine(alloc, image, config) {
            Ok(machine) => Ok(machine),
            Err(_) => Err(NewError::Memory),
        }
    }

    /// The image on which the machine opened.
    pub fn image(&self) -> &Image
        ensures { result.now ≡ self.now.image }
    {
        &self.image
    }

    /// The network, with its messages.
    #[inline(always)]
    pub fn network(&self) -> &IndexedNetwork
        ensures { result.now ≡ self.now.network }
    {
        &self.network
    }

    /// The machine's configuration.
    pub fn config(&self) -> Config
        ensures config { result ≡ self.now.config }
        ensures limits { IsWithinLimits result }
    {
        self.config
    }

    /// The address of a processor's next instruction. `None` if the machine has no processor of this number, or its
    /// core is away.
    pub fn pc(&self, processor: u8) -> Option<u32>
        ensures value { result
            ≡ (if is_there self.now processor then Some (port_at self.now.ports processor).core.state.pc else None) }
        ensures none { IfNone result ((port_at self.now.ports processor).core.state ≡ no_processor) }
    {
        Some(self.core(processor)?.pc())
    }

    /// Registers 0 to 31 of a processor. `None` if the machine has no processor of this number, or its core is away.
    pub fn registers(&self, processor: u8) -> Option<&[u32; 32]>
        ensures { option_copied result ≡ registers_at self.now processor }
    {
        Some(self.core(processor)?.registers())
    }

    /// A register of a processor, 0 to 31. `None` if the machine has no processor of this number, its core is away, or
    /// there is no register of this number.
    pub fn reg(&self, processor: u8, register: u8) -> Option<u32>
        ensures { result ≡ register_at self.now processor register }
    {
        self.registers(processor)?
            .get(usize::from(register))
            .copied()
    }

    /// What a processor is doing. `None` if the machine has no processor of this number, or its core is away.
    pub fn status(&self, processor: u8) -> Option<Status>
        ensures value { result
            ≡ (if is_there self.now processor then Some (port_at self.now.ports processor).core.state.status
            else None) }
        ensures none { IfNone result ((port_at self.now.ports processor).core.state ≡ no_processor) }
    {
        Some(self.core(processor)?.status())
    }

    /// A byte of a processor's local memory. `None` if the machine has no processor of this number, its core is away,
    /// or the address is outside local memory.
    pub fn byte(&self, processor: u8, address: u32) -> Option<u8>
        ensures { result ≡ local_byte_at self.now processor address }
    {
        self.core(processor)?.byte(address).ok()
    }

    /// A shared word, as its module holds it. `None` if there is no shared word of this number.
    pub fn word(&self, number: u32) -> Option<u32>
        ensures { result
            ≡ (if nat_lt number self.now.config.shared_words
            then Some (word_at self.now.config.k self.now.modules number) else None) }
    {
        if number >= self.config.shared_words {
            return None;
        }
        let k = self.config.k;
        let place = usize::from(module_of(number, k));
        self.modules[place].word(number >> k)
    }

    /// The code, which all processors share, also those whose core is away.
    pub fn code(&self) -> &Arc<Code, Global>
        ensures { arc_value result.now ≡ self.now.code }
    {
        &self.code
    }

    /// Whether a processor has a reference open. `None` if the machine has no processor of this number.
    pub fn is_open(&self, processor: u8) -> Option<bool>
        ensures { result
            ≡ (if nat_lt processor (2 ^ self.now.config.k) then Some (open_at self.now.ports processor) else None) }
    {
        match self.ports.get(usize::from(processor)) {
            Some(port) => Some(port.is_open()),
            None => None,
        }
    }

    /// The byte that a processor sees at an address: of its own local memory, of a shared word or of code. `None` if
    /// the machine has no processor of this number, its core is away, or there is no byte there.
    pub fn visible_byte(&self, processor: u8, address: u32) -> Option<u8>
        ensures { result
            ≡ (if is_there self.now processor then byte_seen (flat_state self.now) processor address else None) }
    {
        crate::laws::machine_is_well_formed(self);
        if !self.is_there(processor) {
            return None;
        }
        if address >= SHARED_START {
            return self.shared_byte(address);
        }
        if address / REGION_BYTES == CODE_START / REGION_BYTES {
            return Some(self.code_byte(address));
        }
        self.byte(processor, address)
    }

    /// A byte of a shared word. `None` if the address is past the last shared word.
    fn shared_byte(&self, address: u32) -> Option<u8>
        requires start { 2 ^ 31 ≤ address }
        ensures { result ≡ shared_byte_at self.now address }
    {
        let word = self.word((address - SHARED_START) / 4)?;
        Some(byte_of(word, address % 4))
    }

    /// A byte of code.
    fn code_byte(&self, address: u32) -> u8
        ensures { result ≡ number_at self.now.code (address % 2 ^ 16) 1 }
    {
        self.code.number(address % REGION_BYTES, Size::Byte) as u8
    }

    /// Whether a poke is lawful for this machine: its processor is there, and so is the byte, or it writes a register
    /// from 1 to 31, or `pc` (as 32) with a value divisible by 4.
    pub fn is_lawful(&self, poke: Poke) -> bool
        ensures { result ≡ is_lawful_poke self.now.config poke }
    {
        let processors = self.config.processors();
        match poke {
            Poke::Register {
                processor,
                register,
                value,
            } => processor < processors && is_lawful_register(register, value),
            Poke::Local {
                processor,
                address,
                ..
            } => processor < processors && address / REGION_BYTES == LOCAL_START / REGION_BYTES,
            Poke::Shared { address, .. } => {
                address >= SHARED_START && (address - SHARED_START) / 4 < self.config.shared_words
            }
        }
    }

    /// The wires that have a request before a stage; for stage `k`, the modules that have one.
    #[inline(always)]
    pub fn request_wires(&self, stage: u8) -> WireSet
        requires { stage ≤ self.now.config.k }
        ensures exact { (w : ℕ) → w < 2 ^ self.now.config.k →
            members result w ≡ is_some (slice_get ((net_of self.now.network).requests stage w) 0) }
        ensures few { (w : ℕ) → 2 ^ self.now.config.k ≤ w → members result w ≡ false }
    {
        self.network.request_wires(stage)
    }

    /// The wires that have a reply before a stage; for stage `k`, the modules that have one.
    #[inline(always)]
    pub fn reply_wires(&self, stage: u8) -> WireSet
        requires { stage ≤ self.now.config.k }
        ensures exact { (w : ℕ) → w < 2 ^ self.now.config.k →
            members result w ≡ is_some (slice_get ((net_of self.now.network).replies stage w) 0) }
        ensures few { (w : ℕ) → 2 ^ self.now.config.k ≤ w → members result w ≡ false }
    {
        self.network.reply_wires(stage)
    }

    /// The core of a processor. `None` if the machine has no processor of this number, or its core is away.
    pub fn core(&self, processor: u8) -> Option<&Core>
        ensures value { option_copied result
            ≡ (if is_there self.now processor then Some (port_at self.now.ports processor).core else None) }
        ensures none { IfNone result ((port_at self.now.ports processor).core.state ≡ no_processor) }
    {
        match self.ports.get(usize::from(processor)) {
            Some(port) => port.core(),
            None => None,
        }
    }

    /// Whether there is a processor of this number, and its core is not away.
    fn is_there(&self, processor: u8) -> bool
        ensures { result ≡ is_there self.now processor }
    {
        match self.ports.get(usize::from(processor)) {
            Some(port) => !port.is_away(),
            None => false,
        }
    }

    /// Whether the core of a processor is away. `None` if the machine has no processor of this number.
    pub fn is_away(&self, processor: u8) -> Option<bool>
        ensures { result
            ≡ (if nat_lt processor (2 ^ self.now.config.k) then Some (away_at self.now processor) else None) }
    {
        match self.ports.get(usize::from(processor)) {
            Some(port) => Some(port.is_away()),
            None => None,
        }
    }

    /// Whether no core is away.
    pub fn are_home(&self) -> bool
        ensures { IsTrue result ↔ AreHome self.now }
    {
        self.ports.iter().all(|port| !port.is_away())
    }

    /// Takes the core of a processor out of the machine. While the core is away, reads of it return `None`, and turns
    /// of its processor and all writes from outside stall; all other steps go on. Returns `None`, and changes nothing,
    /// if the machine has no processor of this number, or the processor has a reference open, does not run, or its core
    /// is already away.
    pub fn take_core(&mut self, processor: u8) -> Option<Core>
        ensures core { result
            ≡ (if is_free self.old processor then Some (port_at self.old.ports processor).core else None) }
        ensures away { self.new
            ≡ (if is_free self.old processor then without_core_at self.old processor else self.old) }
        ensures machine { is_free self.old processor ≡ true →
            (shown : ℕ → List Event) → machine_of self.new shown ≡ without (machine_of self.old shown) processor }
    {
        let place = usize::from(processor);
        if place >= self.ports.len() {
            return None;
        }
        if self.ports[place].is_open() || !self.ports[place].is_running() {
            return None;
        }
        self.ports[place].take_core()
    }

    /// Puts a core back into the machine, for a processor whose core is away.
    pub fn put_core(&mut self, processor: u8, core: Core)
        requires there { processor < 2 ^ self.old.config.k }
        requires away { away_at self.old processor ≡ true }
        requires setting { core.setting ≡ setting_of self.old.config processor }
        requires words { HasWords core.state }
        ensures put { self.new ≡ with_core_at self.old processor core }
        ensures machine { (shown : ℕ → List Event) →
            machine_of self.new shown
            ≡ with_core (machine_of self.old shown) processor
            (record { state = core.state; events = shown processor }) }
    {
        hart::laws::core_has_registers(&core);
        self.ports[usize::from(processor)].put_core(core);
    }

    /// Whether no reference is open.
    pub fn is_idle(&self) -> bool
        ensures idle { IsTrue result ↔ IsIdle self.now }
        ensures sound { IsMachine self.now }
    {
        self.ports.iter().all(|port| !port.is_open())
    }

    /// Takes a whole step and returns its outcome.
    // A schedule that asks for all steps has many that stall, so their tests are inlined into the caller. What moves
    // something is called.
    #[inline(always)]
    pub fn apply(&mut self, step: Step) -> Outcome
        ensures step { IsStep self.old step result self.new }
        ensures outcome { result ≡ outcome_of self.old.config self.old.code (machine_of self.old (λ p. [])) step }
        ensures stalled { result ≡ Outcome.Stalled → (shown : ℕ → List Event) →
            machine_of self.new shown ≡ machine_of self.old shown }
        ensures poked { IsIdle self.old → AreHome self.old → (poke : Poke) → step ≡ Step.Poke poke →
            IsPoked self.old poke result self.new }
        ensures few { Few (sizes_of self.new.config) (net_of self.new.network) }
        ensures answered { AnswersAllSeconds self.old step result }
        ensures sound { IsMachine self.new }
    {
        crate::laws::machine_is_well_formed(self);
        messages::laws::seconds_are_answered();
        let outcome = self.take(step);
        crate::laws::machine_is_well_formed(self);
        outcome
    }

    /// Takes a step of any kind.
    #[inline(always)]
    fn take(&mut self, step: Step) -> Outcome
        ensures { IsStep self.old step result self.new }
    {
        match step {
            Step::Turn(p) => self.turn(p),
            Step::Up { stage, wire } => self.up(stage, wire),
            Step::Serve(m) => self.serve(m),
            Step::Down { stage, wire } => self.down(stage, wire),
            Step::Poke(poke) => self.poke(poke),
        }
    }

    /// Takes a turn of a processor.
    #[inline(always)]
    fn turn(&mut self, p: u8) -> Outcome
        ensures { IsStep self.old (Step.Turn p) result self.new }
    {
        let place = usize::from(p);
        if place >= self.ports.len() {
            return Outcome::Stalled;
        }
        if self.ports[place].is_open() {
            return self.finish(p);
        }
        if !self.ports[place].is_running() {
            return Outcome::Stalled;
        }
        self.begin(p)
    }

    /// Takes a turn of a processor that runs and is not open.
    #[inline(always)]
    fn begin(&mut self, p: u8) -> Outcome
        requires there { p < 2 ^ self.old.config.k }
        requires closed { (port_at self.old.ports p).is_open ≡ false }
        requires running { is_running (port_at self.old.ports p).core.state.status ≡ true }
        ensures { IsStep self.old (Step.Turn p) result self.new }
    {
        let place = usize::from(p);
        let code: &Code = &self.code;
        turns::begin(&mut self.ports[place], &mut self.network, code, p)
    }

    /// Takes a turn of a processor that is open.
    #[inline(always)]
    fn finish(&mut self, p: u8) -> Outcome
        requires there { p < 2 ^ self.old.config.k }
        requires opened { (port_at self.old.ports p).is_open ≡ true }
        ensures { IsStep self.old (Step.Turn p) result self.new }
    {
        let place = usize::from(p);
        let code: &Code = &self.code;
        turns::finish(&mut self.ports[place], &mut self.network, code, p)
    }

    /// Moves a request up a stage.
    #[inline(always)]
    fn up(&mut self, stage: u8, wire: u8) -> Outcome
        ensures { IsStep self.old (Step.Up stage wire) result self.new }
    {
        if stage >= self.network.stages() {
            return Outcome::Stalled;
        }
        // There are as many wires as processors.
        let place = usize::from(wire);
        if place >= self.ports.len() {
            return Outcome::Stalled;
        }
        up_outcome(self.network.up(stage, wire))
    }

    /// Moves a reply down a stage.
    #[inline(always)]
    fn down(&mut self, stage: u8, wire: u8) -> Outcome
        ensures { IsStep self.old (Step.Down stage wire) result self.new }
    {
        if stage >= self.network.stages() {
            return Outcome::Stalled;
        }
        // There are as many wires as processors.
        let place = usize::from(wire);
        if place >= self.ports.len() {
            return Outcome::Stalled;
        }
        down_outcome(self.network.down(stage, wire))
    }

    /// Has a module serve a request.
    #[inline(always)]
    fn serve(&mut self, m: u8) -> Outcome
        ensures { IsStep self.old (Step.Serve m) result self.new }
    {
        let place = usize::from(m);
        if place >= self.modules.len() {
            return Outcome::Stalled;
        }
        execute(&mut self.modules[place], &mut self.network, m)
    }

    /// Writes from outside.
    #[inline(never)]
    fn poke(&mut self, poke: Poke) -> Outcome
        ensures { IsStep self.old (Step.Poke poke) result self.new }
    {
        if !self.is_idle() {
            return Outcome::Stalled;
        }
        if !self.are_home() {
            return Outcome::Stalled;
        }
        match poke {
            Poke::Register {
                processor,
                register,
                value,
            } => self.poke_register(processor, register, value),
            Poke::Local {
                processor,
                address,
                value,
            } => self.poke_local(processor, address, value),
            Poke::Shared { address, value } => self.poke_shared(address, value),
        }
    }

    /// Writes a register, or `pc` as 32.
    fn poke_register(&mut self, p: u8, register: u8, value: u32) -> Outcome
        requires idle { IsIdle self.old }
        requires home { AreHome self.old }
        ensures { IsStep self.old (Step.Poke (pokes.Register p register value)) result self.new }
    {
        let place = usize::from(p);
        if place >= self.ports.len() {
            return Outcome::Stalled;
        }
        poke_outcome(self.ports[place].poke_register(register, value))
    }

    /// Writes a byte of local memory.
    fn poke_local(&mut self, p: u8, address: u32, value: u8) -> Outcome
        requires idle { IsIdle self.old }
        requires home { AreHome self.old }
        ensures { IsStep self.old (Step.Poke (pokes.Local p address value)) result self.new }
    {
        let place = usize::from(p);
        if place >= self.ports.len() {
            return Outcome::Stalled;
        }
        poke_outcome(self.ports[place].poke_byte(address, value))
    }

    /// Writes a byte of shared memory.
    fn poke_shared(&mut self, address: u32, value: u8) -> Outcome
        requires idle { IsIdle self.old }
        requires home { AreHome self.old }
        ensures { IsStep self.old (Step.Poke (pokes.Shared address value)) result self.new }
    {
        crate::laws::machine_is_well_formed(self);
        if address < SHARED_START {
            return Outcome::Stalled;
        }
        let word = (address - SHARED_START) / 4;
        if word >= self.config.shared_words {
            return Outcome::Stalled;
        }
        let k = self.config.k;
        let place = usize::from(module_of(word, k));
        let byte = hart::store_byte(address % 4, u32::from(value));
        self.modules[place].serve(word >> k, &byte);
        Outcome::Poked
    }
}

/// A byte of a word, by its place from the lowest.
#[tactic(auto, unfolding(flat_machine::specs::Words::part_of))]
fn byte_of(word: u32, place: u32) -> u8
    requires { place < 4 }
    ensures { result ≡ part_of 1 place word }
{
    ((word >> (8 * place)) % 256) as u8
}

/// Whether a register can be written from outside with this value: 1 to 31, or `pc` (as 32).
fn is_lawful_register(register: u8, value: u32) -> bool
    ensures { result ≡ is_lawful_register register value }
{
    match register {
        PC => value % 4 == 0,
        1..PC => true,
        _ => false,
    }
}

/// The outcome of the step that moved a request.
fn up_outcome(moved: UpMove) -> Outcome
    ensures { result ≡ outcome_of_up moved }
{
    match moved {
        UpMove::Moved => Outcome::Moved,
        UpMove::Combined { first, second } => Outcome::Combined { first, second },
        UpMove::Stalled => Outcome::Stalled,
    }
}

/// The outcome of the step that moved a reply.
fn down_outcome(moved: DownMove) -> Outcome
    ensures { result ≡ outcome_of_down moved }
{
    match moved {
        DownMove::Moved => Outcome::Moved,
        DownMove::Answered { to } => Outcome::Answered { to },
        DownMove::Stalled => Outcome::Stalled,
    }
}

/// The outcome of a poke.
fn poke_outcome(is_written: bool) -> Outcome
    ensures { result ≡ (if is_written then Outcome.Poked else Outcome.Stalled) }
{
    if is_written {
        Outcome::Poked
    } else {
        Outcome::Stalled
    }
}

/// Makes a machine, unless it is out of memory.
fn open_machine(alloc: Global, image: Image, config: Config) -> Result<Machine, AllocError>
    requires limits { IsWithinLimits config }
    requires words { image.shared_words ≡ config.shared_words }
    ensures { IfOk result (λ m. IsOpening config image m) }
{
    let layout = image.layout();
    let (code_bytes, local, shared) = (
        layout.code.as_slice(),
        layout.local.as_slice(),
        layout.shared.as_slice(),
    );
    bytes_are_below_256(code_bytes);
    bytes_are_below_256(local);
    bytes_are_below_256(shared);
    let code = Arc::new(alloc, Code::new(alloc, code_bytes)?)?;
    let ports = new_ports(alloc, config, layout)?;
    let modules = new_modules(alloc, config, shared)?;
    let network = IndexedNetwork::new(alloc, config.k, config.c, config.b, config.r)?;
    Ok(Machine {
        config,
        image,
        code,
        ports,
        network,
        modules,
    })
}

/// What holds of every machine. A proof about a machine may cite it at no cost.
pub fn machine_is_well_formed(machine: &Machine)
    ensures { IsMachine machine.now }
{
    let _ = &machine.config;
}

/// A byte is below 256. The proof of [`open_machine`] needs this said.
fn bytes_are_below_256(bytes: &[u8])
    ensures { AreBelow 256 bytes.now }
{}
