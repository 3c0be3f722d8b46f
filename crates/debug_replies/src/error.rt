//! The errors of commands.

ghost use Rattle.std.specs.Prelude.{◌≡◌, ◌≤◌, ◌<◌, ◌+◌, ◌^◌, length};
ghost use Rattle.debug_replies.specs.Errors.{error_of, error_text, has_addresses, is_malformed, is_range, is_reached};
ghost use Rattle.debug_replies.specs.Errors.{processor_of, register_of};
ghost use Rattle.machine_steps.specs.Runs.{flat_state};

use crate::breaks::is_code_word;
use debug_lines::Command;
use flat_machine::{CODE_START, LOCAL_START, PC, REGION_BYTES, SHARED_START};
use machine_steps::{Machine, flat_processors, flat_shared_words};

/// The most bytes that one reply shows.
pub(crate) const MAX_SHOWN: u32 = 512;

/// Why a command is not carried out. It then changes nothing.
#[derive(Clone, Copy, Debug, PartialEq, Eq, Drop)]
pub enum Error {
    /// `E01`: the line does not have the form of a command, or is too long.
    Form,
    /// `E02`: an address in no region, a write to code, a range past 2^32, a `pc` that is not divisible by 4, or a
    /// break that is not at a code word.
    Address,
    /// `E03`: the machine has no such processor.
    Processor,
    /// `E04`: processors have no such register.
    Register,
    /// `E05`: the log has no room for the command's steps.
    Room,
    /// `E06`: out of memory.
    Memory,
}

impl Error {
    /// How the error is reported.
    pub fn text(self) -> &'static str
        ensures { result.now ≡ error_text self }
    {
        match self {
            Error::Form => "E01",
            Error::Address => "E02",
            Error::Processor => "E03",
            Error::Register => "E04",
            Error::Room => "E05",
            Error::Memory => "E06",
        }
    }
}

/// The error that a command has on a machine, apart from those of its log. Of several, the one with the smallest
/// number.
#[tactic(auto, unfolding(crate::specs::Errors::error_of))]
pub fn error_of(machine: &Machine, command: &Command) -> Option<Error>
    ensures { result ≡ error_of (flat_state machine.now) command.now }
{
    if is_malformed(command) {
        return Some(Error::Form);
    }
    if !has_addresses(machine, command) {
        return Some(Error::Address);
    }
    if let Some(processor) = processor_of(command)
        && processor >= flat_processors(machine)
    {
        return Some(Error::Processor);
    }
    if let Some(register) = register_of(command)
        && register > u32::from(PC)
    {
        return Some(Error::Register);
    }
    None
}

/// Whether a line is no command, or asks for other than 1 to 512 bytes.
fn is_malformed(command: &Command) -> bool
    ensures { result ≡ is_malformed command.now }
{
    match command {
        Command::Memory { length, .. } => *length == 0 || *length > MAX_SHOWN,
        Command::Malformed => true,
        _ => false,
    }
}

/// Whether the addresses of a command are those of bytes that it may read or write, or of code words for breaks, and
/// a `pc` is divisible by 4.
#[tactic(auto, unfolding(crate::specs::Errors::has_addresses))]
fn has_addresses(machine: &Machine, command: &Command) -> bool
    ensures { result ≡ has_addresses (flat_state machine.now) command.now }
{
    match command {
        Command::Set {
            register,
            value,
            ..
        } => *register != u32::from(PC) || *value % 4 == 0,
        Command::Memory {
            address,
            length,
            ..
        } => is_range(machine, *address, *length, false),
        Command::Write { address, bytes, .. } => {
            is_range(machine, *address, bytes.bytes().len() as u32, true)
        }
        Command::Break { address } | Command::Clear { address } => is_code_word(*address),
        _ => true,
    }
}

/// Whether an access can reach this many addresses, from this one on. All have to be below 2^32.
#[tactic(auto, unfolding(crate::specs::Errors::is_range))]
fn is_range(machine: &Machine, address: u32, count: u32, writes: bool) -> bool
    ensures { result ≡ is_range (flat_state machine.now) writes address count }
{
    if u64::from(address) + u64::from(count) > 1 << 32 {
        return false;
    }
    for i in 0..count {
        if !is_reached(machine, address + i, writes) {
            return false;
        }
    }
    true
}

/// Whether an access can reach an address. A write cannot reach code.
#[tactic(auto, unfolding(crate::specs::Errors::is_reached))]
fn is_reached(machine: &Machine, address: u32, writes: bool) -> bool
    ensures { result ≡ is_reached (flat_state machine.now) writes address }
{
    if address >= SHARED_START {
        return (address - SHARED_START) / 4 < flat_shared_words(machine);
    }
    let region = address / REGION_BYTES;
    region == LOCAL_START / REGION_BYTES || region == CODE_START / REGION_BYTES && !writes
}

/// The processor that a command names.
fn processor_of(command: &Command) -> Option<u32>
    ensures { result ≡ processor_of command.now }
{
    match command {
        Command::State { processor }
        | Command::Registers { processor }
        | Command::Register { processor, .. }
        | Command::Set { processor, .. }
        | Command::Memory { processor, .. }
        | Command::Write { processor, .. }
        | Command::Step { processor } => Some(*processor),
        _ => None,
    }
}

/// The register that a command names.
fn register_of(command: &Command) -> Option<u32>
    ensures { result ≡ register_of command.now }
{
    match command {
        Command::Register { register, .. } | Command::Set { register, .. } => Some(*register),
        _ => None,
    }
}
