//! Runs of local instructions.

ghost use Rattle.std.specs.Prelude.{◌≡◌, ◌<◌, length};
ghost use Rattle.hart.specs.LocalRuns.{HasRunLocally, HasTaken, end_of};

use crate::decision::Taken;
use crate::processor::Core;
use crate::retirements::Retirements;
use flat_machine::{Retired, Status};
use local_memory::Code;

/// Why a run of local instructions ended.
#[derive(Clone, Copy, Debug, PartialEq, Eq, Drop)]
pub enum LocalEnd {
    /// Its last instruction wrote this byte to the console.
    Out(u8),
    /// The list of retirements is full.
    Most,
    /// The core is not running, or its next turn is not local: it is a reference to a shared word, or a stop.
    Other,
}

/// Runs a core's local instructions one after another, and lists what each retired. The run ends after the first that
/// writes a byte to the console, before the first that is not local, or when the list is full. It allocates no memory.
pub fn run_local(core: &mut Core, code: &Code, retirements: &mut Retirements) -> LocalEnd
    ensures { HasRunLocally code.now core.old core.new retirements.old retirements.new result }
{
    for _place in retirements.len()..retirements.most() {
        if let Some(end) = take_next(core, code, retirements) {
            return end;
        }
    }
    LocalEnd::Most
}

/// Takes the next instruction if it is local, and lists it. Returns how the run ends, before or after this instruction,
/// or None if the run goes on.
#[inline(always)]
fn take_next(core: &mut Core, code: &Code, retirements: &mut Retirements) -> Option<LocalEnd>
    requires room { length retirements.old.items < retirements.old.most }
    ensures { HasTaken code.now core.old core.new retirements.old retirements.new result }
{
    if core.status() != Status::Running {
        return Some(LocalEnd::Other);
    }
    match core.take(code) {
        Taken::Retired(retired) => {
            retirements.push(&retired);
            end_of(&retired)
        }
        Taken::Refers { .. } | Taken::Halts(_) | Taken::Faults(_) => Some(LocalEnd::Other),
    }
}

/// How a run ends after this instruction: with the byte that it wrote to the console, if any.
fn end_of(retired: &Retired) -> Option<LocalEnd>
    ensures { result ≡ end_of retired.now.out }
{
    match retired.out {
        Some(byte) => Some(LocalEnd::Out(byte)),
        None => None,
    }
}
