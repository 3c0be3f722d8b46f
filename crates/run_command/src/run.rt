//! Runs an image on threads.

ghost use Rattle.std.specs.Prelude.{◌≡◌, ◌^◌, ◌↔◌, ◌⊎◌, [], IfErr, IfOk, IfSome, IsErrOf, None, false, map, true};
ghost use Rattle.std.specs.Prelude.{vec_len};
ghost use Rattle.std.specs.List.{range_with_len};
ghost use Rattle.schedules.specs.Choices.{first_state};
ghost use Rattle.processor_threads.specs.Consoles.{bytes_of};
ghost use Rattle.command_io.specs.Links.{input};
ghost use Rattle.run_command.specs.Faults.{IsOfRun, fault_of};
ghost use Rattle.run_command.specs.ThreadRuns.{HasEnded, IsDrainedAfter, IsNotThreaded, IsOfThreads, IsSomeThreaded};
ghost use Rattle.run_command.specs.ThreadRuns.{IsSomeThreadsLog, threaded_run};

use command_io::{Fault, image_of, machine_of};
use elf_image::ImageError;
use flat_machine::Config;
use ghost_map::NewTable;
use link::LinkRead;
use machine_lock::{PassState, Run};
use machine_log::{LockRefusal, Logged};
use processor_threads::{Gate, RunFault, run_threads};
use schedules::Shuffled;
use std::alloc::{AllocError, Global};
use std::marker::Brand;
use std::sync::Wait;
use std::thread::Threads;

/// A run that has ended: each processor has stopped, or the budget of a thread is used up.
#[derive(Drop)]
pub(crate) struct RunEnd {
    pub(crate) log: Logged,
    /// The bytes that each processor's thread has sent to the console; None if the budget of a thread is used up.
    pub(crate) consoles: Option<Vec<Vec<u8>>>,
}

/// Reads an image, and runs it on threads, on a machine of this size. Each thread has at most this many rounds, and
/// passes the gate before its turns.
///
/// # Errors
///
/// [`Fault::Image`] with [`ImageError::Link`] exactly if a read of the file fails, and with another error if the file
/// is refused; [`Fault::Size`] if the size is out of limits; the fault of the run, except that of a budget; and
/// [`Fault::Memory`].
pub(crate) fn run_to_log<F: LinkRead, G: Gate + Sync, R: Threads + Wait + Sync>(
    rt: &R,
    alloc: Global,
    file: &mut F,
    config: Config,
    start: u32,
    gate: &G,
    budget: u32,
) -> Result<RunEnd, Fault>
    requires reads { F.has_failed file.old ≡ false }
    ensures run_to_log { IfOk result (λ e. IfSome e.consoles
        (λ cs. IsSomeThreaded (threaded_run config (input F.remaining F.has_failed file.old file.new)) e.log
        (map bytes_of cs.items))) }
    ensures unfinished { IfOk result (λ e. e.consoles ≡ None →
        IsSomeThreadsLog (threaded_run config (input F.remaining F.has_failed file.old file.new)) e.log) }
    ensures refused { IfErr result
        (IsNotThreaded (threaded_run config (input F.remaining F.has_failed file.old file.new))) }
    ensures in_time { IsErrOf result Fault.Budget → ⊥ }
    ensures unread { IsErrOf result (Fault.Image ImageError.Link) ↔ (F.has_failed file.new ≡ true) }
{
    let image = image_of(alloc, file, &config)?;
    let log = Logged::new(alloc, machine_of(alloc, image, config)?);
    let room = NewTable::new(alloc)?;
    let arbiters = arbiters(alloc, start, log.machine().config().processors())?;
    run_on_threads::<Brand, G, R>(rt, alloc, room, log, arbiters, gate, budget)
}

/// The arbiters of this many processors, in order. Each begins with the number of the run and that of its processor.
fn arbiters(alloc: Global, start: u32, processors: u8) -> Result<Vec<Shuffled>, AllocError>
    ensures states { IfOk result (λ arbiters. arbiters.items ≡ map (first_state start) (range_with_len 0 processors)) }
    ensures many { IfOk result (λ arbiters. vec_len arbiters ≡ processors) }
{
    let mut arbiters = Vec::new(alloc);
    for p in 0..processors {
        arbiters.push(Shuffled::new(start, p))?;
    }
    Ok(arbiters)
}

/// Runs a log that has no steps yet on threads, which pass the gate before their turns.
fn run_on_threads<N: Run + Send + Sync, G: Gate + Sync, R: Threads + Wait + Sync>(
    rt: &R,
    alloc: Global,
    room: NewTable<PassState>,
    log: Logged,
    arbiters: Vec<Shuffled>,
    gate: &G,
    budget: u32,
) -> Result<RunEnd, Fault>
    requires room { room ≡ N.table }
    requires opening { log.opening ≡ N.opening }
    requires first { (log.steps ≡ []) × (N.first ≡ []) }
    requires count { N.count ≡ 2 ^ N.opening.config.k }
    requires arbiters { vec_len arbiters ≡ N.count }
    ensures ended { IfOk result (λ e. IfSome e.consoles (λ cs. HasEnded N.opening e.log (map bytes_of cs.items))) }
    ensures unfinished { IfOk result (λ e. e.consoles ≡ None → IsOfThreads N.opening e.log) }
    ensures fault { IfErr result IsOfRun }
{
    let ended = run_threads::<N, Shuffled, G, R>(rt, alloc, room, log, arbiters, gate, budget);
    machine_log::laws::log_is_well_formed(&ended.logged);
    machine_steps::laws::runs_are_serialized();
    machine_lock::laws::events_are_listed();
    machine_lock::laws::stopped_are_shut();
    match ended.fault {
        None => Ok(RunEnd {
            log: ended.logged,
            consoles: Some(ended.consoles),
        }),
        Some(RunFault::Budget) => Ok(RunEnd {
            log: ended.logged,
            consoles: None,
        }),
        Some(fault) => Err(fault_of(fault)),
    }
}

/// The log after steps that complete all open references.
///
/// # Errors
///
/// [`Fault::Full`] if the log has no room for the most steps that this may take, otherwise [`Fault::Memory`].
pub(crate) fn drained(mut log: Logged) -> Result<Logged, Fault>
    ensures drained { IfOk result (IsDrainedAfter log) }
    ensures refused { IfErr result (λ fault. (fault ≡ Fault.Full) ⊎ (fault ≡ Fault.Memory)) }
{
    let count = log.drain();
    machine_log::laws::log_is_well_formed(&log);
    match count {
        Ok(_) => Ok(log),
        Err(LockRefusal::Full) => Err(Fault::Full),
        Err(_) => Err(Fault::Memory),
    }
}

/// The fault that reports how a run ended. A thread is cancelled only after another has a fault, which is then
/// reported.
fn fault_of(fault: RunFault) -> Fault
    ensures { result ≡ fault_of fault }
{
    match fault {
        RunFault::Memory | RunFault::Console | RunFault::Cancelled => Fault::Memory,
        RunFault::Full => Fault::Full,
        RunFault::Loan => Fault::Loan,
        RunFault::Budget => Fault::Budget,
        RunFault::Start => Fault::Start,
    }
}
