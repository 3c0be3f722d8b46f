//! Runs and their results.

ghost use Rattle.std.specs.Prelude.{◌≡◌, ◌≤◌, List, IfErr, IfOk, length, option_map, string_bytes};
ghost use Rattle.machine_steps.specs.Machines.{AreHome, MachineLists};
ghost use Rattle.steps.specs.declared.step.Step.{Step};
ghost use Rattle.run_reports.specs.CountedReplays.{IsReplayCounted};
ghost use Rattle.command_io.specs.Files.{IsFaultOfSize};
ghost use Rattle.hunt_command.specs.Hunts.{AreFound, IsDrainedTo, IsLogOf, IsResultOf, greater, marks_of};

use crate::ahead::Ahead;
use crate::command::Hunt;
use crate::findings::Findings;
use crate::lines::result_text;
use crate::observer::HuntObserver;
use crate::policy::Policy;
use crate::running::{observed_run, random_run};
use command_io::{Fault, Tally, machine_of_copy};
use elf_image::Image;
use flat_machine::Config;
use machine_log::{Logged, laws};
use machine_steps::Machine;
use observed_results::ObservedWords;
use run_reports::{drain_counted, exit_status};
use schedules::SweepEnd;
use std::alloc::Global;
use std::thread::Threads;

/// The log of the run with this number, on a machine of this size that opens on a copy of the image, and how the run
/// ended.
///
/// # Errors
///
/// [`Fault::Size`] if the size is out of limits, and [`Fault::Memory`].
pub(crate) fn run_of(
    alloc: Global,
    image: &Image,
    config: Config,
    policy: Policy,
    number: u32,
) -> Result<(Logged, SweepEnd), Fault>
    requires words { image.now.shared_words ≡ config.shared_words }
    ensures ran { IfOk result (λ done. IsLogOf config image.now policy number done.1 done.0) }
    ensures refused { IfErr result (IsFaultOfSize config) }
{
    let mut log = Logged::new(alloc, machine_of_copy(alloc, image, config)?);
    let Ok(end) = random_run(&mut log, number, policy) else {
        // A new log has room for the longest run, so it refuses only if out of memory.
        return Err(Fault::Memory);
    };
    laws::log_is_well_formed(&log);
    Ok((log, end))
}

/// The result of a run.
#[derive(Drop)]
pub(crate) struct RunResult {
    /// Without a pc.
    pub(crate) text: String,
    /// With each pc.
    pub(crate) printed: String,
    pub(crate) end: SweepEnd,
    /// The exit status of the machine.
    pub(crate) status: u8,
}

/// The result of the run with this number. A tally notes what the processors show as they take the steps.
pub(crate) fn result_of(
    alloc: Global,
    image: &Image,
    config: Config,
    policy: Policy,
    number: u32,
    observed: Option<&ObservedWords>,
) -> Result<RunResult, Fault>
    requires words { image.now.shared_words ≡ config.shared_words }
    ensures result { IfOk result (λ done.
        IsResultOf (option_map (λ words. words.now) observed.entry) config image.now policy number
        (record {
          text = string_bytes done.text;
          printed = string_bytes done.printed;
          end = done.end;
          status = done.status;
        })) }
    ensures low { IfOk result (λ done. done.status ≤ 1) }
    ensures refused { IfErr result (IsFaultOfSize config) }
{
    let machine = machine_of_copy(alloc, image, config)?;
    let mut tally = Tally::new(alloc, machine.config().processors())?;
    let mut log = Logged::new(alloc, machine);
    let end = observed_run(&mut log, number, policy, &mut tally)?;
    laws::log_is_well_formed(&log);
    let (machine, _, _) = log.into_parts();
    let (text, printed, status) = drained_result(alloc, machine, end, tally, observed)?;
    Ok(RunResult {
        text,
        printed,
        end,
        status,
    })
}

/// The text, without a pc and with each, and the exit status of a run that ended in this way, after its machine is
/// drained.
// A separate function, so that neither has many values to drop at each return.
fn drained_result(
    alloc: Global,
    machine: Machine,
    end: SweepEnd,
    tally: Tally,
    observed: Option<&ObservedWords>,
) -> Result<(String, String, u8), Fault>
    requires shown { (opening : MachineLists) × (steps : List Step) × AreHome opening × (length steps ≤ 4194304)
        × IsReplayCounted opening steps machine tally }
    ensures result { IfOk result (λ done. (opening : MachineLists) (steps : List Step) →
        IsReplayCounted opening steps machine tally
        → IsDrainedTo (option_map (λ words. words.now) observed.entry) opening steps machine end (string_bytes done.0)
        (string_bytes done.1) done.2) }
    ensures low { IfOk result (λ done. done.2 ≤ 1) }
    ensures refused { IfErr result (λ fault. fault ≡ Fault.Memory) }
{
    let mut machine = machine;
    let mut tally = tally;
    drain_counted(&mut machine, &mut tally)?;
    let text = result_text(alloc, end, &machine, &tally, observed, false)?;
    let printed = result_text(alloc, end, &machine, &tally, observed, true)?;
    Ok((text, printed, exit_status(&machine)))
}

/// The greater of two exit statuses.
fn greater(one: u8, other: u8) -> u8
    ensures greater { result ≡ greater one other }
    ensures low { one ≤ 1 → other ≤ 1 → result ≤ 1 }
{
    if one < other { other } else { one }
}

/// The results of the runs of a hunt, taken on this many threads, and the greatest exit status of a machine. The
/// observer sees the progress.
///
/// # Errors
///
/// [`Fault::Size`] if the size is out of limits, and [`Fault::Memory`].
pub(crate) fn findings_of<P: Threads + Sync, G: HuntObserver>(
    rt: &P,
    jobs: u8,
    alloc: Global,
    image: &Image,
    config: Config,
    hunt: Hunt<'_>,
    observer: &mut G,
) -> Result<(Findings, u8), Fault>
    requires words { image.now.shared_words ≡ config.shared_words }
    ensures found { IfOk result (λ done. AreFound (marks_of hunt.entry) config image.now
        hunt.entry.policy hunt.entry.start hunt.entry.runs done.0.found done.0.unfinished done.1) }
    ensures low { IfOk result (λ done. done.1 ≤ 1) }
    ensures refused { IfErr result (IsFaultOfSize config) }
{
    let mut findings = Findings::new(alloc);
    let mut greatest = 0;
    let mut ahead = Ahead::new(alloc);
    for place in 0..hunt.runs {
        let number = hunt.start.wrapping_add(place);
        let RunResult {
            text,
            printed,
            end,
            status,
        } = ahead.result_at(rt, jobs, alloc, image, config, hunt, place)?;
        findings.add(text, printed, number)?;
        findings.note_end(end, number)?;
        greatest = greater(status, greatest);
        observer.progress(place + 1, findings.count());
    }
    Ok((findings, greatest))
}
