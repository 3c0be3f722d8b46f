//! The search, its verdict and the trace of a counterexample.

ghost use Rattle.std.specs.Prelude.{◌≡◌, ◌≤◌, IfOk, IfErr, IfSome, OnErr, OnOk, string_bytes};
ghost use Rattle.machine_steps.specs.Machines.{AreHome};
ghost use Rattle.machine_steps.specs.Openings.{flat_state};
ghost use Rattle.machine_steps.specs.Runs.{IsOpening};
ghost use Rattle.property_search.specs.Verdicts.{IsVerdict};
ghost use Rattle.run_reports.specs.RunReports.{IsWorking, trace_output};
ghost use Rattle.property_command.specs.Counterexamples.{IsCounterexampleSaved, IsNotSaved};
ghost use Rattle.property_command.specs.Judging.{AreJudged, IsNotJudged, IsNotSearched, fault_of_search};
ghost use Rattle.property_command.specs.Judging.{status_of_verdict};

use crate::command::Asked;
use crate::counterexample::counterexample_of;
use crate::lines::verdict_text;
use command_io::{DONE, Fault, STOPPED_BY_FAULT, machine_of};
use elf_image::Image;
use exploration::{Refusal, SearchObserver};
use flat_machine::Config;
use link::LinkWrite;
use machine_steps::Machine;
use property_search::{Judged, Verdict, judge};
use run_reports::save;
use state_conditions::Property;
use std::alloc::Global;
use witness_traces::Refused;

/// The lines of the verdict on an image, and the exit status. Writes the trace of a counterexample, if one is asked for
/// and the property is broken.
pub(crate) fn judge_image<T: LinkWrite, G: SearchObserver>(
    alloc: Global,
    image: Image,
    config: Config,
    asked: &Asked<'_>,
    trace: &mut Option<T>,
    observer: &mut G,
) -> Result<(String, u8), Refused>
    requires words { image.shared_words ≡ config.shared_words }
    requires works { IsWorking T.has_failed trace.old }
    ensures lines { IfOk result (λ done. AreJudged config asked.now image
        (trace_output T.contents trace.old trace.new) (string_bytes done.0) done.1) }
    ensures low { IfOk result (λ done. done.1 ≤ 1) }
    ensures refused { IfErr result
        (IsNotJudged config asked.now image (trace_output T.contents trace.old trace.new)) }
{
    let machine = machine_of(alloc, image, config)?;
    judge_machine(alloc, &machine, config, asked, trace, observer)
}

/// The lines of the verdict on a machine that has just opened, and the exit status. Writes the trace of a
/// counterexample, if one is asked for and the property is broken.
// A separate function, so that neither has many values to drop at each return.
#[tactic(auto, using(crate::proofs::NotJudged::not_searched))]
fn judge_machine<T: LinkWrite, G: SearchObserver>(
    alloc: Global,
    machine: &Machine,
    config: Config,
    asked: &Asked<'_>,
    trace: &mut Option<T>,
    observer: &mut G,
) -> Result<(String, u8), Refused>
    requires opens { IsOpening config machine.now.image machine.now }
    requires words { machine.now.image.shared_words ≡ config.shared_words }
    requires works { IsWorking T.has_failed trace.old }
    ensures lines { IfOk result (λ done. AreJudged config asked.now machine.now.image
        (trace_output T.contents trace.old trace.new) (string_bytes done.0) done.1) }
    ensures low { IfOk result (λ done. done.1 ≤ 1) }
    ensures refused { IfErr result
        (IsNotJudged config asked.now machine.now.image (trace_output T.contents trace.old trace.new)) }
{
    let judged = find_verdict(alloc, machine, asked, observer)?;
    let Some(status) = status_of(judged.verdict) else {
        return Err(Refused::Fault(Fault::Alone));
    };
    let text = verdict_text(alloc, asked, &judged)?;
    save_counterexample(
        alloc,
        machine.image(),
        config,
        asked.property,
        &judged,
        trace,
    )?;
    Ok((text, status))
}

/// The exit status of a verdict, if it is known.
fn status_of(verdict: Verdict) -> Option<u8>
    ensures status { IfSome result (λ status. status ≡ status_of_verdict verdict) }
    ensures low { IfSome result (λ status. status ≤ 1) }
{
    match verdict {
        Verdict::Holds => Some(DONE),
        Verdict::Broken => Some(STOPPED_BY_FAULT),
        Verdict::Unknown => None,
    }
}

/// The verdict on a machine.
fn find_verdict<G: SearchObserver>(
    alloc: Global,
    machine: &Machine,
    asked: &Asked<'_>,
    observer: &mut G,
) -> Result<Judged, Fault>
    requires home { AreHome machine.now }
    ensures verdict { IfOk result (λ judged. IsVerdict (flat_state machine.now) asked.now.property.now.kind
        asked.now.property.now.condition judged.verdict) }
    ensures refused { IfErr result (IsNotSearched (flat_state machine.now) asked.now.limit) }
{
    let judged = judge(alloc, machine, asked.limit, asked.property, observer);
    observer.over();
    match judged {
        Ok(judged) => Ok(judged),
        Err(refusal) => Err(fault_of_search(refusal)),
    }
}

/// The fault that reports why a search gave up.
fn fault_of_search(refusal: Refusal) -> Fault
    ensures { result ≡ fault_of_search refusal }
{
    match refusal {
        Refusal::Memory => Fault::Memory,
        Refusal::States => Fault::States,
        Refusal::Stopped => Fault::Budget,
        Refusal::Alone => Fault::Alone,
    }
}

/// Writes the trace of a counterexample, if one is asked for and the property is broken.
fn save_counterexample<T: LinkWrite>(
    alloc: Global,
    image: &Image,
    config: Config,
    property: &Property,
    judged: &Judged,
    trace: &mut Option<T>,
) -> Result<(), Refused>
    requires words { image.now.shared_words ≡ config.shared_words }
    requires works { IsWorking T.has_failed trace.old }
    ensures saved { OnOk result (IsCounterexampleSaved config image.now property.now judged.now.verdict
        judged.now.way.items (trace_output T.contents trace.old trace.new)) }
    ensures refused { IfErr result
        (IsNotSaved config image.now property.now (trace_output T.contents trace.old trace.new)) }
    ensures broken { OnErr result (judged.now.verdict ≡ Verdict.Broken) }
{
    match judged.verdict {
        Verdict::Holds | Verdict::Unknown => Ok(()),
        Verdict::Broken => save_way(alloc, image, config, property, judged.way.as_slice(), trace),
    }
}

/// Writes the trace of a counterexample with this way, if a trace is asked for.
#[tactic(auto, using(crate::proofs::NotJudged::not_taken))]
fn save_way<T: LinkWrite>(
    alloc: Global,
    image: &Image,
    config: Config,
    property: &Property,
    way: &[u8],
    trace: &mut Option<T>,
) -> Result<(), Refused>
    requires words { image.now.shared_words ≡ config.shared_words }
    requires works { IsWorking T.has_failed trace.old }
    ensures saved { OnOk result (IsCounterexampleSaved config image.now property.now Verdict.Broken way.now
        (trace_output T.contents trace.old trace.new)) }
    ensures refused { IfErr result
        (IsNotSaved config image.now property.now (trace_output T.contents trace.old trace.new)) }
{
    if trace.is_none() {
        return Ok(());
    }
    let log = counterexample_of(alloc, image, config, property, way)?;
    save(trace, &config, log.steps())?;
    Ok(())
}
