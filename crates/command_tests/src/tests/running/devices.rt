//! Reads and writes that fail, at each call in turn.

ghost use Rattle.std.specs.Prelude.{◌≡◌, false};
ghost use Rattle.trace_commands.specs.run_reports.RunReports.{IsWorking};

use super::{AMPLE, Ran};
use link::{Link, LinkWrite, Meter};
use run_command::run_command;
use std::alloc::{AllocGlobal, Global};
use std::io::Read;
use std::process::Abort;
use std::test::Fail;
use test_support::{Deaf, EBREAK, ONE_TURN, Sink, Source, assert_same, image_of, metered, size};
use trace_commands::replay_command;

/// The report of an image of `ebreak` on one processor.
const STOPPED: &[u8] = b"processor 0 pc 00010000 fault 8 retired 0 console -\n";

/// A trace that is not asked for.
fn no_trace() -> Option<Meter<Sink>>
    ensures { result ≡ None }
{
    None
}

fn empty_sink(alloc: Global, fails_at: usize) -> Sink {
    Sink::new(Vec::new(alloc), fails_at)
}

/// A link that fails at a call.
fn failing_link(alloc: Global, fails_at: usize) -> Meter<Sink>
    ensures { ⟦<Meter<Sink> as Link>⟧.has_failed result ≡ false }
{
    Meter::new(empty_sink(alloc, fails_at))
}

/// Runs an image, with a standard output that fails at a call. The caller keeps the trace.
fn run_over<R: Read + Drop, T: LinkWrite>(
    alloc: Global,
    file: R,
    trace: &mut Option<T>,
    fails_at: usize,
) -> Ran
    requires { IsWorking T.has_failed trace.old }
{
    let (mut out, mut err) = (failing_link(alloc, fails_at), empty_sink(alloc, 0));
    let file = &mut Meter::new(file);
    let status = run_command(
        alloc,
        file,
        size(0),
        AMPLE,
        false,
        trace,
        &mut out,
        &mut err,
    );
    Ran {
        status,
        out: out.device.bytes,
        err: err.bytes,
        trace: Vec::new(alloc),
    }
}

/// Replays a trace on an image, with a standard output that fails at a call.
fn replay_over<T: Read + Drop, R: Read + Drop>(
    alloc: Global,
    trace: T,
    file: R,
    fails_at: usize,
) -> Ran {
    let (mut out, mut err) = (failing_link(alloc, fails_at), empty_sink(alloc, 0));
    let (mut trace, mut file) = (Meter::new(trace), metered(Ok(file)));
    let status = replay_command(alloc, &mut trace, &mut file, 1024, &mut out, &mut err);
    Ran {
        status,
        out: out.device.bytes,
        err: err.bytes,
        trace: Vec::new(alloc),
    }
}

/// Compares what a command printed and reported, and its exit status, with these.
fn see(rt: &impl Abort, ran: &Ran, (out, reported, status): (&[u8], &str, u8), at: usize) {
    assert_same!(rt; ran.out.as_slice(), out, at);
    assert_same!(rt; ran.err.as_slice(), reported.as_bytes(), at);
    assert_same!(rt; ran.status, status, at);
}

/// What is expected: this fault and no report if a file cannot be read, and otherwise the report.
fn report_unless(fails: bool, reported: &str) -> (&[u8], &str, u8) {
    if fails {
        (&[], reported, 3)
    } else {
        (STOPPED, "", 1)
    }
}

/// Reading the 88 bytes takes 88 calls, and one more to find the end.
#[test]
fn image_that_cannot_be_read(rt: HostRuntime) {
    let alloc = rt.alloc();
    for fails_at in 0..91 {
        let wanted = report_unless(1 <= fails_at && fails_at <= 89, "ultra: I9\n");
        let mut trace = no_trace();
        let ran = run_over(alloc, Source::new(&EBREAK, fails_at), &mut trace, 0);
        see(&rt, &ran, wanted, fails_at);
        let ran = replay_over(
            alloc,
            ONE_TURN.as_slice(),
            Source::new(&EBREAK, fails_at),
            0,
        );
        see(&rt, &ran, wanted, fails_at);
    }
}

/// Reading the 24 bytes takes 24 calls, and one more to find the end.
#[test]
fn trace_that_cannot_be_read(rt: HostRuntime) {
    let alloc = rt.alloc();
    for fails_at in 0..27 {
        let wanted = report_unless(1 <= fails_at && fails_at <= 25, "ultra: X5\n");
        let trace = Source::new(&ONE_TURN, fails_at);
        let ran = replay_over(alloc, trace, EBREAK.as_slice(), 0);
        see(&rt, &ran, wanted, fails_at);
    }
}

/// If a call fails, the trace has the bytes of the calls before it, and no report is printed.
fn write_until(rt: &(impl Abort + AllocGlobal), image: &[u8], fails_at: usize) {
    let alloc = rt.alloc();
    let mut trace = Some(Meter::new(empty_sink(alloc, fails_at)));
    let ran = run_over(alloc, image, &mut trace, 0);
    let written = trace.as_ref().map(|trace| trace.device.bytes.as_slice());
    if 1 <= fails_at && fails_at <= 24 {
        assert_same!(rt; written, ONE_TURN.get(..fails_at - 1), fails_at);
        see(rt, &ran, (&[], "ultra: X5\n", 3), fails_at);
    } else {
        assert_same!(rt; written, Some(ONE_TURN.as_slice()), fails_at);
        assert_same!(rt; ran.err.len(), 0, fails_at);
        assert_same!(rt; ran.status, 0, fails_at);
    }
}

/// A trace cannot be written if a call of the writer fails, or takes no byte.
#[test]
fn trace_that_cannot_be_written(rt: HostRuntime) -> Result<(), Fail> {
    let image = image_of(rt.alloc(), "ecall")?;
    for fails_at in 0..26 {
        write_until(&rt, image.as_slice(), fails_at);
    }
    let mut trace = Some(Meter::new(Deaf));
    let ran = run_over(rt.alloc(), image.as_slice(), &mut trace, 0);
    see(&rt, &ran, (&[], "ultra: X5\n", 3), 0);
    Ok(())
}

/// What is expected if standard output, which takes one byte at each call, fails at this one.
fn printed_until(fails_at: usize) -> (&'static [u8], &'static str, u8) {
    match STOPPED.get(..fails_at.wrapping_sub(1)) {
        Some(printed) if printed.len() < STOPPED.len() => (printed, "ultra: link\n", 3),
        _ => (STOPPED, "", 1),
    }
}

/// A failure of standard output decides the exit status, and not the processor's fault. The trace is written before.
#[test]
fn report_that_cannot_be_printed(rt: HostRuntime) {
    let alloc = rt.alloc();
    for fails_at in 0..54 {
        let wanted = printed_until(fails_at);
        let mut trace = Some(Meter::new(empty_sink(alloc, 0)));
        let ran = run_over(alloc, EBREAK.as_slice(), &mut trace, fails_at);
        see(&rt, &ran, wanted, fails_at);
        let written = trace.as_ref().map(|trace| trace.device.bytes.as_slice());
        assert_same!(rt; written, Some(ONE_TURN.as_slice()), fails_at);
        let ran = replay_over(alloc, ONE_TURN.as_slice(), EBREAK.as_slice(), fails_at);
        see(&rt, &ran, wanted, fails_at);
    }
}

/// If standard error fails too, only the exit status shows the fault.
#[test]
fn fault_that_cannot_be_told(rt: HostRuntime) {
    let alloc = rt.alloc();
    let file = &EBREAK[..51];
    let (mut out, mut trace) = (failing_link(alloc, 0), no_trace());
    let image = &mut Meter::new(file);
    let status = run_command(
        alloc,
        image,
        size(0),
        AMPLE,
        false,
        &mut trace,
        &mut out,
        &mut Deaf,
    );
    assert_same!(rt; status, 2);
    let mut out = failing_link(alloc, 0);
    let (mut trace, mut file) = (Meter::new(ONE_TURN.as_slice()), metered(Ok(file)));
    let status = replay_command(alloc, &mut trace, &mut file, 1024, &mut out, &mut Deaf);
    assert_same!(rt; status, 2);
}
