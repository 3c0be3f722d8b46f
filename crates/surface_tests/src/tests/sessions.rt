//! Replies, sweeps and sessions of small machines.

use arrayvec::ArrayVec;
use debug_lines::Command;
use debug_replies::{Error, Faults, error_of, is_running, named_stop, show, show_stop};
use debug_session::{Breaks, Runner, SessionEnd, Sweep, debug_end, serve};
use elf_image::Meter;
use machine_lock::{LockRefusal, Logged};
use machine_steps::{Machine, Status};
use std::alloc::Global;
use std::process::Abort;
use std::sync::Wait;
use std::test::Fail;
use test_support::{assert_same, lend, log_of, machine_of, size};

/// Refers to the shared word at `a2`. At address 0 there is no memory.
const TEXT: &str = "amoadd.w a0, a1, (a2)";

/// The error of a command to a machine, if it has one.
fn refusal(machine: &Machine, line: &[u8]) -> Option<Error> {
    error_of(machine, &Command::read(line))
}

/// Checks what a command shows of a machine.
fn shows(rt: &impl Abort, machine: &Machine, line: &[u8], wanted: &[u8]) {
    let mut text: ArrayVec<u8, 1024> = ArrayVec::new();
    assert!(rt; machine.are_home());
    show(machine, &Command::read(line), &mut text);
    assert_same!(rt; text.as_slice(), wanted);
}

/// Checks the stop reply of a machine in which no processor has stopped since it opened: it names none.
fn names_no_stop(rt: &impl Abort, machine: &Machine) {
    let mut text: ArrayVec<u8, 1024> = ArrayVec::new();
    assert!(rt; machine.are_home());
    let before = Faults::of(machine);
    show_stop(
        machine,
        named_stop(machine, &Breaks::new(), &before),
        &mut text,
    );
    assert_same!(rt; text.as_slice(), b"at -".as_slice());
}

/// Whether a processor runs.
fn runs(rt: &impl Abort, machine: &Machine, processor: u32) -> bool {
    assert!(rt; machine.are_home());
    is_running(machine, processor)
}

#[test]
fn replies_over_a_machine(rt: HostRuntime) -> Result<(), Fail> {
    lend(machine_of(rt.alloc(), TEXT, size(2))?, |machine| {
        let refusals = [refusal(machine, b"state 4"), refusal(machine, b"state 3")];
        assert_same!(rt; refusals, [Some(Error::Processor), None]);
        shows(&rt, machine, b"mem 0 10000 4", b"2f25b600");
        names_no_stop(&rt, machine);
        assert_same!(rt; [runs(&rt, machine, 3), runs(&rt, machine, 4)], [true, false]);
    });
    Ok(())
}

/// Runs a sweep up to a break or a stop.
fn go_on(rt: &impl Abort, log: &mut Logged, breaks: &Breaks) -> Result<(), LockRefusal> {
    assert!(rt; log.machine().is_idle());
    Sweep.run(log, breaks, 100)
}

/// A sweep stops before the instruction of a break. After the break is cleared, the processor halts.
#[test]
fn sweeps_meet_breaks(rt: HostRuntime) -> Result<(), Fail> {
    let mut breaks = Breaks::new();
    assert!(rt; breaks.set(0x0001_0004) && !breaks.set(0x0001_0002));
    assert!(rt; breaks.contains(0x0001_0004));
    lend(
        log_of(rt.alloc(), "addi x1, x0, 1\naddi x1, x1, 1\necall", size(0))?,
        |log| {
            assert_same!(rt; go_on(&rt, log, &breaks), Ok(()));
            assert_same!(rt; (log.machine().pc(0), log.steps().len()), (Some(0x0001_0004), 1));
            assert!(rt; breaks.clear(0x0001_0004));
            assert_same!(rt; go_on(&rt, log, &breaks), Ok(()));
            assert_same!(rt; log.machine().status(0), Some(Status::Halted(0)));
        },
    );
    Ok(())
}

/// A session of these lines on a log: how it ends, what it writes, and the exit status.
fn served(
    rt: &impl Wait,
    alloc: Global,
    log: &mut Logged,
    input: &[u8],
) -> (SessionEnd, Vec<u8>, u8) {
    let mut writer = Meter::new(Vec::new(alloc));
    let end = serve(
        rt,
        &mut Meter::new(input),
        &mut writer,
        log,
        &mut Sweep,
        1000,
    );
    let status = debug_end(end, log.machine(), &mut Vec::new(alloc));
    (end, writer.device, status)
}

/// Checks a session of these lines on a new machine of four processors.
fn session<R: Wait + Abort>(
    rt: &R,
    alloc: Global,
    input: &[u8],
    written: &[u8],
    wanted: (SessionEnd, u8),
) -> Result<(), Fail> {
    let found = lend(log_of(alloc, TEXT, size(2))?, |log| {
        served(rt, alloc, log, input)
    });
    lend(found, |(end, output, status)| {
        assert_same!(rt; output.as_slice(), written);
        assert_same!(rt; (*end, *status), wanted);
    });
    Ok(())
}

/// The status of a session that ends well depends on the machine; any other end has its own.
#[test]
fn sessions_have_their_status(rt: HostRuntime) -> Result<(), Fail> {
    lend(machine_of(rt.alloc(), TEXT, size(0))?, |machine| {
        for (end, wanted) in [
            (SessionEnd::Quit, 0),
            (SessionEnd::EndOfInput, 0),
            (SessionEnd::ReadFailed, 3),
            (SessionEnd::WriteFailed, 3),
            (SessionEnd::Memory, 4),
            (SessionEnd::TraceFull, 4),
        ] {
            let status = debug_end(end, machine, &mut Vec::new(rt.alloc()));
            assert_same!(rt; status, wanted, end);
        }
    });
    Ok(())
}

#[test]
fn sessions_are_served(rt: HostRuntime) -> Result<(), Fail> {
    let alloc = rt.alloc();
    let input = b"step 0\nstate 0\nstate 3\nstate 4\nquit\n";
    let written = b"at 0\nfault 5\nrun\nE03\nok\n";
    session(&rt, alloc, input, written, (SessionEnd::Quit, 1))?;
    session(&rt, alloc, b"state 0", b"", (SessionEnd::EndOfInput, 0))
}
