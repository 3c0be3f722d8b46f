//! Runs that end without a report.

ghost use Rattle.std.specs.Prelude.{◌≡◌, false};

use super::{AMPLE, Ran, replay, run, run_from, run_unfinished};
use flat_machine::Config;
use link::{Link, Meter};
use processor_threads::{Gate, Open};
use run_command::threaded_run_command;
use std::alloc::Global;
use std::fmt::Write;
use std::process::Abort;
use std::test::Fail;
use test_support::{EBREAK, Sink, assert_same, image_of, size};

/// Checks that nothing is printed, that no trace is written, and that this is reported.
fn tells(rt: &impl Abort, ran: Ran, reported: &str, status: u8) {
    assert_same!(rt; ran.err.as_slice(), reported.as_bytes());
    assert_same!(rt; ran.out.len(), 0, reported);
    assert_same!(rt; ran.trace.len(), 0, reported);
    assert_same!(rt; ran.status, status, reported);
}

/// Checks that this is printed, and that the status is 0.
fn halts(rt: &impl Abort, ran: Ran, report: &str) {
    assert_same!(rt; ran.out.as_slice(), report.as_bytes());
    assert_same!(rt; ran.status, 0);
}

/// The image of this many instructions that add 1 to a register, and then a halt.
fn adds(alloc: Global, count: u32) -> Result<Vec<u8>, Fail> {
    let mut text = String::new(alloc);
    for _ in 0..count {
        write!(text, "addi x1, x1, 1\n")?;
    }
    write!(text, "ecall\n")?;
    image_of(alloc, text.as_str())
}

/// A round takes 64 instructions with the core on loan, and then a turn: so 64 instructions and the halt are one round,
/// and 65 and the halt are two.
#[test]
fn budget_that_is_just_enough(rt: HostRuntime) -> Result<(), Fail> {
    let just = adds(rt.alloc(), 64)?;
    let more = adds(rt.alloc(), 65)?;
    let ran = |image, budget| run(&rt, rt.alloc(), image, size(0), budget);
    halts(
        &rt,
        ran(just.as_slice(), 1),
        "processor 0 pc 00010100 halt 00 retired 64 console -\n",
    );
    tells(&rt, ran(more.as_slice(), 1), "ultra: budget\n", 4);
    halts(
        &rt,
        ran(more.as_slice(), 2),
        "processor 0 pc 00010104 halt 00 retired 65 console -\n",
    );
    Ok(())
}

/// A gate that lets one round pass at a time, so that each counts, even one that does nothing.
struct EachCounts;

impl Gate for EachCounts {
    fn before(&self, _p: u8, _turn: u64) {}
}

/// The image of a program in which the processor that does not take this branch adds 2 to word 0. The other halts in
/// its first round, before it asks for a step.
fn one_adds(alloc: Global, branch: &str) -> Result<Vec<u8>, Fail> {
    let mut text = String::new(alloc);
    write!(
        text,
        "addi x17, x0, 2
         ecall
         {branch} x10, x0, done
         lui x12, 0x80000
         amoadd.w x11, x17, (x12)
         done: addi x17, x0, 0
         addi x10, x0, 0
         ecall
"
    )?;
    image_of(alloc, text.as_str())
}

/// The number of rounds depends on the steps that the arbiter of one processor picks: it is two more than the picks up
/// to the move of the reply, which has to come after the move of the request and the service. A separate program
/// counted them, from the definition of the generator.
#[test]
fn the_start_decides_the_steps(rt: HostRuntime) -> Result<(), Fail> {
    let alloc = rt.alloc();
    for (branch, p, runs) in [
        ("bne", 0, [(0, 19), (1, 19), (2, 6), (4, 7), (u32::MAX, 30)]),
        (
            "beq",
            1,
            [(0, 19), (1, 13), (2, 39), (4, 29), (u32::MAX, 19)],
        ),
    ] {
        let image = one_adds(alloc, branch)?;
        for (start, rounds) in runs {
            let ran = |budget| run_from(
                &rt,
                alloc,
                &EachCounts,
                start,
                image.as_slice(),
                size(1),
                budget,
            );
            tells(&rt, ran(rounds - 1), "ultra: budget\n", 4);
            let enough = ran(rounds);
            assert_same!(rt; enough.status, 0, (p, start));
            assert_same!(rt; enough.err.len(), 0);
        }
    }
    Ok(())
}

/// A jump to itself.
#[test]
fn run_without_end(rt: HostRuntime) -> Result<(), Fail> {
    let image = image_of(rt.alloc(), "jal x0, 0")?;
    let ran = run(&rt, rt.alloc(), image.as_slice(), size(1), 1000);
    tells(&rt, ran, "ultra: budget\n", 4);
    Ok(())
}

/// If it is asked for, the report of an unfinished run is printed before the fault of its budget, and its trace replays
/// to the report. A round of the jump takes it 65 times. The reference of the second text is issued in its one round,
/// and a drain completes it.
#[test]
fn unfinished_runs(rt: HostRuntime) -> Result<(), Fail> {
    let alloc = rt.alloc();
    for (text, k, budget, report) in [
        (
            "jal x0, 0",
            1,
            2,
            "processor 0 pc 00010000 run retired 130 console -
processor 1 pc 00010000 run retired 130 console -
",
        ),
        (
            "lui x5, 0x80000\namoadd.w x6, x5, (x5)\necall",
            0,
            1,
            "processor 0 pc 00010008 run retired 2 console -
word 0 80000000
",
        ),
    ] {
        let image = image_of(alloc, text)?;
        let ran = run_unfinished(&rt, alloc, image.as_slice(), size(k), budget);
        assert_same!(rt; ran.out.as_slice(), report.as_bytes(), text);
        assert_same!(rt; ran.err.as_slice(), b"ultra: budget\n".as_slice(), text);
        assert_same!(rt; ran.status, 4, text);
        let replayed = replay(alloc, ran.trace.as_slice(), image.as_slice());
        assert_same!(rt; replayed.out.as_slice(), report.as_bytes(), text);
    }
    Ok(())
}

#[test]
fn refuses_an_image_and_a_size(rt: HostRuntime) {
    let alloc = rt.alloc();
    tells(
        &rt,
        run(&rt, alloc, &EBREAK[..51], size(0), AMPLE),
        "ultra: I1\n",
        2,
    );
    let config = Config { c: 1, ..size(0) };
    tells(
        &rt,
        run(&rt, alloc, &EBREAK, config, AMPLE),
        "ultra: K1\n",
        2,
    );
}

/// A link that fails at this call.
fn failing_link(alloc: Global, fails_at: usize) -> Meter<Sink>
    ensures { ⟦<Meter<Sink> as Link>⟧.has_failed result ≡ false }
{
    Meter::new(Sink::new(Vec::new(alloc), fails_at))
}

/// The trace is written first. If it cannot be written, that is reported, and no report is printed.
#[test]
fn tells_what_cannot_be_written(rt: HostRuntime) {
    let alloc = rt.alloc();
    for (of_trace, of_report, reported, written) in [
        (1, 1, "ultra: X5\n", 0),
        (24, 0, "ultra: X5\n", 0),
        (0, 1, "ultra: link\n", 0),
        (0, 52, "ultra: link\n", 51),
    ] {
        let mut out = failing_link(alloc, of_report);
        let mut trace = Some(failing_link(alloc, of_trace));
        let mut err = Vec::new(alloc);
        let status = threaded_run_command(
            &rt,
            alloc,
            &mut Meter::new(EBREAK.as_slice()),
            size(0),
            1,
            &Open,
            AMPLE,
            true,
            &mut trace,
            &mut out,
            &mut err,
        );
        assert_same!(rt; err.as_slice(), reported.as_bytes());
        assert_same!(rt; out.device.bytes.len(), written, reported);
        assert_same!(rt; status, 3, reported);
    }
}

/// `tests/cli/memory.sh` refuses each request of this test for memory in turn. The answer is that of ample memory, or
/// that there is none, or that a thread could not start.
#[test]
fn is_short_of_memory(rt: HostRuntime) -> Result<(), Fail> {
    let alloc = rt.alloc();
    let mut trace = Some(Meter::new(Sink::new(Vec::with_capacity(alloc, 24)?, 0)));
    let mut out = Meter::new(Sink::new(Vec::with_capacity(alloc, 64)?, 0));
    let mut err = Vec::with_capacity(alloc, 64)?;
    let file = &mut Meter::new(EBREAK.as_slice());
    let status = threaded_run_command(
        &rt,
        alloc,
        file,
        size(0),
        1,
        &Open,
        AMPLE,
        true,
        &mut trace,
        &mut out,
        &mut err,
    );
    if status == 1 {
        let report = b"processor 0 pc 00010000 fault 8 retired 0 console -\n";
        assert_same!(rt; out.device.bytes.as_slice(), report.as_slice());
        assert_same!(rt; err.len(), 0);
    } else {
        assert_same!(rt; status, 4);
        assert_same!(rt; out.device.bytes.len(), 0);
        assert!(rt;
            [b"ultra: memory\n".as_slice(), b"ultra: Start\n".as_slice()].contains(&err.as_slice())
        );
    }
    Ok(())
}
