//! How runs end, and which faults are reported if there is no report.

use super::unlogged::run as run_unlogged;
use super::{AMPLE, Ran, replay, run, run_text, run_to};
use command_io::Fault;
use flat_machine::Config;
use link::Meter;
use std::io::{self, ErrorKind};
use std::process::Abort;
use std::test::Fail;
use test_support::{EBREAK, Endless, ONE_TURN, assert_same, image_of, size};

/// Checks that nothing is printed, no trace is written, and this is reported.
fn assert_told(rt: &impl Abort, ran: &Ran, reported: &str, status: u8) {
    assert_same!(rt; ran.err.as_slice(), reported.as_bytes());
    assert_same!(rt; ran.out.len(), 0, reported);
    assert_same!(rt; ran.trace.len(), 0, reported);
    assert_same!(rt; ran.status, status, reported);
}

/// Two instructions take two steps: the first retires, and the second halts.
#[test]
fn budget_that_is_just_enough(rt: HostRuntime) -> Result<(), Fail> {
    let text = "addi x1, x0, 1\necall";
    let ran = run_text(rt.alloc(), text, size(0), 1)?;
    assert_told(&rt, &ran, "ultra: budget\n", 4);
    for budget in [2, 3, u32::MAX] {
        let ran = run_text(rt.alloc(), text, size(0), budget)?;
        assert_same!(rt; ran.out.as_slice(), b"processor 0 pc 00010004 halt 00 retired 1 console -\n".as_slice());
        assert_same!(rt; ran.status, 0);
    }
    Ok(())
}

/// A jump to itself uses up any budget.
#[test]
fn run_without_end(rt: HostRuntime) -> Result<(), Fail> {
    for budget in [1, 1000] {
        let ran = run_text(rt.alloc(), "jal x0, 0", size(1), budget)?;
        assert_told(&rt, &ran, "ultra: budget\n", 4);
    }
    Ok(())
}

/// A text, the number of stages, the budget, what an unfinished run of it prints, and how many steps its trace has. The
/// reference of the third is issued in the last step of the budget, and a drain completes it: a service, and the turn
/// that takes the reply.
static UNFINISHED: [(&str, u8, u32, &str, usize); 3] = [
    (
        "addi x1, x0, 1\necall",
        0,
        1,
        "processor 0 pc 00010004 run retired 1 console -\n",
        1,
    ),
    (
        "jal x0, 0",
        1,
        5,
        "processor 0 pc 00010000 run retired 3 console -
processor 1 pc 00010000 run retired 2 console -
",
        5,
    ),
    (
        "lui x5, 0x80000\namoadd.w x6, x5, (x5)\necall",
        0,
        2,
        "processor 0 pc 00010008 run retired 2 console -
word 0 80000000
",
        4,
    ),
];

/// If it is asked for, the report of an unfinished run is printed before the fault of its budget, with a log and
/// without, and its trace replays to the report.
#[test]
fn unfinished_runs(rt: HostRuntime) -> Result<(), Fail> {
    let alloc = rt.alloc();
    for (text, k, budget, report, steps) in UNFINISHED {
        let image = image_of(alloc, text)?;
        let ran = run_to(alloc, image.as_slice(), size(k), budget, true);
        let unlogged = run_unlogged(alloc, image.as_slice(), size(k), budget, true);
        for ran in [&ran, &unlogged] {
            assert_same!(rt; ran.out.as_slice(), report.as_bytes(), text);
            assert_same!(rt; ran.err.as_slice(), b"ultra: budget\n".as_slice(), text);
            assert_same!(rt; ran.status, 4, text);
        }
        assert_same!(rt; ran.trace.len(), 12 + 12 * steps, text);
        let replayed = replay(alloc, ran.trace.as_slice(), Ok(image.as_slice()), 1024);
        assert_same!(rt; replayed.out.as_slice(), report.as_bytes(), text);
        assert_same!(rt; replayed.status, 0, text);
    }
    Ok(())
}

/// The run ends when processor 0 stops by EBREAK in its fourth turn. Processor 1 has taken two instructions and a
/// branch by then.
#[test]
fn ends_at_the_first_fault(rt: HostRuntime) -> Result<(), Fail> {
    let text = "
 addi x17, x0, 2
 ecall
 bne x10, x0, on
 ebreak
on: jal x0, on
";
    let ran = run_text(rt.alloc(), text, size(1), 20)?;
    let report = "processor 0 pc 0001000c fault 8 retired 3 console -
processor 1 pc 00010010 run retired 3 console -
";
    assert_same!(rt; ran.out.as_slice(), report.as_bytes());
    assert_same!(rt; ran.err.len(), 0);
    assert_same!(rt; ran.status, 1);
    // A header, and the records of seven turns.
    assert_same!(rt; ran.trace.len(), 12 + 12 * 7);

    // A budget of six steps is used up before the fault.
    let ran = run_text(rt.alloc(), text, size(1), 6)?;
    assert_told(&rt, &ran, "ultra: budget\n", 4);
    Ok(())
}

/// Processor 1 stops by EBREAK in the round in which processor 0 issues a reference. The reference still completes: the
/// trace ends with the steps of a drain, and a replay of it prints the same report.
#[test]
fn drains_after_a_fault(rt: HostRuntime) -> Result<(), Fail> {
    let alloc = rt.alloc();
    let text = "
 addi x17, x0, 2
 ecall
 bne x10, x0, odd
 lui x5, 0x80000
 lw x6, 0(x5)
 ecall
odd: addi x7, x0, 1
 ebreak
.shared
.word 7
";
    let image = image_of(alloc, text)?;
    let ran = run(alloc, image.as_slice(), size(1), 20);
    let report = "processor 0 pc 00010014 run retired 5 console -
processor 1 pc 0001001c fault 8 retired 4 console -
word 0 00000007
";
    assert_same!(rt; ran.out.as_slice(), report.as_bytes());
    assert_same!(rt; ran.status, 1);
    // Five turns of each, the request up the one stage, the service, the reply down, and the turn of
    // processor 0 that takes it.
    let drain = [
        2, 0, 0, 0, 0, 0, 0, 0, 0, 0, 0, 0, //
        3, 0, 0, 0, 0, 0, 0, 0, 0, 0, 0, 0, //
        4, 0, 0, 0, 0, 0, 0, 0, 0, 0, 0, 0, //
        1, 0, 0, 0, 0, 0, 0, 0, 0, 0, 0, 0,
    ];
    assert!(rt; ran.trace.len() == 12 + 12 * 14);
    assert_same!(rt; &ran.trace.as_slice()[12 + 12 * 10..], drain.as_slice());
    let replayed = replay(alloc, ran.trace.as_slice(), Ok(image.as_slice()), 1024);
    assert_same!(rt; replayed.out.as_slice(), report.as_bytes());
    assert_same!(rt; replayed.status, 1);
    Ok(())
}

/// The trace of a run has the steps of the sweep that did not stall.
#[test]
fn log_of_a_sweep(rt: HostRuntime) -> Result<(), Fail> {
    let alloc = rt.alloc();
    let image = image_of(alloc, "lui x5, 0x80000\nlw x6, 0(x5)\necall")?;
    let ran = run(alloc, image.as_slice(), size(0), AMPLE);
    // The instruction before the reference; the reference's turn and service; the turn that takes its
    // reply; and the turn that halts.
    let records = [
        [1, 0, 0, 0, 0, 0, 0, 0, 0, 0, 0, 0],
        [1, 0, 0, 0, 0, 0, 0, 0, 0, 0, 0, 0],
        [3, 0, 0, 0, 0, 0, 0, 0, 0, 0, 0, 0],
        [1, 0, 0, 0, 0, 0, 0, 0, 0, 0, 0, 0],
        [1, 0, 0, 0, 0, 0, 0, 0, 0, 0, 0, 0],
    ];
    let mut trace = b"ULTR\x01\x00\x04\x04\x05\x00\x00\x00".to_vec(alloc)?;
    for record in records {
        trace.extend_from_slice(&record)?;
    }
    assert_same!(rt; ran.trace.as_slice(), trace.as_slice());
    Ok(())
}

#[test]
fn refuses_an_image(rt: HostRuntime) -> Result<(), Fail> {
    let alloc = rt.alloc();
    for cut in 0..84 {
        let ran = run(alloc, &EBREAK[..cut], size(0), AMPLE);
        assert_told(&rt, &ran, "ultra: I1\n", 2);
        let ran = replay(alloc, &ONE_TURN, Ok(&EBREAK[..cut]), 1024);
        assert_told(&rt, &ran, "ultra: I1\n", 2);
    }
    // Eight shared bytes need two words.
    let image = image_of(alloc, "ebreak\n.shared\n.word 1, 2")?;
    let one_word = Config {
        shared_words: 1,
        ..size(0)
    };
    let ran = run(alloc, image.as_slice(), one_word, AMPLE);
    assert_told(&rt, &ran, "ultra: I5\n", 2);
    let ran = replay(alloc, &ONE_TURN, Ok(image.as_slice()), 1);
    assert_told(&rt, &ran, "ultra: I5\n", 2);
    let ran = replay(alloc, &ONE_TURN, Ok(image.as_slice()), 2);
    assert_same!(rt; ran.status, 1);
    Ok(())
}

/// A size out of its limits is refused before the run, but an error of the image is reported first.
#[test]
fn refuses_a_size(rt: HostRuntime) {
    let alloc = rt.alloc();
    for config in [
        size(7),
        Config { c: 1, ..size(0) },
        Config { c: 17, ..size(0) },
        Config { b: 17, ..size(0) },
        Config {
            shared_words: 0,
            ..size(0)
        },
        Config {
            shared_words: 262_145,
            ..size(0)
        },
    ] {
        let ran = run(alloc, &EBREAK, config, AMPLE);
        assert_told(&rt, &ran, "ultra: K1\n", 2);
        let ran = run(alloc, &EBREAK[..87], config, AMPLE);
        assert_told(&rt, &ran, "ultra: I4\n", 2);
    }
    let ran = replay(alloc, &ONE_TURN, Ok(EBREAK.as_slice()), 0);
    assert_told(&rt, &ran, "ultra: K1\n", 2);
}

/// A fault of the trace is reported before the file of the image is read.
#[test]
fn tells_the_first_fault(rt: HostRuntime) {
    let alloc = rt.alloc();
    let absent = ErrorKind::NotFound;
    let ran = replay(alloc, &ONE_TURN[..23], Err(io::Error::from(absent)), 1024);
    assert_told(&rt, &ran, "ultra: X1\n", 2);
    let ran = replay(alloc, &ONE_TURN, Err(io::Error::from(absent)), 1024);
    assert_told(&rt, &ran, "ultra: link\n", 3);
    let ran = replay(alloc, &ONE_TURN[..23], Ok(&EBREAK[..51]), 1024);
    assert_told(&rt, &ran, "ultra: X1\n", 2);
}

/// The exit status of each fault.
#[test]
fn statuses_of_faults(rt: HostRuntime) {
    for (fault, status) in [
        (Fault::Size, 2),
        (Fault::Stalled(1), 2),
        (Fault::Budget, 4),
        (Fault::Link, 3),
        (Fault::Memory, 4),
    ] {
        assert_same!(rt; fault.status(), status, fault);
    }
    let mut out = Meter::new(Vec::new(rt.alloc()));
    let mut err = Vec::new(rt.alloc());
    let mut trace = Some(Meter::new(Vec::new(rt.alloc())));
    let status = run_command::run_command(
        rt.alloc(),
        &mut Meter::new(Endless),
        size(0),
        AMPLE,
        false,
        &mut trace,
        &mut out,
        &mut err,
    );
    assert_same!(rt; err.as_slice(), b"ultra: I8\n".as_slice());
    assert_same!(rt; status, 2);
}
