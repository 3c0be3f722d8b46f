//! Serial orders of small traces, entry by entry.

use super::{ALL, Asked, run};
use flat_machine::Config;
use link::Meter;
use run_command::run_command;
use std::fmt::Write;
use std::test::Fail;
use test_support::{HUNDRED_ADDS, ONE_TURN, assert_same, image_of, trace_of};
use trace_lines::Choice;

/// Adds `x7` to shared word 0, and halts.
const ONE_ADD: &str = "
 lui x5, 0x80000
 amoadd.w x8, x7, (x5)
 ecall
";

/// Pokes set `x7` of processor 0 to 5, that of processor 1 to 7, and shared word 0 to 0x100. Processor 0 sends its
/// request first, but that of processor 1 moves first, so that of processor 0 is combined into it: processor 1 leads,
/// and finds what was there. It takes its reply and halts. Processor 0 takes its own in the drain.
static COMBINED: [[u8; 12]; 13] = [
    [5, 0, 7, 0, 0, 0, 0, 0, 5, 0, 0, 0],
    [5, 1, 7, 0, 0, 0, 0, 0, 7, 0, 0, 0],
    [7, 0, 0, 0, 1, 0, 0, 0x80, 1, 0, 0, 0],
    [1, 0, 0, 0, 0, 0, 0, 0, 0, 0, 0, 0],
    [1, 1, 0, 0, 0, 0, 0, 0, 0, 0, 0, 0],
    [1, 0, 0, 0, 0, 0, 0, 0, 0, 0, 0, 0],
    [1, 1, 0, 0, 0, 0, 0, 0, 0, 0, 0, 0],
    [2, 0, 1, 0, 0, 0, 0, 0, 0, 0, 0, 0],
    [2, 0, 0, 0, 0, 0, 0, 0, 0, 0, 0, 0],
    [3, 0, 0, 0, 0, 0, 0, 0, 0, 0, 0, 0],
    [4, 0, 0, 0, 0, 0, 0, 0, 0, 0, 0, 0],
    [1, 1, 0, 0, 0, 0, 0, 0, 0, 0, 0, 0],
    [1, 1, 0, 0, 0, 0, 0, 0, 0, 0, 0, 0],
];

/// A turn of processor 0.
static TURN: [u8; 12] = [1, 0, 0, 0, 0, 0, 0, 0, 0, 0, 0, 0];

/// A service by module 0.
static SERVE: [u8; 12] = [3, 0, 0, 0, 0, 0, 0, 0, 0, 0, 0, 0];

/// The lines of the trace: 0x100 + 7 is 0x107, and 0x107 + 5 is 0x10c.
static LINES: [&str; 8] = [
    "0 0 poke x7 00000005\n",
    "1 1 poke x7 00000007\n",
    "2 - poke 80000001 01 word 0 00000000 00000100\n",
    "3 0 00010000 lui x5, 524288 = 80000000\n",
    "4 1 00010000 lui x5, 524288 = 80000000\n",
    "5 1 00010004 amoadd.w x8, x7, (x5) = 00000100 word 0 00000100 00000107\n",
    "6 0 00010004 amoadd.w x8, x7, (x5) = 00000107 word 0 00000107 0000010c\n",
    "7 1 00010008 halt 00\n",
];

/// The order is that in which the group is served, not that in which the requests were sent. If only some lines are
/// chosen, they keep their numbers.
#[test]
fn two_adds_combine(rt: HostRuntime) -> Result<(), Fail> {
    let alloc = rt.alloc();
    let image = image_of(alloc, ONE_ADD)?;
    let trace = trace_of(alloc, (1, 2, 1), &COMBINED)?;
    for ((processor, word), (from, to), chosen) in [
        (
            (None, None),
            (None, None),
            [0, 1, 2, 3, 4, 5, 6, 7].as_slice(),
        ),
        ((Some(0), None), (None, None), [0, 3, 6].as_slice()),
        ((Some(1), None), (None, None), [1, 4, 5, 7].as_slice()),
        ((None, Some(0)), (None, None), [2, 5, 6].as_slice()),
        ((None, Some(1)), (None, None), [].as_slice()),
        ((Some(0), Some(0)), (None, None), [6].as_slice()),
        ((Some(1), Some(1)), (None, None), [].as_slice()),
        ((None, None), (Some(2), Some(4)), [2, 3, 4].as_slice()),
        ((None, None), (Some(7), None), [7].as_slice()),
        ((None, None), (None, Some(0)), [0].as_slice()),
        ((None, None), (Some(8), None), [].as_slice()),
        ((None, None), (Some(5), Some(2)), [].as_slice()),
        (
            (Some(1), None),
            (Some(4), Some(u32::MAX)),
            [4, 5, 7].as_slice(),
        ),
    ] {
        let mut lines = String::new(alloc);
        for number in chosen {
            if let Some(line) = LINES.get(*number) {
                lines.push_str(line)?;
            }
        }
        let choice = Choice {
            processor,
            word,
            from,
            to,
            network: false,
        };
        let ran = run(
            alloc,
            Asked::Order(choice),
            trace.as_slice(),
            Ok(image.as_slice()),
            2,
        );
        assert_same!(rt; ran.out.as_slice(), lines.as_bytes(), choice);
        assert_same!(rt; ran.err.len(), 0, choice);
        assert_same!(rt; ran.status, 0, choice);
    }
    Ok(())
}

/// Numbers that a machine of two processors and 1,024 shared words does not have, and their refusals. If both numbers
/// are wrong, the processor's is reported.
static UNKNOWN: [(Option<u8>, Option<u32>, &str); 4] = [
    (
        Some(2),
        None,
        "error: invalid value '2' for '--processor <NUMBER>': 2 is not in 0..=1, the machine's processors\n",
    ),
    (
        None,
        Some(1024),
        "error: invalid value '1024' for '--word <NUMBER>': 1024 is not in 0..=1023, the machine's shared words (--words)\n",
    ),
    (
        Some(1),
        Some(2048),
        "error: invalid value '2048' for '--word <NUMBER>': 2048 is not in 0..=1023, the machine's shared words (--words)\n",
    ),
    (
        Some(63),
        Some(2048),
        "error: invalid value '63' for '--processor <NUMBER>': 63 is not in 0..=1, the machine's processors\n",
    ),
];

/// A fault of the trace is reported before such a number, and a fault of the image after it.
#[test]
fn refuses_what_the_machine_has_not(rt: HostRuntime) -> Result<(), Fail> {
    let alloc = rt.alloc();
    let trace = trace_of(alloc, (1, 2, 1), &COMBINED)?;
    for (processor, word, asked) in UNKNOWN {
        let unknown = Choice {
            processor,
            word,
            ..ALL
        };
        for choice in [Asked::Order(unknown), Asked::Story(unknown)] {
            let ran = run(alloc, choice, trace.as_slice(), Ok(b"".as_slice()), 1024);
            assert_same!(rt; ran.err.as_slice(), asked.as_bytes(), choice);
            assert_same!(rt; ran.out.len(), 0, choice);
            assert_same!(rt; ran.status, 2, choice);
            let ran = run(alloc, choice, b"".as_slice(), Ok(b"".as_slice()), 1024);
            assert_same!(rt; ran.err.as_slice(), b"ultra: X1\n".as_slice(), choice);
        }
    }
    let last = Asked::Order(Choice {
        processor: Some(1),
        word: Some(1023),
        ..ALL
    });
    let ran = run(
        alloc,
        last,
        trace.as_slice(),
        Ok(image_of(alloc, ONE_ADD)?.as_slice()),
        1024,
    );
    assert_same!(rt; ran.status, 0);
    assert_same!(rt; ran.err.len(), 0);
    Ok(())
}

/// The trace is cut after the two requests are sent. In the drain that of processor 0 goes up and is served before that
/// of processor 1.
#[test]
fn served_in_the_drain(rt: HostRuntime) -> Result<(), Fail> {
    let alloc = rt.alloc();
    let image = image_of(alloc, ONE_ADD)?;
    let trace = trace_of(alloc, (1, 2, 1), &COMBINED[..7])?;
    let on_the_word = Choice {
        word: Some(0),
        ..ALL
    };
    let ran = run(
        alloc,
        Asked::Order(on_the_word),
        trace.as_slice(),
        Ok(image.as_slice()),
        1,
    );
    let lines = "2 - poke 80000001 01 word 0 00000000 00000100
5 0 00010004 amoadd.w x8, x7, (x5) = 00000100 word 0 00000100 00000105
6 1 00010004 amoadd.w x8, x7, (x5) = 00000105 word 0 00000105 0000010c
";
    assert_same!(rt; ran.out.as_slice(), lines.as_bytes());
    assert_same!(rt; ran.status, 0);
    Ok(())
}

/// What lines say of a byte to the console, a store and a load of a halfword, a load into `x0`, a store to local
/// memory, a jump and a fault.
#[test]
fn what_a_line_tells(rt: HostRuntime) -> Result<(), Fail> {
    let alloc = rt.alloc();
    let text = "
 addi x17, x0, 1
 addi x10, x0, 0x41
 ecall
 lui x5, 0x80000
 sh x10, 6(x5)
 lh x6, 6(x5)
 lw x0, 4(x5)
 lui x7, 0x20
 sb x10, 3(x7)
 jal x1, on
 ecall
on: ebreak
";
    let image = image_of(alloc, text)?;
    let mut records = Vec::new(alloc);
    for _ in 0..4 {
        records.push(TURN)?;
    }
    for _ in 0..3 {
        // A reference: it is sent, served and taken.
        records.push(TURN)?;
        records.push(SERVE)?;
        records.push(TURN)?;
    }
    for _ in 0..4 {
        records.push(TURN)?;
    }
    let trace = trace_of(alloc, (0, 2, 1), records.as_slice())?;
    let ran = run(
        alloc,
        Asked::Order(ALL),
        trace.as_slice(),
        Ok(image.as_slice()),
        1024,
    );
    let lines = "0 0 00010000 addi x17, x0, 1 = 00000001
1 0 00010004 addi x10, x0, 65 = 00000041
2 0 00010008 ecall console 41
3 0 0001000c lui x5, 524288 = 80000000
4 0 00010010 sh x10, 6(x5) word 1 00000000 00410000
5 0 00010014 lh x6, 6(x5) = 00000041 word 1 00410000 00410000
6 0 00010018 lw x0, 4(x5) word 1 00410000 00410000
7 0 0001001c lui x7, 32 = 00020000
8 0 00010020 sb x10, 3(x7)
9 0 00010024 jal x1, 8 = 00010028
10 0 0001002c fault 8
";
    assert_same!(rt; ran.out.as_slice(), lines.as_bytes());
    assert_same!(rt; ran.err.len(), 0);
    assert_same!(rt; ran.status, 1);
    Ok(())
}

/// A trace without steps has no lines, and a trace of one turn has one.
#[test]
fn no_steps(rt: HostRuntime) -> Result<(), Fail> {
    let alloc = rt.alloc();
    let image = image_of(alloc, "ebreak")?;
    let trace = trace_of(alloc, (6, 2, 1), &[])?;
    let ran = run(
        alloc,
        Asked::Order(ALL),
        trace.as_slice(),
        Ok(image.as_slice()),
        1,
    );
    assert_same!(rt; ran.out.len(), 0);
    assert_same!(rt; ran.err.len(), 0);
    assert_same!(rt; ran.status, 0);
    let ran = run(alloc, Asked::Order(ALL), &ONE_TURN, Ok(image.as_slice()), 1);
    assert_same!(rt; ran.out.as_slice(), b"0 0 00010000 fault 8\n".as_slice());
    assert_same!(rt; ran.status, 1);
    Ok(())
}

/// However the requests of 64 processors combine, each of the 6,400 adds finds what the one before it left. Each
/// processor loads the word once, after its own adds.
#[test]
fn each_add_goes_on_from_the_last(rt: HostRuntime) -> Result<(), Fail> {
    let alloc = rt.alloc();
    let image = image_of(alloc, HUNDRED_ADDS)?;
    let config = Config {
        k: 6,
        c: 4,
        b: 4,
        r: 1,
        shared_words: 1024,
    };
    let mut trace = Some(Meter::new(Vec::new(alloc)));
    let status = run_command(
        alloc,
        &mut Meter::new(image.as_slice()),
        config,
        200_000,
        false,
        &mut trace,
        &mut Meter::new(Vec::new(alloc)),
        &mut Vec::new(alloc),
    );
    assert_same!(rt; status, 0);
    let Some(trace) = trace else {
        return Ok(());
    };
    let on_the_word = Choice {
        word: Some(0),
        ..ALL
    };
    let ran = run(
        alloc,
        Asked::Order(on_the_word),
        trace.device.as_slice(),
        Ok(image.as_slice()),
        1024,
    );
    assert_same!(rt; ran.status, 0);
    let text = str::from_utf8(ran.out.as_slice())?;
    let (mut adds, mut loads) = (0_u32, 0_u32);
    for line in text.lines() {
        let mut end = String::new(alloc);
        if line.contains(" amoadd.w ") {
            let next = adds.saturating_add(1);
            write!(end, " = {adds:08x} word 0 {adds:08x} {next:08x}")?;
            adds = next;
        } else {
            write!(end, " = {adds:08x} word 0 {adds:08x} {adds:08x}")?;
            loads = loads.saturating_add(1);
        }
        assert!(rt; line.ends_with(end.as_str()), "{line}");
    }
    assert_same!(rt; (adds, loads), (6400, 64));
    Ok(())
}
