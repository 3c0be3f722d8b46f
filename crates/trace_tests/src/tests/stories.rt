//! Stories of small traces, step by step.

use super::{ALL, Asked, run};
use std::alloc::{AllocError, Global};
use std::fmt::Write;
use std::test::Fail;
use test_support::{ADD_AT_X12, FOUR_ADDS, assert_same, image_of, trace_of};
use trace_lines::Choice;

/// The lines up to the service.
const GOING_UP: &str = "0 poke 0 x11 00000001: writes
1 poke 1 x11 00000002: writes
2 poke 2 x11 00000004: writes
3 poke 3 x11 00000008: writes
4 poke 0 x12 80000000: writes
5 poke 1 x12 80000000: writes
6 poke 2 x12 80000000: writes
7 poke 3 x12 80000000: writes
8 poke - 80000000 0a: writes
9 turn 0: sends add 00000001 to word 0
10 turn 1: sends add 00000002 to word 0
11 turn 2: sends add 00000004 to word 0
12 turn 3: sends add 00000008 to word 0
13 up 0 0: moves to depth 1
14 up 0 2: 2 joins 0 at stage 0: add 00000005 goes on, add 00000001 is kept
15 up 0 1: moves to depth 1
16 up 0 3: 3 joins 1 at stage 0: add 0000000a goes on, add 00000002 is kept
17 up 1 0: moves to depth 2
18 up 1 2: 1 joins 0 at stage 1: add 0000000f goes on, add 00000005 is kept
19 serve 0: serves 4: 0 2 1 3: word 0 0000000a to 00000019
";

/// After the service the trace answers all processors, and then takes all turns.
const BY_THE_TRACE: &str = "20 down 1 0: answers 1 at stage 1: 0000000f
21 down 0 0: answers 2 at stage 0: 0000000b
22 down 0 2: answers 3 at stage 0: 00000011
23 turn 0: retires amoadd.w x10, x11, (x12) = 0000000a
24 turn 1: retires amoadd.w x10, x11, (x12) = 0000000f
25 turn 2: retires amoadd.w x10, x11, (x12) = 0000000b
26 turn 3: retires amoadd.w x10, x11, (x12) = 00000011
";

/// In a drain a processor takes its reply as soon as it has come.
const BY_A_DRAIN: &str = "20 down 1 0: answers 1 at stage 1: 0000000f
21 down 0 0: answers 2 at stage 0: 0000000b
22 turn 0: retires amoadd.w x10, x11, (x12) = 0000000a
23 turn 2: retires amoadd.w x10, x11, (x12) = 0000000b
24 down 0 2: answers 3 at stage 0: 00000011
25 turn 1: retires amoadd.w x10, x11, (x12) = 0000000f
26 turn 3: retires amoadd.w x10, x11, (x12) = 00000011
";

/// The whole trace, and the trace cut after the service, so that a drain brings the replies home.
#[test]
fn four_adds(rt: HostRuntime) -> Result<(), Fail> {
    let alloc = rt.alloc();
    let image = image_of(alloc, ADD_AT_X12)?;
    for (steps, rest) in [(27, BY_THE_TRACE), (20, BY_A_DRAIN)] {
        let trace = trace_of(alloc, (2, 4, 4), &FOUR_ADDS[..steps])?;
        let ran = run(
            alloc,
            Asked::Story(ALL),
            trace.as_slice(),
            Ok(image.as_slice()),
            1,
        );
        let mut lines = String::new(alloc);
        lines.push_str(GOING_UP)?;
        lines.push_str(rest)?;
        assert_same!(rt; str::from_utf8(ran.out.as_slice())?, lines.as_str());
        assert_same!(rt; ran.err.len(), 0);
        assert_same!(rt; ran.status, 0);
    }
    Ok(())
}

/// Choices of a processor and a word, and of a range, and the numbers of the lines that they take. The request of
/// processor 3 joins that of 1, and with it that of 0.
static CHOICES: [(
    (Option<u8>, Option<u32>),
    (Option<u32>, Option<u32>),
    &[usize],
); 8] = [
    (
        (Some(0), None),
        (None, None),
        &[0, 4, 9, 13, 14, 17, 18, 19, 20, 21, 23],
    ),
    (
        (Some(1), None),
        (None, None),
        &[1, 5, 10, 15, 16, 18, 19, 20, 22, 24],
    ),
    (
        (Some(2), None),
        (None, None),
        &[2, 6, 11, 14, 17, 18, 19, 20, 21, 25],
    ),
    (
        (Some(3), None),
        (None, None),
        &[3, 7, 12, 16, 18, 19, 20, 22, 26],
    ),
    (
        (None, Some(0)),
        (None, None),
        &[
            8, 9, 10, 11, 12, 13, 14, 15, 16, 17, 18, 19, 20, 21, 22, 23, 24, 25, 26,
        ],
    ),
    ((None, None), (Some(25), None), &[25, 26]),
    ((None, None), (Some(3), Some(2)), &[]),
    ((Some(3), Some(0)), (Some(7), Some(18)), &[12, 16, 18]),
];

#[test]
fn chosen_lines(rt: HostRuntime) -> Result<(), Fail> {
    let alloc = rt.alloc();
    let image = image_of(alloc, ADD_AT_X12)?;
    let trace = trace_of(alloc, (2, 4, 4), &FOUR_ADDS)?;
    for ((processor, word), (from, to), numbers) in CHOICES {
        for network in [false, true] {
            let choice = Choice {
                processor,
                word,
                from,
                to,
                network,
            };
            let story = Asked::Story(choice);
            let ran = run(alloc, story, trace.as_slice(), Ok(image.as_slice()), 1);
            let lines = lines_of(alloc, numbers, network)?;
            assert_same!(rt; ran.out.as_slice(), lines.as_bytes(), choice);
            assert_same!(rt; ran.status, 0, choice);
        }
    }
    Ok(())
}

/// The lines of the whole trace that have these numbers, or those of the network among them: lines 13 to 22 are moves and
/// a service.
fn lines_of(alloc: Global, numbers: &[usize], network: bool) -> Result<String, AllocError> {
    let mut lines = String::new(alloc);
    for (number, line) in GOING_UP.lines().chain(BY_THE_TRACE.lines()).enumerate() {
        if numbers.contains(&number) && (!network || (number >= 13 && number <= 22)) {
            lines.push_str(line)?;
            lines.push('\n')?;
        }
    }
    Ok(lines)
}

/// Choices of a processor and of a first line, and what is printed with the rounds of the sweep: the numbers of lines,
/// each after that of the round that is marked before it, or 0 if none is. In each round come the turns by processor,
/// then the moves of requests, at the last stage first, then the services, then the moves of replies, at the first stage
/// first, and at each stage by wire.
static MARKED: [((Option<u8>, Option<u32>), &[(usize, usize)]); 3] = [
    (
        (None, None),
        &[
            (0, 0),
            (0, 1),
            (0, 2),
            (0, 3),
            (0, 4),
            (0, 5),
            (0, 6),
            (0, 7),
            (0, 8),
            (1, 9),
            (0, 10),
            (0, 11),
            (0, 12),
            (0, 13),
            (0, 14),
            (2, 15),
            (0, 16),
            (3, 17),
            (0, 18),
            (0, 19),
            (0, 20),
            (4, 21),
            (0, 22),
            (5, 23),
            (0, 24),
            (0, 25),
            (0, 26),
        ],
    ),
    (
        (Some(3), None),
        &[
            (0, 3),
            (0, 7),
            (1, 12),
            (2, 16),
            (3, 18),
            (0, 19),
            (0, 20),
            (4, 22),
            (5, 26),
        ],
    ),
    ((None, Some(25)), &[(5, 25), (0, 26)]),
];

#[test]
fn marked_rounds(rt: HostRuntime) -> Result<(), Fail> {
    let alloc = rt.alloc();
    let image = image_of(alloc, ADD_AT_X12)?;
    let trace = trace_of(alloc, (2, 4, 4), &FOUR_ADDS)?;
    for ((processor, from), marked) in MARKED {
        let choice = Choice {
            processor,
            word: None,
            from,
            to: None,
            network: false,
        };
        let asked = Asked::Rounds(choice);
        let ran = run(alloc, asked, trace.as_slice(), Ok(image.as_slice()), 1);
        let mut lines = String::new(alloc);
        for (round, number) in marked {
            if *round > 0 {
                write!(lines, "round {round}\n")?;
            }
            lines.push_str(lines_of(alloc, &[*number], false)?.as_str())?;
        }
        assert_same!(rt; str::from_utf8(ran.out.as_slice())?, lines.as_str(), choice);
        assert_same!(rt; ran.status, 0, choice);
    }
    Ok(())
}

/// A byte to the console, and a fault.
#[test]
fn console_and_fault(rt: HostRuntime) -> Result<(), Fail> {
    let alloc = rt.alloc();
    let text = "
 addi x17, x0, 1
 addi x10, x0, 0x41
 ecall
 ebreak
";
    let image = image_of(alloc, text)?;
    let turn = [1, 0, 0, 0, 0, 0, 0, 0, 0, 0, 0, 0];
    let trace = trace_of(alloc, (0, 4, 4), &[turn, turn, turn, turn])?;
    let ran = run(
        alloc,
        Asked::Story(ALL),
        trace.as_slice(),
        Ok(image.as_slice()),
        1024,
    );
    let lines = "0 turn 0: retires addi x17, x0, 1 = 00000001
1 turn 0: retires addi x10, x0, 65 = 00000041
2 turn 0: retires ecall console 41
3 turn 0: stops fault 8
";
    assert_same!(rt; str::from_utf8(ran.out.as_slice())?, lines);
    assert_same!(rt; ran.status, 1);
    Ok(())
}
