//! The results of a program that its specification does not have.

use super::config_of;
use command_io::Fault;
use explore_command::NoProgress;
use link::Meter;
use observed_results::ObservedWords;
use refinement_command::refinement_command;
use std::alloc::Global;
use std::test::Fail;
use test_support::{EBREAK, assert_same, image_of};

/// The outcome of a comparison.
#[derive(Drop)]
struct Compared {
    outcome: Result<u8, Fault>,
    out: Vec<u8>,
    err: Vec<u8>,
}

/// Compares the results of an image with those of another on 2^k processors, by the words in the list.
fn compare(
    alloc: Global,
    program: &[u8],
    specification: &[u8],
    k: u8,
    limit: u32,
    list: &str,
) -> Result<Compared, Fail> {
    let words = ObservedWords::of_list(alloc, list, 16)?.ok_or("no list")?;
    let mut out = Meter::new(Vec::new(alloc));
    let mut err = Vec::new(alloc);
    let outcome = refinement_command(
        alloc,
        &mut Meter::new(program),
        &mut Meter::new(specification),
        config_of(k),
        limit,
        &words,
        &mut NoProgress,
        &mut out,
        &mut err,
    );
    Ok(Compared {
        outcome,
        out: out.device,
        err,
    })
}

/// Each processor adds 1 by a load and a store. Two have 12 states, and 2 is the sum that is found first.
const LOST: &str = "lui x1, 0x80000\nlw x2, 0(x1)\naddi x2, x2, 1\nsw x2, 0(x1)\necall";

/// Each processor adds 1 by one instruction.
const SUM: &str = "lui x1, 0x80000\naddi x4, x0, 1\namoadd.w x0, x4, (x1)\necall";

/// The same, and each halts with the sum before its addition.
const TICKET: &str = "lui x1, 0x80000\naddi x4, x0, 1\namoadd.w x10, x4, (x1)\necall";

/// The same, and each halts with its own number.
const NUMBER: &str =
    "lui x1, 0x80000\naddi x4, x0, 1\namoadd.w x0, x4, (x1)\naddi x17, x0, 2\necall\n\
    addi x17, x0, 0\necall";

/// Prints `A`, and halts.
const PRINT: &str =
    "addi x17, x0, 1\naddi x10, x0, 65\necall\naddi x17, x0, 0\naddi x10, x0, 0\necall";

/// Halts.
const HALT: &str = "ecall";

/// What is printed for a program, its specification, a number of stages and the words by which they are compared, and
/// the exit status. A lost addition is missing, unless the sum is not observed. Addresses do not count, statuses and
/// consoles do.
const CASES: [(&str, &str, u8, &str, &str, u8); 9] = [
    (
        LOST,
        SUM,
        1,
        "0-15",
        "result 2\nprocessor 0 pc 00010010 halt 00 console -\nprocessor 1 pc 00010010 halt 00 console -\n\
        word 0 00000001\n1 of 2 observed results is not among the 1 of SPEC\n",
        1,
    ),
    (
        LOST,
        SUM,
        1,
        "1-15",
        "all 1 observed result is among the 1 of SPEC\n",
        0,
    ),
    (
        SUM,
        LOST,
        1,
        "0",
        "all 1 observed result is among the 2 of SPEC\n",
        0,
    ),
    (
        LOST,
        LOST,
        1,
        "0",
        "all 2 observed results are among the 2 of SPEC\n",
        0,
    ),
    (
        TICKET,
        NUMBER,
        1,
        "0",
        "result 2\nprocessor 0 pc 0001000c halt 01 console -\nprocessor 1 pc 0001000c halt 00 console -\n\
        word 0 00000002\n1 of 2 observed results is not among the 1 of SPEC\n",
        1,
    ),
    (
        NUMBER,
        TICKET,
        1,
        "0",
        "all 1 observed result is among the 2 of SPEC\n",
        0,
    ),
    (
        TICKET,
        HALT,
        1,
        "15",
        "result 1\nprocessor 0 pc 0001000c halt 00 console -\nprocessor 1 pc 0001000c halt 01 console -\n\
        result 2\nprocessor 0 pc 0001000c halt 01 console -\nprocessor 1 pc 0001000c halt 00 console -\n\
        2 of 2 observed results are not among the 1 of SPEC\n",
        1,
    ),
    (
        PRINT,
        HALT,
        0,
        "0",
        "result 1\nprocessor 0 pc 00010014 halt 00 console 41\n\
        1 of 1 observed result is not among the 1 of SPEC\n",
        1,
    ),
    (
        SUM,
        HALT,
        0,
        "1",
        "all 1 observed result is among the 1 of SPEC\n",
        0,
    ),
];

/// Each comparison prints the lines that were worked out by hand.
#[test]
fn missing_results_are_printed(rt: HostRuntime) -> Result<(), Fail> {
    let alloc = rt.alloc();
    for (program, specification, k, list, lines, status) in CASES {
        let program = image_of(alloc, program)?;
        let specification = image_of(alloc, specification)?;
        let ran = compare(
            alloc,
            program.as_slice(),
            specification.as_slice(),
            k,
            100,
            list,
        )?;
        assert_same!(rt; str::from_utf8(ran.out.as_slice())?, lines);
        assert_same!(rt; ran.err.len(), 0);
        assert_same!(rt; ran.outcome.ok(), Some(status));
    }
    Ok(())
}

/// A fault of the program is reported, with its status. A fault of the specification is returned, and nothing is
/// reported. Nothing is printed.
#[test]
fn faults_of_either_image(rt: HostRuntime) -> Result<(), Fail> {
    let alloc = rt.alloc();
    let (sum, lost) = (image_of(alloc, SUM)?, image_of(alloc, LOST)?);
    let cut = &EBREAK[..51];
    for (program, specification, k, limit, reported, status, fault) in [
        (cut, cut, 0, 10, "ultra: I1\n", Some(2), None),
        (sum.as_slice(), cut, 7, 10, "ultra: K1\n", Some(2), None),
        (
            lost.as_slice(),
            cut,
            1,
            12,
            "ultra: states\n",
            Some(4),
            None,
        ),
        (
            sum.as_slice(),
            lost.as_slice(),
            1,
            12,
            "",
            None,
            Some(Fault::States),
        ),
    ] {
        let ran = compare(alloc, program, specification, k, limit, "0")?;
        assert_same!(rt; str::from_utf8(ran.err.as_slice())?, reported);
        assert_same!(rt; ran.out.len(), 0);
        let (done, refused) = match ran.outcome {
            Ok(status) => (Some(status), None),
            Err(fault) => (None, Some(fault)),
        };
        assert_same!(rt; done, status);
        assert_same!(rt; refused, fault);
    }
    Ok(())
}
