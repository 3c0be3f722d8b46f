//! Runs by the sweep without a log. They print what a run with a log prints.

use super::{AMPLE, Ran};
use flat_machine::Config;
use link::Meter;
use run_command::unlogged_run_command;
use std::alloc::Global;
use std::test::Fail;
use test_support::{EBREAK, HUNDRED_ADDS, assert_same, image_of, report_of_hundred_adds, size};

/// Runs an image. `unfinished` says whether a run that its budget ends is reported, too.
pub(super) fn run(
    alloc: Global,
    image: &[u8],
    config: Config,
    budget: u32,
    unfinished: bool,
) -> Ran {
    let mut out = Meter::new(Vec::new(alloc));
    let mut err = Vec::new(alloc);
    let image = &mut Meter::new(image);
    let status = unlogged_run_command(alloc, image, config, budget, unfinished, &mut out, &mut err);
    Ran {
        status,
        out: out.device,
        err,
        trace: Vec::new(alloc),
    }
}

/// Two instructions take two steps: the first retires, and the second halts.
const TWO: &str = "addi x1, x0, 1\necall";

/// Processor 1 stops by EBREAK in the round in which processor 0 issues a reference. The reference still completes.
const FAULT_BESIDE_A_REFERENCE: &str = "
 addi x17, x0, 2
 ecall
 bne x10, x0, odd
 lui x5, 0x80000
 lw x6, 0(x5)
 ecall
odd: addi x7, x0, 1
 ebreak
.shared
.word 7
";

/// Each processor halts with its own number, after it has sent it to the console twice.
const NUMBERS: &str = "
 addi x17, x0, 2
 ecall
 addi x17, x0, 1
 ecall
 ecall
 addi x17, x0, 0
 ecall
";

/// A text, the number of stages, the budget, what the run prints and reports, and its exit status.
static RUNS: [(&str, u8, u32, &str, &str, u8); 8] = [
    (TWO, 0, 1, "", "ultra: budget\n", 4),
    (
        TWO,
        0,
        2,
        "processor 0 pc 00010004 halt 00 retired 1 console -\n",
        "",
        0,
    ),
    (
        TWO,
        0,
        u32::MAX,
        "processor 0 pc 00010004 halt 00 retired 1 console -\n",
        "",
        0,
    ),
    ("jal x0, 0", 1, 1000, "", "ultra: budget\n", 4),
    (
        "ebreak",
        1,
        AMPLE,
        "processor 0 pc 00010000 fault 8 retired 0 console -
processor 1 pc 00010000 run retired 0 console -
",
        "",
        1,
    ),
    (
        FAULT_BESIDE_A_REFERENCE,
        1,
        20,
        "processor 0 pc 00010014 run retired 5 console -
processor 1 pc 0001001c fault 8 retired 4 console -
word 0 00000007
",
        "",
        1,
    ),
    (
        NUMBERS,
        1,
        AMPLE,
        "processor 0 pc 00010018 halt 00 retired 6 console 0000
processor 1 pc 00010018 halt 01 retired 6 console 0101
",
        "",
        0,
    ),
    ("ecall", 7, AMPLE, "", "ultra: K1\n", 2),
];

#[test]
fn prints_reports(rt: HostRuntime) -> Result<(), Fail> {
    let alloc = rt.alloc();
    for (text, k, budget, printed, reported, status) in RUNS {
        let image = image_of(alloc, text)?;
        let ran = run(alloc, image.as_slice(), size(k), budget, false);
        assert_same!(rt; ran.out.as_slice(), printed.as_bytes(), text);
        assert_same!(rt; ran.err.as_slice(), reported.as_bytes(), text);
        assert_same!(rt; ran.status, status, text);
    }
    Ok(())
}

#[test]
fn hundred_adds(rt: HostRuntime) -> Result<(), Fail> {
    let alloc = rt.alloc();
    let image = image_of(alloc, HUNDRED_ADDS)?;
    for (k, processors, sum) in [(0, 1u8, "00000064"), (6, 64, "00001900")] {
        let report = report_of_hundred_adds(alloc, processors, sum)?;
        let ran = run(alloc, image.as_slice(), size(k), AMPLE, true);
        assert_same!(rt; ran.out.as_slice(), report.as_bytes(), k);
        assert_same!(rt; ran.err.len(), 0, k);
        assert_same!(rt; ran.status, 0, k);
    }
    Ok(())
}

#[test]
fn refuses_an_image(rt: HostRuntime) {
    let alloc = rt.alloc();
    for cut in 0..84 {
        let ran = run(alloc, &EBREAK[..cut], size(0), AMPLE, true);
        assert_same!(rt; ran.out.len(), 0, cut);
        assert_same!(rt; ran.err.as_slice(), b"ultra: I1\n".as_slice(), cut);
        assert_same!(rt; ran.status, 2, cut);
    }
}
