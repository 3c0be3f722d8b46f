//! `ultra trace` and `ultra steps`: traces and texts made by hand, by the table of records in `docs/COMMANDS.md`.

use super::Ran;
use link::Meter;
use std::alloc::{AllocGlobal, Global};
use std::process::Abort;
use std::test::Fail;
use test_support::{ONE_TURN, Sink, Source, assert_same};
use trace_file::read_trace;
use trace_text::{laws, steps_command, text_command, text_of_trace, trace_in};

/// The text of a trace with each kind of step.
const EACH_KIND: &str = "\
machine k 1 c 4 b 3 r 1
turn 1
up 0 1
serve 1
down 0 1
poke 1 x5 89abcdef
poke 1 x31 00000000
poke 0 pc 0001fffc
poke 1 0002ff0a b7
poke - 800fffff 09
";

/// Its trace.
static EACH_KIND_BYTES: [u8; 120] = [
    0x55, 0x4C, 0x54, 0x52, 1, 1, 4, 3, 9, 0, 0, 0, // "ULTR", k, c, b; 9 steps
    1, 1, 0, 0, 0, 0, 0, 0, 0, 0, 0, 0, //
    2, 0, 1, 0, 0, 0, 0, 0, 0, 0, 0, 0, //
    3, 1, 0, 0, 0, 0, 0, 0, 0, 0, 0, 0, //
    4, 0, 1, 0, 0, 0, 0, 0, 0, 0, 0, 0, //
    5, 1, 5, 0, 0, 0, 0, 0, 0xEF, 0xCD, 0xAB, 0x89, //
    5, 1, 31, 0, 0, 0, 0, 0, 0, 0, 0, 0, //
    5, 0, 32, 0, 0, 0, 0, 0, 0xFC, 0xFF, 1, 0, //
    6, 1, 0, 0, 0x0A, 0xFF, 2, 0, 0xB7, 0, 0, 0, //
    7, 0, 0, 0, 0xFF, 0xFF, 0x0F, 0x80, 9, 0, 0, 0, //
];

/// The text of a trace in format 2, and its bytes.
const COMBINED_TWICE: &str = "machine k 6 c 16 b 16 r 2\nturn 63\n";

static COMBINED_TWICE_BYTES: [u8; 28] = [
    0x55, 0x4C, 0x54, 0x52, 2, 6, 16, 16, 2, 0, 0, 0, 1, 0, 0, 0, //
    1, 63, 0, 0, 0, 0, 0, 0, 0, 0, 0, 0,
];

const NO_STEP: &str = "machine k 0 c 2 b 0 r 1\n";

static NO_STEP_BYTES: [u8; 12] = [0x55, 0x4C, 0x54, 0x52, 1, 0, 2, 0, 0, 0, 0, 0];

/// The same texts, written in other ways.
static OTHER_NO_STEP: [&str; 2] = [
    "machine k 0 c 2 b 0 r 1",
    "# a schedule\n\n \t\n\tmachine  k 0\tc 2 b 0 r 1 \n# the end",
];

const OTHER_COMBINED_TWICE: &str =
    "machine k 0x6 c 0x10 b 016 r 2#sizes\n\n turn\t0x3F # the last processor\n\n";

const OTHER_EACH_KIND: &str = "\
machine k 1 c 4 b 3 r 1
turn 1
up 0 1
serve 1
down 0 1
poke 1 t0 89ABCDEF
poke 1 t6 00000000
poke 0 pc 0001FFFC
poke 1 0002FF0a B7
poke - 800fffff 09
";

/// Texts that are refused, each with what is reported.
static REFUSED: [(&str, &str); 49] = [
    ("", "S1 line 1"),
    ("\n# nothing\n", "S1 line 3"),
    ("turn 0\n", "S1 line 1"),
    ("\n\nmachine\n", "S1 line 3"),
    ("machine k 7 c 4 b 4 r 1\n", "S1 line 1"),
    ("machine k 1 c 1 b 4 r 1\n", "S1 line 1"),
    ("machine k 1 c 17 b 4 r 1\n", "S1 line 1"),
    ("machine k 1 c 4 b 17 r 1\n", "S1 line 1"),
    ("machine k 1 c 4 b 4 r 0\n", "S1 line 1"),
    ("machine k 1 c 5 b 4 r 4\n", "S1 line 1"),
    ("machine k 1 c 2 b 4 r 2\n", "S1 line 1"),
    ("machine k 1 c 4 b 4\n", "S1 line 1"),
    ("machine k 1 c 4 b 4 r 1 words\n", "S1 line 1"),
    ("machine k 1 b 4 c 4 r 1\n", "S1 line 1"),
    ("machine k -1 c 4 b 4 r 1\n", "S1 line 1"),
    ("machine k one c 4 b 4 r 1\n", "S1 line 1"),
    ("Machine k 1 c 4 b 4 r 1\n", "S1 line 1"),
    ("SIZES machine k 1 c 4 b 4 r 1\n", "S2 line 2"),
    ("SIZES tern 0\n", "S2 line 2"),
    ("SIZES turn\n", "S2 line 2"),
    ("SIZES turn 0 0\n", "S2 line 2"),
    ("SIZES turn zero\n", "S2 line 2"),
    ("SIZES turn 0\r\n", "S2 line 2"),
    ("SIZES turn 1 2 3 4 5 6 7 8 9\n", "S2 line 2"),
    ("SIZES up 0\n", "S2 line 2"),
    ("SIZES serve 0 0\n", "S2 line 2"),
    ("SIZES push 0 0\n", "S2 line 2"),
    ("SIZES 0 turn 0: sends\n", "S2 line 2"),
    ("SIZES poke 0 x1\n", "S2 line 2"),
    ("SIZES poke 0 x32 00000000\n", "S2 line 2"),
    ("SIZES poke 0 x1 0\n", "S2 line 2"),
    ("SIZES poke 0 x1 0x000000\n", "S2 line 2"),
    ("SIZES poke 0 00020000 000\n", "S2 line 2"),
    ("SIZES poke - x1 00000000\n", "S2 line 2"),
    ("SIZES poke - 80000000 g0\n", "S2 line 2"),
    ("SIZES turn 1\n\nturn 2\nturn zero\n", "S3 line 4"),
    ("SIZES turn 256\n", "S3 line 2"),
    ("SIZES turn -1\n", "S3 line 2"),
    ("SIZES serve 2\n", "S3 line 2"),
    ("SIZES up 1 0\n", "S3 line 2"),
    ("SIZES up 0 2\n", "S3 line 2"),
    ("SIZES down 1 0\n", "S3 line 2"),
    ("SIZES poke 2 x1 00000000\n", "S3 line 2"),
    ("SIZES poke 0 x0 00000000\n", "S3 line 2"),
    ("SIZES poke 0 pc 00010002\n", "S3 line 2"),
    ("SIZES poke 0 0001ffff 00\n", "S3 line 2"),
    ("SIZES poke 0 00030000 00\n", "S3 line 2"),
    ("SIZES poke - 7fffffff 00\n", "S3 line 2"),
    ("SIZES poke - 80100000 00\n", "S3 line 2"),
];

/// The exit status of `trace`, and what it writes.
fn trace(alloc: Global, bytes: &[u8]) -> Ran {
    let mut out = Meter::new(Vec::new(alloc));
    let mut err = Vec::new(alloc);
    let status = text_command(alloc, &mut Meter::new(bytes), &mut out, &mut err);
    Ran {
        status,
        out: out.device,
        err,
    }
}

/// The exit status of `steps`, and what it writes.
fn steps(alloc: Global, text: &[u8]) -> Ran {
    let mut out = Meter::new(Vec::new(alloc));
    let mut err = Vec::new(alloc);
    let status = steps_command(alloc, &mut Meter::new(text), &mut out, &mut err);
    Ran {
        status,
        out: out.device,
        err,
    }
}

/// Checks that a command ended with this status and wrote this and no more.
fn check(rt: &impl Abort, ran: &Ran, status: u8, out: &[u8], err: &str, case: &str) {
    assert_same!(rt; ran.out.as_slice(), out, case);
    assert_same!(rt; ran.err.as_slice(), err.as_bytes(), case);
    assert_same!(rt; ran.status, status, case);
}

/// Checks that a text says a trace.
fn check_steps(rt: &(impl Abort + AllocGlobal), text: &str, bytes: &[u8]) {
    check(rt, &steps(rt.alloc(), text.as_bytes()), 0, bytes, "", text);
}

/// Checks that a trace has a text, which says it.
fn check_both(rt: &(impl Abort + AllocGlobal), text: &str, bytes: &[u8]) {
    check(rt, &trace(rt.alloc(), bytes), 0, text.as_bytes(), "", text);
    check_steps(rt, text, bytes);
}

#[test]
fn printed_and_read_back(rt: HostRuntime) {
    check_both(&rt, EACH_KIND, &EACH_KIND_BYTES);
    check_both(&rt, COMBINED_TWICE, &COMBINED_TWICE_BYTES);
    check_both(&rt, NO_STEP, &NO_STEP_BYTES);
}

/// The law says that the last comparison cannot fail.
#[test]
fn says_the_trace(rt: HostRuntime) -> Result<(), Fail> {
    laws::texts_are_read_back();
    let alloc = rt.alloc();
    let bytes = EACH_KIND_BYTES.as_slice();
    let trace = read_trace(alloc, &mut Meter::new(bytes)).expect(&rt, "a trace");
    let text = text_of_trace(alloc, &trace)?;
    let said = trace_in(alloc, text.as_bytes()).expect(&rt, "steps");
    let found = (said.config(1), said.steps());
    assert_same!(rt; found, (trace.config(1), trace.steps()));
    Ok(())
}

#[test]
fn written_in_other_ways(rt: HostRuntime) {
    check_steps(&rt, OTHER_EACH_KIND, &EACH_KIND_BYTES);
    check_steps(&rt, OTHER_COMBINED_TWICE, &COMBINED_TWICE_BYTES);
    for text in &OTHER_NO_STEP {
        check_steps(&rt, text, &NO_STEP_BYTES);
    }
}

/// In a text that is refused, `SIZES` stands for a first line with the sizes of a machine of two processors.
#[test]
fn refused(rt: HostRuntime) -> Result<(), Fail> {
    let alloc = rt.alloc();
    for (text, wanted) in &REFUSED {
        let text = text.replace(alloc, "SIZES ", "machine k 1 c 4 b 4 r 1\n")?;
        let report = format!(in alloc; "ultra: {wanted}\n")?;
        let ran = steps(alloc, text.as_bytes());
        check(&rt, &ran, 2, &[], report.as_str(), text.as_str());
    }
    Ok(())
}

#[test]
fn traces_that_are_refused(rt: HostRuntime) {
    let alloc = rt.alloc();
    let cut = &ONE_TURN[..23];
    check(&rt, &trace(alloc, cut), 2, &[], "ultra: X1\n", "cut");
    check(
        &rt,
        &trace(alloc, b"machine"),
        2,
        &[],
        "ultra: X1\n",
        "a text",
    );
    check(
        &rt,
        &trace(alloc, EACH_KIND.as_bytes()),
        2,
        &[],
        "ultra: X2\n",
        "a long text",
    );
}

#[test]
fn devices_that_fail(rt: HostRuntime) {
    let alloc = rt.alloc();
    let mut out = Meter::new(Sink::new(Vec::new(alloc), 0));
    let mut err = Sink::new(Vec::new(alloc), 0);
    let file = &mut Meter::new(Source::new(NO_STEP.as_bytes(), 5));
    assert_same!(rt; steps_command(alloc, file, &mut out, &mut err), 3);
    assert_same!(rt; err.bytes.as_slice(), b"ultra: link\n".as_slice());
    assert_same!(rt; out.device.bytes.len(), 0);
    let mut out = Meter::new(Sink::new(Vec::new(alloc), 4));
    let mut err = Sink::new(Vec::new(alloc), 0);
    let file = &mut Meter::new(NO_STEP.as_bytes());
    assert_same!(rt; steps_command(alloc, file, &mut out, &mut err), 3);
    assert_same!(rt; err.bytes.as_slice(), b"ultra: X5\n".as_slice());
    assert_same!(rt; out.device.bytes.as_slice(), b"ULT".as_slice());
    let mut out = Meter::new(Sink::new(Vec::new(alloc), 4));
    let mut err = Sink::new(Vec::new(alloc), 0);
    let file = &mut Meter::new(NO_STEP_BYTES.as_slice());
    assert_same!(rt; text_command(alloc, file, &mut out, &mut err), 3);
    assert_same!(rt; err.bytes.as_slice(), b"ultra: link\n".as_slice());
    assert_same!(rt; out.device.bytes.as_slice(), b"mac".as_slice());
}
