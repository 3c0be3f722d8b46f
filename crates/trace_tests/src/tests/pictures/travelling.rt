//! Where the messages are after some of the steps.

use super::{Ran, run, texts_of};
use std::test::Fail;
use test_support::{ADD_AT_X12, FOUR_ADDS, assert_same, image_of, trace_of};

/// Numbers of steps, each with the texts of requests, records and replies after them. The processors add 1, 2, 4 and 8
/// to 10.
static FOUR_STANDS: [(u32, &str, &str, &str); 13] = [
    (0, "", "", ""),
    (9, "", "", ""),
    (
        13,
        "add 00000001 to word 0 {0}|add 00000002 to word 0 {1}|add 00000004 to word 0 {2}|add 00000008 to word 0 {3}",
        "",
        "",
    ),
    (
        14,
        "add 00000002 to word 0 {1}|add 00000004 to word 0 {2}|add 00000008 to word 0 {3}|add 00000001 to word 0 {0}",
        "",
        "",
    ),
    (
        15,
        "add 00000002 to word 0 {1}|add 00000008 to word 0 {3}|add 00000005 to word 0 {0 2}",
        "2 waits for 0: add 00000001",
        "",
    ),
    (
        17,
        "add 00000005 to word 0 {0 2}|add 0000000a to word 0 {1 3}",
        "2 waits for 0: add 00000001|3 waits for 1: add 00000002",
        "",
    ),
    (
        18,
        "add 0000000a to word 0 {1 3}|add 00000005 to word 0 {0 2}",
        "2 waits for 0: add 00000001|3 waits for 1: add 00000002",
        "",
    ),
    (
        19,
        "add 0000000f to word 0 {0 2 1 3}",
        "2 waits for 0: add 00000001|3 waits for 1: add 00000002|1 waits for 0: add 00000005",
        "",
    ),
    (
        20,
        "",
        "2 waits for 0: add 00000001|3 waits for 1: add 00000002|1 waits for 0: add 00000005",
        "reply 0000000a {0 2 1 3}",
    ),
    (
        21,
        "",
        "2 waits for 0: add 00000001|3 waits for 1: add 00000002",
        "reply 0000000a {0 2}|reply 0000000f {1 3}",
    ),
    (
        22,
        "",
        "3 waits for 1: add 00000002",
        "reply 0000000a {0}|reply 0000000b {2}|reply 0000000f {1 3}",
    ),
    (
        23,
        "",
        "",
        "reply 0000000a {0}|reply 0000000b {2}|reply 0000000f {1}|reply 00000011 {3}",
    ),
    (25, "", "", "reply 0000000b {2}|reply 00000011 {3}"),
];

#[test]
fn four_adds(rt: HostRuntime) -> Result<(), Fail> {
    let alloc = rt.alloc();
    let image = image_of(alloc, ADD_AT_X12)?;
    let trace = trace_of(alloc, (2, 4, 4), &FOUR_ADDS)?;
    for (step, requests, records, replies) in &FOUR_STANDS {
        let ran = run(
            alloc,
            trace.as_slice(),
            Ok(image.as_slice()),
            1,
            Some(*step),
        );
        let picture = str::from_utf8(ran.out.as_slice())?;
        let shown = texts_of(alloc, picture, "request")?;
        assert_same!(rt; shown.as_str(), *requests, step);
        let shown = texts_of(alloc, picture, "record")?;
        assert_same!(rt; shown.as_str(), *records, step);
        let shown = texts_of(alloc, picture, "reply")?;
        assert_same!(rt; shown.as_str(), *replies, step);
        assert_same!(rt; ran.status, 0);
    }
    Ok(())
}

/// After the service all processors still wait, and the word has its new value, 10 + 1 + 2 + 4 + 8 = 0x19. After the
/// whole trace none waits.
#[test]
fn processors_and_words(rt: HostRuntime) -> Result<(), Fail> {
    let alloc = rt.alloc();
    let image = image_of(alloc, ADD_AT_X12)?;
    let trace = trace_of(alloc, (2, 4, 4), &FOUR_ADDS)?;
    let wires = "wire 0|wire 1|wire 2|wire 3|wire 0|wire 1|wire 2|wire 3";
    for (step, processors, words) in [
        (
            20,
            "0 run 00010000 word 0|1 run 00010000 word 0|2 run 00010000 word 0|3 run 00010000 word 0",
            "word 0 = 00000019",
        ),
        (
            1000,
            "0 run 00010004|1 run 00010004|2 run 00010004|3 run 00010004",
            "",
        ),
    ] {
        let ran = run(alloc, trace.as_slice(), Ok(image.as_slice()), 1, Some(step));
        let picture = str::from_utf8(ran.out.as_slice())?;
        let shown = texts_of(alloc, picture, "title")?;
        let wanted = format!(in alloc; "{processors}|{wires}|module 0|module 1|module 2|module 3")?;
        assert_same!(rt; shown.as_str(), wanted.as_str());
        let shown = texts_of(alloc, picture, "word")?;
        assert_same!(rt; shown.as_str(), words);
    }
    Ok(())
}

/// Without wait buffers the requests of 0 and 2 queue one behind the other, the first on top.
#[test]
fn first_comes_first(rt: HostRuntime) -> Result<(), Fail> {
    let alloc = rt.alloc();
    let image = image_of(alloc, ADD_AT_X12)?;
    let trace = trace_of(alloc, (2, 4, 0), &FOUR_ADDS[..15])?;
    let ran = run(alloc, trace.as_slice(), Ok(image.as_slice()), 1, Some(15));
    let picture = str::from_utf8(ran.out.as_slice())?;
    let shown = texts_of(alloc, picture, "request")?;
    let wanted =
        "add 00000002 to word 0 {1}|add 00000008 to word 0 {3}|add 00000001 to word 0 {0}|add 00000004 to word 0 {2}";
    assert_same!(rt; shown.as_str(), wanted);
    Ok(())
}

/// All steps are taken if no number is given, or if the number is that of all steps or more.
#[test]
fn after_all(rt: HostRuntime) -> Result<(), Fail> {
    let alloc = rt.alloc();
    let image = image_of(alloc, ADD_AT_X12)?;
    let trace = trace_of(alloc, (2, 4, 4), &FOUR_ADDS)?;
    let all = run(alloc, trace.as_slice(), Ok(image.as_slice()), 1, None);
    assert!(rt;
        str::from_utf8(all.out.as_slice())?.contains("machine k 2 c 4 b 4 r 1 after 27 steps<")
    );
    for step in [27, 28, u32::MAX] {
        let Ran { out, status, .. } = run(
            alloc,
            trace.as_slice(),
            Ok(image.as_slice()),
            1,
            Some(step),
        );
        assert!(rt; out.as_slice() == all.out.as_slice());
        assert_same!(rt; status, 0);
    }
    Ok(())
}

/// Steps after the end of a cut trace are those of a drain. Its first two, after the service, bring the reply down one
/// stage, and then those of 0 and 2 down the other.
#[test]
fn after_a_drain(rt: HostRuntime) -> Result<(), Fail> {
    let alloc = rt.alloc();
    let image = image_of(alloc, ADD_AT_X12)?;
    let trace = trace_of(alloc, (2, 4, 4), &FOUR_ADDS[..20])?;
    let ran = run(alloc, trace.as_slice(), Ok(image.as_slice()), 1, Some(22));
    let picture = str::from_utf8(ran.out.as_slice())?;
    let shown = texts_of(alloc, picture, "reply")?;
    assert_same!(rt; shown.as_str(), "reply 0000000a {0}|reply 0000000b {2}|reply 0000000f {1 3}");
    Ok(())
}
