//! The command `explore` with a property. Verdicts are worked out by hand.

use super::witnesses::{Traced, replayed};
use super::{Ran, config_of};
use explore_command::NoProgress;
use flat_machine::Config;
use link::Meter;
use property_command::{Asked, property_command};
use state_conditions::{Condition, Kind, Property};
use std::alloc::Global;
use std::process::Abort;
use std::test::Fail;
use test_support::{EBREAK, assert_same, image_of};

/// Adds 1 to the first word by a load and a store, and stops.
const LOST_SUM: &str = "lui x1, 0x80000\nlw x2, 0(x1)\naddi x2, x2, 1\nsw x2, 0(x1)\necall";

/// Takes instructions for ever without a reference.
const SPIN: &str = "spin: jal x0, spin";

/// A lock that is taken by a load and a store. Inside are the references at 0x10010, 0x10014, 0x1001c and 0x10020.
const LOAD_AND_STORE_LOCK: &str =
    "lui x1, 0x80000\naddi x3, x0, 1\ntake: lw x2, 0(x1)\nbne x2, x0, take\n\
    inside: sw x3, 0(x1)\nlw x2, 4(x1)\naddi x2, x2, 1\nsw x2, 4(x1)\nsw x0, 0(x1)\necall";

/// The outcome of judging an image on a machine of this size, with at most 100 states.
fn judge(alloc: Global, file: &[u8], config: Config, kind: Kind, text: &str) -> Result<Ran, Fail> {
    let Some(condition) = Condition::of_text(alloc, text, 16, &None)? else {
        return Err(Fail::new(format_args!("no condition: {text}")));
    };
    let property = Property { kind, condition };
    let asked = Asked {
        limit: 100,
        property: &property,
        condition: text,
    };
    let mut out = Meter::new(Vec::new(alloc));
    let mut err = Vec::new(alloc);
    let mut trace: Option<Meter<Vec<u8>>> = None;
    let status = property_command(
        alloc,
        &mut Meter::new(file),
        config,
        &asked,
        &mut trace,
        &mut NoProgress,
        &mut out,
        &mut err,
    );
    Ok(Ran {
        status,
        out: out.device,
        err,
    })
}

/// The same on 2^k processors, with a trace.
fn judge_with_trace(
    alloc: Global,
    file: &[u8],
    k: u8,
    kind: Kind,
    text: &str,
) -> Result<Traced, Fail> {
    let Some(condition) = Condition::of_text(alloc, text, 16, &None)? else {
        return Err(Fail::new(format_args!("no condition: {text}")));
    };
    let property = Property { kind, condition };
    let asked = Asked {
        limit: 100,
        property: &property,
        condition: text,
    };
    let mut out = Meter::new(Vec::new(alloc));
    let mut err = Vec::new(alloc);
    let mut trace = Some(Meter::new(Vec::new(alloc)));
    let status = property_command(
        alloc,
        &mut Meter::new(file),
        config_of(k),
        &asked,
        &mut trace,
        &mut NoProgress,
        &mut out,
        &mut err,
    );
    let trace = match trace {
        Some(meter) => meter.device,
        None => Vec::new(alloc),
    };
    Ok(Traced {
        status,
        trace,
        err,
        out: out.device,
    })
}

/// Checks what is printed and what is reported, and the exit status.
fn see(rt: &impl Abort, ran: &Ran, printed: &str, reported: &str, status: u8) {
    assert_same!(rt; ran.out.as_slice(), printed.as_bytes());
    assert_same!(rt; ran.err.as_slice(), reported.as_bytes());
    assert_same!(rt; ran.status, status);
}

/// One processor loads at 0x10004 and stores, and stops.
#[test]
fn verdicts_are_printed(rt: HostRuntime) -> Result<(), Fail> {
    let alloc = rt.alloc();
    let lost = image_of(alloc, LOST_SUM)?;
    for (kind, text, printed, status) in [
        (Kind::Never, "word 0 > 1", "never word 0 > 1: holds\n", 0),
        (
            Kind::Finally,
            "word 0 == 1",
            "finally word 0 == 1: holds\n",
            0,
        ),
        (
            Kind::Never,
            "halted == 1",
            "never halted == 1: broken\nway 0 0\n",
            1,
        ),
        (
            Kind::Always,
            "at 0x10004 == 1",
            "always at 0x10004 == 1: broken\nway 0\n",
            1,
        ),
        (
            Kind::Always,
            "any fault",
            "always any fault: broken\nway\n",
            1,
        ),
    ] {
        let ran = judge(alloc, lost.as_slice(), config_of(0), kind, text)?;
        see(&rt, &ran, printed, "", status);
    }
    Ok(())
}

/// Each fault is reported with its status, and nothing is printed.
#[test]
fn refusals_with_a_property(rt: HostRuntime) -> Result<(), Fail> {
    let alloc = rt.alloc();
    let lost = image_of(alloc, LOST_SUM)?;
    let spin = image_of(alloc, SPIN)?;
    for (file, k, reported, status) in [
        (&EBREAK[..51], 0, "ultra: I1\n", 2),
        (EBREAK.as_slice(), 7, "ultra: K1\n", 2),
        (lost.as_slice(), 3, "ultra: states\n", 4),
        (spin.as_slice(), 0, "ultra: alone\n", 4),
    ] {
        let ran = judge(alloc, file, config_of(k), Kind::Never, "halted > 8")?;
        see(&rt, &ran, "", reported, status);
    }
    Ok(())
}

/// A broken property has a trace to the first state found that breaks it: the processors of the way refer, and then
/// each is at its next reference, has stopped, or has spun until it came back to where it was.
#[test]
fn broken_properties_are_come_to(rt: HostRuntime) -> Result<(), Fail> {
    let alloc = rt.alloc();
    for (text, k, (kind, condition), report) in [
        (
            LOST_SUM,
            0,
            (Kind::Never, "halted == 1"),
            "processor 0 pc 00010010 halt 00 retired 4 console -\nword 0 00000001\n",
        ),
        (
            LOST_SUM,
            0,
            (Kind::Always, "at 0x10004 == 1"),
            "processor 0 pc 0001000c run retired 3 console -\n",
        ),
        (
            LOST_SUM,
            0,
            (Kind::Always, "any fault"),
            "processor 0 pc 00010004 run retired 1 console -\n",
        ),
        (
            LOST_SUM,
            1,
            (Kind::Finally, "word 0 == 2"),
            "processor 0 pc 00010010 halt 00 retired 4 console -\n\
            processor 1 pc 00010010 halt 00 retired 4 console -\nword 0 00000001\n",
        ),
        (
            LOAD_AND_STORE_LOCK,
            1,
            (Kind::Never, "at 0x10010-0x10020 > 1"),
            "processor 0 pc 00010010 run retired 4 console -\n\
            processor 1 pc 00010010 run retired 4 console -\n",
        ),
        (
            SPIN,
            0,
            (Kind::Always, "halted > 0"),
            "processor 0 pc 00010000 run retired 1025 console -\n",
        ),
    ] {
        let file = image_of(alloc, text)?;
        let ran = judge_with_trace(alloc, file.as_slice(), k, kind, condition)?;
        assert_same!(rt; ran.status, 1, condition);
        assert_same!(rt; ran.err.len(), 0, condition);
        let again = replayed(alloc, ran.trace.as_slice(), file.as_slice());
        assert_same!(rt; str::from_utf8(again.as_slice())?, report, condition);
    }
    Ok(())
}

/// Of a property that holds, or whose verdict is not known, no trace is written.
#[test]
fn other_properties_have_no_trace(rt: HostRuntime) -> Result<(), Fail> {
    let alloc = rt.alloc();
    for (text, kind, condition, status) in [
        (LOST_SUM, Kind::Never, "word 0 > 1", 0),
        (SPIN, Kind::Finally, "halted == 1", 0),
        (SPIN, Kind::Never, "halted > 0", 4),
    ] {
        let file = image_of(alloc, text)?;
        let ran = judge_with_trace(alloc, file.as_slice(), 0, kind, condition)?;
        assert_same!(rt; ran.status, status, condition);
        assert_same!(rt; ran.trace.len(), 0, condition);
    }
    Ok(())
}
