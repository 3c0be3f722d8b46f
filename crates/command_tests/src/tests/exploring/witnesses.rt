//! Witnesses: a replay of the trace of a result leads to it, and no trace is written if there is no such result.

use super::{config_of, each, up_to_exchanges};
use explore_command::{Asked, NoProgress, explore_command};
use link::Meter;
use observed_results::ObservedWords;
use std::alloc::Global;
use std::process::Abort;
use std::test::Fail;
use test_support::{assert_same, image_of, metered};
use trace_commands::replay_command;

/// Each processor adds 1 by a load and a store.
const LOST: &str = "lui x1, 0x80000\nlw x2, 0(x1)\naddi x2, x2, 1\nsw x2, 0(x1)\necall";

/// Processor 0 writes 1, and then 0 again. Processor 1 looks once, and spins if it sees the 1.
const GLIMPSE: &str =
    "addi a7, x0, 2\necall\nlui x1, 0x80000\nbne a0, x0, look\naddi x4, x0, 1\nsw x4, 0(x1)\nsw x0, 0(x1)\n\
    jal x0, done\nlook: lw x2, 0(x1)\nspin: bne x2, x0, spin\ndone: addi a7, x0, 0\naddi a0, x0, 0\necall";

/// An instruction that jumps to itself.
const SPIN: &str = "spin: jal x0, spin";

/// The outcome of a search whose trace is written.
#[derive(Drop)]
pub(super) struct Traced {
    pub status: u8,
    pub trace: Vec<u8>,
    pub err: Vec<u8>,
    /// The results.
    pub out: Vec<u8>,
}

/// Searches an image on 2^k processors for the result of this number.
fn explored(alloc: Global, file: &[u8], k: u8, search: Asked<'_>, witness: u32) -> Traced {
    let asked = Asked {
        witness: Some(witness),
        ..search
    };
    search_with_trace(alloc, file, k, asked)
}

/// Searches an image on 2^k processors, with a trace.
pub(super) fn search_with_trace(alloc: Global, file: &[u8], k: u8, asked: Asked<'_>) -> Traced {
    let mut out = Meter::new(Vec::new(alloc));
    let mut err = Vec::new(alloc);
    let mut trace = Some(Meter::new(Vec::new(alloc)));
    let status = explore_command(
        alloc,
        &mut Meter::new(file),
        config_of(k),
        asked,
        &mut trace,
        &mut NoProgress,
        &mut out,
        &mut err,
    );
    let trace = match trace {
        Some(meter) => meter.device,
        None => Vec::new(alloc),
    };
    Traced {
        status,
        trace,
        err,
        out: out.device,
    }
}

/// The report of a trace's replay.
pub(super) fn replayed(alloc: Global, trace: &[u8], file: &[u8]) -> Vec<u8> {
    let mut out = Meter::new(Vec::new(alloc));
    let mut err = Vec::new(alloc);
    let (mut trace, mut file) = (Meter::new(trace), metered(Ok(file)));
    let _ = replay_command(alloc, &mut trace, &mut file, 16, &mut out, &mut err);
    out.device
}

/// A search of two processors, up to exchanges or for each result.
fn search_of(exchanged: bool) -> Asked<'static> {
    if exchanged {
        up_to_exchanges(100)
    } else {
        each(100)
    }
}

/// Searches two processors that add, for the result of this number, whose witness leads to this sum.
fn leads_to<R: Abort>(
    rt: &R,
    alloc: Global,
    file: &[u8],
    search: Asked<'_>,
    number: u32,
    sum: &str,
) -> Result<(), Fail> {
    let ran = explored(alloc, file, 1, search, number);
    assert_same!(rt; ran.status, 0);
    assert!(rt; !ran.out.is_empty());
    let report = format!(in alloc;
        "processor 0 pc 00010010 halt 00 retired 4 console -\n\
        processor 1 pc 00010010 halt 00 retired 4 console -\nword 0 {sum}\n"
    )?;
    assert_same!(rt; replayed(alloc, ran.trace.as_slice(), file).as_slice(), report.as_bytes());
    Ok(())
}

/// Searches two processors for the result of this number, which has no witness, for this reason.
fn leads_nowhere<R: Abort>(
    rt: &R,
    alloc: Global,
    file: &[u8],
    search: Asked<'_>,
    number: u32,
    said: &str,
) {
    let ran = explored(alloc, file, 1, search, number);
    assert_same!(rt; ran.status, 2);
    assert_same!(rt; ran.out.len(), 0);
    assert_same!(rt; ran.trace.len(), 0);
    assert_same!(rt; ran.err.as_slice(), said.as_bytes());
}

/// Both sums have a witness: 2 if one processor adds after the other, and 1 if both load first. There is no third
/// result, and no state is stuck. Up to exchanges, the sum of 1 is found first.
#[test]
fn results_are_come_to(rt: HostRuntime) -> Result<(), Fail> {
    let alloc = rt.alloc();
    let file = image_of(alloc, LOST)?;
    for (number, exchanged, sum) in [
        (1, false, "00000002"),
        (2, false, "00000001"),
        (1, true, "00000001"),
        (2, true, "00000002"),
    ] {
        leads_to(
            &rt,
            alloc,
            file.as_slice(),
            search_of(exchanged),
            number,
            sum,
        )?;
    }
    for (number, said) in [
        (0, "error: an end can be reached from each state\n"),
        (3, "error: there is no result 3\n"),
        (4_294_967_295, "error: there is no result 4294967295\n"),
    ] {
        for exchanged in [false, true] {
            leads_nowhere(
                &rt,
                alloc,
                file.as_slice(),
                search_of(exchanged),
                number,
                said,
            );
        }
    }
    Ok(())
}

/// If the sum is not observed, there is no second result, and the witness of the first leads to the sum that is found
/// first.
#[test]
fn observed_results_are_come_to(rt: HostRuntime) -> Result<(), Fail> {
    let alloc = rt.alloc();
    let file = image_of(alloc, LOST)?;
    let words = ObservedWords::of_list(alloc, "15,1-14", 16)?.ok_or("no list")?;
    let search = Asked {
        limit: 100,
        each: true,
        fair: false,
        witness: None,
        observed: Some(&words),
        filter: None,
    };
    leads_to(&rt, alloc, file.as_slice(), search, 1, "00000002")?;
    let said = "error: an end can be reached from each state\n";
    leads_nowhere(&rt, alloc, file.as_slice(), search, 0, said);
    leads_nowhere(
        &rt,
        alloc,
        file.as_slice(),
        search,
        2,
        "error: there is no result 2\n",
    );
    Ok(())
}

/// If a processor spins, no end can be reached. The steps end when it has looked and begins to spin. If it spins from
/// the start, there are no steps.
#[test]
fn spinning_is_come_to(rt: HostRuntime) -> Result<(), Fail> {
    let alloc = rt.alloc();
    for (text, report) in [
        (
            GLIMPSE,
            "processor 0 pc 00010018 run retired 6 console -\n\
            processor 1 pc 00010024 run retired 5 console -\nword 0 00000001\n",
        ),
        (
            SPIN,
            "processor 0 pc 00010000 run retired 0 console -\n\
            processor 1 pc 00010000 run retired 0 console -\n",
        ),
    ] {
        let file = image_of(alloc, text)?;
        for search in [each(100), up_to_exchanges(100)] {
            let ran = explored(alloc, file.as_slice(), 1, search, 0);
            assert_same!(rt; ran.status, 1);
            assert!(rt; ran.err.is_empty());
            assert_same!(rt; str::from_utf8(replayed(alloc, ran.trace.as_slice(), file.as_slice()).as_slice())?, report);
        }
    }
    Ok(())
}
