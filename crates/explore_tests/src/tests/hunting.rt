//! `ultra hunt`, from the bytes of an image to the bytes of the lines. The images are assembled from texts, and the
//! results are worked out by hand.

ghost use Rattle.std.specs.Prelude.{⊤};

mod devices;

use flat_machine::Config;
use hunt_command::{Hunt, HuntObserver, Policy, Traces, UNEXPECTED, UNFINISHED, hunt_command};
use link::Meter;
use observed_results::ObservedWords;
use random_schedules::Strategy;
use std::alloc::{AllocError, AllocGlobal, Global};
use std::io::Write;
use std::process::Abort;
use std::test::Fail;
use std::thread::Threads;
use test_support::{Sink, assert_same, image_of, size};

/// Keeps the traces in memory, in the order in which they are closed.
#[derive(Drop)]
struct Kept {
    alloc: Global,
    /// The number of a trace that is there already, if any.
    there: Option<u32>,
    /// The number of the trace whose writer fails, and the call that fails, if any.
    fails: Option<(u32, usize)>,
    /// The number of the trace that was opened last.
    number: u32,
    traces: Vec<(u32, Vec<u8>)>,
}

/// No trace is there yet, and no write fails.
fn keeping(alloc: Global) -> Kept {
    Kept {
        alloc,
        there: None,
        fails: None,
        number: 0,
        traces: Vec::new(alloc),
    }
}

impl Traces for Kept {
    type Writer = Meter<Sink>;

    ghost finds = { λ kept number is_there. ⊤ };

    ghost opens = { λ kept number writer after. ⊤ };

    ghost closes = { λ kept writer after. ⊤ };

    fn is_there(&self, number: u32) -> Result<bool, AllocError> {
        Ok(self.there == Some(number))
    }

    fn tell_there<E: Write>(&self, number: u32, err: &mut E) {
        let _ = writeln!(err, "{number} is there");
    }

    fn open(&mut self, number: u32) -> Result<Meter<Sink>, AllocError> {
        self.number = number;
        let fails_at = match self.fails {
            Some((failing, call)) if failing == number => call,
            _ => 0,
        };
        Ok(Meter::new(Sink::new(Vec::new(self.alloc), fails_at)))
    }

    fn close(&mut self, writer: Meter<Sink>) {
        let _ = self.traces.push((self.number, writer.device.bytes));
    }
}

/// The progress that a hunt reported: the last numbers of runs and of results, and how often it was over.
#[derive(Drop)]
struct Heard {
    runs: u32,
    results: usize,
    over: u8,
}

impl HuntObserver for Heard {
    fn progress(&mut self, runs: u32, results: usize) {
        self.runs = runs;
        self.results = results;
    }

    fn over(&mut self) {
        self.over = self.over.saturating_add(1);
    }
}

/// The exit status of the command, what it wrote, the traces that it left, and its progress.
#[derive(Drop)]
struct Ran {
    status: u8,
    out: Vec<u8>,
    err: Vec<u8>,
    traces: Vec<(u32, Vec<u8>)>,
    heard: Heard,
}

/// This many runs, with a budget of 1,000 each.
fn runs_from(start: u32, runs: u32) -> Hunt<'static> {
    Hunt {
        policy: Policy {
            strategy: Strategy::Random,
            budget: 1000,
        },
        runs,
        start,
        expect_one: false,
        observed: None,
    }
}

/// Hunts on this image on one thread, and keeps the traces.
fn hunted<R: Threads + Sync>(
    rt: &R,
    image: &[u8],
    config: Config,
    hunt: Hunt<'_>,
    kept: Kept,
) -> Ran {
    hunted_by(rt, 1, image, config, hunt, kept)
}

/// Hunts on this image on this many threads, and keeps the traces.
fn hunted_by<R: Threads + Sync>(
    rt: &R,
    jobs: u8,
    image: &[u8],
    config: Config,
    hunt: Hunt<'_>,
    kept: Kept,
) -> Ran {
    let alloc = kept.alloc;
    let mut heard = Heard {
        runs: 0,
        results: 0,
        over: 0,
    };
    let mut traces = Some(kept);
    let mut out = Meter::new(Vec::new(alloc));
    let mut err = Vec::new(alloc);
    let status = hunt_command(
        rt,
        jobs,
        alloc,
        &mut Meter::new(image),
        config,
        hunt,
        &mut traces,
        &mut heard,
        &mut out,
        &mut err,
    );
    Ran {
        status,
        out: out.device,
        err,
        traces: match traces {
            Some(kept) => kept.traces,
            None => Vec::new(alloc),
        },
        heard,
    }
}

/// The trace of `ecall` on one processor: it halts in its only turn.
const HALTS: [u8; 24] = [
    0x55, 0x4C, 0x54, 0x52, 1, 0, 4, 4, 1, 0, 0, 0, // the header
    1, 0, 0, 0, 0, 0, 0, 0, 0, 0, 0, 0, // the record
];

/// All runs come to one result. After the greatest number of a run comes 0. Only the trace of the first run is written.
#[test]
fn one_result(rt: HostRuntime) -> Result<(), Fail> {
    let alloc = rt.alloc();
    for (text, start, lines, status) in [
        (
            "ecall",
            7,
            "runs 3 first 7 over\nprocessor 0 pc 00010000 halt 00 console -\n",
            0,
        ),
        (
            "addi x17, x0, 1\naddi x10, x0, 65\necall\nebreak",
            4_294_967_295,
            "runs 3 first 4294967295 over\nprocessor 0 pc 0001000c fault 8 console 41\n",
            1,
        ),
        (
            "lui x5, 0x80000\nsw x5, 4(x5)\nloop: jal x0, loop",
            0,
            "runs 3 first 0 budget\nprocessor 0 pc 00010008 run console -\nword 1 80000000\nunfinished 0 1 2\n",
            UNFINISHED,
        ),
    ] {
        let image = image_of(alloc, text)?;
        let ran = hunted(
            &rt,
            image.as_slice(),
            size(0),
            runs_from(start, 3),
            keeping(alloc),
        );
        assert_same!(rt; str::from_utf8(ran.out.as_slice())?, lines);
        assert_same!(rt; ran.err.len(), 0);
        assert_same!(rt; ran.status, status);
        assert_same!(rt; ran.traces.len(), 1);
        let (number, trace) = ran.traces.get(0).ok_or("no trace")?;
        assert_same!(rt; *number, start);
        if text == "ecall" {
            assert_same!(rt; trace.as_slice(), HALTS.as_slice());
        }
    }
    Ok(())
}

/// Both of two processors swap 1 into word 0. The one that gets 0 halts, and the other does as this text says.
const SECOND: &str = "lui x5, 0x80000\naddi x6, x0, 1\namoswap.w x7, x6, (x5)\nbeq x7, x0, first\n";

/// A run in which a processor waits for ever is unfinished, unless a fault has stopped another. The exit status is
/// [`UNFINISHED`] if some run is unfinished and no fault has stopped a processor in any run.
#[test]
fn unfinished_runs(rt: HostRuntime) -> Result<(), Fail> {
    let alloc = rt.alloc();
    // Whoever is second waits for ever, so every run is unfinished; or stops by a fault, so every run is over.
    for (rest, last, status) in [
        (
            "wait: jal x0, wait\nfirst: ecall",
            "unfinished 8 9\n",
            UNFINISHED,
        ),
        ("ebreak\nfirst: jal x0, first", "", 1),
    ] {
        let text = format!(in alloc; "{SECOND}{rest}")?;
        let image = image_of(alloc, text.as_str())?;
        let ran = hunted(
            &rt,
            image.as_slice(),
            size(1),
            runs_from(8, 2),
            keeping(alloc),
        );
        let printed = str::from_utf8(ran.out.as_slice())?;
        assert!(rt; printed.ends_with(last), "{printed}");
        assert_same!(rt; printed.contains("unfinished"), !last.is_empty());
        assert_same!(rt; ran.status, status);
        assert_same!(rt; ran.err.len(), 0);
    }
    Ok(())
}

/// Both of two processors add 1 to word 0 by a load and a store, so that one of the adds may be lost.
const ADDS: &str = "lui x5, 0x80000\nlw x6, 0(x5)\naddi x6, x6, 1\nsw x6, 0(x5)\necall";

/// Each result is printed, its trace is written under the number of its first run, and the progress is reported.
#[test]
fn lost_add(rt: HostRuntime) -> Result<(), Fail> {
    let alloc = rt.alloc();
    let image = image_of(alloc, ADDS)?;
    let ran = hunted(
        &rt,
        image.as_slice(),
        size(1),
        runs_from(1, 24),
        keeping(alloc),
    );
    let text = str::from_utf8(ran.out.as_slice())?;
    assert!(rt; text.contains("word 0 00000001\n"), "{text}");
    assert!(rt; text.contains("word 0 00000002\n"), "{text}");
    assert_same!(rt; text.lines().count(), 8);
    assert_same!(rt; ran.status, 0);
    assert_same!(rt; ran.traces.len(), 2);
    let (first, second) = two_of(&ran.traces)?;
    for number in [first.0, second.0] {
        let line = format!(in alloc; " first {number} over\n")?;
        assert!(rt; text.contains(line.as_str()), "{text}");
    }
    assert!(rt; first.0 == 1 && first.0 < second.0);
    let Heard {
        runs,
        results,
        over,
    } = ran.heard;
    assert_same!(rt; (runs, results, over), (24, 2, 1));
    cut_traces(&rt, image.as_slice(), &ran)
}

/// If one result is expected, more than one has a status of its own, but that of a fault or of an unfinished run comes
/// before it. Results that differ in words that are not observed are one.
#[test]
fn expected_results(rt: HostRuntime) -> Result<(), Fail> {
    let alloc = rt.alloc();
    let faults = format!(in alloc; "{SECOND}ebreak\nfirst: jal x0, first")?;
    let waits = format!(in alloc; "{SECOND}wait: jal x0, wait\nfirst: ecall")?;
    let other = ObservedWords::of_list(alloc, "1-3,7", 8)?.ok_or("no list")?;
    let first = ObservedWords::of_list(alloc, "2,0", 8)?.ok_or("no list")?;
    for (text, observed, results, status) in [
        ("ecall", None, 1, 0),
        (ADDS, None, 2, UNEXPECTED),
        (ADDS, Some(&first), 2, UNEXPECTED),
        (ADDS, Some(&other), 1, 0),
        (faults.as_str(), None, 2, 1),
        (waits.as_str(), None, 2, UNFINISHED),
    ] {
        let image = image_of(alloc, text)?;
        let hunt = Hunt {
            expect_one: true,
            observed,
            ..runs_from(1, 24)
        };
        let ran = hunted(&rt, image.as_slice(), size(1), hunt, keeping(alloc));
        assert_same!(rt; ran.heard.results, results);
        assert_same!(rt; ran.status, status);
        assert_same!(rt; ran.err.len(), 0);
    }
    Ok(())
}

/// The number of threads changes nothing that a hunt prints and writes, with several results and with runs that are
/// unfinished. The last of the batches is shorter than the others. After the greatest number of a run comes 0.
#[test]
fn number_of_threads(rt: HostRuntime) -> Result<(), Fail> {
    let alloc = rt.alloc();
    let waits = format!(in alloc; "{SECOND}wait: jal x0, wait\nfirst: ecall")?;
    for (text, start, status) in [(ADDS, 4_294_967_290, 0), (waits.as_str(), 1, UNFINISHED)] {
        let image = image_of(alloc, text)?;
        let hunt = runs_from(start, 20);
        let one = hunted(&rt, image.as_slice(), size(1), hunt, keeping(alloc));
        assert_same!(rt; one.status, status);
        assert_same!(rt; one.traces.len(), 2);
        for jobs in [2, 7] {
            let other = hunted_by(&rt, jobs, image.as_slice(), size(1), hunt, keeping(alloc));
            assert_same!(rt; other.status, status);
            assert_same!(rt; other.out.as_slice(), one.out.as_slice());
            assert_same!(rt; other.err.len(), 0);
            assert!(rt; other.traces == one.traces, "{jobs} threads");
            assert_same!(rt; other.heard.runs, 20);
        }
    }
    Ok(())
}

/// The first two of some traces, each with the number of its run.
fn two_of(traces: &Vec<(u32, Vec<u8>)>) -> Result<(&(u32, Vec<u8>), &(u32, Vec<u8>)), Fail> {
    let first = traces.get(0).ok_or("no first trace")?;
    let second = traces.get(1).ok_or("no second trace")?;
    Ok((first, second))
}

/// If a write of the second trace fails, the first is whole, the second is written up to the failure, and nothing is
/// printed. If one of the traces is there already, nothing is written.
fn cut_traces<R: Threads + Abort + Sync + AllocGlobal>(
    rt: &R,
    image: &[u8],
    ran: &Ran,
) -> Result<(), Fail> {
    let (first, second) = two_of(&ran.traces)?;
    let mut fails = keeping(rt.alloc());
    fails.fails = Some((second.0, 15));
    let cut = hunted(rt, image, size(1), runs_from(1, 24), fails);
    assert_same!(rt; cut.status, 3);
    assert_same!(rt; cut.out.len(), 0);
    assert_same!(rt; cut.traces.len(), 2);
    let (whole, part) = two_of(&cut.traces)?;
    assert_same!(rt; whole, first);
    assert_same!(rt; part.0, second.0);
    assert_same!(rt; Some(part.1.as_slice()), second.1.as_slice().get(..14));
    let mut there = keeping(rt.alloc());
    there.there = Some(second.0);
    let refused = hunted(rt, image, size(1), runs_from(1, 24), there);
    let reported = format!(in rt.alloc(); "{} is there\n", second.0)?;
    assert_same!(rt; refused.status, 2);
    assert_same!(rt; refused.out.len(), 0);
    assert_same!(rt; refused.err.as_slice(), reported.as_bytes());
    assert_same!(rt; refused.traces.len(), 0);
    Ok(())
}
