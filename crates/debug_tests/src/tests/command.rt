//! Exit statuses, and what is written to standard error.

ghost use Rattle.std.specs.Prelude.{⊤};

mod saving;

use debug_session::{Connect, SessionEnd, debug_command, debug_end};
use flat_machine::Config;
use link::{Failed, Meter};
use std::alloc::{AllocGlobal, Global};
use std::io::Read;
use std::process::Abort;
use std::sync::Wait;
use std::test::Fail;
use test_support::{Broken, EBREAK, Sink, Source, assert_same, lend, machine_of, size};

/// A link over memory. It may be shut, and a read or a write may fail.
#[derive(Drop)]
struct LoopbackPort {
    alloc: Global,
    input: &'static [u8],
    read_fails_at: usize,
    write_fails_at: usize,
    is_shut: bool,
    knocks: usize,
}

impl Connect for LoopbackPort {
    type Reader = Meter<Source<'static>>;

    type Writer = Meter<Sink>;

    ghost gives = { λ door link. ⊤ };

    fn connect(&mut self) -> Result<(Meter<Source<'static>>, Meter<Sink>), Failed> {
        self.knocks = self.knocks.saturating_add(1);
        if self.is_shut {
            return Err(Failed);
        }
        let reader = Meter::new(Source::new(self.input, self.read_fails_at));
        let writer = Meter::new(Sink::new(Vec::new(self.alloc), self.write_fails_at));
        Ok((reader, writer))
    }
}

/// An open port that gives these lines.
fn open_door(alloc: Global, input: &'static [u8]) -> LoopbackPort {
    LoopbackPort {
        alloc,
        input,
        read_fails_at: 0,
        write_fails_at: 0,
        is_shut: false,
        knocks: 0,
    }
}

/// Checks the exit status of a command on this file, and what it writes to standard error.
fn ends<F: Read + Drop>(
    rt: &(impl Wait + Abort + AllocGlobal),
    (file, config): (F, Config),
    door: &mut LoopbackPort,
    status: u8,
    reported: &str,
) {
    let mut err = Vec::new(rt.alloc());
    let mut trace: Option<Meter<Sink>> = None;
    let ended = debug_command(
        rt,
        rt.alloc(),
        &mut Meter::new(file),
        config,
        1000,
        door,
        &mut trace,
        &mut err,
    );
    assert_same!(rt; ended, status);
    assert_same!(rt; err.as_slice(), reported.as_bytes());
}

/// A session that ends well has status 0, or 1 if a processor is faulted.
#[test]
fn sessions_end(rt: HostRuntime) {
    for (input, status) in [
        (b"state 0\n".as_slice(), 0),
        (b"quit\n", 0),
        (b"step 3\nquit\nset 0 1 1\n", 1),
        (b"cont\n", 1),
        (b"cont", 0),
    ] {
        let mut door = open_door(rt.alloc(), input);
        ends(&rt, (EBREAK.as_slice(), size(2)), &mut door, status, "");
        assert_same!(rt; door.knocks, 1);
    }
}

/// A failure of the link is reported, whatever the processors did.
#[test]
fn links_fail(rt: HostRuntime) {
    for (read_fails_at, write_fails_at, is_shut) in [
        (1, 0, false),
        (6, 0, false),
        (0, 2, false),
        (0, 0, true),
    ] {
        let mut door = LoopbackPort {
            read_fails_at,
            write_fails_at,
            is_shut,
            ..open_door(rt.alloc(), b"cont\n")
        };
        ends(
            &rt,
            (EBREAK.as_slice(), size(2)),
            &mut door,
            3,
            "ultra: link\n",
        );
    }
}

/// An image or a size that is refused has its own fault, and no link is opened.
#[test]
fn images_are_refused(rt: HostRuntime) {
    let mut door = open_door(rt.alloc(), b"quit\n");
    ends(&rt, (&EBREAK[..51], size(2)), &mut door, 2, "ultra: I1\n");
    ends(
        &rt,
        (EBREAK.as_slice(), size(7)),
        &mut door,
        2,
        "ultra: K1\n",
    );
    ends(&rt, (Broken, size(2)), &mut door, 3, "ultra: I9\n");
    assert_same!(rt; door.knocks, 0);
}

/// How a session ends, its exit status, and what is reported.
static ENDS: [(SessionEnd, u8, &str); 4] = [
    (SessionEnd::Quit, 0, ""),
    (SessionEnd::ReadFailed, 3, "ultra: link\n"),
    (SessionEnd::Memory, 4, "ultra: memory\n"),
    (SessionEnd::TraceFull, 4, "ultra: L2\n"),
];

/// Each end of a session has its exit status and its report, also out of memory and without room for the trace.
#[test]
fn ends_are_told(rt: HostRuntime) -> Result<(), Fail> {
    lend(machine_of(rt.alloc(), "ebreak", size(2))?, |machine| {
        for (end, status, reported) in &ENDS {
            let mut err = Vec::new(rt.alloc());
            assert_same!(rt; debug_end(*end, machine, &mut err), *status);
            assert_same!(rt; err.as_slice(), reported.as_bytes());
        }
    });
    Ok(())
}
