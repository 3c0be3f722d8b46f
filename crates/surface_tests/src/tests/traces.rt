//! The trace of a program that halts at its first instruction: it is written, read and replayed.

use elf_image::{Config, Meter};
use machine_log::{StalledStep, replay};
use machine_steps::{Status, Step};
use std::alloc::Global;
use std::process::Abort;
use std::test::Fail;
use test_support::{assert_same, lend, machine_of, size};
use trace_file::{TraceError, is_trace, read_trace, write_trace};

/// The header of a machine of one processor, and one turn.
static TRACE: [u8; 24] = [
    0x55, 0x4C, 0x54, 0x52, 1, 0, 4, 4, 1, 0, 0, 0, // the header
    1, 0, 0, 0, 0, 0, 0, 0, 0, 0, 0, 0, // the record
];

/// The trace of these steps, as it is written.
fn written(rt: &impl Abort, alloc: Global, config: &Config, steps: &[Step]) -> Vec<u8> {
    assert!(rt; is_trace(config, steps));
    let mut writer = Meter::new(Vec::new(alloc));
    assert_same!(rt; write_trace(&mut writer, config, steps), Ok(()));
    writer.device
}

/// Why these bytes are no trace, if they are none.
fn refusal(alloc: Global, bytes: &[u8]) -> Option<TraceError> {
    read_trace(alloc, &mut Meter::new(bytes)).err()
}

#[test]
fn a_trace_is_written_and_read(rt: HostRuntime) -> Result<(), Fail> {
    lend(
        written(&rt, rt.alloc(), &size(0), &[Step::Turn(0)]),
        |bytes| {
            assert_same!(rt; bytes.as_slice(), TRACE.as_slice());
        },
    );
    assert_same!(rt; refusal(rt.alloc(), &TRACE[..23]), Some(TraceError::Truncated));
    lend(
        read_trace(rt.alloc(), &mut Meter::new(TRACE.as_slice()))?,
        |trace| {
            assert_same!(rt; trace.steps(), [Step::Turn(0)].as_slice());
            assert_same!(rt; trace.config(1024), size(0));
        },
    );
    Ok(())
}

/// A processor that has halted takes no second turn.
#[test]
fn a_trace_is_replayed(rt: HostRuntime) -> Result<(), Fail> {
    lend(machine_of(rt.alloc(), "ecall", size(0))?, |machine| {
        let twice = [Step::Turn(0), Step::Turn(0)];
        assert_same!(rt; replay(machine, &twice), Err(StalledStep { place: 1 }));
        assert_same!(rt; machine.status(0), Some(Status::Halted(0)));
        assert_same!(rt; replay(machine, &[]), Ok(()));
    });
    Ok(())
}
