//! Tallies and lines of reports, worked out by hand.

ghost use Rattle.std.specs.Prelude.{◌≡◌};

use command_io::{Tally, push_processor, push_shared_word};
use flat_machine::{Fault, Retired, Status};
use rv_table::Insn;
use std::alloc::{AllocError, Global};
use std::test::Fail;
use steps::{Outcome, Step, StepObserver};
use test_support::{assert_same, lend};

/// An environment call that has retired, and has sent this byte, if any, to the console.
fn call(out: Option<u8>) -> Outcome {
    Outcome::Retired(Retired {
        pc: 0x0001_0000,
        insn: Insn::Ecall,
        result: None,
        out,
    })
}

/// Tallies steps of two processors, and a step of a third processor, which does not exist.
fn note_all(tally: &mut Tally) -> Result<(), AllocError>
    requires { tally.old.observed ≡ 0 }
{
    tally.observe(Step::Turn(0), &call(Some(0x41)))?;
    tally.observe(Step::Turn(1), &call(None))?;
    tally.observe(Step::Turn(1), &Outcome::Issued)?;
    tally.observe(Step::Serve(1), &Outcome::Served { leader: 1 })?;
    tally.observe(Step::Turn(0), &call(Some(0x0A)))?;
    tally.observe(Step::Turn(2), &call(Some(0x42)))
}

/// A tally counts only retirements.
#[test]
fn counts_retirements(rt: HostRuntime) -> Result<(), Fail> {
    let mut tally = Tally::new(rt.alloc(), 2)?;
    note_all(&mut tally)?;
    lend(tally, |tally| {
        for (p, retired, console) in [(0, 2, b"A\n".as_slice()), (1, 1, b"".as_slice())] {
            let shown = tally.of(p).ok_or("a processor")?;
            assert_same!(rt; shown.retired_count(), retired, p);
            assert_same!(rt; shown.console(), console, p);
        }
        assert!(rt; tally.of(2).is_none());
        Ok(())
    })
}

/// Lines of two processors and of two words.
fn push_lines(alloc: Global, text: &mut String) -> Result<(), AllocError> {
    let status = Status::Faulted(Fault::StoreToCode);
    push_processor(alloc, text, 63, 0x0001_00A8, status, 0, b"")?;
    push_processor(alloc, text, 0, 0, Status::Halted(0xFF), 2, b"A\n")?;
    push_shared_word(alloc, text, 0, 0x0000_1900)?;
    push_shared_word(alloc, text, 1, 0)?;
    push_shared_word(alloc, text, 262_143, 1)
}

#[test]
fn lines(rt: HostRuntime) -> Result<(), Fail> {
    let lines = "processor 63 pc 000100a8 fault 6 retired 0 console -
processor 0 pc 00000000 halt ff retired 2 console 410a
word 0 00001900
word 262143 00000001
";
    lend(String::new(rt.alloc()), |text| {
        push_lines(rt.alloc(), text)?;
        assert_same!(rt; text.as_str(), lines);
        Ok(())
    })
}
