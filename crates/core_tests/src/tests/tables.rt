//! Rows of the instruction table, and the small types that all parts share: sizes, faults, causes and outcomes.

use flat_machine::{Cause, Config, Fault, MAX_STAGES, Size, Status};
use messages::Seconds;
use rv_table::{AmoOp, Format, Immediate, Insn, Register, RegisterOp, Row, ShiftOp, row_of};
use std::test::Fail;
use steps::Outcome;
use test_support::assert_same;

/// Masks and matches come from the manual's listings of instructions.
#[test]
fn rows_of_instructions(rt: HostRuntime) -> Result<(), Fail> {
    let rd = Register::new(1);
    let rs1 = Register::new(2);
    let rs2 = Register::new(31);
    let srai = Insn::Shift {
        op: ShiftOp::Srai,
        rd,
        rs1,
        amount: Immediate::new(3),
    };
    let amomaxu = Insn::Amo {
        op: AmoOp::Maxu,
        rd,
        rs1,
        rs2,
        aq: true,
        rl: false,
    };
    let sub = Insn::Op {
        op: RegisterOp::Sub,
        rd,
        rs1,
        rs2,
    };
    let mulhsu = Insn::Op {
        op: RegisterOp::Mulhsu,
        rd,
        rs1,
        rs2,
    };
    for (insn, mask, match_, format) in [
        (srai, 0xFE00_707F, 0x4000_5013, Format::Shift),
        (amomaxu, 0xF800_707F, 0xE000_202F, Format::Atomic),
        (sub, 0xFE00_707F, 0x4000_0033, Format::RType),
        (mulhsu, 0xFE00_707F, 0x0200_2033, Format::RType),
        (Insn::Ecall, 0xFFFF_FFFF, 0x0000_0073, Format::System),
    ] {
        let want = Row {
            mask,
            match_,
            format,
        };
        assert_same!(rt; *row_of(&insn), want);
    }
    assert_same!(rt; rs2.number(), 31);
    assert_same!(rt; Immediate::<12>::new(0xFFF).field(), 0xFFF);
    Ok(())
}

/// Each size of a machine at its limits, and one past them.
#[test]
fn limits(rt: HostRuntime) {
    for (k, c, b, r, shared_words, is_within) in [
        (0, 2, 0, 1, 1, true),
        (6, 16, 16, 1, 262_144, true),
        (7, 2, 0, 1, 1, false),
        (255, 2, 0, 1, 1, false),
        (0, 1, 0, 1, 1, false),
        (0, 0, 0, 1, 1, false),
        (0, 17, 0, 1, 1, false),
        (0, 2, 17, 1, 1, false),
        (0, 2, 0, 1, 0, false),
        (0, 2, 0, 1, 262_145, false),
        (0, 3, 0, 2, 1, true),
        (0, 4, 0, 3, 1, true),
        (6, 16, 16, 3, 262_144, true),
        (0, 2, 0, 0, 1, false),
        (0, 2, 0, 2, 1, false),
        (0, 3, 0, 3, 1, false),
        (0, 16, 0, 4, 1, false),
        (0, 16, 0, 255, 1, false),
    ] {
        let config = Config {
            k,
            c,
            b,
            r,
            shared_words,
        };
        assert_same!(rt; config.is_within_limits(), is_within, config);
    }
}

/// Each stage doubles the number of processors.
#[test]
fn processors(rt: HostRuntime) {
    for (k, processors) in [(0, 1), (1, 2), (2, 4), (3, 8), (4, 16), (5, 32), (6, 64)] {
        assert!(rt; k <= MAX_STAGES);
        let config = Config {
            k,
            c: 4,
            b: 4,
            r: 1,
            shared_words: 1024,
        };
        assert_same!(rt; config.processors(), processors, k);
    }
}

/// Each size, its bytes and the greatest number that they hold.
#[test]
fn bytes_and_ones(rt: HostRuntime) {
    for (size, bytes, ones) in [
        (Size::Byte, 1, 255),
        (Size::Half, 2, 65_535),
        (Size::Word, 4, 4_294_967_295),
    ] {
        assert_same!(rt; size.bytes(), bytes, size);
        assert_same!(rt; size.ones(), ones, size);
    }
}

/// The faults in the order of their numbers.
#[test]
fn numbers(rt: HostRuntime) {
    for (number, fault) in [
        (1, Fault::NoRow),
        (2, Fault::FetchOutsideCode),
        (3, Fault::TargetNotAligned),
        (4, Fault::AddressNotAligned),
        (5, Fault::NoRegion),
        (6, Fault::StoreToCode),
        (7, Fault::UnknownCall),
        (8, Fault::Breakpoint),
    ] {
        assert_same!(rt; fault.number(), number, fault);
    }
}

/// The status after a stop shows its cause.
#[test]
fn status_of_each_cause(rt: HostRuntime) {
    for (cause, status) in [
        (Cause::Halt(0), Status::Halted(0)),
        (Cause::Halt(255), Status::Halted(255)),
        (Cause::Fault(Fault::NoRow), Status::Faulted(Fault::NoRow)),
        (
            Cause::Fault(Fault::Breakpoint),
            Status::Faulted(Fault::Breakpoint),
        ),
    ] {
        assert_same!(rt; cause.status(), status);
    }
}

/// `Stalled` is the only outcome of a step that did nothing.
#[test]
fn one_outcome_is_stalled(rt: HostRuntime) {
    assert!(rt; Outcome::Stalled.is_stalled());
    for outcome in [
        Outcome::Issued,
        Outcome::Stopped(Cause::Halt(0)),
        Outcome::Moved,
        Outcome::Combined {
            first: 0,
            second: 2,
        },
        Outcome::Served { leader: 0 },
        Outcome::Answered {
            to: Seconds::One(1),
        },
        Outcome::Poked,
    ] {
        assert!(rt; !outcome.is_stalled(), "{outcome:?}");
    }
}
