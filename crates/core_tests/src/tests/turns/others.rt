//! Environment calls, a jump out of code, the ordering bits of an AMO, and what a debugger reads and writes.

use super::at_word;
use flat_machine::{CODE_START, Cause, Event, Fault, Retired, Status};
use hart::{Decision, Shape};
use phi_algebra::Phi;
use rv_table::{AmoOp, Insn, Register};
use std::test::Fail;
use test_support::assert_same;

const ECALL: u32 = 0x0000_0073;

/// `a7` (register 17) selects the call: 1 sends the low byte of `a0` (register 10) to the console, 2 puts the
/// processor's own number into `a0`, and 3 the number of processors.
#[test]
fn calls_retire(rt: HostRuntime) -> Result<(), Fail> {
    for (a7, result, out, a0) in [
        (1, None, Some(0x41), 0x1234_5641),
        (2, Some(2), None, 2),
        (3, Some(4), None, 4),
    ] {
        let mut rig = at_word(&rt, ECALL, 0, 0, &[])?;
        rig.core.set_register(Register::new(10), 0x1234_5641);
        rig.core.set_register(Register::new(17), a7);
        let retired = Retired {
            pc: CODE_START,
            insn: Insn::Ecall,
            result,
            out,
        };
        assert_same!(rt; rig.turn(0), Event::Retired(retired), a7);
        assert_same!(rt; rig.core.pc(), CODE_START + 4, a7);
        assert_same!(rt; rig.core.registers()[10], a0, a7);
        assert_same!(rt; rig.core.registers()[17], a7, a7);
    }
    Ok(())
}

/// Call 0 halts with the low byte of `a0`. Calls from 4 on do not exist, and fault.
#[test]
fn calls_stop(rt: HostRuntime) -> Result<(), Fail> {
    let unknown = Cause::Fault(Fault::UnknownCall);
    for (a7, cause) in [(0, Cause::Halt(0xFE)), (4, unknown), (0x8000_0000, unknown)] {
        let mut rig = at_word(&rt, ECALL, 0, 0, &[])?;
        rig.core.set_register(Register::new(10), 0x1234_56FE);
        rig.core.set_register(Register::new(17), a7);
        assert_same!(rt; rig.turn(0), Event::Stopped(cause), a7);
        assert_same!(rt; rig.core.pc(), CODE_START, a7);
        assert_same!(rt; rig.core.registers()[10], 0x1234_56FE, a7);
        assert_same!(rt; rig.core.status(), cause.status(), a7);
    }
    Ok(())
}

/// A jump out of code (`jalr x3, 0(x1)`) retires. The next turn, at its target, faults.
#[test]
fn jumps_out_of_code(rt: HostRuntime) -> Result<(), Fail> {
    let mut rig = at_word(&rt, 0x0000_81E7, 0x0002_0000, 0, &[])?;
    rig.turn(0);
    rig.stands(&rt, "jalr", 0x0002_0000, 0x0002_0000, 0, (3, 0x0001_0004));
    let fault = Fault::FetchOutsideCode;
    assert_same!(rt; rig.turn(0), Event::Stopped(Cause::Fault(fault)));
    rig.stands(
        &rt,
        "its target",
        0x0002_0000,
        0x0002_0000,
        0,
        (3, 0x0001_0004),
    );
    assert_same!(rt; rig.core.status(), Status::Faulted(fault));
    Ok(())
}

/// `amoadd.w x10, x11, (x12)` adds 2^31, with and without its acquire and release bits. The addition inverts one bit,
/// but is not turned into an exclusive or.
#[test]
fn ordering_bits_have_no_effect(rt: HostRuntime) -> Result<(), Fail> {
    for word in [0x00B6_252F, 0x06B6_252F] {
        let mut rig = at_word(&rt, word, 0, 0, &[])?;
        rig.core.set_register(Register::new(11), 0x8000_0000);
        rig.core.set_register(Register::new(12), 0x8000_0008);
        let wanted = Decision::Refer {
            word: 2,
            phi: Phi::Add(0x8000_0000),
            shape: Shape::Amo(AmoOp::Add),
        };
        assert_same!(rt; rig.core.decide(&rig.code), wanted);
        rig.turn(10);
        assert_same!(rt; rig.core.registers()[10], 10);
    }
    Ok(())
}

#[test]
fn reads_and_pokes(rt: HostRuntime) -> Result<(), Fail> {
    let mut rig = at_word(&rt, 0, 0, 0, &[1])?;
    rig.core.set_register(Register::new(0), 7);
    rig.core.set_register(Register::new(31), 7);
    rig.core.set_pc(0x0001_0010);
    rig.stands(&rt, "pokes", 0x0001_0010, 0, 0, (31, 7));
    assert_same!(rt; rig.core.setting().number, 2);
    assert_same!(rt; rig.core.setting().processors, 4);
    assert_same!(rt; rig.core.setting().shared_words, 16);
    rig.core.set_byte(0x0002_FFFF, 9);
    for (address, byte) in [
        (0x0001_FFFF, Err(Fault::NoRegion)),
        (0x0002_0000, Ok(1)),
        (0x0002_0001, Ok(0)),
        (0x0002_FFFF, Ok(9)),
        (0x0003_0000, Err(Fault::NoRegion)),
    ] {
        assert_same!(rt; rig.core.byte(address), byte, address);
    }
    Ok(())
}
