//! Lines of a serial order, written by hand. What instructions do is taken from the RISC-V manual.

use flat_machine::{Cause, Event, Fault, Poke, Retired};
use rv_table::{AmoOp, Immediate, ImmediateOp, Insn, LoadOp, Register, StoreOp};
use std::test::Fail;
use test_support::assert_same;
use trace_lines::{
    Choice, Reference, processor_of_poke, push_poke, push_turn, word_of_instruction, word_of_poke,
};

/// `amoadd.w x8, x7, (x5)`.
fn add() -> Insn {
    Insn::Amo {
        op: AmoOp::Add,
        rd: Register::new(8),
        rs1: Register::new(5),
        rs2: Register::new(7),
        aq: false,
        rl: false,
    }
}

/// A load into `x1`, from this offset to `x5`.
fn load(op: LoadOp, imm: Immediate<12>) -> Insn {
    Insn::Load {
        op,
        rd: Register::new(1),
        rs1: Register::new(5),
        imm,
    }
}

/// `sh x6, 2(x5)`.
fn store() -> Insn {
    Insn::Store {
        op: StoreOp::Sh,
        rs1: Register::new(5),
        rs2: Register::new(6),
        imm: Immediate::new(2),
    }
}

/// An instruction that retired at 0x0001000c.
fn retired(insn: Insn, value: Option<u32>, out: Option<u8>) -> Event {
    Event::Retired(Retired {
        pc: 0x0001_000C,
        insn,
        result: value,
        out,
    })
}

#[test]
fn turns(rt: HostRuntime) -> Result<(), Fail> {
    let alloc = rt.alloc();
    let mut text = String::new(alloc);
    let reference = Some(Reference {
        word: 1023,
        before: 0x8000_0000,
        after: 0x8000_0005,
    });
    let addi = Insn::OpImm {
        op: ImmediateOp::Addi,
        rd: Register::new(7),
        rs1: Register::new(0),
        imm: Immediate::new(0xFFF),
    };
    let halt = Event::Stopped(Cause::Halt(0x2A));
    let fault = Event::Stopped(Cause::Fault(Fault::Breakpoint));
    for (number, processor, event, reference) in [
        (0, 63, retired(addi, Some(0xFFFF_FFFF), None), None),
        (9, 0, retired(add(), Some(0x8000_0000), None), reference),
        (10, 1, retired(Insn::Ecall, None, Some(0x0A)), None),
        (4_194_304, 2, halt, None),
        (4_194_305, 3, fault, None),
    ] {
        push_turn(
            alloc,
            &mut text,
            number,
            processor,
            0x0001_000C,
            &event,
            &reference,
        )?;
    }
    let lines = "0 63 0001000c addi x7, x0, -1 = ffffffff
9 0 0001000c amoadd.w x8, x7, (x5) = 80000000 word 1023 80000000 80000005
10 1 0001000c ecall console 0a
4194304 2 0001000c halt 2a
4194305 3 0001000c fault 8
";
    assert_same!(rt; text.as_str(), lines);
    Ok(())
}

#[test]
fn pokes(rt: HostRuntime) -> Result<(), Fail> {
    let alloc = rt.alloc();
    let mut text = String::new(alloc);
    let register = Poke::Register {
        processor: 3,
        register: 31,
        value: 0xAB,
    };
    let pc = Poke::Register {
        processor: 0,
        register: 32,
        value: 0x0001_0004,
    };
    let local = Poke::Local {
        processor: 1,
        address: 0x0002_FFFF,
        value: 0x41,
    };
    let shared = Poke::Shared {
        address: 0x8000_0006,
        value: 0xFF,
    };
    let reference = Some(Reference {
        word: 1,
        before: 0,
        after: 0x00FF_0000,
    });
    for (number, poke, reference, processor, word) in [
        (0, register, None, Some(3), None),
        (1, pc, None, Some(0), None),
        (2, local, None, Some(1), None),
        (3, shared, reference, None, Some(1)),
    ] {
        push_poke(alloc, &mut text, number, &poke, &reference)?;
        assert_same!(rt; processor_of_poke(&poke), processor, number);
        assert_same!(rt; word_of_poke(&poke), word, number);
    }
    let lines = "0 3 poke x31 000000ab
1 0 poke pc 00010004
2 1 poke 0002ffff 41
3 - poke 80000006 ff word 1 00000000 00ff0000
";
    assert_same!(rt; text.as_str(), lines);
    Ok(())
}

/// Accesses at both ends of 16 shared words and just beyond them, and in another region.
#[test]
fn words_of_instructions(rt: HostRuntime) {
    for (insn, base, word) in [
        (load(LoadOp::Lw, Immediate::new(0)), 0x8000_0000, Some(0)),
        (load(LoadOp::Lw, Immediate::new(0)), 0x8000_003C, Some(15)),
        (load(LoadOp::Lw, Immediate::new(4)), 0x8000_003C, None),
        (load(LoadOp::Lb, Immediate::new(3)), 0x8000_003C, Some(15)),
        (load(LoadOp::Lw, Immediate::new(3)), 0x8000_003C, None),
        (load(LoadOp::Lw, Immediate::new(0xFFC)), 0x8000_0000, None),
        (
            load(LoadOp::Lw, Immediate::new(0xFFC)),
            0x8000_0008,
            Some(1),
        ),
        (load(LoadOp::Lw, Immediate::new(0)), 0x0002_0000, None),
        (store(), 0x8000_0008, Some(2)),
        (store(), 0x8000_0009, None),
        (add(), 0x8000_0010, Some(4)),
        (add(), 0x8000_0012, None),
        (Insn::Ecall, 0x8000_0000, None),
    ] {
        let mut registers = [0; 32];
        registers[5] = base;
        let found = word_of_instruction(&insn, &registers, 16);
        assert_same!(rt; found, word, (&insn, &base));
    }
}

#[test]
fn choices(rt: HostRuntime) {
    for (processor, word, there, on, is_taken) in [
        (None, None, Some(1), None, true),
        (None, None, None, Some(7), true),
        (Some(1), None, Some(1), None, true),
        (Some(1), None, Some(2), None, false),
        (Some(1), None, None, Some(7), false),
        (None, Some(7), Some(2), Some(7), true),
        (None, Some(7), None, Some(7), true),
        (None, Some(7), Some(2), Some(8), false),
        (None, Some(7), Some(2), None, false),
        (Some(1), Some(7), Some(1), Some(7), true),
        (Some(1), Some(7), Some(1), Some(8), false),
        (Some(1), Some(7), Some(2), Some(7), false),
    ] {
        let choice = Choice {
            processor,
            word,
            from: None,
            to: None,
            network: false,
        };
        assert_same!(rt; choice.takes(0, there, on), is_taken, (&choice, &there, &on));
    }
}
