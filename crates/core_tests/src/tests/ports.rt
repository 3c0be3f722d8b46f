//! Turns and pokes of one port. The words and the values come from the manual.

use flat_machine::{CODE_START, Cause, Fault, Retired, Setting, Status};
use hart::{Core, Taken};
use local_memory::Code;
use machine_ports::{Begun, Port};
use phi_algebra::Phi;
use rv_table::{AmoOp, Immediate, ImmediateOp, Insn, Register};
use std::alloc::AllocGlobal;
use std::process::Abort;
use std::test::Fail;
use test_support::assert_same;

/// `addi x3, x1, 7`.
const ADDI: u32 = 0x0070_8193;

/// `amoadd.w x3, x2, (x1)`.
const AMOADD: u32 = 0x0020_A1AF;

/// `ecall`.
const ECALL: u32 = 0x0000_0073;

/// A port, and the code that its processor runs.
#[derive(Drop)]
struct Rig {
    code: Code,
    port: Port,
}

/// Processor 2 of four, with sixteen shared words, about to execute this one instruction. `x1` is the address of
/// shared word 2, `x2` is 5, and the other registers are 0.
fn before(rt: &(impl Abort + AllocGlobal), word: u32) -> Result<Rig, Fail> {
    let setting = Setting {
        number: 2,
        processors: 4,
        shared_words: 16,
    };
    let code = Code::new(rt.alloc(), &word.to_le_bytes())?;
    let port = Port::new(rt.alloc(), setting, CODE_START, &[])?;
    let mut rig = Rig { code, port };
    assert!(rt; rig.poke_register(rt, 1, 0x8000_0008));
    assert!(rt; rig.poke_register(rt, 2, 5));
    Ok(rig)
}

impl Rig {
    /// Begins a turn of a processor that runs and has no open reference.
    fn begin(&mut self, rt: &impl Abort) -> Begun {
        assert!(rt; self.port.is_running());
        assert!(rt; !self.port.is_open());
        self.port.begin(&self.code)
    }

    /// The core, which is in its port.
    fn core(&self, rt: &impl Abort) -> &Core {
        self.port.core().expect(rt, "the core is here")
    }

    /// Writes a register of the core, which is in its port.
    fn poke_register(&mut self, rt: &impl Abort, register: u8, value: u32) -> bool {
        assert!(rt; !self.port.is_away());
        self.port.poke_register(register, value)
    }

    /// Writes a byte of the local memory of the core, which is in its port.
    fn poke_byte(&mut self, rt: &impl Abort, address: u32, value: u8) -> bool {
        assert!(rt; !self.port.is_away());
        self.port.poke_byte(address, value)
    }
}

/// A local instruction retires at once.
#[test]
fn local_instruction(rt: HostRuntime) -> Result<(), Fail> {
    let mut rig = before(&rt, ADDI)?;
    let retired = Retired {
        pc: 0x0001_0000,
        insn: Insn::OpImm {
            op: ImmediateOp::Addi,
            rd: Register::new(3),
            rs1: Register::new(1),
            imm: Immediate::new(7),
        },
        result: Some(0x8000_000F),
        out: None,
    };
    assert_same!(rt; rig.begin(&rt), Begun::Retired(retired));
    assert!(rt; !rig.port.is_open());
    assert_same!(rt; rig.core(&rt).pc(), 0x0001_0004);
    assert_same!(rt; rig.core(&rt).registers()[3], 0x8000_000F);
    Ok(())
}

/// A reference opens the port and changes nothing else: `pc` and the register are not written yet.
#[test]
fn reference(rt: HostRuntime) -> Result<(), Fail> {
    let mut rig = before(&rt, AMOADD)?;
    let referred = Begun::Referred {
        word: 2,
        phi: Phi::Add(5),
    };
    assert_same!(rt; rig.begin(&rt), referred);
    assert!(rt; rig.port.is_open());
    assert!(rt; rig.port.is_running());
    assert_same!(rt; rig.core(&rt).pc(), 0x0001_0000);
    assert_same!(rt; rig.core(&rt).registers()[3], 0);
    Ok(())
}

/// A halt or a fault stops the processor and leaves `pc` as it was.
#[test]
fn stops(rt: HostRuntime) -> Result<(), Fail> {
    for (word, cause, status) in [
        (ECALL, Cause::Halt(0), Status::Halted(0)),
        (0, Cause::Fault(Fault::NoRow), Status::Faulted(Fault::NoRow)),
        (
            0x0010_0073,
            Cause::Fault(Fault::Breakpoint),
            Status::Faulted(Fault::Breakpoint),
        ),
    ] {
        let mut rig = before(&rt, word)?;
        assert_same!(rt; rig.begin(&rt), Begun::Stopped(cause), word);
        assert!(rt; !rig.port.is_running(), "{word:08x}");
        assert!(rt; !rig.port.is_open(), "{word:08x}");
        assert_same!(rt; rig.core(&rt).status(), status, word);
        assert_same!(rt; rig.core(&rt).pc(), 0x0001_0000, word);
    }
    Ok(())
}

/// A poke writes registers 1 to 31 and, as register 32, `pc` if the value is divisible by 4. Each row has the register,
/// the value, whether it is written, and `pc` afterwards.
#[test]
fn registers_are_poked(rt: HostRuntime) -> Result<(), Fail> {
    let mut rig = before(&rt, 0)?;
    for (register, value, is_written, pc) in [
        (0, 1, false, 0x0001_0000),
        (1, 0xFFFF_FFFF, true, 0x0001_0000),
        (31, 3, true, 0x0001_0000),
        (32, 0x0001_0008, true, 0x0001_0008),
        (32, 0x0001_0001, false, 0x0001_0008),
        (32, 0x0001_0002, false, 0x0001_0008),
        (32, 0x0001_0003, false, 0x0001_0008),
        (32, 0xFFFF_FFFC, true, 0xFFFF_FFFC),
        (33, 4, false, 0xFFFF_FFFC),
        (255, 4, false, 0xFFFF_FFFC),
    ] {
        assert_same!(rt; rig.poke_register(&rt, register, value), is_written, (&register, &value));
        assert_same!(rt; rig.core(&rt).pc(), pc, (&register, &value));
    }
    let registers = rig.core(&rt).registers();
    assert_same!(rt; (registers[0], registers[1], registers[2]), (0, 0xFFFF_FFFF, 5));
    assert_same!(rt; (registers[30], registers[31]), (0, 3));
    Ok(())
}

/// A poke writes bytes of local memory, and no others.
#[test]
fn bytes_are_poked(rt: HostRuntime) -> Result<(), Fail> {
    let mut rig = before(&rt, 0)?;
    for (address, is_written) in [
        (0x0001_FFFF, false),
        (0x0002_0000, true),
        (0x0002_FFFF, true),
        (0x0003_0000, false),
        (0x8000_0000, false),
    ] {
        assert_same!(rt; rig.poke_byte(&rt, address, 0xA5), is_written, address);
        let byte = rig.core(&rt).byte(address).ok();
        assert_same!(rt; byte, is_written.then_some(0xA5), address);
    }
    assert_same!(rt; rig.core(&rt).byte(0x0002_0001).ok(), Some(0));
    Ok(())
}

/// A core that is taken out of its port is away. It takes instructions by itself, and can be put back.
#[test]
fn cores_are_taken_and_put(rt: HostRuntime) -> Result<(), Fail> {
    let mut rig = before(&rt, ADDI)?;
    let mut core = rig.port.take_core().expect(&rt, "the core is here");
    assert!(rt; rig.port.is_away());
    assert!(rt; rig.port.core().is_none());
    assert!(rt; rig.port.take_core().is_none());
    assert!(rt; !rig.port.is_running());
    assert!(rt; matches!(core.take(&rig.code), Taken::Retired(_)));
    rig.port.put_core(core);
    assert!(rt; !rig.port.is_away());
    assert!(rt; rig.port.is_running());
    assert_same!(rt; rig.core(&rt).pc(), 0x0001_0004);
    assert_same!(rt; rig.core(&rt).registers()[3], 0x8000_000F);
    Ok(())
}
