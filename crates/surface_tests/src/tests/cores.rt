//! Local memory and code, a core by itself, and a core at its port.

ghost use Rattle.std.specs.Prelude.{◌≡◌, ◌≤◌, ◌%◌, ◌^◌, length};

use hart::{Cause, Core, Decision, Fault, Retired, SavedCore, Setting, Shape, Status};
use local_memory::{Code, Local, SavedLocal, Size};
use machine_ports::{Begun, Port};
use phi_algebra::Phi;
use rv_table::{AmoOp, Insn, Register};
use std::alloc::{AllocError, AllocGlobal, Global};
use std::process::Abort;
use std::test::Fail;
use test_support::{assert_same, lend};

#[test]
fn memories(rt: HostRuntime) -> Result<(), Fail> {
    lend(
        Local::new(rt.alloc(), &[0x11, 0x22, 0x33, 0x44])?,
        |local| {
            assert_same!(rt; local.load(0x0002_0000, Size::Word), Ok(0x4433_2211));
            assert_same!(rt; local.store(0x0002_0002, Size::Half, 0xAABB), Ok(()));
            assert_same!(rt; local.store(0x0003_0000, Size::Word, 0), Err(Fault::NoRegion));
            for (address, size, wanted) in [
                (0x0002_0003, Size::Byte, Ok(0xAA)),
                (0x0002_0001, Size::Half, Err(Fault::AddressNotAligned)),
                (0x0002_0000, Size::Word, Ok(0xAABB_2211)),
            ] {
                assert_same!(rt; local.load(address, size), wanted, address);
            }
        },
    );
    lend(Code::new(rt.alloc(), &[0x73, 0, 0x10, 0])?, |code| {
        assert_same!(rt; code.fetch(0x0001_0000), Ok(Insn::Ebreak));
        assert_same!(rt; code.fetch(0x0002_0000), Err(Fault::FetchOutsideCode));
        assert_same!(rt; code.load(0x0001_0002, Size::Half), Ok(0x0010));
    });
    Ok(())
}

/// Whether a memory is as it was saved.
fn is_kept(saved: &SavedLocal, local: &Local) -> Result<bool, AllocError> {
    Ok(saved.equals(&SavedLocal::new(local)?))
}

/// What is saved of a memory, and what is saved of the memory that is restored from that.
fn is_restored<R: Abort>(rt: &R, saved: &SavedLocal) -> Result<(), Fail> {
    assert_same!(rt; saved.stored_bytes(), [0x11, 0, 0x33].as_slice());
    lend(saved.restore()?, |restored| {
        assert_same!(rt; restored.load(0x0002_0000, Size::Word), Ok(0x0033_0011));
        assert!(rt; is_kept(saved, restored)?);
        Ok(())
    })
}

#[test]
fn a_memory_is_saved(rt: HostRuntime) -> Result<(), Fail> {
    let local = Local::new(rt.alloc(), &[0x11, 0, 0x33, 0])?;
    lend(SavedLocal::new(&local)?, |saved| is_restored(&rt, saved))
}

/// Processor 2 of four with sixteen shared words.
const SETTING: Setting = Setting {
    number: 2,
    processors: 4,
    shared_words: 16,
};

/// `addi x4, x0, 7`, `amoadd.w x3, x2, (x1)` and `ebreak`.
static CODE: [u8; 12] = [
    0x13, 0x02, 0x70, 0x00, 0xAF, 0xA1, 0x20, 0x00, 0x73, 0x00, 0x10, 0x00,
];

/// Adds 5 to shared word 2.
const ADDS: Decision = Decision::Refer {
    word: 2,
    phi: Phi::Add(5),
    shape: Shape::Amo(AmoOp::Add),
};

/// Takes a turn, in which the shared word has this value.
fn turn(core: &mut Core, code: &Code, reply: u32) -> Result<Retired, Cause> {
    let cause = match core.decide(code) {
        Decision::Local => return Ok(core.take_local(code)),
        Decision::Refer { .. } => return Ok(core.retire(code, reply)),
        Decision::Halt(byte) => Cause::Halt(byte),
        Decision::Fault(fault) => Cause::Fault(fault),
    };
    core.stop(cause);
    Err(cause)
}

/// What a turn writes to a register, or none if it stops the processor.
fn result_of(core: &mut Core, code: &Code, reply: u32) -> Option<u32> {
    match turn(core, code, reply) {
        Ok(retired) => retired.result,
        Err(_) => None,
    }
}

/// A core with the operands of the add.
fn core_of(alloc: Global, pc: u32, local: &[u8]) -> Result<Core, AllocError>
    requires aligned { pc % 4 ≡ 0 }
    requires fits { length local.now ≤ 2 ^ 16 }
{
    let mut core = Core::new(alloc, SETTING, pc, local)?;
    core.set_register(Register::new(1), 0x8000_0008);
    core.set_register(Register::new(2), 5);
    Ok(core)
}

/// Takes the turns of [`CODE`].
fn take_turns(rt: &impl Abort, core: &mut Core, code: &Code) {
    assert_same!(rt; core.decide(code), Decision::Local);
    assert_same!(rt; result_of(core, code, 0), Some(7));
    assert_same!(rt; core.decide(code), ADDS);
    assert_same!(rt; result_of(core, code, 40), Some(40));
    assert_same!(rt; core.decide(code), Decision::Fault(Fault::Breakpoint));
    assert_same!(rt; turn(core, code, 0), Err(Cause::Fault(Fault::Breakpoint)));
    assert_same!(rt; core.status(), Status::Faulted(Fault::Breakpoint));
    assert_same!(rt; (core.pc(), core.registers()[3], core.registers()[4]), (0x0001_0008, 40, 7));
}

#[test]
fn a_core_takes_its_turns(rt: HostRuntime) -> Result<(), Fail> {
    let code = Code::new(rt.alloc(), &CODE)?;
    lend(
        core_of(rt.alloc(), 0x0001_0000, &[])?,
        |core| take_turns(&rt, core, &code),
    );
    Ok(())
}

/// Whether a core is as it was saved.
fn is_saved_as(saved: &SavedCore, core: &Core) -> Result<bool, AllocError> {
    Ok(saved.equals(&core.save()?))
}

/// Checks that a core is as it was saved until it takes its turn.
fn turns_once(
    rt: &impl Abort,
    saved: &SavedCore,
    core: &mut Core,
    code: &Code,
) -> Result<(), Fail> {
    assert_same!(rt; core.byte(0x0002_0000), Ok(0xA5));
    assert!(rt; is_saved_as(saved, core)?);
    assert_same!(rt; result_of(core, code, 40), Some(40));
    assert!(rt; !is_saved_as(saved, core)?);
    Ok(())
}

/// Checks a core that is saved before its add, and the one that is restored.
fn is_at_its_add(rt: &impl Abort, saved: &SavedCore, code: &Code) -> Result<(), Fail> {
    assert_same!(rt; saved.decide(code), ADDS);
    assert_same!(rt; (saved.pc(), saved.registers()[2]), (0x0001_0004, 5));
    assert_same!(rt; (saved.status(), saved.setting().number), (Status::Running, 2));
    lend(saved.restore()?, |core| turns_once(rt, saved, core, code))
}

/// A core that is saved is at the same turn, and so is the one that is restored.
#[test]
fn a_core_is_saved(rt: HostRuntime) -> Result<(), Fail> {
    let code = Code::new(rt.alloc(), &CODE)?;
    let core = core_of(rt.alloc(), 0x0001_0004, &[0xA5])?;
    lend(core.save()?, |saved| is_at_its_add(&rt, saved, &code))
}

/// A port, and the code that its processor runs.
#[derive(Drop)]
struct Rig {
    code: Code,
    port: Port,
}

impl Rig {
    fn new(rt: &impl AllocGlobal) -> Result<Rig, Fail> {
        let code = Code::new(rt.alloc(), &CODE)?;
        let port = Port::new(rt.alloc(), SETTING, 0x0001_0000, &[])?;
        Ok(Rig { code, port })
    }

    /// Begins a turn of a port whose processor runs and is not open.
    fn begin(&mut self, rt: &impl Abort) -> Begun {
        assert!(rt; self.port.is_running());
        assert!(rt; !self.port.is_open());
        self.port.begin(&self.code)
    }

    /// Pokes a register of the core, which is home.
    fn poke_register(&mut self, rt: &impl Abort, register: u8, value: u32) -> bool {
        assert!(rt; !self.port.is_away());
        self.port.poke_register(register, value)
    }

    /// Pokes a byte of the local memory of the core, which is home.
    fn poke_byte(&mut self, rt: &impl Abort, address: u32, value: u8) -> bool {
        assert!(rt; !self.port.is_away());
        self.port.poke_byte(address, value)
    }

    /// The core, which is home.
    fn core(&self, rt: &impl Abort) -> &Core {
        self.port.core().expect(rt, "the core is here")
    }
}

/// The turn that adds 5 to shared word 2.
const REFERRED: Begun = Begun::Referred {
    word: 2,
    phi: Phi::Add(5),
};

/// Pokes, a local turn, and a reference, which opens the port.
#[test]
fn a_port_begins_turns(rt: HostRuntime) -> Result<(), Fail> {
    lend(Rig::new(&rt)?, |rig| {
        for (register, value, wanted) in [
            (1, 0x8000_0008, true),
            (2, 5, true),
            (32, 0x0001_0002, false),
        ] {
            assert_same!(rt; rig.poke_register(&rt, register, value), wanted, register);
        }
        assert!(rt; rig.poke_byte(&rt, 0x0002_0001, 0xA5));
        assert_same!(rt; rig.core(&rt).byte(0x0002_0001), Ok(0xA5));
        assert!(rt; matches!(rig.begin(&rt), Begun::Retired(_)));
        assert_same!(rt; rig.core(&rt).pc(), 0x0001_0004);
        assert_same!(rt; rig.begin(&rt), REFERRED);
        assert!(rt; rig.port.is_open());
    });
    Ok(())
}

/// A core can be taken out and put back.
#[test]
fn a_port_lends_its_core(rt: HostRuntime) -> Result<(), Fail> {
    let mut rig = Rig::new(&rt)?;
    let core = rig.port.take_core().expect(&rt, "the core is here");
    assert!(rt; rig.port.is_away() && rig.port.core().is_none());
    rig.port.put_core(core);
    assert!(rt; !rig.port.is_away() && rig.port.is_running());
    Ok(())
}
