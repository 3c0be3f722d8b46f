//! Single turns. The words and values come from the manual.

mod faulting;
mod local;
mod others;
mod referring;
mod retiring;

use flat_machine::{CODE_START, Cause, Event, Setting};
use hart::{Core, Decision};
use local_memory::Code;
use rv_table::Register;
use std::alloc::AllocGlobal;
use std::process::Abort;
use std::test::Fail;
use test_support::assert_same;

/// A core, and the code that it runs.
#[derive(Drop)]
struct Rig {
    code: Code,
    core: Core,
}

/// Processor 2 of four, with sixteen shared words, about to execute this one instruction. `x1` and `x2` have these
/// values, and the other registers are 0. Local memory begins with these bytes.
fn at_word(
    rt: &(impl Abort + AllocGlobal),
    word: u32,
    x1: u32,
    x2: u32,
    local: &[u8],
) -> Result<Rig, Fail> {
    assert!(rt; local.len() <= 0x1_0000);
    let setting = Setting {
        number: 2,
        processors: 4,
        shared_words: 16,
    };
    let code = Code::new(rt.alloc(), &word.to_le_bytes())?;
    let mut core = Core::new(rt.alloc(), setting, CODE_START, local)?;
    core.set_register(Register::new(1), x1);
    core.set_register(Register::new(2), x2);
    Ok(Rig { code, core })
}

impl Rig {
    /// Takes one turn. A reference to a shared word finds this value there.
    fn turn(&mut self, reply: u32) -> Event {
        match self.core.decide(&self.code) {
            Decision::Local => Event::Retired(self.core.take_local(&self.code)),
            Decision::Refer { .. } => Event::Retired(self.core.retire(&self.code, reply)),
            Decision::Halt(byte) => self.stop(Cause::Halt(byte)),
            Decision::Fault(fault) => self.stop(Cause::Fault(fault)),
        }
    }

    fn stop(&mut self, cause: Cause) -> Event {
        self.core.stop(cause);
        Event::Stopped(cause)
    }

    /// Checks `pc` and all registers: `x1`, `x2`, one more unless it is register 0, and 0 in the others.
    fn stands(
        &self,
        rt: &impl Abort,
        text: &str,
        pc: u32,
        x1: u32,
        x2: u32,
        (rd, value): (usize, u32),
    ) {
        let mut registers = [0; 32];
        registers[1] = x1;
        registers[2] = x2;
        if rd != 0 {
            assert!(rt; rd < 32);
            registers[rd] = value;
        }
        assert_same!(rt; self.core.pc(), pc, text);
        assert_same!(rt; *self.core.registers(), registers, text);
    }
}
