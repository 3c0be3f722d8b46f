//! The table of live registers: how it is made and checked.

ghost use Rattle.std.specs.Prelude.{◌≡◌, ◌/◌, ◌%◌, ◌^◌, IfOk, IsTrue};
ghost use Rattle.local_reduction.specs.Live.{is_live, HasAllLive, HasAllLiveAt};

use flat_machine::{CODE_START, REGION_BYTES};
use local_memory::Code;
use rv_table::Register;
use std::alloc::{AllocError, Global};
use std::marker::Model;

/// The number of words of code.
const CODE_WORDS: u32 = REGION_BYTES / 4;

/// The most passes over the code to make a table.
const MAX_PASSES: u32 = 64;

/// For each word of code, the registers that are live there. Where the table has nothing, all are live.
#[derive(Drop)]
pub struct LiveTable {
    words: Vec<[bool; 32]>,
}

impl Model for LiveTable {
    ghost use Rattle.std.specs.Prelude.{Bool, List};

    ghost Value = { List (List Bool) };

    ghost view = { λ t. t.words.items };
}

impl LiveTable {
    /// Makes the table for this code. If it would take more than [`MAX_PASSES`] passes, all registers are live in it.
    pub fn new(alloc: Global, code: &Code) -> Result<Self, AllocError>
        ensures { IfOk result (λ live. HasAllLive code.now live) }
    {
        let mut live = LiveTable::of_none(alloc)?;
        for _pass in 0..MAX_PASSES {
            if live.is_right(code) {
                return Ok(live);
            }
            live.grow(code);
        }
        Ok(LiveTable {
            words: Vec::new(alloc),
        })
    }

    /// Whether a register is live at the instruction at `pc`.
    pub fn has(&self, pc: u32, register: Register) -> bool
        ensures { result ≡ is_live self.now pc register }
    {
        if pc % 4 != 0 || register.number() == 0 {
            return true;
        }
        match self.words.get(place_of(pc)) {
            Some(registers) => registers[usize::from(register.number())],
            None => true,
        }
    }

    /// A table in which no register is live.
    fn of_none(alloc: Global) -> Result<Self, AllocError> {
        let mut words = Vec::new(alloc);
        words.resize(CODE_WORDS as usize, [false; 32])?;
        Ok(LiveTable { words })
    }

    /// Whether the table has what each instruction needs.
    fn is_right(&self, code: &Code) -> bool
        ensures { IsTrue result → HasAllLive code.now self.now }
    {
        for word in 0..CODE_WORDS {
            if !self.is_right_at(code, CODE_START + 4 * word) {
                return false;
            }
        }
        true
    }

    /// Whether the table has what the instruction at `pc` needs.
    fn is_right_at(&self, code: &Code, pc: u32) -> bool
        requires { pc % 4 ≡ 0 }
        ensures { IsTrue result → HasAllLiveAt code.now self.now pc }
    {
        let Ok(insn) = code.fetch(pc) else {
            return true;
        };
        for number in 0..32 {
            let register = Register::new(number);
            if self.needs(pc, &insn, register) && !self.has(pc, register) {
                return false;
            }
        }
        true
    }

    /// Adds what instructions need, from the last to the first. The table is checked afterwards.
    fn grow(&mut self, code: &Code) {
        for word in 0..CODE_WORDS {
            self.grow_at(code, CODE_START + 4 * (CODE_WORDS - 1 - word));
        }
    }

    /// Adds what the instruction at `pc` needs.
    fn grow_at(&mut self, code: &Code, pc: u32)
        requires { pc % 4 ≡ 0 }
    {
        let Ok(insn) = code.fetch(pc) else {
            return;
        };
        for number in 0..32 {
            let register = Register::new(number);
            if self.needs(pc, &insn, register) {
                self.add(pc, register);
            }
        }
    }

    /// Adds a register to those that are live at `pc`.
    fn add(&mut self, pc: u32, register: Register) {
        let place = place_of(pc);
        if place < self.words.len() {
            self.words[place][usize::from(register.number())] = true;
        }
    }
}

/// The place in a table of the word at `pc`.
fn place_of(pc: u32) -> usize
    ensures { result ≡ pc % 2 ^ 16 / 4 }
{
    (pc % REGION_BYTES / 4) as usize
}
