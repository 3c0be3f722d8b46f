//! A plain machine: its processors take whole instructions of one small program, one at a time, on four shared words.

ghost use Rattle.std.specs.Prelude.{◌<◌};

use super::{A1, A2};
use flat_machine::{CODE_START, Entry, Poke, SHARED_START};
use std::alloc::{AllocError, Global};
use test_support::Shown;

/// What the instructions of the program do with the shared word at `a2`.
#[derive(Clone, Copy, Drop)]
enum Operation {
    Add,
    Swap,
    Xor,
    Or,
    And,
    Minimum,
    Maximum,
    UnsignedMinimum,
    UnsignedMaximum,
    /// Stores the low byte of `a1` into the word's highest byte.
    StoreByte3,
    /// Stores the low half of `a1` into the word's high half.
    StoreHalf2,
    /// Stores `a1` into the next word.
    StoreWord4,
    /// Loads the next word.
    LoadWord4,
    /// Loads the word's second byte, signed.
    LoadByte1,
    /// Loads the word's high half, unsigned.
    LoadHalf2,
    /// Adds `a0` to `a1`.
    AddToOperand,
    /// Moves `a2` from word 0 to word 2, or back.
    OtherWord,
    /// Jumps to the first instruction.
    Again,
}

/// The words of the program, and what each does.
static PROGRAM: [(u32, Operation); 18] = [
    (0x00B6_252F, Operation::Add), // amoadd.w a0, a1, (a2)
    (0x08B6_252F, Operation::Swap), // amoswap.w a0, a1, (a2)
    (0x20B6_252F, Operation::Xor), // amoxor.w a0, a1, (a2)
    (0x00B6_01A3, Operation::StoreByte3), // sb a1, 3(a2)
    (0x40B6_252F, Operation::Or), // amoor.w a0, a1, (a2)
    (0x00A5_85B3, Operation::AddToOperand), // add a1, a1, a0
    (0x80B6_252F, Operation::Minimum), // amomin.w a0, a1, (a2)
    (0x60B6_252F, Operation::And), // amoand.w a0, a1, (a2)
    (0x0046_2503, Operation::LoadWord4), // lw a0, 4(a2)
    (0xA0B6_252F, Operation::Maximum), // amomax.w a0, a1, (a2)
    (0x00B6_1123, Operation::StoreHalf2), // sh a1, 2(a2)
    (0x0086_4613, Operation::OtherWord), // xori a2, a2, 8
    (0xC0B6_252F, Operation::UnsignedMinimum), // amominu.w a0, a1, (a2)
    (0x0016_0503, Operation::LoadByte1), // lb a0, 1(a2)
    (0x00B6_2223, Operation::StoreWord4), // sw a1, 4(a2)
    (0xE0B6_252F, Operation::UnsignedMaximum), // amomaxu.w a0, a1, (a2)
    (0x0026_5503, Operation::LoadHalf2), // lhu a0, 2(a2)
    (0xFBDF_F06F, Operation::Again), // jal x0, -68
];

/// The words of the program.
pub fn program(alloc: Global) -> Result<Vec<u32>, AllocError> {
    let mut words = Vec::new(alloc);
    for (word, _) in PROGRAM {
        words.push(word)?;
    }
    Ok(words)
}

/// The state of a processor of the plain machine.
#[derive(Clone, Copy, Drop)]
pub struct Processor {
    pub pc: u32,
    pub a0: u32,
    pub a1: u32,
    pub a2: u32,
}

/// Eight processors and four shared words.
#[derive(Drop)]
pub struct Plain {
    pub processors: [Processor; 8],
    pub words: [u32; 4],
}

impl Plain {
    /// All processors are at the first instruction, and all words are zero.
    pub fn new() -> Self {
        let processor = Processor {
            pc: CODE_START,
            a0: 0,
            a1: 0,
            a2: 0,
        };
        Plain {
            processors: [processor; 8],
            words: [0; 4],
        }
    }

    /// Takes one entry of a serial order, and returns what retired, if anything did.
    pub fn take(&mut self, entry: Entry) -> Option<Shown> {
        match entry {
            Entry::Processor(p) => Some(self.instruction(p)),
            Entry::Poke(poke) => {
                self.poke(poke);
                None
            }
        }
    }

    /// Writes `a1`, `a2`, `pc` or a shared byte.
    fn poke(&mut self, poke: Poke) {
        match poke {
            Poke::Register {
                processor,
                register,
                value,
            } => {
                let state = &mut self.processors[usize::from(processor & 7)];
                if register == A1 {
                    state.a1 = value;
                } else if register == A2 {
                    state.a2 = value;
                } else {
                    state.pc = value;
                }
            }
            Poke::Local { .. } => {}
            Poke::Shared { address, value } => {
                let word = &mut self.words[word_number(address)];
                let shift = 8 * (address % 4);
                *word = (*word & !(0xFF << shift)) | (u32::from(value) << shift);
            }
        }
    }

    /// Takes one whole instruction.
    fn instruction(&mut self, p: u8) -> Shown {
        let mut state = self.processors[usize::from(p & 7)];
        let pc = state.pc;
        let operation = operation_at(pc);
        let behind = word_number(state.a2.wrapping_add(4));
        let place = word_number(state.a2);
        let old = self.words[place];
        state.pc = pc.wrapping_add(4);
        let result = match operation {
            Operation::AddToOperand => {
                state.a1 = state.a1.wrapping_add(state.a0);
                Some(state.a1)
            }
            Operation::OtherWord => {
                state.a2 ^= 8;
                Some(state.a2)
            }
            Operation::Again => {
                state.pc = CODE_START;
                None
            }
            Operation::StoreByte3 | Operation::StoreHalf2 => {
                self.words[place] = word_after(operation, old, state.a1);
                None
            }
            Operation::StoreWord4 => {
                self.words[behind] = state.a1;
                None
            }
            Operation::LoadWord4 => Some(self.words[behind]),
            Operation::LoadByte1 => Some(signed_byte((old >> 8) & 0xFF)),
            Operation::LoadHalf2 => Some(old >> 16),
            _ => {
                self.words[place] = word_after(operation, old, state.a1);
                Some(old)
            }
        };
        if is_in_a0(operation) {
            state.a0 = result.unwrap_or(0);
        }
        self.processors[usize::from(p & 7)] = state;
        Shown {
            processor: p,
            pc,
            result,
        }
    }
}

/// The number of the shared word at an address, modulo 4.
fn word_number(address: u32) -> usize
    ensures { result < 4 }
{
    (address.wrapping_sub(SHARED_START) / 4 % 4) as usize
}

/// The operation of the instruction at an address.
fn operation_at(pc: u32) -> Operation {
    let place = (pc.wrapping_sub(CODE_START) / 4) as usize;
    match PROGRAM.get(place) {
        Some((_, operation)) => *operation,
        None => Operation::Again,
    }
}

/// Returns whether the result of an operation goes to `a0`.
fn is_in_a0(operation: Operation) -> bool {
    !matches!(
        operation,
        Operation::AddToOperand
            | Operation::OtherWord
            | Operation::Again
            | Operation::StoreByte3
            | Operation::StoreHalf2
            | Operation::StoreWord4
    )
}

/// The new value of a word after an operation with this operand.
fn word_after(operation: Operation, old: u32, operand: u32) -> u32 {
    // The order of signed words is that of unsigned words with the sign bits inverted.
    let is_less = (old ^ 0x8000_0000) < (operand ^ 0x8000_0000);
    match operation {
        Operation::Add => old.wrapping_add(operand),
        Operation::Swap => operand,
        Operation::Xor => old ^ operand,
        Operation::Or => old | operand,
        Operation::And => old & operand,
        Operation::Minimum => if is_less { old } else { operand },
        Operation::Maximum => if is_less { operand } else { old },
        Operation::UnsignedMinimum => if old < operand { old } else { operand },
        Operation::UnsignedMaximum => if old < operand { operand } else { old },
        Operation::StoreByte3 => (old & 0x00FF_FFFF) | (operand << 24),
        Operation::StoreHalf2 => (old & 0x0000_FFFF) | (operand << 16),
        _ => old,
    }
}

/// A byte as a signed number.
fn signed_byte(byte: u32) -> u32 {
    if byte < 0x80 {
        byte
    } else {
        byte | 0xFFFF_FF00
    }
}
