//! The shared words that entries act on.

ghost use Rattle.std.specs.Prelude.{◌≡◌, ◌≤◌, ◌%◌, ◌^◌, ℕ, List, Bool};
ghost use Rattle.flat_machine.specs.Effects.{effect_of, register_of};
ghost use Rattle.flat_machine.specs.Memory.{region_of};
ghost use Rattle.flat_machine.specs.Sizes.{bytes_of};
ghost use Rattle.flat_machine.specs.State.{Processor};
ghost use Rattle.flat_machine.specs.Turns.{performed};
ghost use Rattle.flat_machine.specs.Words.{extended, plus};
ghost use Rattle.flat_machine.specs.declared.setting.Setting.{Setting};
ghost use Rattle.trace_lines.specs.References as references;

use flat_machine::{Poke, SHARED_START, Size};
use hart_ops::{immediate_word, is_aligned, load_size, store_size, sum};
use rv_table::{Immediate, Insn, Register};

/// The shared word that an instruction acts on, in a processor with these registers, of a machine with
/// `shared_words` shared words. None if it acts on none, or stops the processor.
pub fn word_of_instruction(insn: &Insn, registers: &[u32; 32], shared_words: u32) -> Option<u32>
    requires { shared_words ≤ 262144 }
    ensures { (s : Setting) (code : List ℕ) (p : Processor) → s.shared_words ≡ shared_words →
        p.registers ≡ registers.now
        → references.word_of_turn (performed s code p insn.now (effect_of s p.pc p.registers insn.now)) ≡ result }
{
    match *insn {
        Insn::Load { op, rs1, imm, .. } => {
            word_at(load_size(op), address(registers, rs1, imm), shared_words)
        }
        Insn::Store { op, rs1, imm, .. } => {
            word_at(store_size(op), address(registers, rs1, imm), shared_words)
        }
        Insn::Amo { rs1, .. } => word_at(Size::Word, read(registers, rs1), shared_words),
        _ => None,
    }
}

/// The shared word at an address, if an access of this size can be made there.
#[tactic(auto, unfolding(flat_machine::specs::Memory::region_of))]
fn word_at(size: Size, address: u32, shared_words: u32) -> Option<u32>
    requires { shared_words ≤ 262144 }
    ensures { (s : Setting) (writes : Bool) → s.shared_words ≡ shared_words →
        references.word_of_region (region_of s (bytes_of size) address writes) ≡ result }
{
    if is_aligned(size, address)
        && address >= SHARED_START
        && address < SHARED_START + 4 * shared_words
    {
        Some((address - SHARED_START) / 4)
    } else {
        None
    }
}

/// A register's value. Register 0 is 0.
#[tactic(auto, unfolding(flat_machine::specs::Effects::register_of))]
fn read(registers: &[u32; 32], register: Register) -> u32
    ensures { result ≡ register_of registers.now register }
{
    let number = register.number();
    if number == 0 {
        0
    } else {
        registers[number as usize]
    }
}

/// The address given by a register's value and an offset of twelve bits.
fn address(registers: &[u32; 32], rs1: Register, imm: Immediate<12>) -> u32
    ensures { result ≡ plus (register_of registers.now rs1) (extended 12 imm) }
{
    sum(read(registers, rs1), immediate_word(imm))
}

/// The shared word in which a poke writes a byte. None if it writes elsewhere.
pub fn word_of_poke(poke: &Poke) -> Option<u32>
    ensures { result ≡ references.word_of_poke poke.now }
{
    match *poke {
        Poke::Register { .. } | Poke::Local { .. } => None,
        Poke::Shared { address, .. } => Some(address.saturating_sub(SHARED_START) / 4),
    }
}

/// The processor whose register or local memory a poke writes. None if it writes to shared memory.
pub fn processor_of_poke(poke: &Poke) -> Option<u8>
    ensures { result ≡ references.processor_of_poke poke.now }
{
    match *poke {
        Poke::Register { processor, .. } | Poke::Local { processor, .. } => Some(processor),
        Poke::Shared { .. } => None,
    }
}
