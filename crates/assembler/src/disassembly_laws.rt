//! The law of disassembly.

ghost use Rattle.std.specs.Prelude.{[]};
ghost use Rattle.asm_lines.specs.Written.{text_of};
ghost use Rattle.assembler.specs.Meaning.{IsMeaning, word_bytes};
ghost use Rattle.rv_table.specs.Rows.{Spells};

use asm_lines::laws;
use decode::encode;
use flat_machine::CODE_START;
use rv_table::Insn;

/// The text of an instruction, as `disassemble` writes it, means the instruction's word, which this returns.
pub fn disassembled_again(insn: &Insn) -> u32
    ensures word { Spells result insn.now }
    ensures meaning { IsMeaning (text_of insn.now)
        (record { entry = CODE_START; code = word_bytes result; local = []; shared = [] }) }
{
    // Laws of lines, only for the proof.
    laws::fields_again();
    laws::written_again();
    encode(insn)
}
