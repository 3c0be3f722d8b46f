//! An assembler from text to a program, and a disassembler from instructions to their text.
//!
//! `specs/Meaning.antt` defines what a text means, line by line. The lines before a line determine its place, and the
//! whole text determines the values of labels. The code works in two passes: the first finds the place of each line and
//! the value of each label, the second finds the bytes.
//!
//! [`Program::to_elf`] makes a program's image file. `specs/Openings.antt` says, address by address, what a machine has
//! after it opens on a text. The law [`image_opens_on_the_text`] shows that the image file does this.
//!
//! [`disassemble`] writes the text that `asm_lines` defines for an instruction (`text_of`). The law
//! [`disassembled_again`] shows that this text means the word that spells the instruction.
//!
//! # The language
//!
//! - Lines end with LF; the last LF is optional. `#` begins a comment, up to the end of the line. Blanks are spaces and
//!   tabs. They are allowed at both ends of a line and around each comma, bracket and colon. At least one blank
//!   separates the first word of a statement from its operands.
//! - A line is an optional label, `name:`, and an optional statement. A name is a letter or `_`, followed by letters,
//!   digits and `_`, all ASCII.
//! - `.code` (from 0x00010000, at most 65,536 bytes), `.local` (from 0x00020000, at most 65,536) and `.shared` (from
//!   0x80000000, at most 786,432) continue their section. A text begins in `.code`.
//! - `.word v, ..` places words: numbers from -2^31 to 2^32 - 1, or labels. `.byte v, ..` places bytes, from -128 to
//!   255. `.zero n` places n zero bytes, n at most 1,048,576. Instructions are allowed only in code. The addresses of
//!   instructions and of words must be divisible by 4.
//! - A number is decimal digits after an optional `-`, or `0x` and hex digits. A register is `x0` to `x31` or an ABI
//!   name, such as `a0`.
//! - The value of a label is the address of the next byte of its section at its line. `%hi(label)` may be an upper
//!   immediate, and `%lo(label)` an I- or S-immediate. A target is a label, or a number: the offset itself.
//! - The entry is the value of `start` if that is a label in code divisible by 4, and 0x00010000 otherwise.
//!
//! | Instruction | Text | Range |
//! |---|---|---|
//! | register with register | `op rd, rs1, rs2` | |
//! | register with immediate | `op rd, rs1, i` | -2048 to 2047 |
//! | loads, `jalr` | `op rd, i(rs1)` | -2048 to 2047 |
//! | stores | `op rs2, i(rs1)` | -2048 to 2047 |
//! | branches | `op rs1, rs2, target` | even, -4096 to 4094 |
//! | `lui`, `auipc` | `op rd, v` | 0 to 1048575 |
//! | `jal` | `jal rd, target` | even, -1048576 to 1048574 |
//! | shifts by a constant | `op rd, rs1, i` | 0 to 31 |
//! | `fence` | `fence rd, rs1, v` | 0 to 4095 |
//! | `ecall`, `ebreak` | `ecall` | |
//! | atomic memory operations | `op rd, rs2, (rs1)`, with `.aq`, `.rl` or `.aqrl` after `op` | |
//!
//! Source of register names, `%hi` and `%lo`: The RISC-V Instruction Set Manual, Volume I, "RISC-V Assembly
//! Programmer's Handbook". The rest is this project's own.
#![tactic(auto)]

mod cursor;
mod disassembly;
mod disassembly_laws;
mod emit;
mod fault;
pub mod laws;
mod passes;
mod place;
mod program;
mod sections;
mod symbol;
mod values;

pub use disassembly::disassemble;
pub use disassembly_laws::disassembled_again;
pub use fault::{AsmError, AsmFault};
pub use passes::assemble;
pub use program::Program;
pub use sections::{base_of, misplacement, room_of, size_of};
