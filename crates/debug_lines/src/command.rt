//! The commands of lines.

ghost use Rattle.std.specs.Prelude.{◌≡◌, ◌≤◌, length};
ghost use Rattle.debug_lines.specs.Commands.{alone_of, command_of, listed_of, with_operands, register_of, set_of};
ghost use Rattle.debug_lines.specs.Commands.{memory_of, write_of};
ghost use Rattle.debug_lines.specs.declared.word.Word.TheVariants as word;

use crate::number::{cut, number, operand};
use crate::reader::MAX_LINE;
use crate::word::Word;
use crate::written::Written;

/// The most bytes that one reply shows.
const MAX_SHOWN: u32 = 512;

/// What a line asks for. Processors and registers are numbers as they are written. The machine may not have them.
#[derive(Debug, Drop)]
pub enum Command {
    /// `state P`: what a processor is doing.
    State {
        processor: u32,
    },
    /// `regs P`: all registers of a processor, and its `pc`.
    Registers {
        processor: u32,
    },
    /// `reg P R`: one register.
    Register {
        processor: u32,
        register: u32,
    },
    /// `set P R V`: write a register.
    Set {
        processor: u32,
        register: u32,
        value: u32,
    },
    /// `mem P ADDR LEN`: 1 to 512 bytes from an address on, as a processor sees them.
    Memory {
        processor: u32,
        address: u32,
        length: u32,
    },
    /// `write P ADDR DIGITS`: write bytes from an address on, as a processor sees them.
    Write {
        processor: u32,
        address: u32,
        bytes: Written,
    },
    /// `break ADDR`: set a break.
    Break {
        address: u32,
    },
    /// `clear ADDR`: clear a break.
    Clear {
        address: u32,
    },
    /// `step P`: one whole instruction of a processor.
    Step {
        processor: u32,
    },
    /// `cont`: run all processors.
    Continue,
    /// `quit`: end the session.
    Quit,
    /// A line that is none of these.
    Malformed,
}

impl Command {
    ghost use Rattle.std.specs.Prelude.{◌≡◌, ◌≤◌, length};
    ghost use Rattle.debug_lines.specs.Commands.{command_of, listed_of};

    /// The command of a line.
    #[tactic(auto, unfolding(crate::specs::Commands::command_of))]
    pub fn read(line: &[u8]) -> Command
        ensures { result ≡ command_of line.now }
    {
        if line.len() > MAX_LINE {
            return Command::Malformed;
        }
        Command::parse(line).unwrap_or(Command::Malformed)
    }

    /// The command of a line, if it is one.
    #[tactic(auto, unfolding(crate::specs::Commands::listed_of))]
    fn parse(line: &[u8]) -> Option<Command>
        requires { length line.now ≤ 1024 }
        ensures { result ≡ listed_of line.now }
    {
        let (name, rest) = cut(line);
        let word = Word::find(name)?;
        match rest {
            Some(rest) => of_operands(word, rest),
            None => alone(word),
        }
    }
}

/// The command of a word alone.
fn alone(word: Word) -> Option<Command>
    ensures { result ≡ alone_of word }
{
    match word {
        Word::Cont => Some(Command::Continue),
        Word::Quit => Some(Command::Quit),
        _ => None,
    }
}

/// The command of a word and what follows its space.
fn of_operands(word: Word, rest: &[u8]) -> Option<Command>
    requires { length rest.now ≤ 1024 }
    ensures { result ≡ with_operands word rest.now }
{
    match word {
        Word::State => number(rest).map(|processor| Command::State { processor }),
        Word::Regs => number(rest).map(|processor| Command::Registers { processor }),
        Word::Reg => register(rest),
        Word::Set => set(rest),
        Word::Mem => memory(rest),
        Word::Write => write(rest),
        Word::Break => number(rest).map(|address| Command::Break { address }),
        Word::Clear => number(rest).map(|address| Command::Clear { address }),
        Word::Step => number(rest).map(|processor| Command::Step { processor }),
        Word::Cont | Word::Quit => None,
    }
}

#[tactic(auto, unfolding(crate::specs::Commands::register_of))]
fn register(rest: &[u8]) -> Option<Command>
    ensures { result ≡ register_of rest.now }
{
    let (processor, rest) = operand(rest)?;
    let register = number(rest)?;
    Some(Command::Register {
        processor,
        register,
    })
}

#[tactic(auto, unfolding(crate::specs::Commands::set_of))]
fn set(rest: &[u8]) -> Option<Command>
    ensures { result ≡ set_of rest.now }
{
    let (processor, rest) = operand(rest)?;
    let (register, rest) = operand(rest)?;
    let value = number(rest)?;
    Some(Command::Set {
        processor,
        register,
        value,
    })
}

#[tactic(auto, unfolding(crate::specs::Commands::memory_of))]
fn memory(rest: &[u8]) -> Option<Command>
    ensures { result ≡ memory_of rest.now }
{
    let (processor, rest) = operand(rest)?;
    let (address, rest) = operand(rest)?;
    let length = number(rest)?;
    if length == 0 || length > MAX_SHOWN {
        return None;
    }
    Some(Command::Memory {
        processor,
        address,
        length,
    })
}

#[tactic(auto, unfolding(crate::specs::Commands::write_of))]
fn write(rest: &[u8]) -> Option<Command>
    requires { length rest.now ≤ 1024 }
    ensures { result ≡ write_of rest.now }
{
    let (processor, rest) = operand(rest)?;
    let (address, rest) = operand(rest)?;
    let bytes = Written::read(rest)?;
    Some(Command::Write {
        processor,
        address,
        bytes,
    })
}
