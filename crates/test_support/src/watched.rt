//! A machine, and what the outcomes of its steps give: the serial order, and what retired.

ghost use Rattle.std.specs.Prelude.{◌<◌};

use crate::case_words::outcome_words;
use crate::words::Words;
use flat_machine::Entry;
use machine_steps::Machine;
use std::alloc::{AllocError, Global};
use steps::{Outcome, Step};

/// An instruction that retired: its processor, its address, and what it wrote to a register.
#[derive(Clone, Copy, Debug, PartialEq, Eq, Drop)]
pub struct Shown {
    /// The processor.
    pub processor: u8,
    /// The instruction's address.
    pub pc: u32,
    /// What it wrote, if it did.
    pub result: Option<u32>,
}

/// A machine of at most eight processors, whose steps are watched from a state in which no reference was open.
#[derive(Drop)]
pub struct Watched {
    /// The machine.
    pub machine: Machine,
    /// Whether each processor has a reference open.
    is_open: [bool; 8],
    /// For each leader of a group of requests, the last of the group.
    last: [u8; 8],
    /// For each processor of a group but its last, the next one.
    next: [u8; 8],
    /// The serial order so far.
    pub order: Vec<Entry>,
    /// What has retired so far.
    pub retired: Vec<Shown>,
}

/// The place of a processor.
fn place(processor: u8) -> usize
    ensures { result < 8 }
{
    usize::from(processor & 7)
}

impl Watched {
    /// Watches a machine in which no reference is open.
    pub fn new(alloc: Global, machine: Machine) -> Self {
        Watched {
            machine,
            is_open: [false; 8],
            last: [0; 8],
            next: [0; 8],
            order: Vec::new(alloc),
            retired: Vec::new(alloc),
        }
    }

    /// Takes a step, enters what it adds to the serial order, and returns its outcome as words. A turn adds its
    /// processor, if its instruction retires at once or it stops the processor; a service adds the group of its leader;
    /// a poke adds itself; all other steps add nothing.
    pub fn apply(&mut self, step: Step) -> Result<Words<'static>, AllocError> {
        let outcome = self.machine.apply(step);
        match step {
            Step::Turn(p) => self.note_turn(p, outcome)?,
            Step::Poke(poke) => {
                if outcome == Outcome::Poked {
                    self.order.push(Entry::Poke(poke))?;
                }
            }
            _ => self.note_move(outcome)?,
        }
        Ok(outcome_words(outcome))
    }

    /// Takes a whole instruction, enters it in the serial order, and returns its outcome as words.
    pub(crate) fn one(&mut self, p: u8) -> Result<Words<'static>, AllocError> {
        let outcome = self.machine.one(p);
        match outcome {
            Outcome::Retired(_) | Outcome::Stopped(_) => self.order.push(Entry::Processor(p))?,
            _ => {}
        }
        Ok(outcome_words(outcome))
    }

    fn note_move(&mut self, outcome: Outcome) -> Result<(), AllocError> {
        match outcome {
            Outcome::Combined { first, second } => self.join(first, second),
            Outcome::Served { leader } => self.note_service(leader)?,
            _ => {}
        }
        Ok(())
    }

    fn note_turn(&mut self, p: u8, outcome: Outcome) -> Result<(), AllocError> {
        match outcome {
            Outcome::Issued => {
                self.is_open[place(p)] = true;
                self.last[place(p)] = p;
            }
            Outcome::Retired(retired) => {
                if !self.is_open[place(p)] {
                    self.order.push(Entry::Processor(p))?;
                }
                self.is_open[place(p)] = false;
                self.retired.push(Shown {
                    processor: p,
                    pc: retired.pc,
                    result: retired.result,
                })?;
            }
            Outcome::Stopped(_) => self.order.push(Entry::Processor(p))?,
            _ => {}
        }
        Ok(())
    }

    /// Puts the group of the second leader after that of the first.
    fn join(&mut self, first: u8, second: u8) {
        self.next[place(self.last[place(first)])] = second;
        self.last[place(first)] = self.last[place(second)];
    }

    /// Enters the group of a leader.
    fn note_service(&mut self, leader: u8) -> Result<(), AllocError> {
        let last = self.last[place(leader)];
        let mut p = leader;
        for _ in 0..8 {
            self.order.push(Entry::Processor(p))?;
            if p == last {
                break;
            }
            p = self.next[place(p)];
        }
        Ok(())
    }

    /// Takes the steps that the machine names until it names none, and returns how many there were. Gives up after
    /// 10,000.
    pub fn drain_by_steps(&mut self) -> Result<u32, AllocError> {
        for moves in 0..10_000u32 {
            if !self.drain_one()? {
                return Ok(moves);
            }
        }
        Ok(10_000)
    }

    /// Takes the step that the machine names. Returns whether it names one.
    fn drain_one(&mut self) -> Result<bool, AllocError> {
        match self.machine.drain_step() {
            Some(step) => {
                self.apply(step)?;
                Ok(true)
            }
            None => Ok(false),
        }
    }
}
