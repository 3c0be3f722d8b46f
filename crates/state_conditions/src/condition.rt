//! What a condition is.

use flat_machine::Status;
use std::marker::Model;

/// What a condition sees of a processor.
#[derive(Clone, Copy, Debug, PartialEq, Eq, Drop)]
pub struct ProcessorState {
    /// The address of its next instruction.
    pub pc: u32,
    /// What it is doing.
    pub status: Status,
}

/// Processors that are counted.
#[derive(Clone, Copy, Debug, PartialEq, Eq, Drop)]
pub enum Group {
    /// Those that run and have a `pc` from `first` to `last`.
    At { first: u32, last: u32 },
    /// Those that run.
    Running,
    /// Those that have halted.
    Halted,
    /// Those that a fault has stopped.
    Faulted,
}

/// A number that a state has.
#[derive(Clone, Copy, Debug, PartialEq, Eq, Drop)]
pub enum Subject {
    /// The value of the shared word of this number.
    Word(u32),
    /// How many processors are of this group.
    Count(Group),
}

/// How a number of a state is compared with a given one.
#[derive(Clone, Copy, Debug, PartialEq, Eq, Drop)]
pub enum Relation {
    Equal,
    NotEqual,
    Less,
    AtMost,
    Greater,
    AtLeast,
}

/// A part of a condition: a number of the state, compared with `value`.
#[derive(Clone, Copy, Debug, PartialEq, Eq, Drop)]
pub struct Comparison {
    pub subject: Subject,
    pub relation: Relation,
    pub value: u32,
}

/// Parts that hold together. Contracts see their list.
#[derive(Drop)]
pub struct Conjunction {
    pub(crate) parts: Vec<Comparison>,
}

impl Model for Conjunction {
    ghost use Rattle.std.specs.Prelude.{List};
    ghost use Rattle.state_conditions.specs.declared.condition.Comparison.{Comparison};

    ghost Value = { List Comparison };

    ghost view = { λ c. c.parts.items };
}

/// A condition: it holds if one of its alternatives does. Contracts see the list of the parts of each.
#[derive(Drop)]
pub struct Condition {
    pub(crate) alternatives: Vec<Conjunction>,
}

impl Model for Condition {
    ghost use Rattle.std.specs.Prelude.{List};
    ghost use Rattle.state_conditions.specs.declared.condition.Comparison.{Comparison};

    ghost Value = { List (List Comparison) };

    ghost view = { λ c. c.alternatives.items };
}
