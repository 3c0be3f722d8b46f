//! What a picture says, cell by cell.

ghost use Rattle.std.specs.Prelude.{◌≡◌, length, string_bytes};
ghost use Rattle.std.specs.Option.{option_copied};
ghost use Rattle.machine_views.specs.Cells.{cell_at};

use crate::row::Row;
use std::marker::Model;

/// A text. Contracts see its bytes.
#[derive(Debug, Drop)]
pub struct Text {
    text: String,
}

impl Model for Text {
    ghost use Rattle.std.specs.Prelude.{List, ℕ, string_bytes};

    ghost Value = { List ℕ };

    ghost view = { λ t. string_bytes t.text };
}

impl Text {
    /// The text that a string has.
    pub fn of(text: String) -> Self
        ensures { result ≡ string_bytes text }
    {
        Text { text }
    }

    /// The text.
    pub fn as_str(&self) -> &str
        ensures { result.now ≡ self.now }
    {
        self.text.as_str()
    }

    /// How many letters it has, if each is one byte.
    pub fn letters(&self) -> usize
        ensures { result ≡ length self.now }
    {
        self.text.len()
    }
}

/// What a line speaks of.
#[derive(Clone, Copy, Debug, PartialEq, Eq, Drop)]
pub enum Kind {
    /// A request.
    Request,
    /// A wait record.
    Record,
    /// A reply.
    Reply,
    /// A shared word of a module.
    Word,
}

/// A line of a cell.
#[derive(Debug, Drop)]
pub struct Line {
    /// What it speaks of.
    pub kind: Kind,
    /// What it says.
    pub text: Text,
}

/// A processor, an output of a switch with the input beside it, or a module.
#[derive(Debug, Drop)]
pub struct Cell {
    /// Which one it is. Of a processor, also what it does.
    pub title: Text,
    /// What stands there, from the top.
    pub lines: Row<Line>,
}

/// All cells of a picture: the processors, the stages and the modules.
#[derive(Debug, Drop)]
pub struct Cells {
    /// The number of stages, at most 6.
    pub stages: u8,
    /// The columns, and the cells of each from the top, one for each wire.
    pub columns: Row<Row<Cell>>,
}

impl Cells {
    /// The cell of a column and a row. None if there is no such cell.
    pub fn cell(&self, column: u8, row: u8) -> Option<&Cell>
        ensures { option_copied result ≡ cell_at self.now column row }
    {
        self.columns
            .as_slice()
            .get(usize::from(column))?
            .as_slice()
            .get(usize::from(row))
    }
}
