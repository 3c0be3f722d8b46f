//! The picture.

ghost use Rattle.std.specs.Prelude.{◌≡◌, ◌++◌, ◌≤◌, OnOk, string_bytes};
ghost use Rattle.machine_picture.specs.Drawings.{drawing_of, name_letters};

use crate::draw::Draw;
use crate::summary::push_summary;
use crate::whole::push_whole;
use machine_views::{Cells, MachineView, Names, cells_of};
use std::alloc::{AllocError, Global};
use symbol_table::SymbolTable;

/// A picture, as an SVG. Of at most 8 processors it is whole: from left to right the processors, the stages of switches
/// with their queues and wait records, and the modules. Of more it is a summary: a grid of all switches, shaded by how
/// much stands there, and a list of it.
///
/// A program counter or a shared word that has a name in the table is shown by its name, `LABEL` or `LABEL+0xHEX`. A
/// name of more than 24 letters, in a summary of more than 12, has only the first letters of its label, and two dots.
#[derive(Clone, Copy, Debug, Drop)]
pub struct Svg<'a> {
    /// The names, if there are any.
    pub names: Option<&'a SymbolTable<'a>>,
}

impl Draw for Svg<'_> {
    ghost use Rattle.std.specs.Prelude.{◌≡◌};
    ghost use Rattle.std.specs.Option.{option_copied};
    ghost use Rattle.machine_views.specs.Names.{rows_in};
    ghost use Rattle.machine_picture.specs.Drawings.{drawing};

    ghost draws = { λ svg view text. text ≡ drawing (rows_in (option_copied svg.names)) view };

    #[tactic(auto, unfolding(crate::specs::Drawings::drawing))]
    fn draw(&self, alloc: Global, view: &MachineView) -> Result<String, AllocError> {
        let names = Names::of(self.names, name_letters(view.config.k));
        let cells = cells_of(alloc, &names, view)?;
        let mut text = String::new(alloc);
        push_drawing(alloc, &mut text, view, &cells)?;
        Ok(text)
    }
}

/// How many letters a name may have in a picture of a machine with this many stages.
fn name_letters(stages: u8) -> usize
    ensures { result ≡ name_letters stages }
{
    if stages <= 3 { 24 } else { 12 }
}

/// Appends the picture of a view, from its cells.
fn push_drawing(
    alloc: Global,
    text: &mut String,
    view: &MachineView,
    cells: &Cells,
) -> Result<(), AllocError>
    requires { cells.now.stages ≤ 6 }
    ensures { OnOk result (string_bytes text.new ≡ string_bytes text.old ++ drawing_of view.now cells.now) }
{
    if cells.stages <= 3 {
        push_whole(alloc, text, view, cells)
    } else {
        push_summary(alloc, text, view, cells)
    }
}
