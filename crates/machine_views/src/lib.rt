//! The view of a machine, and what stands in each cell of it.
//!
//! [`view_of`] makes a [`MachineView`] of a machine: what its processors do, and what each place of its network holds.
//! Its contract says that the view is exact (`view_of` of `specs/Views.antt`). The processors that a message stands for
//! are read off the wait records between it and the processors (`specs/Groups.antt`), in the order in which they are
//! served.
//!
//! [`cells_of`] makes the [`Cells`] of a view: the lines of text of each processor, of each output of a switch with the
//! input beside it, and of each module (`specs/Cells.antt`). A picture lays them out (crate `machine_picture`). Program
//! counters and shared words have their [`Names`], if a table of symbols is given (`specs/Names.antt`).
//!
//! For stories, [`subject_of`] says which message and which shared word a step is about, and [`values_of`] which values
//! it tells.
#![tactic(auto)]

mod cell;
mod cells;
mod groups;
mod module_words;
mod names;
mod places;
mod processors;
mod row;
mod subjects;
mod texts;
mod values;
mod view;

pub use cell::{Cell, Cells, Kind, Line, Text};
pub use cells::{cells_of, wires_of};
pub use names::Names;
pub use processors::view_of;
pub use row::Row;
pub use subjects::subject_of;
pub use values::values_of;
pub use view::{MachineView, PlaceView, ProcessorView, ReplyView, RequestView, SharedWord};
