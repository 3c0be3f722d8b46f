//! The rows of a study, a run of one image for each size of machine, and their texts.
//!
//! [`sizes_of`] makes the sizes of three lists. A [`Row`] has the size of a machine, how the run ended there, and its
//! [`Figures`]. The text of rows is lines with a cell for each column ([`rows_text`], `specs/Texts.antt`), or the plot
//! of a column ([`plot_text`], `specs/Plots.antt`).
//!
//! `study_command` above runs the image, and says in `specs/Rows.antt` which figures are those of a run.
#![tactic(auto)]

mod canvas;
mod cells;
mod column;
mod lines;
mod plot;
mod row;
mod scale;
mod series;
mod size;

pub use cells::Layout;
pub use column::{Column, column_named};
pub use lines::rows_text;
pub use plot::plot_text;
pub use row::{Figures, Row, RunEnd};
pub use size::{Size, sizes_of, with_size};
