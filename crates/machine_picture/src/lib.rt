//! Pictures of a machine.
//!
//! A [`Draw`] draws a machine. It sees the machine's view (crate `machine_views`) and nothing else, so all that it can
//! show is the machine's. [`Svg`] is a picture, defined by `drawing` of `specs/Drawings.antt`: [`Svg`] draws this text
//! of a view and no other. `specs/WholePictures.antt` and `specs/Summaries.antt` lay out the cells of the view.
#![tactic(auto)]

mod draw;
mod drawing;
mod elements;
mod layout;
mod pages;
mod summary;
mod whole;

pub use draw::Draw;
pub use drawing::Svg;
