//! `ultra page`: a page for a browser that plays the steps of a trace.
//!
//! A [`Page`] has a text before the data, which holds the page's script, and one after it. Between them stands the data
//! ([`data_text`]): a view of the machine, the changes and the story of each step of a [`Window`] of the run, and their
//! entries in the serial order.
//! `specs/Views.antt` says what a view of a machine shows, part by part; `specs/Steps.antt` which parts a step may
//! change; `specs/Changes.antt` how changes are put on a view, and their texts. [`laws`] says that the changes of the
//! first steps, put on the view before them, give the view of the machine after them. In the page the data is
//! escaped, so no tag begins in it.
#![tactic(auto)]

mod changes;
mod data;
mod escape;
mod head;
pub mod laws;
mod opening;
mod page;
mod step_changes;
mod window;

pub use data::data_text;
pub use page::Page;
pub use window::{TooLong, Window};
