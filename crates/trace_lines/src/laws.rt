//! What holds of this crate's values: each is the contract of a function that does nothing.

pub use crate::order_laws::{lines_go_on, turns_have_words};
pub use crate::story_laws::stories_go_on;
