//! All topics of `ultra explain`.

use crate::codes::CODES;
use crate::ends::ENDS;
use crate::faults::FAULTS;
use crate::pages::PAGES;
use crate::replies::REPLIES;
use crate::topic::{Topic, Topics};

/// All topics of `ultra explain`.
pub fn all_topics() -> Topics {
    Topics {
        codes: codes(),
        ends: ends(),
        faults: faults(),
        replies: replies(),
        pages: pages(),
    }
}

// Each table has its own function, so that only its proof contains the texts.

fn codes() -> &'static [Topic] {
    CODES
}

fn ends() -> &'static [Topic] {
    ENDS
}

fn faults() -> &'static [Topic] {
    FAULTS
}

fn replies() -> &'static [Topic] {
    REPLIES
}

fn pages() -> &'static [Topic] {
    PAGES
}
