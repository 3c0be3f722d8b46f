//! Laws of stories: contracts of functions that do nothing.

ghost use Rattle.trace_lines.specs.StoryLines.{StoriesGoOn};

/// Lines that are added step by step, from none, are the chosen lines of the run, and number all its steps.
#[tactic(auto, using(crate::proofs::StoryGoing::stories_more))]
pub fn stories_go_on()
    ensures { StoriesGoOn }
{}
