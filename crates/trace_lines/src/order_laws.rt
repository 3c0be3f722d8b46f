//! Laws of the lines of an order: contracts of functions that do nothing.

ghost use Rattle.trace_lines.specs.Laws.{LinesGoOn, RetiredTurnsHaveWords, StoppedTurnsHaveNone};

/// An entry at the end of a list adds its line, if it is chosen, in the flat machine that has taken the list.
#[tactic(auto, using(crate::proofs::OrderGoing::lines_more))]
pub fn lines_go_on()
    ensures { LinesGoOn }
{}

/// A turn that retires an instruction acts on the same word as the instruction, and one that stops its processor acts
/// on none.
#[tactic(auto, using(crate::proofs::Turns::retired_words, crate::proofs::Turns::stopped_words))]
pub fn turns_have_words()
    ensures retired { RetiredTurnsHaveWords }
    ensures stopped { StoppedTurnsHaveNone }
{}
