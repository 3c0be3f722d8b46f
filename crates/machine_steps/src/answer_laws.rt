//! Laws of answers: contracts of functions that do nothing.

ghost use Rattle.machine_steps.specs.Answers.{AnswersAreCounted, AnswersBegin, AnswersGoOn};

/// A machine that has taken no step has no answers, and a step that is taken next comes last among them, with its
/// outcome. There is one answer for each step.
pub fn answers_go_on()
    ensures begin { AnswersBegin }
    ensures go_on { AnswersGoOn }
    ensures count { AnswersAreCounted }
{}
