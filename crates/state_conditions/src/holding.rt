//! When a condition holds.

ghost use Rattle.std.specs.Prelude.{◌≡◌};
ghost use Rattle.state_conditions.specs.Conditions.{all_hold, compares, holds, holds_part};

use crate::condition::{Comparison, Condition, Conjunction, ProcessorState, Relation};
use state_store::SparseWords;

impl Condition {
    /// Whether the condition holds of a state with these processors and shared words.
    pub fn holds(&self, processors: &[ProcessorState], words: &SparseWords) -> bool
        ensures { result ≡ holds self.now processors.now words.now }
    {
        self.alternatives
            .iter()
            .any(|alternative| alternative.holds(processors, words))
    }
}

impl Conjunction {
    /// Whether all parts hold.
    fn holds(&self, processors: &[ProcessorState], words: &SparseWords) -> bool
        ensures { result ≡ all_hold self.now processors.now words.now }
    {
        self.parts.iter().all(|part| part.holds(processors, words))
    }
}

impl Comparison {
    /// Whether the part holds.
    fn holds(&self, processors: &[ProcessorState], words: &SparseWords) -> bool
        ensures { result ≡ holds_part self.now processors.now words.now }
    {
        let number = self.subject.number(processors, words);
        self.relation.compares(number, self.value as usize)
    }
}

impl Relation {
    /// Whether the numbers are so related.
    fn compares(self, number: usize, value: usize) -> bool
        ensures { result ≡ compares self number value }
    {
        match self {
            Relation::Equal => number == value,
            Relation::NotEqual => number != value,
            Relation::Less => number < value,
            Relation::AtMost => number <= value,
            Relation::Greater => value < number,
            Relation::AtLeast => value <= number,
        }
    }
}
