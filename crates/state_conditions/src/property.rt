//! Properties of programs.

ghost use Rattle.std.specs.Prelude.{◌≡◌};
ghost use Rattle.state_conditions.specs.Conditions.{breaks};

use crate::condition::{Condition, Group, ProcessorState};
use state_store::SparseWords;

/// Of which states a property speaks.
#[derive(Clone, Copy, Debug, PartialEq, Eq, Drop)]
pub enum Kind {
    /// The condition holds in no state.
    Never,
    /// It holds in each state.
    Always,
    /// It holds in each state in which no processor runs.
    Finally,
}

/// A property of the states of a program.
#[derive(Drop)]
pub struct Property {
    pub kind: Kind,
    pub condition: Condition,
}

impl Property {
    /// Whether a state with these processors and shared words breaks the property.
    pub fn is_broken_by(&self, processors: &[ProcessorState], words: &SparseWords) -> bool
        ensures { result ≡ breaks self.now.kind self.now.condition processors.now words.now }
    {
        let holds = self.condition.holds(processors, words);
        match self.kind {
            Kind::Never => holds,
            Kind::Always => !holds,
            Kind::Finally => !holds && Group::Running.count(processors) == 0,
        }
    }
}
