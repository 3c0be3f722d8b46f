//! Steps that an arbiter has named before its thread asks for them.

ghost use Rattle.std.specs.Prelude.{◌≡◌, ◌≤◌, ◌↔◌, [], length, drop, max, min, take, true};
ghost use Rattle.processor_threads.specs.Rounds.{IsFilled};

use schedules::Arbiter;
use std::marker::Model;
use steps::Step;

/// The most steps for which an arbiter is asked at once.
pub(crate) const MOST: usize = 512;

/// Steps that an arbiter has named, and that its thread has not asked for yet. Contracts see them as a list, in order.
#[derive(Drop)]
pub(crate) struct StepBuffer {
    steps: [Step; MOST],
    /// How many of these the arbiter has named.
    named: usize,
    /// How many of those the thread has asked for.
    used: usize,
}

impl Model for StepBuffer {
    ghost use Rattle.std.specs.Prelude.{◌≡◌, ◌≤◌, List, drop, length, take};
    ghost use Rattle.steps.specs.declared.step.Step.{Step};

    ghost Value = { List Step };

    ghost view = { λ b. drop b.used (take b.named b.steps) };

    ghost invariant = { λ b. (length b.steps ≡ 512) × (b.used ≤ b.named) × (b.named ≤ 512) };
}

impl StepBuffer {
    /// No steps yet.
    pub(crate) fn new() -> Self
        ensures { result ≡ [] }
    {
        StepBuffer {
            steps: [Step::Serve(0); MOST],
            named: 0,
            used: 0,
        }
    }

    /// If no step is left, asks the arbiter for this many: for at least one, and for at most [`MOST`].
    pub(crate) fn fill<A: Arbiter>(&mut self, arbiter: &mut A, stages: u8, count: usize)
        requires { stages ≤ 6 }
        ensures { IsFilled count self.old self.new }
    {
        if !self.is_empty() {
            return;
        }
        let count = clamp(count);
        self.name_steps(arbiter, stages, count);
    }

    /// Has the arbiter name this many steps in place of those that it named before.
    fn name_steps<A: Arbiter>(&mut self, arbiter: &mut A, stages: u8, count: usize)
        requires stages { stages ≤ 6 }
        requires few { count ≤ 512 }
        ensures { length self.new ≡ count }
    {
        for place in 0..count {
            self.steps[place] = arbiter.next(stages);
        }
        self.named = count;
        self.used = 0;
    }

    /// The first of the steps that are left, at most this many.
    pub(crate) fn steps(&self, most: usize) -> &[Step]
        ensures { result.now ≡ take most self.now }
    {
        let end = if most < self.named - self.used {
            self.used + most
        } else {
            self.named
        };
        &self.steps[self.used..end]
    }

    /// Whether no step is left.
    pub(crate) fn is_empty(&self) -> bool
        ensures { (result ≡ true) ↔ (self.now ≡ []) }
    {
        self.used == self.named
    }

    /// Removes the first of the steps that are left, this many, after the thread has asked for them.
    pub(crate) fn advance(&mut self, count: usize)
        requires { count ≤ length self.old }
        ensures { self.new ≡ drop count self.old }
    {
        self.used += count;
    }
}

/// How many steps are asked for if this many are wanted.
fn clamp(count: usize) -> usize
    ensures { result ≡ max 1 (min count 512) }
{
    if count == 0 {
        1
    } else if count > MOST {
        MOST
    } else {
        count
    }
}
