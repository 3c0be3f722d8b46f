//! Strategies of random schedules.

ghost use Rattle.std.specs.Prelude.{◌≡◌, IfSome, MatchOption};
ghost use Rattle.random_schedules.specs.Strategies.{IsOfDepth, name_of};

/// How a random schedule picks the processor of each turn.
#[derive(Clone, Copy, Debug, PartialEq, Eq, Drop)]
pub enum Strategy {
    /// One processor takes every turn until another is drawn: before every turn if the run's number is divisible by 6,
    /// half as often with each number after it, up to every 32nd turn.
    Random,
    /// By priorities, as in probabilistic concurrency testing. A bug of this depth needs at most `depth - 1` changes of
    /// priority; a depth over 16 counts as 16.
    Pct { depth: u8 },
    /// One processor after another, as in the sweep, but about a quarter of the turns pass one over.
    SweepLike,
}

impl Strategy {
    /// The strategy of this name, or None if none has it. That by priorities looks for bugs of this depth.
    pub fn named(name: &str, depth: u8) -> Option<Self>
        ensures named { MatchOption result ((strategy : Strategy) → name.now ≡ name_of strategy → ⊥)
            (λ strategy. name.now ≡ name_of strategy) }
        ensures depth { IfSome result (IsOfDepth depth) }
    {
        match name {
            "random" => Some(Strategy::Random),
            "pct" => Some(Strategy::Pct { depth }),
            "sweep-like" => Some(Strategy::SweepLike),
            _ => None,
        }
    }
}
