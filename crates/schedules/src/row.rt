//! The rows of a round, each with steps of one kind.

ghost use Rattle.std.specs.Prelude.{◌≡◌, ◌≤◌, ◌<◌, ◌+◌, ◌*◌, ◌^◌, ℕ, None, Some, IfSome, slice_get};
ghost use Rattle.schedules.specs.Rounds.{place_of, round};
ghost use Rattle.schedules.specs.Skips.{AreQuietInRow, IsRestQuiet};

use machine_steps::{Machine, laws};
use omega_wires::WireSet;
use steps::Step;

/// A row of a round: a step of one kind for each wire.
// Each kind is a type of its own, so that the loop over a row is compiled for steps of that kind alone.
pub trait Row {
    ghost use Rattle.std.specs.Prelude.{ℕ};

    /// Whether a round of a machine with this number of stages has the row.
    ghost is_there: { Self → ℕ → Type 0 };

    /// The row's number, from 0, in a round of a machine with this number of stages.
    ghost number: { Self → ℕ → ℕ };

    /// The first wire of the row, from `wire` on, whose step may do something.
    fn first(&self, machine: &Machine, wire: u8) -> Option<u8>
        requires there { Self.is_there self.now machine.now.config.k }
        ensures ahead { IfSome result (λ w. wire ≤ w) }
        ensures wire { IfSome result (λ w. w < 2 ^ machine.now.config.k) }
        ensures first { IfSome result (AreQuietInRow machine.now (Self.number self.now machine.now.config.k) wire) }
        ensures none { result ≡ None → IsRestQuiet machine.now (Self.number self.now machine.now.config.k) wire };

    /// The step at a wire.
    fn step(&self, wire: u8) -> Step
        ensures { (k : ℕ) → k ≤ 6 → Self.is_there self.now k → wire < 2 ^ k →
            slice_get (round k) (place_of k (Self.number self.now k) wire) ≡ Some result };

    /// The row's number is below the number of rows in a round.
    ghost is_within: { (row : Self) (k : ℕ) → is_there row k → number row k < 2 * k + 2 };
}

/// The turns of all processors.
#[derive(Debug, Drop)]
pub struct Turns;

/// The moves up of the requests before a stage.
#[derive(Debug, Drop)]
pub struct Ups {
    /// The stage, from 0.
    pub stage: u8,
}

/// The services of all modules.
#[derive(Debug, Drop)]
pub struct Services;

/// The moves down of the replies after a stage.
#[derive(Debug, Drop)]
pub struct Downs {
    /// The stage, from 0.
    pub stage: u8,
}

impl Row for Turns {
    ghost use Rattle.std.proofs.Common.{rules};

    ghost is_there = { λ row k. Unit {0} };

    ghost number = { λ row k. 0 };

    ghost is_within = { λ row k there. Prim.search rules };

    // A processor may do something in each of its turns.
    #[inline(always)]
    fn first(&self, machine: &Machine, wire: u8) -> Option<u8> {
        if wire < machine.config().processors() {
            Some(wire)
        } else {
            None
        }
    }

    #[inline(always)]
    fn step(&self, wire: u8) -> Step {
        Step::Turn(wire)
    }
}

impl Row for Ups {
    ghost use Rattle.std.proofs.Common.{rules};
    ghost use Rattle.std.specs.Prelude.{◌<◌, ◌-◌};

    ghost is_there = { λ row k. row.stage < k };

    ghost number = { λ row k. k - row.stage };

    ghost is_within = { λ row k there. Prim.search rules };

    #[inline(always)]
    fn first(&self, machine: &Machine, wire: u8) -> Option<u8> {
        laws::machine_is_well_formed(machine);
        WireSet::first_from(machine.request_wires(self.stage), wire)
    }

    #[inline(always)]
    fn step(&self, wire: u8) -> Step {
        Step::Up {
            stage: self.stage,
            wire,
        }
    }
}

impl Row for Services {
    ghost use Rattle.std.proofs.Common.{rules};
    ghost use Rattle.std.specs.Prelude.{◌+◌};

    ghost is_there = { λ row k. Unit {0} };

    ghost number = { λ row k. k + 1 };

    ghost is_within = { λ row k there. Prim.search rules };

    #[inline(always)]
    fn first(&self, machine: &Machine, wire: u8) -> Option<u8> {
        WireSet::first_from(machine.request_wires(machine.config().k), wire)
    }

    #[inline(always)]
    fn step(&self, wire: u8) -> Step {
        Step::Serve(wire)
    }
}

impl Row for Downs {
    ghost use Rattle.std.proofs.Common.{rules};
    ghost use Rattle.std.specs.Prelude.{◌<◌, ◌+◌};

    ghost is_there = { λ row k. row.stage < k };

    ghost number = { λ row k. k + 2 + row.stage };

    ghost is_within = { λ row k there. Prim.search rules };

    #[inline(always)]
    fn first(&self, machine: &Machine, wire: u8) -> Option<u8> {
        laws::machine_is_well_formed(machine);
        WireSet::first_from(machine.reply_wires(self.stage + 1), wire)
    }

    #[inline(always)]
    fn step(&self, wire: u8) -> Step {
        Step::Down {
            stage: self.stage,
            wire,
        }
    }
}
