//! A round of the sweep, without the steps that would stall for lack of a message.

ghost use Rattle.std.specs.Prelude.{◌≡◌, ◌≤◌, ◌<◌, ◌+◌, ◌*◌, ◌^◌, None, IfSome, length};
ghost use Rattle.schedules.specs.Rounds.{round};
ghost use Rattle.schedules.specs.Skips.{AreQuiet, AreQuietInRow, IsNext, IsRestQuiet};

use crate::row::{Downs, Row, Services, Turns, Ups};
use crate::schedule::step_at;
use machine_steps::Machine;
use std::marker::Model;
use steps::Step;

/// A position in a round of the sweep.
#[derive(Debug, Drop)]
pub struct Round {
    k: u8,
    row: u8,
    /// The next wire of the row, or the number of wires at the row's end.
    wire: u8,
}

impl Model for Round {
    ghost use Rattle.std.specs.Prelude.{◌≤◌, ◌*◌, ◌+◌, ◌^◌};
    ghost use Rattle.schedules.specs.Rounds.{Sweeping, place_of};

    ghost Value = { Sweeping };

    ghost view = { λ r. record { k = r.k; place = place_of r.k r.row r.wire } };

    ghost invariant = { λ r. (r.k ≤ 6) × (r.row ≤ 2 * r.k + 2) × (r.wire ≤ 2 ^ r.k) };
}

impl Round {
    /// The beginning of a round of a machine of `k` stages.
    pub fn new(k: u8) -> Self
        requires { k ≤ 6 }
        ensures { result ≡ record { k = k; place = 0 } }
    {
        Round { k, row: 0, wire: 0 }
    }

    /// Returns the next step of the round that may do something on a machine: a turn, or a move or service that finds a
    /// message. The steps that it skips would stall. None if no step is left.
    pub fn next(&mut self, machine: &Machine) -> Option<Step>
        requires { machine.now.config.k ≡ self.old.k }
        ensures size { self.new.k ≡ self.old.k }
        ensures next { IfSome result (λ step. IsNext machine.now self.old.place step self.new.place) }
        ensures on { IfSome result (λ step. self.old.place < self.new.place) }
        ensures within { IfSome result (λ step. self.new.place ≤ length (round self.old.k)) }
        ensures over { result ≡ None → AreQuiet machine.now self.old.place (length (round self.old.k)) }
    {
        while self.row < 2 * self.k + 2 {
            if let Some(wire) = first_from(machine, self.row, self.wire) {
                self.wire = wire + 1;
                return Some(step_at(self.k, self.row, wire));
            }
            self.row += 1;
            self.wire = 0;
        }
        None
    }
}

/// The first wire of a row, from `wire` on, whose step may do something.
fn first_from(machine: &Machine, row: u8, wire: u8) -> Option<u8>
    requires stages { machine.now.config.k ≤ 6 }
    requires row { row < 2 * machine.now.config.k + 2 }
    ensures ahead { IfSome result (λ w. wire ≤ w) }
    ensures wire { IfSome result (λ w. w < 2 ^ machine.now.config.k) }
    ensures first { IfSome result (AreQuietInRow machine.now row wire) }
    ensures none { result ≡ None → IsRestQuiet machine.now row wire }
{
    let k = machine.config().k;
    if row == 0 {
        Turns.first(machine, wire)
    } else if row <= k {
        Ups { stage: k - row }.first(machine, wire)
    } else if row == k + 1 {
        Services.first(machine, wire)
    } else {
        Downs {
            stage: row - (k + 2),
        }
        .first(machine, wire)
    }
}
