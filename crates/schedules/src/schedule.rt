//! The step at each place of a round of the sweep.
//!
//! A round asks for each step of the machine once: a turn of each processor, a move of the request before each stage on
//! each wire, a service by each module, and a move of the reply after each stage on each wire. Messages move in order
//! from the end of their path, so that each makes room for the next. `specs/Rounds.antt` defines a round as a list.

ghost use Rattle.std.specs.Prelude.{◌≡◌, ◌≤◌, ◌<◌, ◌*◌, ◌+◌, ◌^◌, Some, slice_get};
ghost use Rattle.schedules.specs.Rounds.{place_of, round};

use steps::Step;

/// The step at a wire of a row of the round. A row has a step for each wire. Row 0 has the turns, rows 1 to `k` have
/// the moves up, from the last stage to the first, row `k + 1` has the services, and the rows after it have the moves
/// down, from the first stage to the last.
pub fn step_at(k: u8, row: u8, wire: u8) -> Step
    requires stages { k ≤ 6 }
    requires row { row < 2 * k + 2 }
    requires wire { wire < 2 ^ k }
    ensures { slice_get (round k) (place_of k row wire) ≡ Some result }
{
    if row == 0 {
        Step::Turn(wire)
    } else if row <= k {
        Step::Up {
            stage: k - row,
            wire,
        }
    } else if row == k + 1 {
        Step::Serve(wire)
    } else {
        Step::Down {
            stage: row - (k + 2),
            wire,
        }
    }
}
