//! The step at each place of the list of choices.

ghost use Rattle.std.specs.Prelude.{◌≡◌, ◌≤◌, ◌<◌, ◌*◌, ◌+◌, ◌^◌, Some, slice_get};
ghost use Rattle.schedules.specs.Choices.{choices};
ghost use Rattle.schedules.specs.Rounds.{place_of};

use steps::Step;

/// The step at a place of the list.
pub fn choice_at(k: u8, place: u32) -> Step
    requires stages { k ≤ 6 }
    requires place { place < 2 * k * 2 ^ k + 2 ^ k }
    ensures { slice_get (choices k) place ≡ Some result }
{
    let wires = 1_u32 << k;
    choice_in(k, (place / wires) as u8, (place % wires) as u8)
}

/// The step at a wire of a row of the list. A row has a step for each wire. Rows 0 to `k - 1` have the moves up by
/// stage, row `k` has the services, and the rows after it have the moves down by stage.
fn choice_in(k: u8, row: u8, wire: u8) -> Step
    requires stages { k ≤ 6 }
    requires row { row < 2 * k + 1 }
    requires wire { wire < 2 ^ k }
    ensures { slice_get (choices k) (place_of k row wire) ≡ Some result }
{
    if row < k {
        Step::Up { stage: row, wire }
    } else if row == k {
        Step::Serve(wire)
    } else {
        Step::Down {
            stage: row - (k + 1),
            wire,
        }
    }
}
