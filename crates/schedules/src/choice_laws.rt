//! Laws of the list of choices.

ghost use Rattle.std.specs.Prelude.{◌≡◌, ℕ, ◌+◌, ◌*◌, ◌^◌, Some, slice_get, length};
ghost use Rattle.steps.specs.declared.step.Step.{Step};
ghost use Rattle.schedules.specs.Choices.{choices, IsOfNetwork};

/// The list has exactly the moves of the network's messages and the services of its modules.
pub fn choices_are_of_the_network()
    ensures count { (k : ℕ) → length (choices k) ≡ 2 * k * 2 ^ k + 2 ^ k }
    ensures named { (k place : ℕ) (s : Step) → slice_get (choices k) place ≡ Some s → IsOfNetwork k s }
    ensures all { (k : ℕ) (s : Step) → IsOfNetwork k s → (place : ℕ) × (slice_get (choices k) place ≡ Some s) }
{}
