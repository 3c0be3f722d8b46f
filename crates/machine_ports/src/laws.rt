//! Laws of references: each is the contract of a function that does nothing.

ghost use Rattle.std.specs.Prelude.{◌≡◌, ℕ, ◌<◌, ◌^◌, List};
ghost use Rattle.phi_algebra.specs.Functions.{IsInRange, apply};
ghost use Rattle.flat_machine.specs.declared.event.Retired.{Retired};
ghost use Rattle.flat_machine.specs.declared.setting.Setting.{Setting};
ghost use Rattle.flat_machine.specs.Laws.{HasWords};
ghost use Rattle.flat_machine.specs.State.{Processor};
ghost use Rattle.flat_machine.specs.Turns.{Reaches, turn_of};
ghost use Rattle.machine_ports.specs.Ports.{reference_phi};

/// The function of a reference is in range and means the turn's change of the word, and the machine
/// has that word.
pub fn references_mean_their_changes()
    ensures in_range { (s : Setting) (code : List ℕ) (p : Processor) (word : ℕ) (change : ℕ → ℕ) (after : ℕ →
        Processor × Retired) → HasWords p →
        turn_of s code p ≡ Reaches word change after → IsInRange (reference_phi s code p) }
    ensures meaning { (s : Setting) (code : List ℕ) (p : Processor) (word : ℕ) (change : ℕ → ℕ) (after : ℕ →
        Processor × Retired) → HasWords p →
        turn_of s code p ≡ Reaches word change after → (x : ℕ) → x < 2 ^ 32 →
        apply (reference_phi s code p) x ≡ change x }
    ensures there { (s : Setting) (code : List ℕ) (p : Processor) (word : ℕ) (change : ℕ → ℕ) (after : ℕ →
        Processor × Retired) → HasWords p →
        turn_of s code p ≡ Reaches word change after → word < s.shared_words }
{}
