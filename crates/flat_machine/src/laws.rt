//! Laws of the flat machine: each is the contract of a function that does nothing.

ghost use Rattle.std.specs.Prelude.{◌≡◌, ◌≢◌, ℕ, ◌++◌, List, All, Some, slice_get, false};
ghost use Rattle.flat_machine.specs.declared.poke.Entry.{Entry};
ghost use Rattle.flat_machine.specs.State.{FlatState, Processor, is_running};
ghost use Rattle.flat_machine.specs.Flat.{flat_step, flat_run, flat_events};
ghost use Rattle.flat_machine.specs.Laws.{ChangesOneWord, HasAlignedPc, HasZero, IsInRange, LocalTurnsCommute};
ghost use Rattle.flat_machine.specs.Laws.{StopChangesStatus, WritesWords, EffectsAskForWords, TurnsLeaveWords};
ghost use Rattle.flat_machine.specs.Laws.{NaturalHalves, SignedHalves, MixedHalves, NaturalDivision, SignedDivision};
ghost use Rattle.flat_machine.specs.Laws.{WordDivision, RemainderIsNearer, RemainderHasTheSign, DivisionByZero};
ghost use Rattle.flat_machine.specs.Laws.{DivisionOverflow};

/// Register 0 always holds 0.
#[tactic(auto, using(crate::proofs::Kept::zero_kept))]
pub fn register_zero_is_zero()
    ensures { (m : FlatState) (entries : List Entry) → All HasZero m.processors →
        All HasZero (flat_run m entries).processors }
{}

/// Every `pc` stays divisible by 4.
#[tactic(auto, using(crate::proofs::Kept::alignment_kept))]
pub fn pc_stays_aligned()
    ensures { (m : FlatState) (entries : List Entry) → All HasAlignedPc m.processors →
        All HasAlignedPc (flat_run m entries).processors }
{}

/// An instruction that stops its processor, by a fault or a halt, changes nothing but the status.
#[tactic(auto, using(crate::proofs::Steps::stop_changes_status))]
pub fn stop_changes_the_status_alone()
    ensures { StopChangesStatus }
{}

/// A processor that has stopped takes no instruction.
#[tactic(auto, using(crate::proofs::Steps::stopped_stays))]
pub fn stopped_processor_stays()
    ensures { (m : FlatState) (k : ℕ) (p : Processor) → slice_get m.processors k ≡ Some p → is_running p.status ≡ false
        → flat_step m (Entry.Processor k) ≡ m }
{}

/// A processor's step changes no other processor.
#[tactic(auto, using(crate::proofs::Steps::others_kept))]
pub fn others_are_left_alone()
    ensures { (m : FlatState) (k other : ℕ) → other ≢ k
        → slice_get (flat_step m (Entry.Processor k)).processors other ≡ slice_get m.processors other }
{}

/// A processor's step changes at most one shared word, and no code.
#[tactic(auto, using(crate::proofs::Steps::one_word, crate::proofs::Steps::code_kept))]
pub fn one_shared_word_changes()
    ensures word { ChangesOneWord }
    ensures code { (m : FlatState) (k : ℕ) → (flat_step m (Entry.Processor k)).code ≡ m.code }
{}

/// Turns of two processors that reach no shared word commute.
#[tactic(auto, using(crate::proofs::Commuting::local_turns))]
pub fn local_turns_commute()
    ensures { LocalTurnsCommute }
{}

/// A run over two lists is a run over the first, followed by one over the second.
#[tactic(auto, using(crate::proofs::Steps::run_append, crate::proofs::Steps::events_append))]
pub fn runs_join()
    ensures state { (m : FlatState) (first second : List Entry) →
        flat_run m (first ++ second) ≡ flat_run (flat_run m first) second }
    ensures events { (m : FlatState) (first second : List Entry)
        → flat_events m (first ++ second) ≡ flat_events m first ++ flat_events (flat_run m first) second }
{}

/// Words stay words, and bytes stay bytes: in what an instruction asks for, in the processor and the shared word after
/// a turn, and in the whole machine after a run whose pokes write words and bytes.
#[tactic(auto, using(crate::proofs::Values::effect_asks, crate::proofs::InRange::turn_words))]
pub fn words_stay_words()
    ensures effect { EffectsAskForWords }
    ensures turn { TurnsLeaveWords }
    ensures run { (m : FlatState) (entries : List Entry) → IsInRange m → All WritesWords entries →
        IsInRange (flat_run m entries) }
{}

/// How products and quotients relate to their operands. The two halves of a product are together the whole product,
/// whether its factors are unsigned, signed, or one of each. Quotient times divisor plus remainder is the dividend; for
/// signed operands this holds as integers unless the quotient overflows, and modulo 2^32 always. The remainder is
/// nearer to zero than the divisor and has the dividend's sign. Division by zero and overflow have the results of the
/// manual's table.
pub fn products_and_quotients()
    ensures unsigned_product { NaturalHalves }
    ensures signed_product { SignedHalves }
    ensures mixed_product { MixedHalves }
    ensures unsigned_division { NaturalDivision }
    ensures signed_division { SignedDivision }
    ensures modulo { WordDivision }
    ensures remainder_is_nearer { RemainderIsNearer }
    ensures remainder_has_the_sign { RemainderHasTheSign }
    ensures by_zero { DivisionByZero }
    ensures overflow { DivisionOverflow }
{}
