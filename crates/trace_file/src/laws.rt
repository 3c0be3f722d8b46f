//! Laws of traces. Each law is the contract of a function that does nothing.

ghost use Rattle.std.specs.Prelude.{◌≡◌, ◌≢◌, ◌⊎◌, ℕ, ◌++◌, List};
ghost use Rattle.trace_file.specs.declared.error.TraceError.{TraceError};
ghost use Rattle.trace_file.specs.Traces.{TraceContents, trace_bytes, IsTrace};
ghost use Rattle.trace_file.specs.Faults.{FaultAt};
ghost use Rattle.trace_file.specs.Laws.{AreBytes, HasFault, Spells};

/// Bytes spell at most one trace.
pub fn bytes_spell_one_trace()
    ensures { (one other : TraceContents) → IsTrace one → IsTrace other → trace_bytes one ≡ trace_bytes other →
        one ≡ other }
{}

/// Bytes spell a trace or have a fault, and not both.
pub fn spelled_or_faulty()
    ensures either { (bytes : List ℕ) → AreBytes bytes → ((t : TraceContents) × Spells bytes t) ⊎ HasFault bytes }
    ensures not_both { (bytes : List ℕ) (t : TraceContents) → Spells bytes t → HasFault bytes → ⊥ }
{}

/// Bytes have at most one fault, at one place.
pub fn one_fault_at_most()
    ensures { (bytes : List ℕ) (place other_place : ℕ) (fault other : TraceError)
        → FaultAt place bytes fault → FaultAt other_place bytes other → (place ≡ other_place) × (fault ≡ other) }
{}

/// A fault is the same, whatever bytes follow, unless it is that the bytes end too early.
pub fn faults_stay()
    ensures { (bytes more : List ℕ) (place : ℕ) (fault : TraceError)
        → fault ≢ TraceError.Truncated → FaultAt place bytes fault → FaultAt place (bytes ++ more) fault }
{}
