//! What observed parts say of a machine's results, as the contract of a function that does nothing.

ghost use Rattle.std.specs.Prelude.{◌≡◌, ℕ, Bool, Contains, List, Some, slice_get, true};
ghost use Rattle.exploration.specs.Results.{IsMachineResult};
ghost use Rattle.exploration.specs.local_reduction.Results.{FinalResult, StandsFor};
ghost use Rattle.machine_steps.specs.Machines.{MachineLists};
ghost use Rattle.explore_command.specs.Explorations.{AreResultsOf};
ghost use Rattle.state_conditions.specs.declared.condition.Comparison.{Comparison};
ghost use Rattle.observed_results.specs.Filters.{satisfies, satisfying};
ghost use Rattle.observed_results.specs.Lines.{observed_of, observed_parts};

/// Each observed part that is printed is that of a final result of the machine. For each final result, the part of one
/// that stands for it is printed. No part is printed twice.
pub fn observed_parts_are_those_of_the_machine()
    ensures sound { (m : MachineLists) (classes : List ℕ) (results : List FinalResult) (marks : List Bool)
        (text : List ℕ) → AreResultsOf m classes results → Contains (observed_parts marks results) text →
        (r : FinalResult) × IsMachineResult m r × (text ≡ observed_of marks r) }
    ensures complete { (m : MachineLists) (classes : List ℕ) (results : List FinalResult) (marks : List Bool)
        (q : FinalResult) → AreResultsOf m classes results → IsMachineResult m q →
        (r : FinalResult) × StandsFor classes r q × Contains (observed_parts marks results) (observed_of marks r) }
    ensures once { (results : List FinalResult) (marks : List Bool) (i j : ℕ) (text : List ℕ) →
        slice_get (observed_parts marks results) i ≡ Some text → slice_get (observed_parts marks results) j ≡ Some text
        → i ≡ j }
{
    observed_results::laws::observed_parts_are_those_of_results();
}

/// With a condition, each observed part that is printed is that of a final result of the machine that satisfies it. For
/// each such result, the part of one that stands for it and satisfies the condition is printed. No part is printed
/// twice.
pub fn filtered_parts_are_those_of_the_machine()
    ensures sound { (m : MachineLists) (classes : List ℕ) (results : List FinalResult) (marks : List Bool)
        (condition : List (List Comparison)) (text : List ℕ) → AreResultsOf m classes results →
        Contains (observed_parts marks (satisfying condition results)) text →
        (r : FinalResult) × IsMachineResult m r × (satisfies condition r ≡ true) × (text ≡ observed_of marks r) }
    ensures complete { (m : MachineLists) (classes : List ℕ) (results : List FinalResult) (marks : List Bool)
        (condition : List (List Comparison)) (q : FinalResult) → AreResultsOf m classes results → IsMachineResult m q →
        satisfies condition q ≡ true → (r : FinalResult) × StandsFor classes r q × (satisfies condition r ≡ true)
        × Contains (observed_parts marks (satisfying condition results)) (observed_of marks r) }
    ensures once { (results : List FinalResult) (marks : List Bool) (condition : List (List Comparison)) (i j : ℕ)
        (text : List ℕ) → slice_get (observed_parts marks (satisfying condition results)) i ≡ Some text →
        slice_get (observed_parts marks (satisfying condition results)) j ≡ Some text → i ≡ j }
{
    observed_results::laws::filtered_parts_are_those_of_results_that_satisfy();
    state_conditions::laws::exchanges_keep_conditions();
}
