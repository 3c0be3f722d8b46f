//! What observed parts say of results, as contracts of functions that do nothing.

ghost use Rattle.std.specs.Prelude.{◌≡◌, ◌↔◌, ℕ, Bool, Contains, List, Some, length, slice_get, true};
ghost use Rattle.exploration.specs.local_reduction.Results.{FinalResult};
ghost use Rattle.state_conditions.specs.declared.condition.Comparison.{Comparison};
ghost use Rattle.observed_results.specs.Filters.{satisfies, satisfying};
ghost use Rattle.observed_results.specs.Lines.{observed_of, observed_parts};
ghost use Rattle.observed_results.specs.Outcomes.{IsMatched, missing_in};

/// Each observed part is that of one of the results, the part of each result is there, and no part is there twice.
pub fn observed_parts_are_those_of_results()
    ensures sound { (results : List FinalResult) (marks : List Bool) (text : List ℕ) →
        Contains (observed_parts marks results) text →
        (r : FinalResult) × Contains results r × (text ≡ observed_of marks r) }
    ensures complete { (results : List FinalResult) (marks : List Bool) (r : FinalResult) → Contains results r →
        Contains (observed_parts marks results) (observed_of marks r) }
    ensures once { (results : List FinalResult) (marks : List Bool) (i j : ℕ) (text : List ℕ) →
        slice_get (observed_parts marks results) i ≡ Some text → slice_get (observed_parts marks results) j ≡ Some text
        → i ≡ j }
{}

/// The parts that are printed with a condition are those of the results that satisfy it: each is the part of such a
/// result, the part of each such result is there, and no part is there twice.
pub fn filtered_parts_are_those_of_results_that_satisfy()
    ensures sound { (results : List FinalResult) (marks : List Bool) (condition : List (List Comparison))
        (text : List ℕ) → Contains (observed_parts marks (satisfying condition results)) text →
        (r : FinalResult) × Contains results r × (satisfies condition r ≡ true) × (text ≡ observed_of marks r) }
    ensures complete { (results : List FinalResult) (marks : List Bool) (condition : List (List Comparison))
        (r : FinalResult) → Contains results r → satisfies condition r ≡ true →
        Contains (observed_parts marks (satisfying condition results)) (observed_of marks r) }
    ensures once { (results : List FinalResult) (marks : List Bool) (condition : List (List Comparison)) (i j : ℕ)
        (text : List ℕ) → slice_get (observed_parts marks (satisfying condition results)) i ≡ Some text →
        slice_get (observed_parts marks (satisfying condition results)) j ≡ Some text → i ≡ j }
    ensures numbered { (results : List FinalResult) (marks : List Bool) (condition : List (List Comparison))
        (text : List ℕ) → Contains (observed_parts marks (satisfying condition results)) text →
        Contains (observed_parts marks results) text }
{
    observed_parts_are_those_of_results();
}

/// No part is missing exactly if each result has the outcome of one of the others.
pub fn no_part_is_missing_if_each_result_is_matched()
    ensures matched { (marks : List Bool) (others results : List FinalResult) →
        (length (observed_parts marks (missing_in marks others results)) ≡ 0)
        ↔ ((r : FinalResult) → Contains results r → IsMatched marks others r) }
{}
