//! Properties, judged on every state between references.

ghost use Rattle.std.specs.Prelude.{◌≡◌, ◌↔◌, ◌<◌, ◌≤◌, ℕ, length, IfErr, IfOk, IsTrue};
ghost use Rattle.local_reduction.specs.flat_machine.State.{FlatState};
ghost use Rattle.local_reduction.specs.Live.{HasAllLive};
ghost use Rattle.machine_steps.specs.Machines.{AreHome};
ghost use Rattle.machine_steps.specs.Openings.{flat_state};
ghost use Rattle.state_graph.specs.Ranks.{no_rank};
ghost use Rattle.state_search.specs.Ends.{AreRows};
ghost use Rattle.state_search.specs.Refusals.{HasFound};
ghost use Rattle.state_search.specs.state_store.Moves.{AreClasses};
ghost use Rattle.state_search.specs.state_store.Opening.{AreOfExtent, flat_of};
ghost use Rattle.state_search.specs.state_store.TransitionCache.{KnowsLists, KnowsLocalStates};
ghost use Rattle.exploration.specs.Refusals.{refused_by_search};
ghost use Rattle.exploration.specs.States.{IsGivenUp};
ghost use Rattle.property_search.specs.Verdicts.{IsFoundVerdict, IsVerdict};

use crate::broken::{first_broken, is_unknown};
use exploration::{Refusal, cores_of, extent_of, way_of, words_of};
use hart::Core;
use local_memory::Code;
use local_reduction::LiveTable;
use machine_steps::Machine;
use state_conditions::Property;
use state_search::{
    Extent, MoveRefusal, Refusal as SearchRefusal, SearchObserver, SparseWords, StateSpace,
    StateTables, TransitionCaches, classes_of, explore_states,
};
use std::alloc::Global;

/// Whether a property holds.
#[derive(Clone, Copy, Debug, PartialEq, Eq, Drop)]
pub enum Verdict {
    /// No state between references breaks the property.
    Holds,
    /// A state breaks it.
    Broken,
    /// No state that was found breaks it, but in one of them a processor spins, and the search does not go beyond such
    /// a state. Never so for a property of the states in which no processor runs.
    Unknown,
}

/// What a search finds of a property.
#[derive(Drop)]
pub struct Judged {
    pub verdict: Verdict,
    /// The processors whose references, one after another, lead to a state that breaks the property, on a shortest way.
    /// It is empty if no such state was found.
    pub way: Vec<u8>,
}

/// Judges a property on every state between references that a machine can come to, up to exchanges of alike processors.
/// The search reports the number of states found to `observer`.
///
/// If a processor asks for its own number after a reference, the search starts again without exchanges. If the search
/// gives up, but a state that it has found breaks the property, this is the verdict.
///
/// # Errors
///
/// Those of [`exploration::explore`], without results.
pub fn judge<G: SearchObserver>(
    alloc: Global,
    machine: &Machine,
    limit: u32,
    property: &Property,
    observer: &mut G,
) -> Result<Judged, Refusal>
    requires home { AreHome machine.now }
    ensures verdict { IfOk result (λ judged. IsVerdict (flat_state machine.now) property.now.kind property.now.condition
        judged.verdict) }
    ensures given_up { IfErr result (IsGivenUp (flat_state machine.now) limit) }
{
    match judge_as(alloc, machine, limit, true, property, observer) {
        Ok(judged) => return Ok(judged),
        Err(SearchRefusal::Asks) => {}
        Err(refusal) => return Err(Refusal::of(refusal)),
    }
    match judge_as(alloc, machine, limit, false, property, observer) {
        Ok(judged) => Ok(judged),
        Err(refusal) => Err(Refusal::of(refusal)),
    }
}

/// Does what [`judge`] does, with processors exchanged or not.
fn judge_as<G: SearchObserver>(
    alloc: Global,
    machine: &Machine,
    limit: u32,
    exchanged: bool,
    property: &Property,
    observer: &mut G,
) -> Result<Judged, SearchRefusal>
    requires home { AreHome machine.now }
    ensures verdict { IfOk result (λ judged. IsVerdict (flat_state machine.now) property.now.kind property.now.condition
        judged.verdict) }
    ensures given_up { IfErr result (λ why. IsGivenUp (flat_state machine.now) limit (refused_by_search why)) }
{
    machine_steps::laws::machine_is_well_formed(machine);
    let extent = extent_of(machine, exchanged);
    let Ok(cores) = cores_of(alloc, machine) else {
        return Err(SearchRefusal::Memory);
    };
    let Ok(words) = words_of(alloc, machine) else {
        return Err(SearchRefusal::Memory);
    };
    let all = cores.as_slice();
    let code: &Code = machine.code();
    let judged = judge_by_width(alloc, code, extent, all, words, limit, property, observer)?;
    Ok(judged)
}

/// Judges the flat machine with these cores and words, with rows as wide as its processors need.
fn judge_by_width<G: SearchObserver>(
    alloc: Global,
    code: &Code,
    extent: Extent,
    cores: &[Core],
    words: SparseWords,
    limit: u32,
    property: &Property,
    observer: &mut G,
) -> Result<Judged, SearchRefusal>
    requires cores { AreOfExtent extent cores.now }
    requires room { extent.processors ≤ 64 }
    requires words { length words ≡ extent.shared_words }
    ensures verdict { IfOk result (λ judged. IsVerdict (flat_of code.now cores.now words) property.now.kind
        property.now.condition judged.verdict) }
    ensures given_up { IfErr result (λ why.
        IsGivenUp (flat_of code.now cores.now words) limit (refused_by_search why)) }
{
    if extent.processors <= 8 {
        judge_from::<9, G>(alloc, code, extent, cores, words, limit, property, observer)
    } else if extent.processors <= 16 {
        judge_from::<17, G>(alloc, code, extent, cores, words, limit, property, observer)
    } else if extent.processors <= 32 {
        judge_from::<33, G>(alloc, code, extent, cores, words, limit, property, observer)
    } else {
        judge_from::<65, G>(alloc, code, extent, cores, words, limit, property, observer)
    }
}

/// Judges the flat machine with these cores and words.
fn judge_from<const N: usize, G: SearchObserver>(
    alloc: Global,
    code: &Code,
    extent: Extent,
    cores: &[Core],
    words: SparseWords,
    limit: u32,
    property: &Property,
    observer: &mut G,
) -> Result<Judged, SearchRefusal>
    requires cores { AreOfExtent extent cores.now }
    requires room { extent.processors < N }
    requires narrow { N ≤ 65 }
    requires words { length words ≡ extent.shared_words }
    ensures verdict { IfOk result (λ judged. IsVerdict (flat_of code.now cores.now words) property.now.kind
        property.now.condition judged.verdict) }
    ensures given_up { IfErr result (λ why.
        IsGivenUp (flat_of code.now cores.now words) limit (refused_by_search why)) }
{
    state_graph::laws::each_state_is_stood_for();
    state_graph::laws::each_result_is_stood_for();
    state_graph::laws::each_found_state_is_reached();
    state_conditions::laws::exchanges_keep_conditions();
    local_reduction::laws::dead_registers_can_be_forgotten();
    let Ok(live) = LiveTable::new(alloc, code) else {
        return Err(SearchRefusal::Memory);
    };
    let mut state_tables = StateTables::new(alloc, live);
    let first = state_tables.open::<N>(alloc, code, extent, cores, words)?;
    let Ok(classes) = classes_of(alloc, extent, &first) else {
        return Err(SearchRefusal::Memory);
    };
    let mut transition_caches = TransitionCaches::new(alloc);
    let mut found = StateSpace::new(alloc);
    let searched = explore_states(
        alloc,
        &mut state_tables,
        &mut transition_caches,
        code,
        extent,
        classes.as_slice(),
        first,
        limit,
        observer,
        &mut found,
    );
    match searched {
        Ok(()) => {
            let judged = judge_space(
                alloc,
                &mut state_tables,
                &mut transition_caches,
                code,
                extent,
                classes.as_slice(),
                &found,
                property,
            )?;
            Ok(judged)
        }
        Err(refusal) => {
            let judged = judge_part(
                alloc,
                &mut state_tables,
                &mut transition_caches,
                code,
                extent,
                classes.as_slice(),
                &found,
                property,
                refusal,
            )?;
            Ok(judged)
        }
    }
}

/// Judges a property on the rows that a search found.
// A function of its own, so that no function has many values to drop at each of its returns.
fn judge_space<const N: usize>(
    alloc: Global,
    state_tables: &mut StateTables,
    transition_caches: &mut TransitionCaches,
    code: &Code,
    extent: Extent,
    classes: &[u8],
    found: &StateSpace<N>,
    property: &Property,
) -> Result<Judged, MoveRefusal>
    requires live { HasAllLive code.now state_tables.old.live }
    requires rows { AreRows extent state_tables.old found.now.rows.keys }
    requires classes { AreClasses extent classes.now }
    requires room { extent.processors < N }
    requires narrow { N ≤ 65 }
    requires few { length found.now.rows.keys ≤ no_rank }
    requires local_states { KnowsLocalStates extent.exchanged code.now state_tables.old
        transition_caches.old.local_states }
    requires lists { KnowsLists state_tables.old transition_caches.old.lists }
    ensures verdict { IfOk result (λ judged. IsFoundVerdict extent code.now state_tables.old found.now.rows.keys
        property.now.kind property.now.condition judged.verdict) }
{
    let rows = found.rows.as_slice();
    let Ok(broken) = first_broken(alloc, state_tables, extent, rows, property) else {
        return Err(MoveRefusal::Memory);
    };
    let Some(place) = broken else {
        let verdict = if is_unknown(state_tables, code, extent, rows, property.kind) {
            Verdict::Unknown
        } else {
            Verdict::Holds
        };
        return Ok(Judged {
            verdict,
            way: Vec::new(alloc),
        });
    };
    let way = way_of(
        alloc,
        state_tables,
        transition_caches,
        code,
        extent,
        classes,
        found,
        place,
        false,
    )?;
    Ok(Judged {
        verdict: Verdict::Broken,
        way,
    })
}

/// Judges a property on the rows that a search had found when it gave up. If none of them breaks the property, it is
/// not judged, for the reason why the search gave up.
fn judge_part<const N: usize>(
    alloc: Global,
    state_tables: &mut StateTables,
    transition_caches: &mut TransitionCaches,
    code: &Code,
    extent: Extent,
    classes: &[u8],
    found: &StateSpace<N>,
    property: &Property,
    refusal: SearchRefusal,
) -> Result<Judged, SearchRefusal>
    requires live { HasFound refusal → HasAllLive code.now state_tables.old.live }
    requires rows { HasFound refusal → AreRows extent state_tables.old found.now.rows.keys }
    requires classes { AreClasses extent classes.now }
    requires room { extent.processors < N }
    requires narrow { N ≤ 65 }
    requires known { HasFound refusal →
        KnowsLocalStates extent.exchanged code.now state_tables.old transition_caches.old.local_states
        × KnowsLists state_tables.old transition_caches.old.lists }
    ensures found { IfOk result (λ judged. HasFound refusal) }
    ensures broken { IfOk result (λ judged. judged.verdict ≡ Verdict.Broken) }
    ensures verdict { IfOk result (λ judged. IsFoundVerdict extent code.now state_tables.old found.now.rows.keys
        property.now.kind property.now.condition judged.verdict) }
    ensures given_up { (m : FlatState) (limit : ℕ) → IsGivenUp m limit (refused_by_search refusal) →
        IfErr result (λ why. IsGivenUp m limit (refused_by_search why)) }
{
    if !has_found(refusal) {
        return Err(refusal);
    }
    // The places of rows are numbers of 32 bits.
    let Ok(_) = u32::try_from(found.rows.len()) else {
        return Err(SearchRefusal::Memory);
    };
    let judged = judge_space(
        alloc,
        state_tables,
        transition_caches,
        code,
        extent,
        classes,
        found,
        property,
    )?;
    match judged.verdict {
        Verdict::Broken => Ok(judged),
        _ => Err(refusal),
    }
}

/// Whether a search that gives up for this reason could have gone on, and has found rows.
fn has_found(refusal: SearchRefusal) -> bool
    ensures { IsTrue result ↔ HasFound refusal }
{
    match refusal {
        SearchRefusal::States | SearchRefusal::Stopped => true,
        SearchRefusal::Memory | SearchRefusal::Alone | SearchRefusal::Asks => false,
    }
}
