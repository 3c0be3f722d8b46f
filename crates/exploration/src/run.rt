//! The search of a machine's states.

ghost use Rattle.std.specs.Prelude.{◌≡◌, ◌<◌, ◌≤◌, ◌^◌, ℕ, false, Contains, length, IfErr, IfOk};
ghost use Rattle.local_reduction.specs.Results.{FinalResult, HaveStopped, IsFlatResult, StandsFor, result_at};
ghost use Rattle.exploration.specs.Fairness.{IsFairnessAt, IsFairnessOf};
ghost use Rattle.exploration.specs.Endings.{AreInOrder, AreSingle, IsEnding, IsOnce, IsStoodFor};
ghost use Rattle.exploration.specs.Refusals.{AreOfRows, HasFoundSome, IsEndAtRows, IsSearchEnd, why_of};
ghost use Rattle.exploration.specs.States.{AreAllStates, IsGivenUp};
ghost use Rattle.state_graph.specs.Laws.{IsTerminationOf};
ghost use Rattle.local_reduction.specs.Live.{HasAllLive};
ghost use Rattle.machine_steps.specs.Machines.{AreHome, IsIdle};
ghost use Rattle.machine_steps.specs.Openings.{flat_state};
ghost use Rattle.state_graph.specs.Ranks.{no_rank};
ghost use Rattle.state_graph.specs.Termination.{IsTrueOf};
ghost use Rattle.exploration.specs.Results.{IsMachineResult};
ghost use Rattle.state_search.specs.Ends.{AreRows};
ghost use Rattle.state_search.specs.state_store.TransitionCache.{KnowsLists, KnowsLocalStates};
ghost use Rattle.state_search.specs.state_store.Opening.{AreOfExtent, flat_of};
ghost use Rattle.state_search.specs.Refusals.{HasFound};
ghost use Rattle.state_search.specs.Search.{state_at};
ghost use Rattle.state_search.specs.state_store.Moves.{AreClasses};

use crate::ending::results_of;
use crate::fairness::fairness_of;
use crate::opening::{cores_of, words_of};
use crate::outcome::Explored;
use crate::refusal::{GivenUp, PartialResults, SearchEnd};
use crate::way::{place_of, way_of};
use hart::Core;
use local_memory::Code;
use local_reduction::LiveTable;
use machine_steps::Machine;
use state_graph::termination_of;
use state_search::{
    Extent, MoveRefusal, Refusal as SearchRefusal, SearchObserver, SparseWords, StateSpace,
    StateTables, TransitionCaches, classes_of, explore_states,
};
use std::alloc::{AllocError, Global};

/// What a search does, and what it looks for.
#[derive(Clone, Copy, Debug, PartialEq, Eq, Drop)]
pub struct Search {
    /// The number of states between references at which the search gives up.
    pub limit: u32,
    /// Whether alike processors are exchanged. If not, every result is listed.
    pub exchanged: bool,
    /// Whether it is asked if every fair schedule ends. If so, no processors are exchanged.
    pub fair: bool,
    /// The result to which a way is wanted, counted from 1; 0 for a state from which no end can be reached.
    pub wanted: Option<u32>,
}

/// Finds all final results that a machine can have, up to exchanges of alike processors. A final result is one in which
/// steps without writes from outside end, with no processor running. The search reports the number of states found to
/// `observer`.
///
/// If a processor asks for its own number after a reference, the search starts again without exchanges.
///
/// # Errors
///
/// [`GivenUp::States`] if there are at least `limit` states between references, and [`GivenUp::Stopped`] if the
/// observer stops the search, both with the results found so far; [`GivenUp::Alone`] if a processor runs for 1,000,000
/// instructions without a reference and is not found to spin; [`GivenUp::Memory`] if out of memory.
pub fn explore<G: SearchObserver>(
    alloc: Global,
    machine: &Machine,
    wish: Search,
    observer: &mut G,
) -> Result<Explored, GivenUp>
    requires idle { IsIdle machine.now }
    requires home { AreHome machine.now }
    ensures sound { IfOk result (λ e. (r q : FinalResult) → Contains e.results.items r → StandsFor e.classes.items r q
        → IsMachineResult machine.now q) }
    ensures complete { IfOk result (λ e. (q : FinalResult) → IsMachineResult machine.now q
        → IsStoodFor e.classes.items e.results.items q) }
    ensures once { IfOk result (λ e. IsOnce e.results.items) }
    ensures classes { IfOk result (λ e. length e.classes.items ≡ 2 ^ machine.now.config.k) }
    ensures single { IfOk result (λ e. wish.exchanged ≡ false → AreSingle (2 ^ machine.now.config.k) e.classes.items) }
    ensures termination { IfOk result (λ e. IsTerminationOf (flat_state machine.now) e.termination) }
    ensures fairness { IfOk result (λ e. IsFairnessOf (flat_state machine.now) e.fairness) }
    ensures states { IfOk result
        (λ e. AreAllStates (flat_state machine.now) e.classes.items e.results.items e.termination e.states) }
    ensures few { IfOk result (λ e. e.states < wish.limit) }
    ensures given_up { IfErr result (λ g. IsGivenUp (flat_state machine.now) wish.limit (why_of g)) }
    ensures so_far { IfErr result (HasFoundSome (IsMachineResult machine.now) (flat_state machine.now)) }
{
    if wish.exchanged && !wish.fair {
        match explore_as(alloc, machine, wish, true, observer) {
            Ok(explored) => return Ok(explored),
            Err(SearchEnd::Asks) => {}
            Err(SearchEnd::GivenUp(given_up)) => return Err(given_up),
        }
    }
    match explore_as(alloc, machine, wish, false, observer) {
        Ok(explored) => Ok(explored),
        Err(SearchEnd::GivenUp(given_up)) => Err(given_up),
        // Only a search with exchanges looks for a processor that asks for its own number.
        Err(SearchEnd::Asks) => Err(GivenUp::Memory),
    }
}

/// Does what [`explore`] does, with processors exchanged or not.
fn explore_as<G: SearchObserver>(
    alloc: Global,
    machine: &Machine,
    wish: Search,
    exchanged: bool,
    observer: &mut G,
) -> Result<Explored, SearchEnd>
    requires idle { IsIdle machine.now }
    requires home { AreHome machine.now }
    ensures sound { IfOk result (λ e. (r q : FinalResult) → Contains e.results.items r → StandsFor e.classes.items r q
        → IsMachineResult machine.now q) }
    ensures complete { IfOk result (λ e. (q : FinalResult) → IsMachineResult machine.now q
        → IsStoodFor e.classes.items e.results.items q) }
    ensures once { IfOk result (λ e. IsOnce e.results.items) }
    ensures classes { IfOk result (λ e. length e.classes.items ≡ 2 ^ machine.now.config.k) }
    ensures single { IfOk result (λ e. exchanged ≡ false → AreSingle (2 ^ machine.now.config.k) e.classes.items) }
    ensures termination { IfOk result (λ e. IsTerminationOf (flat_state machine.now) e.termination) }
    ensures fairness { IfOk result (λ e. IsFairnessOf (flat_state machine.now) e.fairness) }
    ensures states { IfOk result
        (λ e. AreAllStates (flat_state machine.now) e.classes.items e.results.items e.termination e.states) }
    ensures few { IfOk result (λ e. e.states < wish.limit) }
    ensures given_up { IfErr result (IsSearchEnd (IsMachineResult machine.now) (flat_state machine.now) wish.limit) }
{
    machine_steps::laws::machine_is_well_formed(machine);
    crate::laws::results_are_those_of_the_flat_machine();
    let extent = extent_of(machine, exchanged);
    let Ok(cores) = cores_of(alloc, machine) else {
        return Err(SearchEnd::GivenUp(GivenUp::Memory));
    };
    let Ok(words) = words_of(alloc, machine) else {
        return Err(SearchEnd::GivenUp(GivenUp::Memory));
    };
    let all = cores.as_slice();
    let code: &Code = machine.code();
    let explored = explored_by_width(alloc, code, extent, all, words, wish, observer)?;
    Ok(explored)
}

/// The extent of a machine.
pub fn extent_of(machine: &Machine, exchanged: bool) -> Extent
    ensures { result
        ≡ record {
          processors = 2 ^ machine.now.config.k;
          shared_words = machine.now.config.shared_words;
          exchanged = exchanged;
        } }
{
    let config = machine.config();
    Extent {
        processors: config.processors(),
        shared_words: config.shared_words,
        exchanged,
    }
}

/// Finds all results of the flat machine with these cores and words, with rows as wide as its processors need.
fn explored_by_width<G: SearchObserver>(
    alloc: Global,
    code: &Code,
    extent: Extent,
    cores: &[Core],
    words: SparseWords,
    wish: Search,
    observer: &mut G,
) -> Result<Explored, SearchEnd>
    requires cores { AreOfExtent extent cores.now }
    requires room { extent.processors ≤ 64 }
    requires words { length words ≡ extent.shared_words }
    ensures sound { IfOk result (λ e. (r q : FinalResult) → Contains e.results.items r → StandsFor e.classes.items r q
        → IsFlatResult (flat_of code.now cores.now words) q) }
    ensures complete { IfOk result (λ e. (q : FinalResult) → IsFlatResult (flat_of code.now cores.now words) q
        → IsStoodFor e.classes.items e.results.items q) }
    ensures once { IfOk result (λ e. IsOnce e.results.items) }
    ensures classes { IfOk result (λ e. AreClasses extent e.classes.items) }
    ensures termination { IfOk result (λ e. IsTerminationOf (flat_of code.now cores.now words) e.termination) }
    ensures fairness { IfOk result (λ e. IsFairnessOf (flat_of code.now cores.now words) e.fairness) }
    ensures states { IfOk result
        (λ e. AreAllStates (flat_of code.now cores.now words) e.classes.items e.results.items
        e.termination e.states) }
    ensures few { IfOk result (λ e. e.states < wish.limit) }
    ensures given_up { IfErr result (IsSearchEnd (IsFlatResult (flat_of code.now cores.now words))
        (flat_of code.now cores.now words) wish.limit) }
{
    if extent.processors <= 8 {
        explore_from::<9, G>(alloc, code, extent, cores, words, wish, observer)
    } else if extent.processors <= 16 {
        explore_from::<17, G>(alloc, code, extent, cores, words, wish, observer)
    } else if extent.processors <= 32 {
        explore_from::<33, G>(alloc, code, extent, cores, words, wish, observer)
    } else {
        explore_from::<65, G>(alloc, code, extent, cores, words, wish, observer)
    }
}

/// Finds all results of the flat machine with these cores and words.
fn explore_from<const N: usize, G: SearchObserver>(
    alloc: Global,
    code: &Code,
    extent: Extent,
    cores: &[Core],
    words: SparseWords,
    wish: Search,
    observer: &mut G,
) -> Result<Explored, SearchEnd>
    requires cores { AreOfExtent extent cores.now }
    requires room { extent.processors < N }
    requires narrow { N ≤ 65 }
    requires words { length words ≡ extent.shared_words }
    ensures sound { IfOk result (λ e. (r q : FinalResult) → Contains e.results.items r → StandsFor e.classes.items r q
        → IsFlatResult (flat_of code.now cores.now words) q) }
    ensures complete { IfOk result (λ e. (q : FinalResult) → IsFlatResult (flat_of code.now cores.now words) q
        → IsStoodFor e.classes.items e.results.items q) }
    ensures once { IfOk result (λ e. IsOnce e.results.items) }
    ensures classes { IfOk result (λ e. AreClasses extent e.classes.items) }
    ensures termination { IfOk result (λ e. IsTerminationOf (flat_of code.now cores.now words) e.termination) }
    ensures fairness { IfOk result (λ e. IsFairnessOf (flat_of code.now cores.now words) e.fairness) }
    ensures states { IfOk result
        (λ e. AreAllStates (flat_of code.now cores.now words) e.classes.items e.results.items
        e.termination e.states) }
    ensures few { IfOk result (λ e. e.states < wish.limit) }
    ensures given_up { IfErr result (IsSearchEnd (IsFlatResult (flat_of code.now cores.now words))
        (flat_of code.now cores.now words) wish.limit) }
{
    state_graph::laws::all_stood_for_are_results();
    state_graph::laws::each_result_is_stood_for();
    state_graph::laws::successors_decide_termination();
    local_reduction::laws::dead_registers_can_be_forgotten();
    local_reduction::laws::fairly_ranked_schedules_end();
    local_reduction::laws::fair_cycles_never_end();
    let Ok(live) = LiveTable::new(alloc, code) else {
        return Err(SearchEnd::GivenUp(GivenUp::Memory));
    };
    let mut state_tables = StateTables::new(alloc, live);
    let first = state_tables.open::<N>(alloc, code, extent, cores, words)?;
    let Ok(classes) = classes_of(alloc, extent, &first) else {
        return Err(SearchEnd::GivenUp(GivenUp::Memory));
    };
    let mut transition_caches = TransitionCaches::new(alloc);
    let mut found = StateSpace::new(alloc);
    let searched = explore_states(
        alloc,
        &mut state_tables,
        &mut transition_caches,
        code,
        extent,
        classes.as_slice(),
        first,
        wish.limit,
        observer,
        &mut found,
    );
    match searched {
        Ok(()) => {
            let explored = results_of_space(
                alloc,
                &mut state_tables,
                &mut transition_caches,
                code,
                extent,
                classes,
                found,
                wish,
            )?;
            Ok(explored)
        }
        Err(refusal) => Err(end_of_search(alloc, &state_tables, extent, classes, &found, refusal)),
    }
}

/// How a search ends that gives up, with the results of the rows that it has found.
fn end_of_search<const N: usize>(
    alloc: Global,
    state_tables: &StateTables,
    extent: Extent,
    classes: Vec<u8>,
    found: &StateSpace<N>,
    refusal: SearchRefusal,
) -> SearchEnd
    requires rows { HasFound refusal → AreRows extent state_tables.now found.now.rows.keys }
    requires classes { AreClasses extent classes.items }
    requires room { extent.processors < N }
    requires narrow { N ≤ 65 }
    ensures { IsEndAtRows extent classes.items state_tables.now found.now.rows.keys refusal result }
{
    match refusal {
        SearchRefusal::Memory => SearchEnd::GivenUp(GivenUp::Memory),
        SearchRefusal::Alone => SearchEnd::GivenUp(GivenUp::Alone),
        SearchRefusal::Asks => SearchEnd::Asks,
        SearchRefusal::States => {
            match partial_results(alloc, state_tables, extent, classes, found) {
                Ok(partial) => SearchEnd::GivenUp(GivenUp::States(partial)),
                Err(_) => SearchEnd::GivenUp(GivenUp::Memory),
            }
        }
        SearchRefusal::Stopped => {
            match partial_results(alloc, state_tables, extent, classes, found) {
                Ok(partial) => SearchEnd::GivenUp(GivenUp::Stopped(partial)),
                Err(_) => SearchEnd::GivenUp(GivenUp::Memory),
            }
        }
    }
}

/// The results of the rows that a search has found before it gave up.
fn partial_results<const N: usize>(
    alloc: Global,
    state_tables: &StateTables,
    extent: Extent,
    classes: Vec<u8>,
    found: &StateSpace<N>,
) -> Result<PartialResults, AllocError>
    requires rows { AreRows extent state_tables.now found.now.rows.keys }
    requires classes { AreClasses extent classes.items }
    requires room { extent.processors < N }
    requires narrow { N ≤ 65 }
    ensures { IfOk result (AreOfRows extent classes.items state_tables.now found.now.rows.keys) }
{
    let rows = found.rows.as_slice();
    // The places of results are numbers of 32 bits.
    let Ok(_) = u32::try_from(rows.len()) else {
        return Err(AllocError);
    };
    let endings = results_of(alloc, state_tables, extent, classes.as_slice(), rows)?;
    Ok(PartialResults {
        results: endings.results,
        states: rows.len(),
        classes,
    })
}

/// Returns the results of the rows that a search found, whether schedules end, and the way that is wanted.
// A function of its own, so that no function has many values to drop at each of its returns.
fn results_of_space<const N: usize>(
    alloc: Global,
    state_tables: &mut StateTables,
    transition_caches: &mut TransitionCaches,
    code: &Code,
    extent: Extent,
    classes: Vec<u8>,
    found: StateSpace<N>,
    wish: Search,
) -> Result<Explored, MoveRefusal>
    requires live { HasAllLive code.now state_tables.old.live }
    requires rows { AreRows extent state_tables.old found.rows.keys }
    requires classes { AreClasses extent classes.items }
    requires room { extent.processors < N }
    requires narrow { N ≤ 65 }
    requires few { length found.moves ≤ no_rank }
    requires all { length found.moves ≡ length found.rows.keys }
    requires local_states { KnowsLocalStates extent.exchanged code.now state_tables.old
        transition_caches.old.local_states }
    requires lists { KnowsLists state_tables.old transition_caches.old.lists }
    ensures classes { IfOk result (λ e. e.classes.items ≡ classes.items) }
    ensures sound { IfOk result (λ e. (r : FinalResult) → Contains e.results.items r
        → IsEnding extent classes.items state_tables.old found.entry.rows.keys r) }
    ensures once { IfOk result (λ e. IsOnce e.results.items) }
    ensures complete { IfOk result (λ e. (i : ℕ) → i < length found.entry.rows.keys →
        HaveStopped (state_at extent state_tables.old found.entry.rows.keys i)
        → IsStoodFor classes.items e.results.items (result_at
        (state_at extent state_tables.old found.entry.rows.keys i))) }
    ensures termination { IfOk result (λ e. IsTrueOf found.entry.moves e.termination) }
    ensures fairness { IfOk result
        (λ e. IsFairnessAt extent code.now state_tables.old found.entry.rows.keys e.fairness) }
    ensures order { IfOk result (λ e. AreInOrder classes.items (state_at extent state_tables.old found.entry.rows.keys)
        (length found.entry.rows.keys) e.results.items) }
    ensures states { IfOk result (λ e. e.states ≡ length found.entry.moves) }
{
    let Ok(endings) = results_of(
        alloc,
        state_tables,
        extent,
        classes.as_slice(),
        found.rows.as_slice(),
    ) else {
        return Err(MoveRefusal::Memory);
    };
    let Ok(termination) = termination_of(alloc, &found.moves) else {
        return Err(MoveRefusal::Memory);
    };
    let fairness = fairness_of(
        alloc,
        state_tables,
        transition_caches,
        code,
        extent,
        classes.as_slice(),
        &found,
        wish.fair,
    )?;
    let way = match place_of(endings.places.as_slice(), termination, wish.wanted) {
        Some(place) => {
            let is_end = wish.wanted != Some(0);
            way_of(
                alloc,
                state_tables,
                transition_caches,
                code,
                extent,
                classes.as_slice(),
                &found,
                place,
                is_end,
            )?
        }
        None => Vec::new(alloc),
    };
    Ok(Explored {
        results: endings.results,
        termination,
        fairness,
        states: found.moves.len(),
        classes,
        way,
    })
}
