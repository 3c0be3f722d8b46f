//! Whether every fair schedule ends.

ghost use Rattle.std.specs.Prelude.{◌≡◌, ◌<◌, ◌≤◌, length, IfOk, OnOk};
ghost use Rattle.exploration.specs.Fairness.{IsFairnessAt, fairness_by};
ghost use Rattle.local_reduction.specs.Live.{HasAllLive};
ghost use Rattle.state_graph.specs.Ranks.{no_rank};
ghost use Rattle.state_search.specs.Ends.{AreRows};
ghost use Rattle.state_search.specs.state_store.TransitionCache.{KnowsLists, KnowsLocalStates};
ghost use Rattle.state_search.specs.state_store.Moves.{AreClasses};
ghost use Rattle.state_search.specs.state_store.StateTables.{HasGrown};

use crate::outcome::Fairness;
use local_memory::Code;
use state_graph::{FairCertificate, fair_certificate_of};
use state_search::{Extent, MoveRefusal, StateSpace, StateTables, TransitionCaches, targets_of};
use std::alloc::Global;

/// Whether every fair schedule ends, by ranks or a lasso of the rows that a search without exchanges found. Nothing is
/// said unless it is asked for.
///
/// # Errors
///
/// Those of [`targets_of`]; [`MoveRefusal::Memory`] also if there is no memory for the ranks or the lasso.
pub(crate) fn fairness_of<const N: usize>(
    alloc: Global,
    state_tables: &mut StateTables,
    transition_caches: &mut TransitionCaches,
    code: &Code,
    extent: Extent,
    classes: &[u8],
    found: &StateSpace<N>,
    asked: bool,
) -> Result<Fairness, MoveRefusal>
    requires live { HasAllLive code.now state_tables.old.live }
    requires rows { AreRows extent state_tables.old found.now.rows.keys }
    requires classes { AreClasses extent classes.now }
    requires room { extent.processors < N }
    requires narrow { N ≤ 65 }
    requires few { length found.now.rows.keys ≤ no_rank }
    requires local_states { KnowsLocalStates extent.exchanged code.now state_tables.old
        transition_caches.old.local_states }
    requires lists { KnowsLists state_tables.old transition_caches.old.lists }
    ensures kept { OnOk result (HasGrown state_tables.old state_tables.new) }
    ensures local_states { OnOk result
        (KnowsLocalStates extent.exchanged code.now state_tables.new transition_caches.new.local_states) }
    ensures lists { OnOk result (KnowsLists state_tables.new transition_caches.new.lists) }
    ensures fairness { IfOk result (IsFairnessAt extent code.now state_tables.old found.now.rows.keys) }
{
    if !asked {
        return Ok(Fairness::Unknown);
    }
    let targets = targets_of(
        alloc,
        state_tables,
        transition_caches,
        code,
        extent,
        classes,
        &found.rows,
    )?;
    let Some(targets) = targets else {
        return Ok(Fairness::Unknown);
    };
    let Ok(certificate) = fair_certificate_of(alloc, extent.processors, &targets) else {
        return Err(MoveRefusal::Memory);
    };
    Ok(fairness_by(certificate))
}

/// What is said of fair schedules if this is found.
fn fairness_by(found: Option<FairCertificate>) -> Fairness
    ensures { result ≡ fairness_by found }
{
    match found {
        Some(FairCertificate::Ranks(_)) => Fairness::Ends,
        Some(FairCertificate::Lasso(lasso)) => Fairness::Endless(lasso),
        None => Fairness::Unknown,
    }
}
