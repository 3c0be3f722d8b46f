//! What shows whether every fair schedule ends: ranks by which it does, or a lasso by which some never does.

ghost use Rattle.std.specs.Prelude.{◌≤◌, length, IfOk, IfSome};
ghost use Rattle.state_graph.specs.Certificates.{IsFairCertificate};
ghost use Rattle.state_graph.specs.Lassos.{IsFairLasso};
ghost use Rattle.state_graph.specs.Ranks.{no_rank};

use crate::fairness::{FairRanks, are_fair, fair_ranks_of};
use crate::lasso::{Lasso, is_fair};
use crate::successors::Successors;
use crate::walk::lasso_of;
use std::alloc::{AllocError, Global};

/// What shows whether every fair schedule ends.
#[derive(Drop)]
pub enum FairCertificate {
    /// Ranks by which every fair schedule ends.
    Ranks(FairRanks),
    /// A lasso by which some fair schedule never ends.
    Lasso(Lasso),
}

/// Finds what shows whether every fair schedule ends, given the targets of each state: for each of this many
/// processors, the place of the state to which its move leads, or [`crate::NO_MOVE`]. None if it finds neither ranks
/// nor a lasso.
///
/// # Errors
///
/// [`AllocError`] if there is no memory for them.
pub fn fair_certificate_of(
    alloc: Global,
    processors: u8,
    targets: &Successors,
) -> Result<Option<FairCertificate>, AllocError>
    requires few { length targets.now ≤ no_rank }
    ensures { IfOk result (λ found. IfSome found (IsFairCertificate targets.now)) }
{
    let found = fair_ranks_of(alloc, processors, targets)?;
    if are_fair(targets, found.ranks.as_slice(), found.helpers.as_slice()) {
        return Ok(Some(FairCertificate::Ranks(found)));
    }
    match fair_lasso_of(alloc, processors, targets, found.ranks.as_slice())? {
        Some(lasso) => Ok(Some(FairCertificate::Lasso(lasso))),
        None => Ok(None),
    }
}

/// Finds a lasso by which some fair schedule never ends, among the states without a rank.
fn fair_lasso_of(
    alloc: Global,
    processors: u8,
    targets: &Successors,
    ranks: &[u32],
) -> Result<Option<Lasso>, AllocError>
    ensures { IfOk result (λ found. IfSome found (λ l. IsFairLasso targets.now l.stem.items l.cycle.items)) }
{
    let Some(lasso) = lasso_of(alloc, processors, targets, ranks)? else {
        return Ok(None);
    };
    if is_fair(targets, lasso.stem.as_slice(), lasso.cycle.as_slice()) {
        Ok(Some(lasso))
    } else {
        Ok(None)
    }
}
