//! What always holds of the machine, and how a drain proceeds. Each law is the contract of a function that does
//! nothing.

ghost use Rattle.serialization.specs.Draining.{DistancesAreBounded, DistancesAreThere, DrainEndsIdle, DrainGoesOn};
ghost use Rattle.serialization.specs.Draining.{IdleMachinesHaveNoDrainStep};
ghost use Rattle.serialization.specs.Steadiness.{NewMachinesAreSteady, RecordsAreFew, StepsKeepSteady};

/// What always holds of the state: it holds of a new machine, and each step keeps it. So no wait buffer has more than r
/// records of one leader.
pub fn steadiness<Core, Pokes, Entry>()
    ensures begins { NewMachinesAreSteady Core Pokes Entry }
    ensures goes_on { StepsKeepSteady Core Pokes Entry }
    ensures records { RecordsAreFew Core Pokes Entry }
{}

/// The step that a drain takes next does not stall, and it lowers the sum of the distances, which is bounded. There is
/// no such step exactly if no reference is open. So a drain ends, with no reference open.
pub fn drain<Core, Pokes, Entry>()
    ensures distances { DistancesAreThere Core Pokes Entry }
    ensures bounded { DistancesAreBounded Core Pokes Entry }
    ensures next { DrainGoesOn Core Pokes Entry }
    ensures none { IdleMachinesHaveNoDrainStep Core Pokes Entry }
    ensures end { DrainEndsIdle Core Pokes Entry }
{}
