//! What holds of every run, as the contract of a function that does nothing.

ghost use Rattle.serialization.specs.Serialization.{IsSerializedAtEveryMoment, IsSerializedFromIdleToIdle};
ghost use Rattle.serialization.specs.Serialization.{OrderIsOfOutcomes, ReferencesAreServedOnce};

pub use crate::machine_laws::{drain, steadiness};

/// After any steps the machine is the flat machine after the serial order, except for references that are served and
/// have not retired. Each reference is served once, between its issue and its retirement.
pub fn serialization<Core, Pokes, Entry>()
    ensures moments { IsSerializedAtEveryMoment Core Pokes Entry }
    ensures idle { IsSerializedFromIdleToIdle Core Pokes Entry }
    ensures order { OrderIsOfOutcomes Core Pokes Entry }
    ensures once { ReferencesAreServedOnce Core Pokes Entry }
{}
