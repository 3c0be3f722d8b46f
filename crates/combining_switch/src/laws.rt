//! Laws of every output of a switch, each the contract of a function that does nothing.

ghost use Rattle.combining_switch.specs.Accepting.{CombinesWhereItCan, CombinesWithTheFirst, QueuesWhereThereIsRoom};
ghost use Rattle.combining_switch.specs.Accepting.{RefusesWhereThereIsNone};

/// A request that comes to an output is combined exactly if a record is free and some entry of the queue was combined
/// fewer than `r` times, has the request's word, and has a function that composes with the request's. It is combined
/// with the first such entry, from the front. Otherwise it is queued exactly if there is room. If there is none, it is
/// refused, and nothing changes.
pub fn accepting_is_combining_queueing_or_refusing()
    ensures combined { CombinesWhereItCan }
    ensures first { CombinesWithTheFirst }
    ensures queued { QueuesWhereThereIsRoom }
    ensures refused { RefusesWhereThereIsNone }
{}
