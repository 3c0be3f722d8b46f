//! The laws of cores that are away. Each law is the contract of a function that does nothing.

ghost use Rattle.machine_theory.specs.Laws.{AwayCoresRest, CoresAreKept, CoresStayPut, LastCoreCounts};
ghost use Rattle.machine_theory.specs.Laws.{LoansAreRuns, LocalTurnsCatchUp, MachinesStaySteady, OthersDoNotNotice};
ghost use Rattle.machine_theory.specs.Laws.{RunsDoNotNotice, RunsDoNotNoticeSeveral};

/// Of two cores put in one place the last counts, and putting the core that is there already changes nothing. So a
/// machine is as before if a core is taken out and put back. What holds of a machine's messages still holds if a
/// processor without an open reference gets another core.
pub fn cores_are_put()
    ensures last { LastCoreCounts }
    ensures same { CoresStayPut }
    ensures steady { MachinesStaySteady }
{}

/// A step that is neither a turn of a processor nor a write from outside does not depend on that processor's core, and
/// leaves it alone: with any core there, its outcome is the same, and so is everything else after it. The same holds of
/// a list of such steps, and of several processors at once.
pub fn others_do_not_notice()
    ensures step { OthersDoNotNotice }
    ensures run { RunsDoNotNotice }
    ensures several { RunsDoNotNoticeSeveral }
    ensures core { CoresAreKept }
{}

/// While a core is away, a turn of its processor stalls.
pub fn cores_that_are_away_rest()
    ensures rests { AwayCoresRest }
{}

/// Local instructions that a core took by itself are the next turns of its processor: the turns retire the same
/// instructions, leave that core in its place, and change nothing else.
pub fn local_turns_catch_up()
    ensures turns { LocalTurnsCatchUp }
{}

/// A core is taken out of a machine and takes local instructions by itself, while the machine takes steps without it.
/// Once the core is put back, the machine is the one that takes these steps with the core in its place, and then a turn
/// of its processor for each instruction. The outcomes are also the same.
pub fn loans_are_runs()
    ensures loans { LoansAreRuns }
{}
