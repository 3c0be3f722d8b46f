//! Steps for which there is no message.

ghost use Rattle.std.specs.Prelude.{◌≡◌, ℕ, ◌≤◌, ◌<◌, ◌^◌, [], true, length, slice_get, Some};
ghost use Rattle.machine_steps.specs.machine_theory.Processors.{open_at};
ghost use Rattle.machine_steps.specs.omega_network.Networks.{net_of};
ghost use Rattle.steps.specs.Kinds.{is_within};
ghost use Rattle.machine_lock.specs.Lists.{IsIdleMove, Stalls};

use machine_steps::{Machine, laws};
use steps::Step;

/// Whether a step has no message, and so stalls: no request to move or to serve, no reply to move, or none for which
/// an open processor waits. Most steps that threads ask for have none, and one bit shows it. Others may stall too.
#[inline(always)]
pub(crate) fn would_stall(machine: &Machine, step: Step) -> bool
    requires { is_within machine.now.config.k step ≡ true }
    ensures { result ≡ true → Stalls machine.now step }
{
    laws::machine_is_well_formed(machine);
    match step {
        Step::Turn(p) => is_open(machine, p) && has_no_reply(machine, 0, p),
        Step::Up { stage, wire } => has_no_request(machine, stage, wire),
        Step::Serve(m) => has_no_request(machine, machine.config().k, m),
        Step::Down { stage, wire } => has_no_reply(machine, stage + 1, wire),
        Step::Poke(_) => false,
    }
}

/// How many rounds of a processor with the first of these steps are idle: its turn finds no reply, for which it waits,
/// and each step, which is one of the network that the machine has, finds no message. They do not change the machine.
/// The last step is not looked at.
pub(crate) fn idle_rounds(machine: &Machine, processor: u8, steps: &[Step]) -> usize
    requires processor { processor < 2 ^ machine.now.config.k }
    requires some { 1 ≤ length steps.now }
    ensures few { result < length steps.now }
    ensures turn { 1 ≤ result → Stalls machine.now (Step.Turn processor) }
    ensures moves { (place : ℕ) (s : _) → place < result → slice_get steps.now place ≡ Some s →
        IsIdleMove machine.now s }
{
    if !would_stall(machine, Step::Turn(processor)) {
        return 0;
    }
    let last = steps.len() - 1;
    for place in 0..last {
        if !is_idle_move(machine, steps[place]) {
            return place;
        }
    }
    last
}

/// Whether a step is one of the network that the machine has, and has no message.
#[inline(always)]
fn is_idle_move(machine: &Machine, step: Step) -> bool
    ensures { result ≡ true → IsIdleMove machine.now step }
{
    laws::machine_is_well_formed(machine);
    step.is_network() && step.is_within(machine.config().k) && would_stall(machine, step)
}

/// Whether a processor has a reference open.
#[inline(always)]
fn is_open(machine: &Machine, p: u8) -> bool
    requires { p < 2 ^ machine.now.config.k }
    ensures { result ≡ open_at machine.now.ports p }
{
    matches!(machine.is_open(p), Some(true))
}

/// Whether no request is before a stage on a wire, or at a module for stage `k`.
#[inline(always)]
fn has_no_request(machine: &Machine, stage: u8, wire: u8) -> bool
    requires stage { stage ≤ machine.now.config.k }
    requires wire { wire < 2 ^ machine.now.config.k }
    ensures { result ≡ true → (net_of machine.now.network).requests stage wire ≡ [] }
{
    laws::machine_is_well_formed(machine);
    !machine.network().has_request(stage, wire)
}

/// Whether no reply is before a stage on a wire, or at a module for stage `k`.
#[inline(always)]
fn has_no_reply(machine: &Machine, stage: u8, wire: u8) -> bool
    requires stage { stage ≤ machine.now.config.k }
    requires wire { wire < 2 ^ machine.now.config.k }
    ensures { result ≡ true → (net_of machine.now.network).replies stage wire ≡ [] }
{
    laws::machine_is_well_formed(machine);
    !machine.network().has_reply(stage, wire)
}
