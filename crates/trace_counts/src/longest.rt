//! The longest queues of a machine's network.

ghost use Rattle.std.specs.Prelude.{◌≡◌, ◌<◌, ◌^◌};
ghost use Rattle.machine_steps.specs.messages.Network.{Net};
ghost use Rattle.omega_network.specs.Networks.{net_of};
ghost use Rattle.trace_counts.specs.Longest.{count_of, longest_after, most_of, raised};

use machine_steps::{Machine, laws};
use omega_network::Network;
use run_counts::{Held, Longest};
use steps::Step;

/// Looks at the lists that a step can have made longer, in the machine after the step.
pub fn look(longest: &mut Longest, machine: &Machine, step: &Step)
    ensures { longest.new ≡ longest_after machine.now.config.k (net_of machine.now.network) step.now longest.old }
{
    match *step {
        Step::Up { stage, .. } => {
            raise(longest, machine, Held::Requests, stage);
            raise(longest, machine, Held::Records, stage);
        }
        Step::Down { stage, .. } => raise(longest, machine, Held::Replies, stage),
        _ => {}
    }
}

/// Looks at the lists of one kind at a stage.
fn raise(longest: &mut Longest, machine: &Machine, held: Held, stage: u8)
    ensures { longest.new ≡ raised machine.now.config.k (net_of machine.now.network) held stage longest.old }
{
    laws::machine_is_well_formed(machine);
    let stages = machine.config().k;
    if stage < stages {
        let before = longest.at(held, stage);
        longest.set(
            held,
            stage,
            most(
                machine.network().as_network(),
                held,
                stage,
                1 << stages,
                before,
            ),
        );
    }
}

/// The maximum of a number and of the counts at the first wires of a stage.
fn most(network: &Network, held: Held, stage: u8, wires: u8, before: usize) -> usize
    requires stage { stage < network.now.k }
    requires wires { wires ≡ 2 ^ network.now.k }
    ensures { result ≡ most_of (count_of held (net_of network.now) stage) wires before }
{
    let mut most = before;
    for wire in 0..wires {
        most = most.max(count(network, held, stage, wire));
    }
    most
}

/// How many messages or records are at a wire of a stage.
pub(crate) fn count(network: &Network, held: Held, stage: u8, wire: u8) -> usize
    requires stage { stage < network.now.k }
    requires wire { wire < 2 ^ network.now.k }
    ensures { result ≡ count_of held (net_of network.now) stage wire }
{
    match held {
        Held::Requests => network.request_count(stage, wire),
        Held::Records => network.records(stage, wire).len(),
        Held::Replies => network.reply_count(stage, wire),
    }
}
