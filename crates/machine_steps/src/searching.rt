//! The search for the next step of a drain, which brings every open reference to its end.

ghost use Rattle.std.specs.Prelude.{◌≡◌, ◌≤◌, ◌^◌};
ghost use Rattle.omega_network.specs.Networks.{net_of, sizes_of};
ghost use Rattle.machine_theory.specs.serialization.Draining.{down_step, is_any, least, up_step};
ghost use Rattle.machine_steps.specs.Draining.{network_step, some_step};

use omega_network::IndexedNetwork;
use steps::Step;

/// The first wire with a request before a stage.
fn first_request(network: &IndexedNetwork, stage: u8) -> Option<u8>
    requires { stage ≤ network.now.k }
    ensures { result ≡ least (λ w. is_any ((net_of network.now).requests stage w)) (2 ^ network.now.k) }
{
    network.request_wires(stage).first_from(0)
}

/// The first wire with a reply before a stage.
fn first_reply(network: &IndexedNetwork, stage: u8) -> Option<u8>
    requires { stage ≤ network.now.k }
    ensures { result ≡ least (λ w. is_any ((net_of network.now).replies stage w)) (2 ^ network.now.k) }
{
    network.reply_wires(stage).first_from(0)
}

/// The next step that moves a reply down.
fn next_down(network: &IndexedNetwork) -> Option<Step>
    ensures { result ≡ some_step (down_step (sizes_of network.now) (net_of network.now)) }
{
    for stage in 0..network.stages() {
        if let Some(wire) = first_reply(network, stage + 1) {
            return Some(Step::Down { stage, wire });
        }
    }
    None
}

/// The next step that moves a request up.
fn next_up(network: &IndexedNetwork) -> Option<Step>
    ensures { result ≡ some_step (up_step (sizes_of network.now) (net_of network.now)) }
{
    let k = network.stages();
    for passed in 0..k {
        let stage = k - 1 - passed;
        if let Some(wire) = first_request(network, stage) {
            return Some(Step::Up { stage, wire });
        }
    }
    None
}

/// The step that a drain takes next.
pub(crate) fn next_step(network: &IndexedNetwork) -> Option<Step>
    ensures { result ≡ network_step network.now }
{
    if let Some(p) = first_reply(network, 0) {
        return Some(Step::Turn(p));
    }
    if let Some(step) = next_down(network) {
        return Some(step);
    }
    match first_request(network, network.stages()) {
        Some(m) => Some(Step::Serve(m)),
        None => next_up(network),
    }
}
