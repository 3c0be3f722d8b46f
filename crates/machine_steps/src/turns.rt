//! What a port does in its turn, with the network.

ghost use Rattle.std.specs.Prelude.{◌≡◌, ◌<◌, ◌^◌, [], true, false, Some};
ghost use Rattle.flat_machine.specs.State.{is_running};
ghost use Rattle.hart.specs.Deciding.{IsReference};
ghost use Rattle.machine_ports.specs.Ports.{begun, turn};
ghost use Rattle.messages.specs.Naming.{Names};
ghost use Rattle.omega_network.specs.Networks.{net_of, sizes_of};
ghost use Rattle.machine_steps.specs.Serving.{reply_at};
ghost use Rattle.machine_theory.specs.Turning.{IsBegun, IsFinished, IsFinishedBy};

use local_memory::Code;
use machine_ports::{Begun, Port};
use messages::{Reply, Request};
use omega_network::IndexedNetwork;
use steps::Outcome;

/// Takes the turn of a port that runs and is not open: its instruction retires, or stops the processor, or puts a
/// request into the slot.
#[inline(always)]
pub(crate) fn begin(port: &mut Port, network: &mut IndexedNetwork, code: &Code, p: u8) -> Outcome
    requires closed { port.old.is_open ≡ false }
    requires running { is_running port.old.core.state.status ≡ true }
    requires there { p < 2 ^ network.old.k }
    requires free { (net_of network.old).requests 0 p ≡ [] }
    requires unnamed { Names (net_of network.old) p → ⊥ }
    ensures port { port.new ≡ (begun port.old code.now (turn port.old code.now)).1 }
    ensures begun { IsBegun p port.old code.now (turn port.old code.now) (net_of network.old) result
        (net_of network.new) }
    ensures sizes { sizes_of network.new ≡ sizes_of network.old }
{
    match port.begin(code) {
        Begun::Retired(retired) => Outcome::Retired(retired),
        Begun::Stopped(cause) => Outcome::Stopped(cause),
        Begun::Referred { word, phi } => {
            let request = Request {
                leader: p,
                word,
                phi,
                marks: 0,
            };
            network.inject(p, request);
            Outcome::Issued
        }
    }
}

/// Takes the turn of an open port: it takes its reply, if it is there, and the instruction retires.
#[inline(always)]
pub(crate) fn finish(port: &mut Port, network: &mut IndexedNetwork, code: &Code, p: u8) -> Outcome
    requires reference { IsReference (turn port.old code.now) }
    requires there { p < 2 ^ network.old.k }
    ensures finished { IsFinishedBy p (turn port.old code.now) port.old (net_of network.old)
        (reply_at network.old p) result port.new (net_of network.new) }
    ensures sizes { sizes_of network.new ≡ sizes_of network.old }
{
    let Some(reply) = network.port_reply(p) else {
        return Outcome::Stalled;
    };
    retire(port, network, code, p, reply)
}

/// Takes the turn of an open port whose reply is there: it takes the reply, and the instruction retires.
#[inline(always)]
fn retire(
    port: &mut Port,
    network: &mut IndexedNetwork,
    code: &Code,
    p: u8,
    reply: Reply,
) -> Outcome
    requires reference { IsReference (turn port.old code.now) }
    requires there { p < 2 ^ network.old.k }
    requires first { reply_at network.old p ≡ Some reply }
    ensures finished { IsFinished p (turn port.old code.now) port.old (net_of network.old) reply result port.new
        (net_of network.new) }
    ensures sizes { sizes_of network.new ≡ sizes_of network.old }
{
    network.port_take(p);
    Outcome::Retired(port.finish(code, reply.value))
}
