//! What a module does with a request.

ghost use Rattle.std.specs.Prelude.{◌≡◌, ◌<◌, ◌≤◌, ◌^◌, ◌/◌, Some, length};
ghost use Rattle.omega_network.specs.Networks.{net_of, sizes_of};
ghost use Rattle.machine_steps.specs.Serving.{request_at, HasItsWord, IsExecuted, IsFree, DoesNothing, IsServed};
ghost use Rattle.machine_steps.specs.Serving.{MayBeAnswered, MayReply};

use memory_module::Module;
use messages::{Reply, Request};
use omega_network::IndexedNetwork;
use steps::Outcome;

/// Executes the first request at a module, if the module's reply slot is free, and puts the word from before into it.
#[inline(always)]
pub(crate) fn execute(memory: &mut Module, network: &mut IndexedNetwork, m: u8) -> Outcome
    requires few { network.old.k ≤ 6 }
    requires there { m < 2 ^ network.old.k }
    requires place { HasItsWord network.old m memory.old }
    requires leader { MayReply network.old m }
    ensures executed { IsFree network.old m → IsServed m network.old memory.old result network.new memory.new }
    ensures full { (IsFree network.old m → ⊥) →
        DoesNothing (net_of network.old) memory.old result (net_of network.new) memory.new }
    ensures sizes { sizes_of network.new ≡ sizes_of network.old }
{
    if !network.module_is_free(m) {
        return Outcome::Stalled;
    }
    let Some(request) = network.module_front(m) else {
        return Outcome::Stalled;
    };
    serve(memory, network, m, request)
}

/// Executes the first request at a module whose reply slot is free.
#[inline(always)]
#[tactic(auto, unfolding(messages::specs::Moves::module_taken))]
fn serve(memory: &mut Module, network: &mut IndexedNetwork, m: u8, request: Request) -> Outcome
    requires few { network.old.k ≤ 6 }
    requires there { m < 2 ^ network.old.k }
    requires first { request_at network.old m ≡ Some request }
    requires place { request.word / 2 ^ network.old.k < length memory.old }
    requires leader { MayBeAnswered network.old m request.leader }
    requires free { IsFree network.old m }
    ensures executed { IsExecuted (sizes_of network.old) m (net_of network.old) memory.old (Some request) result
        (net_of network.new) memory.new }
    ensures sizes { sizes_of network.new ≡ sizes_of network.old }
{
    let k = network.stages();
    network.module_take(m);
    let (leader, phi) = (request.leader, request.phi);
    let value = memory.serve(request.word >> k, &phi);
    network.module_reply(m, Reply { leader, value });
    Outcome::Served { leader }
}
