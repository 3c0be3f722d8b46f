//! The test runs with each of its allocations refused in turn. A call then reports that it is out of memory, which ends
//! the test, or it returns what it returns with ample memory.

use combining_switch::Pool;
use omega_network::{IndexedNetwork, Network};
use std::test::Fail;

#[test]
fn networks_are_short_of_memory(rt: HostRuntime) -> Result<(), Fail> {
    let pool = Pool::new(rt.alloc(), 4, 2, 1)?;
    assert!(rt; pool.is_free(3));
    let network = Network::new(rt.alloc(), 2, 4, 1, 1)?;
    assert!(rt; network.is_empty());
    let network = IndexedNetwork::new(rt.alloc(), 2, 4, 1, 1)?;
    assert!(rt; network.slot_is_free(3));
    Ok(())
}
