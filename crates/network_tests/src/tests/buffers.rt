//! Records, which a wait buffer distinguishes by their leaders.

use messages::Record;
use phi_algebra::Phi;
use std::test::Fail;
use test_support::assert_same;
use wait_buffers::WaitBuffer;

fn record(leader: u8, amount: u32, second: u8) -> Record {
    Record {
        leader,
        phi: Phi::Add(amount),
        second,
    }
}

/// Records of leaders 0 and 5 are in the order of their combinations, until those of leader 0 are forgotten.
#[test]
fn records_go_with_their_leader(rt: HostRuntime) -> Result<(), Fail> {
    let mut buffer = WaitBuffer::new(4);
    buffer.push(record(0, 1, 2));
    buffer.push(record(5, 100, 7));
    buffer.push(record(0, 3, 1));
    assert!(rt; buffer.has_room());
    buffer.push(record(0, 7, 3));
    assert!(rt; !buffer.has_room());
    let pairs = [(0, 2), (5, 7), (0, 1), (0, 3)];
    assert_same!(rt; buffer.records().len(), pairs.len());
    for (record, (leader, second)) in buffer.records().iter().zip(pairs) {
        assert_same!(rt; (record.leader, record.second), (leader, second));
    }
    buffer.forget(0);
    assert_same!(rt; buffer.records(), [record(5, 100, 7)].as_slice());
    assert!(rt; !WaitBuffer::new(0).has_room());
    Ok(())
}
