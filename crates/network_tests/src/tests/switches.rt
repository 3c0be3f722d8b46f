//! Each call of one switch, whose queues are in a pool. The tests of networks have the different cases.

use super::request;
use combining_switch::{Accepted, Answered, Pool, Switch};
use messages::Reply;
use phi_algebra::Phi;
use std::test::Fail;
use test_support::assert_same;

/// A request goes through output 1. A reply is shown and taken at input 1, and answered as one that comes back to
/// output 1.
#[test]
fn a_request_goes_and_its_reply_comes(rt: HostRuntime) -> Result<(), Fail> {
    let mut pool = Pool::new(rt.alloc(), 8, 2, 2)?;
    let mut switch = Switch::new(2, 1, 1, 0, (0, 1), (0, 1));
    let add = request(3, 5, Phi::Add(1));
    assert!(rt; pool.is_free(3));
    assert!(rt; switch.would_take(&pool, 1, &add));
    assert_same!(rt; switch.accept(&mut pool, 1, add), Accepted::Queued);
    assert_same!(rt; (switch.front(&pool, 0), switch.front(&pool, 1)), (None, Some(add)));
    assert_same!(rt; switch.take(&mut pool, 1), Some(add));
    assert!(rt; switch.records(1).is_empty());
    let reply = Reply {
        leader: 3,
        value: 9,
    };
    assert!(rt; pool.is_free(3));
    pool.push_reply(1, reply);
    assert_same!(rt; (switch.reply_front(&pool, 0), switch.reply_front(&pool, 1)), (None, Some(reply)));
    assert_same!(rt; switch.reply_take(&mut pool, 1), Some(reply));
    assert!(rt; pool.is_free(3));
    assert!(rt; switch.would_answer(&pool, 1, &reply));
    assert_same!(rt; switch.answer(&mut pool, 1, reply), Answered::One);
    Ok(())
}
