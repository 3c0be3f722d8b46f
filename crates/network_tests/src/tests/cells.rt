//! A pool of four cells with two queues of requests and one of replies.

use super::request;
use combining_switch::Pool;
use messages::Reply;
use phi_algebra::Phi;
use std::test::Fail;
use test_support::assert_same;

#[test]
fn requests_go_in_order_and_free_their_cells(rt: HostRuntime) -> Result<(), Fail> {
    let mut pool = Pool::new(rt.alloc(), 4, 2, 1)?;
    let (first, second) = (request(2, 8, Phi::Add(1)), request(1, 9, Phi::Add(2)));
    let both = request(2, 8, Phi::Add(3));
    assert!(rt; pool.is_free(2));
    pool.push_request(1, first);
    assert!(rt; !pool.is_free(2) && pool.is_free(1));
    pool.push_request(1, second);
    assert_same!(rt; (pool.request_count(0), pool.request_count(1)), (0, 2));
    assert_same!(rt; pool.front_request(0), None);
    assert_same!(rt; pool.front_request(1), Some(first));
    assert_same!(rt; pool.request_after(1, 0, 2), Some(second));
    assert_same!(rt; pool.request_after(1, 1, 1), None);
    pool.replace(1, 0, both);
    assert_same!(rt; (pool.request(1, 0), pool.request(1, 1)), (Some(both), Some(second)));
    assert_same!(rt; pool.pop_request(1), Some(both));
    assert!(rt; pool.is_free(2) && !pool.is_free(1));
    assert_same!(rt; pool.pop_request(1), Some(second));
    assert_same!(rt; pool.pop_request(1), None);
    Ok(())
}

#[test]
fn replies_have_a_queue_of_their_own(rt: HostRuntime) -> Result<(), Fail> {
    let mut pool = Pool::new(rt.alloc(), 4, 2, 1)?;
    let reply = Reply {
        leader: 3,
        value: 7,
    };
    assert!(rt; pool.is_free(3));
    pool.push_reply(0, reply);
    assert_same!(rt; (pool.reply_count(0), pool.request_count(0)), (1, 0));
    assert_same!(rt; (pool.front_reply(0), pool.reply(0, 0)), (Some(reply), Some(reply)));
    assert_same!(rt; pool.reply(0, 1), None);
    assert!(rt; !pool.is_free(3));
    assert_same!(rt; pool.pop_reply(0), Some(reply));
    assert!(rt; pool.is_free(3));
    Ok(())
}
