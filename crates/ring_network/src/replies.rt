//! The replies that one reply gives.

ghost use Rattle.std.specs.Prelude.{◌≡◌, ◌≤◌, length};
ghost use Rattle.messages.specs.Queues.{answers, records_of};

use arrayvec::ArrayVec;
use messages::{Record, Reply};

/// The leader's own reply, and one for each of its records. A wait buffer has at most 16 records.
pub type Replies = ArrayVec<Reply, 17>;

/// The replies that a reply gives when it comes back: the leader's own, and then one for the second of each of its
/// records among these, in the order of their combinations.
pub(crate) fn replies_for(records: &[Record], reply: Reply) -> Replies
    requires { length records.now ≤ 16 }
    ensures { result.items ≡ answers (records_of reply.leader records.now) reply }
{
    let mut replies = ArrayVec::new();
    replies.push(reply);
    for record in records {
        if record.leader == reply.leader {
            replies.push(Reply {
                leader: record.second,
                value: record.phi.apply(reply.value),
            });
        }
    }
    replies
}
