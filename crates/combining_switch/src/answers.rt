//! The answers of a switch.

ghost use Rattle.std.specs.Prelude.{List, ◌≡◌, [], ◌∷◌, ◌++◌};
ghost use Rattle.messages.specs.declared.message.Record.{Record};
ghost use Rattle.combining_switch.specs.Switches.{answered_for};

use messages::Seconds;

/// What happened to a request.
#[derive(Clone, Copy, Debug, PartialEq, Eq, Drop)]
pub enum Accepted {
    /// The request is now the last in the queue.
    Queued,
    /// The request was combined with an entry of the queue.
    Combined {
        /// The leader of the entry, which leads both.
        first: u8,
    },
    /// Nothing happened: the request does not combine, and the queue is full.
    Full,
}

/// What happened to a reply.
#[derive(Clone, Copy, Debug, PartialEq, Eq, Drop)]
pub enum Answered {
    /// The reply went on alone.
    One,
    /// The reply went on, and so did the replies for the seconds that were combined with its
    /// leader.
    Many {
        /// The seconds.
        seconds: Seconds,
    },
    /// Nothing happened: there is no room for all replies.
    NoRoom,
}

impl Answered {
    /// The same answer with one more second. At most three are reported.
    pub(crate) fn and(self, second: u8) -> Self
        ensures { (records : List Record) (last : Record) → self ≡ answered_for records → second ≡ last.second
            → result ≡ answered_for (records ++ last ∷ []) }
    {
        let Answered::Many { seconds } = self else {
            return Answered::Many {
                seconds: Seconds::One(second),
            };
        };
        Answered::Many {
            seconds: match seconds {
                Seconds::One(first) => Seconds::Two(first, second),
                Seconds::Two(first, before) => Seconds::Three(first, before, second),
                Seconds::Three(..) => seconds,
            },
        }
    }
}
