//! One queue, and the rule that ties what its two ends know.
ghost use Rattle.std.specs.Prelude.{◌≡◌, true, false, []};
ghost use Rattle.crossbeam_queue.specs.Passes.{view, IsPassOf, ruled_capacity};

use crossbeam_queue::protocol::{Join, Lesson, Outcome, Protocol, Split};
use crossbeam_queue::{Pass, RuledArrayQueue};
use std::alloc::Global;
use std::collections::LinkedList;
use std::sync::Arc;

/// The most bytes that a queue holds.
pub const CAPACITY: usize = 256;

/// What an end of a queue may do, and what it has put and taken. No value of it is made.
pub struct Account {
    pub puts: bool,
    pub takes: bool,
    pub put: LinkedList<u8>,
    pub taken: LinkedList<u8>,
}

/// What was put is what was taken, followed by what is in the queue.
pub struct Ordered;

impl Protocol<u8, Account> for Ordered {
    ghost use Rattle.std.specs.Prelude.{true, []};
    ghost use Rattle.console_monitor.specs.Accounts.{account, InOrder};

    ghost holds = { InOrder };

    ghost first = { account true true [] [] };
}

/// The first end becomes the sender's, and the new one is the monitor's; or the sender's takes over the monitor's.
pub struct Ends;

impl Split<Account> for Ends {
    ghost use Rattle.std.specs.Prelude.{true, false, []};
    ghost use Rattle.console_monitor.specs.Accounts.{account};

    ghost left = { λ v. account true false v.put [] };

    ghost right = { λ v. account false true [] v.taken };
}

impl Join<Account> for Ends {
    ghost use Rattle.std.specs.Prelude.{true, false, []};
    ghost use Rattle.console_monitor.specs.Accounts.{account};

    ghost both = { λ v w. account true true v.put w.taken };

    ghost spent = { account false false [] [] };
}

/// A byte is put. If there is no room, what is in the queue was put last.
pub struct Puts;

impl Outcome<u8, Account> for Puts {
    ghost use Rattle.std.specs.Prelude.{◌∷◌, ◌++◌, []};
    ghost use Rattle.console_monitor.specs.Accounts.{account};

    ghost then = { λ v x w. w ≡ account v.puts v.takes (v.put ++ x ∷ []) v.taken };
}

impl Lesson<u8, Account> for Puts {
    ghost use Rattle.std.specs.Prelude.{◌≡◌, ◌++◌, List, ℕ};

    ghost fact = { λ v items. (taken : List ℕ) × (v.put ≡ taken ++ items) };
}

/// A byte is taken. An end that both puts and takes knows what is in the queue.
pub struct Takes;

impl Outcome<u8, Account> for Takes {
    ghost use Rattle.std.specs.Prelude.{◌∷◌, ◌++◌, []};
    ghost use Rattle.console_monitor.specs.Accounts.{account};

    ghost then = { λ v x w. w ≡ account v.puts v.takes v.put (v.taken ++ x ∷ []) };
}

impl Lesson<u8, Account> for Takes {
    ghost use Rattle.std.specs.Prelude.{◌++◌, true};

    ghost fact = { λ v items. v.put ≡ v.taken ++ items };
}

/// A processor's queue, of 256 bytes: what is taken is what was put, in that order.
pub type Queue = RuledArrayQueue<u8, Account, Ordered>;

/// The end of a queue at which a processor puts its bytes.
#[derive(Drop)]
pub struct Sender {
    pub(crate) queue: Arc<Queue, Global>,
    pub(crate) pass: Pass<u8, Account>,
    ghost ties: { IsPassOf queue.value pass × (ruled_capacity queue.value ≡ 256)
        × ((view pass).puts ≡ true) × ((view pass).takes ≡ false) × ((view pass).taken ≡ []) },
}

/// The end of a queue at which the monitor takes them.
#[derive(Drop)]
pub struct Inlet {
    pub(crate) queue: Arc<Queue, Global>,
    pub(crate) pass: Pass<u8, Account>,
    ghost ties: { IsPassOf queue.value pass
        × ((view pass).puts ≡ false) × ((view pass).takes ≡ true) × ((view pass).put ≡ []) },
}
