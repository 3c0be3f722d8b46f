//! The rule of the table, and its steps.

use atomic_table::{Join, Play, Split, TableRule};
use std::collections::LinkedList;
use std::marker::{Brand, PhantomData};

/// A type that names a table. Each call of a program picks one.
pub trait Naming {
    ghost use Rattle.atomic_table.specs.Seated.{TableId};

    ghost table: { TableId };
}

impl Naming for Brand {
    ghost use Rattle.ghost_map.specs.Rows.{no_table};

    ghost table = { no_table };
}

/// A type that names the row a step writes. Each call picks one.
pub trait Next<R> {
    ghost next: { R };
}

/// What a seat knows: all rows for the authority, its number and row for a fragment. No value of it is made.
pub struct View<R> {
    pub keeps: bool,
    pub all: LinkedList<R>,
    pub held: LinkedList<(u64, R)>,
}

/// The rule that the authority and the fragments agree.
pub struct Agrees;

impl<R> TableRule<(), View<R>, ()> for Agrees {
    ghost use Rattle.std.specs.Prelude.{[]};
    ghost use Rattle.ghost_map.specs.Rows.{Kept, authority};

    ghost holds = { λ _ s. Kept s.views };

    ghost first = { λ _. authority [] [] };
}

/// The authority adds a row, and has its fragment in hand.
pub struct Allocates<M> {
    of: PhantomData<M>,
}

impl<R, M: Next<R>> Play<(), View<R>> for Allocates<M> {
    ghost use Rattle.ghost_map.specs.Rows.{Allocated};

    ghost then = { λ _ v _ w. Allocated M.next v w };
}

/// The authority writes the row of the fragment in its hand.
pub struct Writes<M> {
    of: PhantomData<M>,
}

impl<R, M: Next<R>> Play<(), View<R>> for Writes<M> {
    ghost use Rattle.ghost_map.specs.Rows.{Written};

    ghost then = { λ _ v _ w. Written M.next v w };
}

/// The authority takes a fragment in hand, and lets it go.
pub struct SplitAndJoin;

impl<R> Split<View<R>> for SplitAndJoin {
    ghost use Rattle.ghost_map.specs.Rows.{let_go, hold};

    ghost left = { let_go };

    ghost right = { hold };
}

impl<R> Join<View<R>> for SplitAndJoin {
    ghost use Rattle.ghost_map.specs.Rows.{taken, nobody};

    ghost both = { taken };

    ghost spent = { nobody };
}
