//! The authority and the fragments.

ghost use Rattle.std.specs.Prelude.{◌≡◌, ℕ, [], ◌∷◌, ◌++◌, length};
ghost use Rattle.ghost_map.specs.Rows.{IsWritten};

use crate::rule::{Agrees, Allocates, Naming, Next, SplitAndJoin, View, Writes};
use atomic_table::{Badge, Seat, Table};
use std::alloc::{AllocError, Global};
use std::marker::{Model, PhantomData};
use std::mem;

/// A table without rows that has no authority yet. Contracts see which table it is.
#[derive(Drop)]
pub struct NewTable<R> {
    table: Table<(), View<R>, (), Agrees, Global>,
    seat: Seat<(), View<R>>,
}

impl<R> Model for NewTable<R> {
    ghost use Rattle.std.specs.Prelude.{◌≡◌, ◌<◌, []};
    ghost use Rattle.atomic_table.specs.Seated.{TableId, table_id_coded};
    ghost use Rattle.ghost_map.specs.Rows.{authority};

    ghost Value = { TableId };

    ghost coded = { table_id_coded };

    ghost view = { λ r. r.table.shared.table_id };

    ghost invariant = { λ r. (r.seat.table_id ≡ r.table.shared.table_id) × (0 < r.table.shared.table_id.words)
        × (r.seat.me ≡ (authority [] [], [])) };
}

impl<R> NewTable<R> {
    /// Makes a new table.
    ///
    /// # Errors
    ///
    /// [`AllocError`] if there is no memory for it.
    pub fn new(alloc: Global) -> Result<NewTable<R>, AllocError> {
        let (table, seat) = Table::of_words(alloc, &[0], &())?;
        Ok(NewTable { table, seat })
    }
}

/// What knows all rows. Contracts see it as the list of them.
#[derive(Drop)]
pub struct Authority<R, N: Naming> {
    table: Table<(), View<R>, (), Agrees, Global>,
    seat: Seat<(), View<R>>,
    of: PhantomData<N>,
}

impl<R, N: Naming> Model for Authority<R, N> {
    ghost use Rattle.std.specs.Prelude.{◌≡◌, ◌<◌, List, []};
    ghost use Rattle.ghost_map.specs.Rows.{authority};

    ghost Value = { List R };

    ghost view = { λ k. k.seat.me.0.all };

    ghost invariant = { λ k. (k.table.shared.table_id ≡ N.table) × (k.seat.table_id ≡ N.table)
        × (0 < k.table.shared.table_id.words) × (k.seat.me ≡ (authority k.seat.me.0.all [], [])) };
}

/// The right to one row. Contracts see it as the row's number and the row, in a list of one.
#[derive(Drop)]
pub struct Fragment<R, N: Naming> {
    badge: Badge<View<R>>,
    of: PhantomData<N>,
}

impl<R, N: Naming> Model for Fragment<R, N> {
    ghost use Rattle.std.specs.Prelude.{◌≡◌, ℕ, List, [], ◌∷◌, length};
    ghost use Rattle.ghost_map.specs.Rows.{fragment, held_of};

    ghost Value = { List (ℕ × R) };

    ghost view = { λ c. held_of c.badge.views };

    ghost invariant = { λ c. (c.badge.table_id ≡ N.table) × (c.badge.views ≡ fragment (held_of c.badge.views) ∷ [])
        × (length (held_of c.badge.views) ≡ 1) };
}

impl<R, N: Naming> Authority<R, N> {
    /// The authority of a new table, which has no rows.
    pub fn open(room: NewTable<R>) -> Authority<R, N>
        requires { room ≡ N.table }
        ensures { result ≡ [] }
    {
        let NewTable { table, seat } = room;
        Authority {
            table,
            seat,
            of: PhantomData,
        }
    }

    /// Adds a row, and returns its fragment.
    pub fn allocate<M: Next<R>>(&mut self) -> Fragment<R, N>
        ensures authority { self.new ≡ self.old ++ M.next ∷ [] }
        ensures fragment { result ≡ (length self.old, M.next) ∷ [] }
    {
        let Authority { table, seat, of: _ } = self;
        table.shared.load::<Allocates<M>>(seat, 0);
        let own = table.shared.split_seat::<SplitAndJoin>(seat);
        Fragment {
            badge: own.into_badge(),
            of: PhantomData,
        }
    }

    /// Writes the fragment's row, which was the authority's too, in both.
    pub fn write<M: Next<R>>(&mut self, fragment: &mut Fragment<R, N>)
        ensures { (who : ℕ) (row : R) → fragment.old ≡ (who, row) ∷ [] →
            IsWritten M.next self.old who row self.new fragment.new }
    {
        let Authority { table, seat, of: _ } = self;
        let badge = mem::replace(&mut fragment.badge, Badge::blank());
        table
            .shared
            .join_seat::<SplitAndJoin>(seat, badge.into_seat());
        table.shared.load::<Writes<M>>(seat, 0);
        let own = table.shared.split_seat::<SplitAndJoin>(seat);
        fragment.badge = own.into_badge();
    }
}
