//! The list of the instructions that a local run retired.

ghost use Rattle.std.specs.Prelude.{◌≡◌, ◌<◌, ◌≤◌, [], ◌∷◌, ◌++◌, length, IfOk};

use flat_machine::Retired;
use std::alloc::{AllocError, Global};
use std::marker::Model;

/// Instructions that retired, in order. The list's capacity is fixed when it is made.
#[derive(Drop)]
pub struct Retirements {
    items: Vec<Retired>,
    most: usize,
}

impl Model for Retirements {
    ghost use Rattle.std.specs.Prelude.{◌≤◌, length};
    ghost use Rattle.std.specs.Vec.{vec_capacity};
    ghost use Rattle.hart.specs.LocalRuns.{RetirementList};

    ghost Value = { RetirementList };

    ghost view = { λ r. record { most = r.most; items = r.items.items } };

    ghost invariant = { λ r. (length r.items.items ≤ r.most) × (r.most ≤ vec_capacity r.items) };
}

impl Retirements {
    /// An empty list with room for `most` instructions.
    ///
    /// # Errors
    ///
    /// [`AllocError`] if out of memory.
    pub fn new(alloc: Global, most: u32) -> Result<Self, AllocError>
        ensures { IfOk result (λ list. list ≡ record { most = most; items = [] }) }
    {
        let most = most as usize;
        let items = Vec::with_capacity(alloc, most)?;
        Ok(Retirements { items, most })
    }

    /// How many instructions the list has.
    pub fn len(&self) -> usize
        ensures value { result ≡ length self.now.items }
        ensures few { result ≤ self.now.most }
    {
        self.items.len()
    }

    /// How many instructions the list has room for.
    pub fn most(&self) -> usize
        ensures { result ≡ self.now.most }
    {
        self.most
    }

    /// The instructions, in order.
    pub fn as_slice(&self) -> &[Retired]
        ensures { result.now ≡ self.now.items }
    {
        self.items.as_slice()
    }

    /// Appends an instruction to a list that is not full.
    pub(crate) fn push(&mut self, retired: &Retired)
        requires room { length self.old.items < self.old.most }
        ensures { self.new ≡ record self.old { items = self.old.items ++ retired.now ∷ [] } }
    {
        let Retired {
            pc,
            insn,
            result,
            out,
        } = *retired;
        self.items.push_reserved(Retired {
            pc,
            insn,
            result,
            out,
        });
    }
}

/// No list has more instructions than it has room for. Proofs can cite this at no run-time cost.
pub fn retirements_are_few(list: &Retirements)
    ensures { length list.now.items ≤ list.now.most }
{
    let _ = &list.items;
}
