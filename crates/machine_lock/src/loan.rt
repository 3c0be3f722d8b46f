//! Cores that are lent.

ghost use Rattle.std.specs.Prelude.{◌≡◌};
ghost use Rattle.hart.specs.LocalRuns.{HasRunLocally};
ghost use Rattle.machine_lock.specs.Passes.{HasGoneOn};

use crate::run::Run;
use flat_machine::Retired;
use hart::{Core, LocalEnd, Retirements, laws, run_local};
use local_memory::Code;
use machine_log::Lent;
use std::alloc::Global;
use std::marker::{Model, PhantomData};
use std::sync::Arc;

/// A lent core of a processor. It takes local instructions without its machine and without the lock.
#[derive(Drop)]
pub struct Loan<N: Run> {
    pub(crate) processor: u8,
    pub(crate) core: Core,
    pub(crate) record: Lent,
    pub(crate) code: Arc<Code, Global>,
    pub(crate) retired: Retirements,
    pub(crate) of: PhantomData<N>,
}

impl<N: Run> Model for Loan<N> {
    ghost use Rattle.std.specs.Prelude.{◌≡◌};
    ghost use Rattle.std.specs.Arc.{arc_value};
    ghost use Rattle.machine_lock.specs.Passes.{LoanState, IsLoan};

    ghost Value = { LoanState };

    ghost view = { λ l. record {
      processor = l.processor;
      record_is = l.record;
      core = l.core;
      retired = l.retired.items;
    } };

    ghost invariant = { λ l. (arc_value l.code ≡ N.opening.code) × (l.retired.most ≡ l.record.most)
        × IsLoan N.opening.code l.record l.core l.retired };
}

impl<N: Run> Loan<N> {
    /// Takes local instructions, up to the first that gives the console a byte. Ends before an instruction that is not
    /// local, or after as many as the core was lent for, in all calls. Allocates no memory.
    #[inline(always)]
    pub fn run_local(&mut self) -> LocalEnd
        ensures { HasGoneOn N.opening.code self.old self.new result }
    {
        let end = run_local(&mut self.core, &self.code, &mut self.retired);
        laws::retirements_are_few(&self.retired);
        end
    }

    /// The number of its processor.
    pub fn processor(&self) -> u8
        ensures { result ≡ self.now.processor }
    {
        self.processor
    }

    /// What the core has retired since it was lent, in order.
    pub fn retirements(&self) -> &[Retired]
        ensures { result.now ≡ self.now.retired }
    {
        self.retired.as_slice()
    }
}
