//! The lock, and the calls of threads.

ghost use Rattle.std.specs.Prelude.{◌≡◌, ◌≤◌, ◌^◌, ◌↔◌, length, is_some, true, false, None, Ok, Err, IfOk, IfErr, OnOk};
ghost use Rattle.std.specs.Prelude.{OnErr};
ghost use Rattle.machine_lock.specs.Lists.{is_net};
ghost use Rattle.machine_lock.specs.Rows.{Fits};
ghost use Rattle.machine_lock.specs.Passes.{HasEnded, HaveGone, IsLentOn, IsLoanOf, IsReturned, HasAnswered, IsTurned};
ghost use Rattle.machine_lock.specs.Passes.{UnderLock};
ghost use Rattle.machine_lock.specs.Passes.{IsWhole, TotalsAgree, new_passes, rows_of};

use crate::loan::Loan;
use crate::locked_state::{LockedState, Rounds};
use crate::pass::Pass;
use crate::row::PassState;
use crate::run::Run;
use crate::stored::PassStateVec;
use ghost_map::{Authority, NewTable};
use hart::Retirements;
use machine_log::{Lending, LockRefusal, Logged};
use std::alloc::Global;
use std::hint::spin_loop;
use std::marker::Brand;
use std::sync::{Mutex, MutexGuard, Wait};
use std::thread::yield_now;
use steps::{Outcome, Step};

/// How often a thread tries to get the lock again before it lets other threads run. It waits before each try, and each
/// time twice as long.
const LOOKS: u32 = 4;

/// How long it waits before the first of these tries, in turns of an empty loop: one to ten microseconds, depending on
/// the processor. To move the machine's memory from one processor of the host to another takes longer than a round, so
/// it is better that the thread that has it takes many.
const WAIT: u32 = 256;

/// How often it then lets others run before it sleeps until it is woken.
const YIELDS: u32 = 16;

/// A logged machine that threads share. A call waits for the lock, and then takes one step or rounds, lends a core, or
/// takes one back.
#[derive(Drop)]
pub struct Shared<N: Run> {
    locked_state: Mutex<LockedState<N>>,
}

impl<N: Run> Shared<N> {
    /// Puts a logged machine under a lock, with a pass for each processor, in order. `room` is for the table of rows,
    /// which exist in proofs alone.
    ///
    /// # Errors
    ///
    /// [`LockRefusal::Memory`] if there is no memory for the passes. The logged machine is handed back as it was.
    pub fn new(
        alloc: Global,
        room: NewTable<PassState>,
        logged: Logged,
    ) -> Result<(Shared<N>, Vec<Pass<N>>), (Logged, LockRefusal)>
        requires room { room ≡ N.table }
        requires opening { logged.opening ≡ N.opening }
        requires first { logged.steps ≡ N.first }
        requires count { N.count ≡ 2 ^ N.opening.config.k }
        ensures passes { IfOk result (λ r. r.1.items ≡ new_passes N.count) }
        ensures whole { IfOk result (λ r. IsWhole N.count r.1.items) }
        ensures err { IfErr result (λ e. (e.0 ≡ logged) × (e.1 ≡ LockRefusal.Memory)) }
    {
        let count = logged.machine().config().processors();
        let mut authority: Authority<PassState, N> = Authority::open(room);
        let mut passes = Vec::new(alloc);
        if passes.reserve(count as usize).is_err() {
            return Err((logged, LockRefusal::Memory));
        }
        let lending = match Lending::new(alloc, logged) {
            Ok(lending) => lending,
            Err(logged) => return Err((logged, LockRefusal::Memory)),
        };
        for p in 0..count {
            let fragment = authority.allocate::<Brand>();
            passes.push_reserved(Pass {
                processor: p,
                stored: PassStateVec {
                    pass_events: Vec::new(alloc),
                    steps: 0,
                    last: None,
                    lent: None,
                },
                fragment,
            });
        }
        let locked_state = Mutex::new(LockedState { lending, authority });
        Ok((Shared { locked_state }, passes))
    }

    /// Takes one turn of the pass's processor, and enters it in the log unless it stalled. The pass stores the answer.
    /// While the core is lent, the turn stalls and the pass stores nothing.
    ///
    /// # Errors
    ///
    /// [`LockRefusal::Full`] if the log has [`steps::MAX_STEPS`] steps with those that are promised, else
    /// [`LockRefusal::Memory`] if there is no memory for a place in the pass or in the log. Each leaves all as it was.
    pub fn turn<R: Wait>(&self, rt: &R, pass: &mut Pass<N>) -> Result<Outcome, LockRefusal>
        ensures answered { IfOk result (λ o. UnderLock N.first pass.old pass.new
            (λ from to. IsTurned pass.old.row.lent N.opening from o to)) }
        ensures named { result ≡ Err LockRefusal.Unnamed → ⊥ }
        ensures not_free { result ≡ Err LockRefusal.NotFree → ⊥ }
        ensures lent { is_some pass.old.row.lent ≡ true → result ≡ Ok Outcome.Stalled }
        ensures err { OnErr result (pass.new ≡ pass.old) }
        ensures processor { pass.new.processor ≡ pass.old.processor }
    {
        pass.make_room(1);
        let mut locked_state = self.take(rt);
        locked_state.is_agreed();
        locked_state.turn(pass)
    }

    /// Lends the core of the pass's processor: it can take at most this many local instructions without the lock. As
    /// many places are promised in the log.
    ///
    /// # Errors
    ///
    /// [`LockRefusal::NotFree`] if the processor has a reference open, does not run, or its core is lent; else
    /// [`LockRefusal::Full`] if the log would exceed [`steps::MAX_STEPS`] steps with all that are promised; else
    /// [`LockRefusal::Memory`]. Each leaves all as it was.
    #[inline(always)]
    pub fn lend<R: Wait>(
        &self,
        rt: &R,
        alloc: Global,
        pass: &mut Pass<N>,
        most: u32,
    ) -> Result<Loan<N>, LockRefusal>
        requires some { 1 ≤ most }
        requires few { most ≤ 1024 }
        ensures lent { IfOk result (λ loan. IsLentOn pass.old most loan pass.new) }
        ensures away { is_some pass.old.row.lent ≡ true → result ≡ Err LockRefusal.NotFree }
        ensures named { result ≡ Err LockRefusal.Unnamed → ⊥ }
        ensures err { OnErr result (pass.new ≡ pass.old) }
        ensures processor { pass.new.processor ≡ pass.old.processor }
    {
        let list = Retirements::new(alloc, most).ok();
        // (so a turn of the same round has room, too)
        pass.make_warm_room(most as usize + 1);
        self.take(rt).lend(pass, most, list)
    }

    /// Takes back a core that was lent on the pass: enters a turn of the processor for each instruction that it has
    /// retired, and stores them in the pass. The places that were promised beyond these are free again. Allocates no
    /// memory.
    ///
    /// # Errors
    ///
    /// The loan, if the core was not lent as its record says. Then nothing changes.
    #[inline(always)]
    pub fn give_back<R: Wait>(
        &self,
        rt: &R,
        pass: &mut Pass<N>,
        loan: Loan<N>,
    ) -> Result<(), Loan<N>>
        requires { IsLoanOf pass.old loan }
        ensures back { OnOk result (UnderLock N.first pass.old pass.new
            (λ from to. IsReturned N.opening from loan.retired to)) }
        ensures handed { IfErr result (λ handed. handed ≡ loan) }
        ensures err { OnErr result (pass.new ≡ pass.old) }
        ensures processor { pass.new.processor ≡ pass.old.processor }
    {
        let mut locked_state = self.take(rt);
        locked_state.is_agreed();
        locked_state.give_back(pass, loan)
    }

    /// Takes one move of the network, or one service by a module, and enters it in the log unless it stalled. The pass
    /// stores the answer.
    ///
    /// # Errors
    ///
    /// [`LockRefusal::Unnamed`] if the step is a turn or a poke, or names a place that the machine does not have, else
    /// [`LockRefusal::Full`] if the log has [`steps::MAX_STEPS`] steps with those that are promised, else
    /// [`LockRefusal::Memory`] if there is no memory for a place in the log. Each leaves all as it was.
    pub fn net<R: Wait>(
        &self,
        rt: &R,
        pass: &mut Pass<N>,
        step: Step,
    ) -> Result<Outcome, LockRefusal>
        ensures answered { IfOk result (λ o. UnderLock N.first pass.old pass.new
            (λ from to. HasAnswered N.opening from step o to)) }
        ensures unnamed { (result ≡ Err LockRefusal.Unnamed) ↔ (is_net N.opening.config step ≡ false) }
        ensures not_free { result ≡ Err LockRefusal.NotFree → ⊥ }
        ensures err { OnErr result (pass.new ≡ pass.old) }
        ensures processor { pass.new.processor ≡ pass.old.processor }
    {
        let mut locked_state = self.take(rt);
        locked_state.is_agreed();
        locked_state.net(pass, step)
    }

    /// Takes rounds, with no other thread's step between them. A round takes a turn of the pass's processor, as
    /// [`Shared::turn`] does, and then, unless that stopped the processor, the next of these steps, as [`Shared::net`]
    /// does. The last round is one that does not leave the processor waiting, since its turn retired an instruction or
    /// stopped the processor, or something was refused; or it is the one with the last step.
    #[inline(always)]
    pub fn rounds<R: Wait>(&self, rt: &R, pass: &mut Pass<N>, steps: &[Step]) -> Rounds
        requires some { 1 ≤ length steps.now }
        ensures answered { UnderLock N.first pass.old pass.new
            (λ from to. HaveGone N.opening from steps.now result to) }
        ensures named { result.answer ≡ Err LockRefusal.Unnamed → ⊥ }
        ensures not_free { result.answer ≡ Err LockRefusal.NotFree → ⊥ }
        ensures processor { pass.new.processor ≡ pass.old.processor }
    {
        pass.make_room(1);
        let mut locked_state = self.take(rt);
        locked_state.is_agreed();
        locked_state.rounds(pass, steps)
    }

    /// Takes a loan back, as [`Shared::give_back`] does, and then takes rounds, as [`Shared::rounds`] does, with no
    /// other thread's step between them.
    ///
    /// # Errors
    ///
    /// The loan, if the core was not lent as its record says. Then nothing changes, and no turn is asked for.
    #[inline(always)]
    pub fn end_loan<R: Wait>(
        &self,
        rt: &R,
        pass: &mut Pass<N>,
        loan: Loan<N>,
        steps: &[Step],
    ) -> Result<Rounds, Loan<N>>
        requires loan { IsLoanOf pass.old loan }
        requires some { 1 ≤ length steps.now }
        ensures answered { IfOk result (λ rounds.
            UnderLock N.first pass.old pass.new (λ from to. HasEnded N.opening from loan.retired steps.now rounds to)) }
        ensures handed { IfErr result (λ handed. handed ≡ loan) }
        ensures err { OnErr result (pass.new ≡ pass.old) }
        ensures processor { pass.new.processor ≡ pass.old.processor }
    {
        let mut locked_state = self.take(rt);
        locked_state.is_agreed();
        locked_state.give_back(pass, loan)?;
        Ok(locked_state.rounds(pass, steps))
    }

    /// Takes the lock, as soon as no other thread has it.
    #[inline(always)]
    fn take<R: Wait>(&self, rt: &R) -> MutexGuard<'_, LockedState<N>> {
        match self.locked_state.try_lock() {
            Some(locked_state) => locked_state,
            None => self.wait(rt),
        }
    }

    /// Takes the lock, which another thread has. That thread soon releases it, so this one tries again before it
    /// sleeps: to be woken costs more than a step.
    #[inline(never)]
    fn wait<R: Wait>(&self, rt: &R) -> MutexGuard<'_, LockedState<N>> {
        for look in 0..LOOKS {
            for _ in 0..WAIT << look {
                spin_loop();
            }
            if let Some(locked_state) = self.locked_state.try_lock() {
                return locked_state;
            }
        }
        for _ in 0..YIELDS {
            yield_now();
            if let Some(locked_state) = self.locked_state.try_lock() {
                return locked_state;
            }
        }
        self.locked_state.lock(rt)
    }

    /// Returns the logged machine after all passes are back, in order. A core that is still lent is put back as it was
    /// lent.
    pub fn gather(self, mut passes: Vec<Pass<N>>) -> (Logged, Vec<Pass<N>>)
        requires { IsWhole N.count passes.items }
        ensures passes { result.1.items ≡ passes.items }
        ensures opening { result.0.opening ≡ N.opening }
        ensures fits { Fits N.opening N.first N.count result.0.steps (rows_of passes.items) }
        ensures totals { TotalsAgree N.opening N.first result.0.steps passes.items }
    {
        let Shared { locked_state } = self;
        let mut locked_state = locked_state.into_inner();
        for pass in passes.iter_mut() {
            locked_state.sync_row(pass);
        }
        (locked_state.into_logged(), passes)
    }
}
