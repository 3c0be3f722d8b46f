//! What the lock protects.

ghost use Rattle.std.specs.Prelude.{◌≡◌, ℕ, ◌≤◌, ◌<◌, ◌+◌, ◌^◌, ◌↔◌, [], ◌∷◌, length, take, true, false, Some, Err};
ghost use Rattle.std.specs.Prelude.{slice_get, is_some, Ok, IfOk, IfErr, OnOk, OnErr, None, vec_len, vec_capacity};
ghost use Rattle.std.specs.Arc.{arc_value};
ghost use Rattle.ghost_map.specs.Rows.{IsWritten};
ghost use Rattle.hart.specs.LocalRuns.{RetirementList};
ghost use Rattle.steps.specs.Kinds.{is_poke, is_turn_of, is_within};
ghost use Rattle.machine_log.specs.Lendings.{OfOthers, may_lend, promised};
ghost use Rattle.machine_lock.specs.Lists.{is_net};
ghost use Rattle.machine_lock.specs.Passes.{moment, row_of, has_stalled, idle_of, leaves_waiting, TurnAndStep};
ghost use Rattle.machine_lock.specs.Passes.{HaveGone, HaveWaited, IsAgreed};
ghost use Rattle.machine_lock.specs.Passes.{IsAnswered, HasAnswered, IsTurned, IsLentOn, IsLoanOf, IsReturned};

use crate::kinds::{is_stop, is_waiting};
use crate::loan::Loan;
use crate::pass::Pass;
use crate::row::PassState;
use crate::run::Run;
use crate::stalling::{idle_rounds, would_stall};
use crate::stored::PassStateVec;
use ghost_map::{Authority, Fragment, Next};
use hart::Retirements;
use local_memory::Code;
use machine_log::{Lending, LockRefusal, Logged, laws};
use std::alloc::Global;
use std::marker::{Brand, Model, PhantomData};
use std::sync::Arc;
use steps::{Outcome, Step};

/// The outcome of a turn, and the answer to the step of the network after it: none if the turn stopped the processor.
#[derive(Clone, Copy, Debug, PartialEq, Eq, Drop)]
pub struct Round {
    pub turn: Outcome,
    pub net: Option<Result<Outcome, LockRefusal>>,
}

/// Rounds that were taken.
#[derive(Clone, Copy, Debug, PartialEq, Eq, Drop)]
pub struct Rounds {
    /// How many.
    pub gone: usize,
    /// How many of them were idle: their turn stalled, and so did their step of the network.
    pub idle: usize,
    /// What the last of them answered.
    pub answer: Result<Round, LockRefusal>,
}

/// The logged machine, which lends cores, with the authority that knows what every pass stores. Contracts see it as
/// the log and all rows, which always fit each other, and what is known of the cores that are away.
#[derive(Drop)]
pub struct LockedState<N: Run> {
    pub(crate) lending: Lending,
    pub(crate) authority: Authority<PassState, N>,
}

impl<N: Run> Model for LockedState<N> {
    ghost use Rattle.machine_lock.specs.Passes.{LockedStateModel, IsAgreed};

    ghost Value = { LockedStateModel };

    ghost view = { λ d. record { log = d.lending.log; rows = d.authority; lent = d.lending.lent } };

    ghost invariant = { λ d. IsAgreed N.opening N.first N.count
        (record { log = d.lending.log; rows = d.authority; lent = d.lending.lent }) };
}

// Writes what the pass of the fragment stores now. What it stored before was the authority's row.
#[inline(always)]
fn write_row<N: Run>(
    authority: &mut Authority<PassState, N>,
    fragment: &mut Fragment<PassState, N>,
    stored: &PassStateVec,
)
    ensures { (who : ℕ) (r : _) → fragment.old ≡ (who, r) ∷ [] →
        IsWritten (row_of stored.now) authority.old who r authority.new fragment.new }
{
    write_row_as::<N, Brand>(authority, fragment, stored)
}

#[inline(always)]
fn write_row_as<N: Run, M: Next<PassState>>(
    authority: &mut Authority<PassState, N>,
    fragment: &mut Fragment<PassState, N>,
    stored: &PassStateVec,
)
    requires { M.next ≡ row_of stored.now }
    ensures { (who : ℕ) (r : _) → fragment.old ≡ (who, r) ∷ [] →
        IsWritten (row_of stored.now) authority.old who r authority.new fragment.new }
{
    // The row is one of proofs: only they read what is stored.
    let _ = stored;
    authority.write::<M>(fragment)
}

// Takes a step that the machine has, enters it unless it stalls, and stores the answer. A step that has no message is
// not tried: to make and copy its outcome would cost as much as most steps.
#[inline(always)]
fn take(
    lending: &mut Lending,
    stored: &mut PassStateVec,
    processor: u8,
    step: Step,
    place: u32,
) -> Result<(), LockRefusal>
    requires named { is_within lending.old.log.machine.config.k step ≡ true }
    requires others { OfOthers lending.old.lent step }
    requires room { (p : ℕ) → is_turn_of p step ≡ true →
        vec_len stored.old.pass_events < vec_capacity stored.old.pass_events }
    requires few { length lending.old.log.steps + promised lending.old.lent < 4194304 }
    requires steps { stored.old.steps + 1 < 2 ^ 32 }
    ensures answered { OnOk result (IsAnswered lending.old.log processor (row_of stored.old) step place lending.new.log
        (row_of stored.new)) }
    ensures lent { lending.new.lent ≡ lending.old.lent }
    ensures capacity { vec_capacity stored.new.pass_events ≡ vec_capacity stored.old.pass_events }
    ensures err { OnErr result ((stored.new ≡ stored.old) × (lending.new ≡ lending.old)) }
    ensures full { result ≡ Err LockRefusal.Full → ⊥ }
    ensures unnamed { result ≡ Err LockRefusal.Unnamed → ⊥ }
    ensures not_free { result ≡ Err LockRefusal.NotFree → ⊥ }
{
    laws::lending_is_well_formed(lending);
    if would_stall(lending.machine(), step) {
        stored.store_answer(processor, step, &Outcome::Stalled, place);
        return Ok(());
    }
    match lending.step(step) {
        Ok(outcome) => {
            stored.store_answer(processor, step, &outcome, place);
            Ok(())
        }
        Err(refusal) => Err(refusal),
    }
}

// Whether the processor waits after a round, and nothing was refused in it.
#[inline(always)]
fn leaves_waiting(answer: &Result<Round, LockRefusal>) -> bool
    ensures { result ≡ leaves_waiting answer.now }
{
    match answer {
        Ok(round) => is_waiting(&round.turn) && matches!(round.net, Some(Ok(_))),
        Err(_) => false,
    }
}

// 1 for an idle round, and 0 for any other.
#[inline(always)]
fn idle_of(answer: &Result<Round, LockRefusal>) -> usize
    ensures { result ≡ idle_of answer.now }
{
    match answer {
        Ok(round) => usize::from(round.turn.is_stalled() && has_stalled(&round.net)),
        Err(_) => 0,
    }
}

// Whether a step of the network was answered, and stalled.
#[inline(always)]
fn has_stalled(net: &Option<Result<Outcome, LockRefusal>>) -> bool
    ensures { result ≡ has_stalled net.now }
{
    match net {
        Some(Ok(outcome)) => outcome.is_stalled(),
        _ => false,
    }
}

// What a loan needs besides the core. None if there is no memory for it, or no room in the pass for what it may
// retire.
#[inline(always)]
fn means(
    lending: &Lending,
    stored: &PassStateVec,
    most: u32,
    list: Option<Retirements>,
) -> Option<(Retirements, Arc<Code, Global>)>
    ensures list { (m : _) → result ≡ Some m → list ≡ Some m.0 }
    ensures code { (m : _) → result ≡ Some m → arc_value m.1 ≡ lending.now.log.opening.code }
    ensures room { (m : _) → result ≡ Some m →
        vec_len stored.now.pass_events + most ≤ vec_capacity stored.now.pass_events }
{
    laws::lending_is_well_formed(lending);
    if !stored.has_room_for(most as usize) {
        return None;
    }
    let code = lending.code().clone().ok()?;
    Some((list?, code))
}

impl<N: Run> LockedState<N> {
    /// Takes a step that the machine has for a pass whose row the authority has, and stores the answer in the pass.
    ///
    /// # Errors
    ///
    /// [`LockRefusal::Full`] if the log has [`steps::MAX_STEPS`] steps with those that are promised, else
    /// [`LockRefusal::Memory`] if a turn finds no room in the pass, which is made before the lock is taken
    /// ([`Pass::make_room`]), or there is no memory for a place in the log.
    #[inline(always)]
    fn answer(&mut self, pass: &mut Pass<N>, step: Step) -> Result<Outcome, LockRefusal>
        requires turn { (q : ℕ) → is_turn_of q step ≡ true → q ≡ pass.old.processor }
        requires poke { is_poke step ≡ false }
        requires named { is_within N.opening.config.k step ≡ true }
        requires others { OfOthers self.old.lent step }
        requires met { slice_get self.old.rows pass.old.processor ≡ Some pass.old.row }
        ensures answered { IfOk result (λ o. HasAnswered N.opening (moment self.old.log.steps pass.old) step o
            (moment self.new.log.steps pass.new)) }
        ensures full { (result ≡ Err LockRefusal.Full)
            ↔ (4194304 ≤ length self.old.log.steps + promised self.old.lent) }
        ensures named { result ≡ Err LockRefusal.Unnamed → ⊥ }
        ensures not_free { result ≡ Err LockRefusal.NotFree → ⊥ }
        ensures err { OnErr result ((pass.new ≡ pass.old) × (self.new ≡ self.old)) }
        ensures processor { pass.new.processor ≡ pass.old.processor }
    {
        let LockedState { lending, authority } = self;
        let Pass {
            processor,
            stored,
            fragment,
        } = pass;
        laws::lending_is_well_formed(lending);
        if lending.is_full() {
            return Err(LockRefusal::Full);
        }
        if !stored.has_room(step) {
            return Err(LockRefusal::Memory);
        }
        let place = lending.steps().len();
        take(lending, stored, *processor, step, place as u32)?;
        write_row(authority, fragment, stored);
        Ok(stored.outcome())
    }

    /// Takes a turn of the pass's processor, whose core is not lent.
    ///
    /// # Errors
    ///
    /// Those of [`LockedState::answer`].
    #[inline(always)]
    fn turn_home(&mut self, pass: &mut Pass<N>) -> Result<Outcome, LockRefusal>
        requires home { pass.old.row.lent ≡ None }
        ensures answered { IfOk result
            (λ o. HasAnswered N.opening (moment self.old.log.steps pass.old) (Step.Turn pass.old.processor) o
            (moment self.new.log.steps pass.new)) }
        ensures full { (result ≡ Err LockRefusal.Full)
            ↔ (4194304 ≤ length self.old.log.steps + promised self.old.lent) }
        ensures named { result ≡ Err LockRefusal.Unnamed → ⊥ }
        ensures not_free { result ≡ Err LockRefusal.NotFree → ⊥ }
        ensures err { OnErr result ((pass.new ≡ pass.old) × (self.new ≡ self.old)) }
        ensures processor { pass.new.processor ≡ pass.old.processor }
    {
        self.sync_row(pass);
        let step = Step::Turn(pass.processor);
        self.answer(pass, step)
    }

    /// Takes a turn of the pass's processor. While its core is lent, the turn stalls and the pass stores nothing.
    ///
    /// # Errors
    ///
    /// Those of [`LockedState::answer`], if the core is not lent.
    #[inline(always)]
    pub(crate) fn turn(&mut self, pass: &mut Pass<N>) -> Result<Outcome, LockRefusal>
        ensures answered { IfOk result (λ o. IsTurned pass.old.row.lent N.opening
            (moment self.old.log.steps pass.old) o (moment self.new.log.steps pass.new)) }
        ensures full { (result ≡ Err LockRefusal.Full)
            ↔ ((pass.old.row.lent ≡ None) × (4194304 ≤ length self.old.log.steps + promised self.old.lent)) }
        ensures named { result ≡ Err LockRefusal.Unnamed → ⊥ }
        ensures not_free { result ≡ Err LockRefusal.NotFree → ⊥ }
        ensures lent { is_some pass.old.row.lent ≡ true → result ≡ Ok Outcome.Stalled }
        ensures err { OnErr result ((pass.new ≡ pass.old) × (self.new ≡ self.old)) }
        ensures processor { pass.new.processor ≡ pass.old.processor }
    {
        if pass.is_lent() {
            return Ok(Outcome::Stalled);
        }
        self.turn_home(pass)
    }

    /// Takes a step of the network.
    ///
    /// # Errors
    ///
    /// [`LockRefusal::Unnamed`] if the step is not one of the network, or names a place that the machine does not have,
    /// else those of [`LockedState::answer`].
    #[inline(always)]
    pub(crate) fn net(&mut self, pass: &mut Pass<N>, step: Step) -> Result<Outcome, LockRefusal>
        ensures answered { IfOk result (λ o. HasAnswered N.opening (moment self.old.log.steps pass.old) step o
            (moment self.new.log.steps pass.new)) }
        ensures unnamed { (result ≡ Err LockRefusal.Unnamed) ↔ (is_net N.opening.config step ≡ false) }
        ensures not_free { result ≡ Err LockRefusal.NotFree → ⊥ }
        ensures full { (result ≡ Err LockRefusal.Full)
            ↔ ((is_net N.opening.config step ≡ true) × (4194304 ≤ length self.old.log.steps + promised self.old.lent)) }
        ensures err { OnErr result ((pass.new ≡ pass.old) × (self.new ≡ self.old)) }
        ensures processor { pass.new.processor ≡ pass.old.processor }
    {
        if !step.is_network() || !self.lending.names(&step) {
            return Err(LockRefusal::Unnamed);
        }
        self.sync_row(pass);
        self.answer(pass, step)
    }

    /// Takes a turn of the pass's processor and then, unless that stopped the processor, a step of the network.
    ///
    /// # Errors
    ///
    /// Those of [`LockedState::turn`]. Then no step of the network is asked for.
    #[inline(always)]
    pub(crate) fn round(&mut self, pass: &mut Pass<N>, step: Step) -> Result<Round, LockRefusal>
        ensures answered { IfOk result (λ r. TurnAndStep N.opening
            (moment self.old.log.steps pass.old) r.turn step r.net (moment self.new.log.steps pass.new)) }
        ensures named { result ≡ Err LockRefusal.Unnamed → ⊥ }
        ensures not_free { result ≡ Err LockRefusal.NotFree → ⊥ }
        ensures err { OnErr result ((pass.new ≡ pass.old) × (self.new ≡ self.old)) }
        ensures processor { pass.new.processor ≡ pass.old.processor }
    {
        let turn = self.turn(pass)?;
        if is_stop(&turn) {
            return Ok(Round { turn, net: None });
        }
        let net = Some(self.net(pass, step));
        Ok(Round { turn, net })
    }

    /// Takes rounds with these steps until one does not leave the processor waiting, and counts those that are idle.
    #[inline(always)]
    pub(crate) fn rounds(&mut self, pass: &mut Pass<N>, steps: &[Step]) -> Rounds
        requires some { 1 ≤ length steps.now }
        ensures answered { HaveGone N.opening (moment self.old.log.steps pass.old) steps.now result
            (moment self.new.log.steps pass.new) }
        ensures named { result.answer ≡ Err LockRefusal.Unnamed → ⊥ }
        ensures not_free { result.answer ≡ Err LockRefusal.NotFree → ⊥ }
        ensures processor { pass.new.processor ≡ pass.old.processor }
    {
        let mut gone = 0;
        let mut idle = 0;
        loop {
            let skipped = self.skip_idle_rounds(pass, &steps[gone..]);
            gone += skipped;
            idle += skipped;
            let answer = self.round(pass, steps[gone]);
            gone += 1;
            idle += idle_of(&answer);
            if gone == steps.len() || !leaves_waiting(&answer) {
                return Rounds { gone, idle, answer };
            }
        }
    }

    /// Takes the idle rounds with the first of these steps, and returns how many they are. Most rounds of a processor
    /// that waits are idle. The pass stores only the answer of the last of them, as it would after all. The last step
    /// is left over.
    #[inline(always)]
    fn skip_idle_rounds(&mut self, pass: &mut Pass<N>, steps: &[Step]) -> usize
        requires some { 1 ≤ length steps.now }
        ensures few { result < length steps.now }
        ensures waited { HaveWaited N.opening (moment self.old.log.steps pass.old) (take result steps.now) result
            (moment self.new.log.steps pass.new) }
        ensures processor { pass.new.processor ≡ pass.old.processor }
    {
        if pass.is_lent() || !pass.stored.has_room_for(1) {
            return 0;
        }
        self.sync_row(pass);
        laws::lending_is_well_formed(&self.lending);
        let skipped = idle_rounds(self.lending.machine(), pass.processor, steps);
        if skipped == 0 {
            return 0;
        }
        match self.net(pass, steps[skipped - 1]) {
            Ok(_) => skipped,
            Err(_) => 0,
        }
    }

    /// Shows that what the pass stores is the authority's row.
    #[inline(always)]
    pub(crate) fn sync_row(&mut self, pass: &mut Pass<N>)
        ensures same { (pass.new ≡ pass.old) × (self.new ≡ self.old) }
        ensures agrees { slice_get self.old.rows pass.old.processor ≡ Some pass.old.row }
        ensures fits { IsAgreed N.opening N.first N.count self.old }
    {
        let LockedState {
            lending: _,
            authority,
        } = self;
        let Pass {
            processor: _,
            stored,
            fragment,
        } = pass;
        write_row(authority, fragment, stored);
    }

    /// Lends the core of the pass's processor for at most this many instructions. `list` is for what it retires.
    ///
    /// # Errors
    ///
    /// [`LockRefusal::NotFree`] if the processor has a reference open, does not run, or its core is lent; else
    /// [`LockRefusal::Full`] if the log would exceed [`steps::MAX_STEPS`] steps with all that are promised; else
    /// [`LockRefusal::Memory`] if there is no list, or no room in the pass for what it may hold (both are made before
    /// the lock is taken), or no memory for the records or the places in the log. Each leaves all as it was.
    #[inline(always)]
    pub(crate) fn lend(
        &mut self,
        pass: &mut Pass<N>,
        most: u32,
        list: Option<Retirements>,
    ) -> Result<Loan<N>, LockRefusal>
        requires list { (l : RetirementList) → list ≡ Some l → l ≡ record { most = most; items = [] } }
        ensures lent { IfOk result (λ loan. IsLentOn pass.old most loan pass.new) }
        ensures free { (result ≡ Err LockRefusal.NotFree)
            ↔ (may_lend (record { log = self.old.log; lent = self.old.lent }) pass.old.processor ≡ false) }
        ensures away { is_some pass.old.row.lent ≡ true → result ≡ Err LockRefusal.NotFree }
        ensures named { result ≡ Err LockRefusal.Unnamed → ⊥ }
        ensures full { (result ≡ Err LockRefusal.Full)
            ↔ ((may_lend (record { log = self.old.log; lent = self.old.lent }) pass.old.processor ≡ true)
            × (4194304 < length self.old.log.steps + (promised self.old.lent + most))) }
        ensures err { OnErr result ((pass.new ≡ pass.old) × (self.new ≡ self.old)) }
    {
        self.sync_row(pass);
        let LockedState { lending, authority } = self;
        let Pass {
            processor,
            stored,
            fragment,
        } = pass;
        laws::lending_is_well_formed(lending);
        let means = means(lending, stored, most, list);
        let (core, record) = lending.lend(*processor, most)?;
        let Some((retired, code)) = means else {
            lending.bring_back(*processor);
            return Err(LockRefusal::Memory);
        };
        stored.lent = Some(most);
        write_row(authority, fragment, stored);
        Ok(Loan {
            processor: *processor,
            core,
            record,
            code,
            retired,
            of: PhantomData,
        })
    }

    /// Takes back a core that was lent on the pass: enters a turn for each instruction that it has retired, and stores
    /// them in the pass.
    ///
    /// # Errors
    ///
    /// The loan, if the core was not lent as its record says. Then nothing changes.
    #[inline(always)]
    pub(crate) fn give_back(&mut self, pass: &mut Pass<N>, loan: Loan<N>) -> Result<(), Loan<N>>
        requires { IsLoanOf pass.old loan }
        ensures back { OnOk result (IsReturned N.opening (moment self.old.log.steps pass.old) loan.retired
            (moment self.new.log.steps pass.new)) }
        ensures handed { IfErr result (λ handed. handed ≡ loan) }
        ensures err { OnErr result ((pass.new ≡ pass.old) × (self.new ≡ self.old)) }
    {
        self.sync_row(pass);
        let LockedState { lending, authority } = self;
        let Pass {
            processor,
            stored,
            fragment,
        } = pass;
        laws::lending_is_well_formed(lending);
        let place = lending.steps().len();
        let Loan {
            processor: _,
            core,
            record,
            code,
            retired,
            of,
        } = loan;
        if let Err((core, record)) = lending.give_back(
            *processor,
            record,
            core,
            retired.as_slice(),
        ) {
            return Err(Loan {
                processor: *processor,
                core,
                record,
                code,
                retired,
                of,
            });
        }
        laws::lending_is_well_formed(lending);
        stored.store_retirements(*processor, retired.as_slice(), place as u32);
        stored.lent = None;
        write_row(authority, fragment, stored);
        Ok(())
    }

    /// Shows what always holds under the lock.
    pub(crate) fn is_agreed(&self)
        ensures { IsAgreed N.opening N.first N.count self.now }
    {
        let _ = &self.lending;
    }

    /// Returns the logged machine. Each core that is away is put back as it was lent.
    pub(crate) fn into_logged(self) -> Logged
        ensures log { result ≡ self.log }
        ensures fits { IsAgreed N.opening N.first N.count self }
    {
        let LockedState {
            lending,
            authority: _,
        } = self;
        lending.into_logged()
    }
}
