//! Rounds of one processor with no other thread's step between them: how many there are, and the answer of the last.

use super::trials::{Trial, attempt};
use machine_lock::{Pass, Round, Rounds, Run, Shared};
use machine_log::LockRefusal;
use std::alloc::Global;
use std::process::Abort;
use std::sync::Wait;
use std::test::Fail;
use steps::{Outcome, Step};
use test_support::{assert_same, lend, log_of, size};

/// A processor that adds to a shared word, and then halts.
const ADDS: &str = "lui x12, 0x80000\namoadd.w x10, x11, (x12)\naddi x17, x0, 0\necall\n";

/// The steps of its request and of the reply on a machine of two processors, and a service at a module to which no
/// request comes.
static WAY: [Step; 4] = [
    Step::Up { stage: 0, wire: 0 },
    Step::Serve(0),
    Step::Down { stage: 0, wire: 0 },
    Step::Serve(1),
];

/// Rounds of which the last waits, with this answer to its step of the network.
const fn waits(gone: usize, idle: usize, net: Result<Outcome, LockRefusal>) -> Rounds {
    Rounds {
        gone,
        idle,
        answer: Ok(Round {
            turn: Outcome::Stalled,
            net: Some(net),
        }),
    }
}

/// Checks that there were this many rounds, that this many did nothing, and that the last retired an instruction.
fn assert_retired(rt: &impl Abort, rounds: &Rounds, gone: usize, idle: usize) {
    assert_same!(rt; (rounds.gone, rounds.idle), (gone, idle));
    assert!(rt;
        matches!(
            rounds.answer,
            Ok(Round {
                turn: Outcome::Retired(_),
                net: Some(Ok(Outcome::Stalled)),
            })
        )
    );
}

/// The pass of processor 0 of two.
fn first_of<N: Run>(rt: &impl Abort, mut passes: Vec<Pass<N>>) -> Pass<N> {
    let _other = passes.pop();
    passes.pop().expect(rt, "a pass")
}

/// Rounds without a loan before them.
pub(super) fn turn_by_turn<N: Run, R: Wait + Abort>(
    rt: &R,
    shared: Shared<N>,
    passes: Vec<Pass<N>>,
) -> Result<(), Fail> {
    lend((shared, first_of(rt, passes)), |(shared, pass)| {
        assert_retired(rt, &shared.rounds(rt, pass, &WAY), 1, 0);
        let unnamed = [WAY[0], Step::Serve(2), WAY[1]];
        let refused = waits(2, 0, Err(LockRefusal::Unnamed));
        assert_same!(rt; shared.rounds(rt, pass, &unnamed), refused);
        let served = waits(1, 0, Ok(Outcome::Served { leader: 0 }));
        assert_same!(rt; shared.rounds(rt, pass, &WAY[1..2]), served);
        assert_retired(rt, &shared.rounds(rt, pass, &WAY[2..]), 2, 0);
        assert_same!(rt; pass.steps(), 6);
        Ok(())
    })
}

/// Rounds end with an instruction that retires, with a step that the machine does not have, or after the last step of
/// the list. Otherwise they go on from the turn that begins a reference to the one that takes the reply.
#[test]
fn until_the_reply_comes(rt: HostRuntime) -> Result<(), Fail> {
    let logged = log_of(rt.alloc(), ADDS, size(1))?;
    attempt(&rt, rt.alloc(), logged, Trial::TurnByTurn)
}

/// Takes a loan, ends it, and takes the rounds after it.
fn end_a_loan<N: Run, R: Wait + Abort>(
    rt: &R,
    alloc: Global,
    shared: &Shared<N>,
    pass: &mut Pass<N>,
) -> Result<Rounds, Fail> {
    let mut loan = match shared.lend(rt, alloc, pass, 64) {
        Ok(loan) => loan,
        Err(refusal) => return Err(Fail::from(refusal)),
    };
    let _end = loan.run_local();
    let rounds = match shared.end_loan(rt, pass, loan, &WAY) {
        Ok(rounds) => rounds,
        Err(_) => return Err(Fail::new("the loan was handed back")),
    };
    Ok(rounds)
}

/// The core takes one instruction on loan, and then the processor adds, in four rounds: the turn that takes the reply
/// is in the last.
pub(super) fn after_a_loan<N: Run, R: Wait + Abort>(
    rt: &R,
    alloc: Global,
    shared: Shared<N>,
    passes: Vec<Pass<N>>,
) -> Result<(), Fail> {
    lend((shared, first_of(rt, passes)), |(shared, pass)| {
        assert_retired(rt, &end_a_loan(rt, alloc, shared, pass)?, 4, 0);
        assert!(rt; !pass.is_lent());
        assert_same!(rt; pass.steps(), 6);
        Ok(())
    })
}

#[test]
fn from_a_loan_to_the_reply(rt: HostRuntime) -> Result<(), Fail> {
    let logged = log_of(rt.alloc(), ADDS, size(1))?;
    attempt(&rt, rt.alloc(), logged, Trial::AfterALoan)
}
