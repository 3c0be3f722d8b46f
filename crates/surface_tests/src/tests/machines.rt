//! A machine of two processors that add 1 and 2 to shared word 0, which is 10.

use machine_steps::{
    Cause, Config, Entry, Fault, Machine, NewError, Outcome, Poke, Seconds, Status, Step,
};
use std::alloc::{AllocGlobal, Global};
use std::process::Abort;
use std::test::Fail;
use test_support::{assert_same, lend, machine_of, size};

/// The add of each processor, and its stop.
const TEXT: &str = "amoadd.w a0, a1, (a2)\nebreak";

/// A poke of a register.
macro_rules! register {
    ($processor:expr, $register:expr, $value:expr) => {
        Poke::Register {
            processor: $processor,
            register: $register,
            value: $value,
        }
    };
}

/// A poke of a byte of local memory, and those that set up the adds.
static POKES: [Poke; 6] = [
    Poke::Local {
        processor: 1,
        address: 0x0002_0000,
        value: 0xA5,
    },
    Poke::Shared {
        address: 0x8000_0000,
        value: 10,
    },
    register!(0, 11, 1),
    register!(0, 12, 0x8000_0000),
    register!(1, 11, 2),
    register!(1, 12, 0x8000_0000),
];

/// The machine after these pokes.
fn adders(rt: &impl Abort, alloc: Global) -> Result<Machine, Fail> {
    let mut machine = machine_of(alloc, TEXT, size(1))?;
    for poke in &POKES {
        assert_same!(rt; machine.apply(Step::Poke(*poke)), Outcome::Poked, poke);
    }
    Ok(machine)
}

/// Lends such a machine to a body.
fn on_adders<F: FnOnce(&mut Machine) -> Result<(), Fail>>(
    rt: &(impl Abort + AllocGlobal),
    body: F,
) -> Result<(), Fail>
    requires { F.IsAlwaysCallable body }
{
    lend(adders(rt, rt.alloc())?, body)
}

/// Both requests combine at the only stage, and one service answers both.
static ADDS: [Step; 8] = [
    Step::Turn(0),
    Step::Turn(1),
    Step::Up { stage: 0, wire: 0 },
    Step::Up { stage: 0, wire: 1 },
    Step::Serve(0),
    Step::Down { stage: 0, wire: 0 },
    Step::Turn(0),
    Step::Turn(1),
];

/// The outcomes of the first six of these steps.
fn outcomes() -> [Outcome; 6] {
    [
        Outcome::Issued,
        Outcome::Issued,
        Outcome::Moved,
        Outcome::Combined {
            first: 0,
            second: 1,
        },
        Outcome::Served { leader: 0 },
        Outcome::Answered {
            to: Seconds::One(1),
        },
    ]
}

/// What an instruction that retired wrote to a register.
fn result_of(outcome: Outcome) -> Option<u32> {
    match outcome {
        Outcome::Retired(retired) => retired.result,
        _ => None,
    }
}

/// Checks that both have added, processor 0 first, and that no reference is open.
fn have_added(rt: &impl Abort, machine: &Machine) {
    assert!(rt; machine.is_idle());
    assert_same!(rt; machine.drain_step(), None);
    assert_same!(rt; [machine.reg(0, 10), machine.reg(1, 10)], [Some(10), Some(11)]);
    assert_same!(rt; [machine.word(0), machine.word(1024)], [Some(13), None]);
    assert_same!(rt; [machine.pc(1), machine.pc(2)], [Some(0x0001_0004), None]);
    assert_same!(rt; machine.status(0), Some(Status::Running));
    let bytes = [machine.byte(1, 0x0002_0000), machine.byte(0, 0x0002_0000)];
    assert_same!(rt; bytes, [Some(0xA5), Some(0)]);
}

/// Checks the outcomes of the first six of the adds' steps.
fn send_adds(rt: &impl Abort, machine: &mut Machine) {
    for (step, outcome) in ADDS.iter().zip(outcomes()) {
        assert_same!(rt; machine.apply(*step), outcome, step);
    }
}

#[test]
fn steps_are_applied(rt: HostRuntime) -> Result<(), Fail> {
    on_adders(&rt, |machine| {
        send_adds(&rt, machine);
        assert_same!(rt; machine.apply(Step::Serve(2)), Outcome::Stalled);
        for (p, wanted) in [(0, 10), (1, 11)] {
            assert_same!(rt; result_of(machine.apply(Step::Turn(p))), Some(wanted), p);
        }
        have_added(&rt, machine);
        Ok(())
    })
}

#[test]
fn steps_are_run(rt: HostRuntime) -> Result<(), Fail> {
    on_adders(&rt, |machine| {
        machine.run(&ADDS);
        have_added(&rt, machine);
        Ok(())
    })
}

/// The serial order of a list of steps.
fn order_of(
    rt: &impl Abort,
    alloc: Global,
    machine: &mut Machine,
    steps: &[Step],
) -> Result<Vec<Entry>, NewError> {
    assert!(rt; machine.is_idle());
    machine.order(alloc, steps)
}

/// Checks the serial order of a list of steps.
fn has_order(
    rt: &(impl Abort + AllocGlobal),
    machine: &mut Machine,
    steps: &[Step],
    wanted: &[Entry],
) -> Result<(), Fail> {
    let order = order_of(rt, rt.alloc(), machine, steps)?;
    assert_same!(rt; order.as_slice(), wanted);
    Ok(())
}

/// One service answers both references, processor 0 first. A poke and a stop are in the order; a turn of a processor
/// that the machine does not have is not.
#[test]
fn steps_have_an_order(rt: HostRuntime) -> Result<(), Fail> {
    on_adders(&rt, |machine| {
        let adds = [Entry::Processor(0), Entry::Processor(1)];
        has_order(&rt, machine, &ADDS, &adds)?;
        let steps = [Step::Poke(POKES[0]), Step::Turn(2), Step::Turn(0)];
        let others = [Entry::Poke(POKES[0]), Entry::Processor(0)];
        has_order(&rt, machine, &steps, &others)?;
        let stopped = Status::Faulted(Fault::Breakpoint);
        assert_same!(rt; machine.status(0), Some(stopped));
        Ok(())
    })
}

/// Each request goes to the module and back by itself, in four steps.
#[test]
fn references_are_drained(rt: HostRuntime) -> Result<(), Fail> {
    on_adders(&rt, |machine| {
        machine.run(&ADDS[..2]);
        assert!(rt; !machine.is_idle());
        assert_same!(rt; machine.drain_step(), Some(Step::Up { stage: 0, wire: 0 }));
        assert_same!(rt; machine.drain(), 8);
        have_added(&rt, machine);
        assert_same!(rt; machine.drain(), 0);
        Ok(())
    })
}

#[test]
fn instructions_are_whole(rt: HostRuntime) -> Result<(), Fail> {
    on_adders(&rt, |machine| {
        for (p, wanted) in [(0, 10), (1, 11)] {
            assert_same!(rt; result_of(machine.one(p)), Some(wanted), p);
        }
        have_added(&rt, machine);
        let stop = Outcome::Stopped(Cause::Fault(Fault::Breakpoint));
        for (p, wanted) in [(1, stop), (1, Outcome::Stalled), (2, Outcome::Stalled)] {
            assert_same!(rt; machine.one(p), wanted, p);
        }
        Ok(())
    })
}

/// Why a copy of the image of this machine, which has 1,024 shared words, is refused at this size, if it is.
fn refusal(alloc: Global, machine: &Machine, config: Config) -> Result<Option<NewError>, Fail> {
    let image = machine.image().copy(alloc)?;
    Ok(Machine::new(alloc, image, config).err())
}

#[test]
fn machines_keep_their_image_and_size(rt: HostRuntime) -> Result<(), Fail> {
    lend(machine_of(rt.alloc(), TEXT, size(1))?, |machine| {
        assert_same!(rt; machine.config(), size(1));
        assert_same!(rt; machine.image().layout().code.len(), 8);
        let other = Config {
            shared_words: 8,
            ..size(1)
        };
        for (config, wanted) in [
            (size(6), None),
            (size(7), Some(NewError::Config)),
            (other, Some(NewError::Config)),
        ] {
            assert_same!(rt; refusal(rt.alloc(), machine, config)?, wanted, config);
        }
        Ok(())
    })
}
