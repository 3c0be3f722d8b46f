//! Moves messages through a network of six stages, and measures how long the moves take.
//!
//! `bench moves KIND ROUNDS`: in each round 64 processors send a request, and each message is moved until all have
//! their replies. If KIND is `one`, all add 1 to one word and combine at each stage; if it is `each`, each adds 1 to
//! a word of its own module. Without arguments it does 10 rounds of both. Standard output has the counts of the
//! rounds, and standard error the time of the moves alone: before a request or a reply is put in, the network is
//! asked whom it names, and a search through all of it answers.
ghost use Rattle.std.specs.Prelude.{◌<◌, ◌≤◌};

use anyhow::bail;
use messages::{DownMove, Reply, Request, UpMove};
use omega_network::Network;
use phi_algebra::Phi;
use std::alloc::{AllocError, Global};
use std::io;
use std::time::{Clock, Duration, Instant};

/// How many stages the network has: the most that are possible.
const STAGES: u8 = 6;

/// How many processors and modules there are.
const WIRES: u8 = 64;

/// Which words the processors refer to.
#[derive(Clone, Copy, Debug, PartialEq, Eq, Drop)]
enum Kind {
    /// All refer to one word.
    One,
    /// Each refers to a word of its own module.
    Each,
}

impl Kind {
    fn name(self) -> &'static str {
        match self {
            Kind::One => "one",
            Kind::Each => "each",
        }
    }

    /// The word of a processor.
    fn word(self, processor: u8) -> u32 {
        match self {
            Kind::One => 0,
            Kind::Each => u32::from(processor),
        }
    }

    /// The distance between two wires at a depth that carry messages: paths to one module meet.
    fn step(self, depth: u8) -> usize
        requires { depth ≤ 6 }
        ensures { 0 < result }
    {
        match self {
            Kind::One => 1 << depth,
            Kind::Each => 1,
        }
    }
}

/// A network with the words of its modules, and what was counted.
#[derive(Drop)]
struct Bench {
    network: Network,
    words: [u32; 64],
    moves: u64,
    replies: u64,
    sum: u64,
    time: Duration,
}

impl Bench {
    fn new(alloc: Global) -> Result<Self, AllocError> {
        Ok(Bench {
            network: Network::new(alloc, STAGES, 4, 4, 1)?,
            words: [0; 64],
            moves: 0,
            replies: 0,
            sum: 0,
            time: Duration::ZERO,
        })
    }

    /// Carries out each processor's reference, from its request to its reply.
    fn round(&mut self, clock: &impl Clock, kind: Kind) -> io::Result<()> {
        for processor in 0..WIRES {
            self.inject(processor, kind.word(processor));
        }
        let start = Instant::now(clock)?;
        self.all_up(kind);
        self.time = self.time.saturating_add(start.elapsed(clock)?);
        for module in (0..WIRES).step_by(kind.step(STAGES)) {
            self.serve(module);
        }
        let start = Instant::now(clock)?;
        self.all_down(kind);
        self.time = self.time.saturating_add(start.elapsed(clock)?);
        for processor in 0..WIRES {
            self.take(processor);
        }
        Ok(())
    }

    /// Moves all requests to their modules.
    fn all_up(&mut self, kind: Kind) {
        for stage in 0..STAGES {
            for wire in (0..WIRES).step_by(kind.step(stage)) {
                self.up(stage, wire);
            }
        }
    }

    /// Moves all replies to their processors.
    fn all_down(&mut self, kind: Kind) {
        for stage in (0..STAGES).rev() {
            for wire in (0..WIRES).step_by(kind.step(stage + 1)) {
                self.down(stage, wire);
            }
        }
    }

    fn inject(&mut self, leader: u8, word: u32) {
        let network = &mut self.network;
        if leader < network.wires() && network.slot_is_free(leader) && !network.names(leader) {
            let request = Request {
                leader,
                word,
                phi: Phi::Add(1),
                marks: 0,
            };
            network.inject(leader, request);
        }
    }

    fn up(&mut self, stage: u8, wire: u8) {
        let network = &mut self.network;
        if stage < network.stages()
            && wire < network.wires()
            && network.up(stage, wire) != UpMove::Stalled
        {
            self.moves = self.moves.wrapping_add(1);
        }
    }

    fn serve(&mut self, module: u8) {
        let network = &mut self.network;
        if module >= network.wires() {
            return;
        }
        let Some(request) = network.module_take(module) else {
            return;
        };
        let word = &mut self.words[usize::from(module & 63)];
        let reply = Reply {
            leader: request.leader,
            value: *word,
        };
        *word = request.phi.apply(*word);
        if network.module_is_free(module)
            && reply.leader < network.wires()
            && network.may_reply(reply.leader)
        {
            network.module_reply(module, reply);
        }
    }

    fn down(&mut self, stage: u8, wire: u8) {
        let network = &mut self.network;
        if stage < network.stages()
            && wire < network.wires()
            && network.down(stage, wire) != DownMove::Stalled
        {
            self.moves = self.moves.wrapping_add(1);
        }
    }

    fn take(&mut self, processor: u8) {
        let network = &mut self.network;
        if processor < network.wires() {
            if let Some(reply) = network.port_take(processor) {
                self.replies = self.replies.wrapping_add(1);
                self.sum = self.sum.wrapping_add(u64::from(reply.value));
            }
        }
    }
}

/// Does rounds of a kind, and returns what they did.
fn run_rounds(alloc: Global, clock: &impl Clock, kind: Kind, rounds: u32) -> anyhow::Result<Bench> {
    let mut bench = Bench::new(alloc)?;
    for _ in 0..rounds {
        bench.round(clock, kind)?;
    }
    Ok(bench)
}

/// Which kinds of rounds are measured, and how many rounds.
fn parse_arguments(arguments: &[String]) -> anyhow::Result<(&'static [Kind], u32)> {
    match arguments {
        [] => Ok((&[Kind::One, Kind::Each], 10)),
        [kind, rounds] if kind.as_str() == "one" => Ok((&[Kind::One], rounds.parse()?)),
        [kind, rounds] if kind.as_str() == "each" => Ok((&[Kind::Each], rounds.parse()?)),
        _ => bail!("usage: bench moves [one|each ROUNDS]"),
    }
}

/// Prints what the rounds did.
fn tell(rt: &HostRuntime, kind: Kind, rounds: u32, bench: &Bench) -> anyhow::Result<()> {
    println!(rt;
        "{}: {} rounds, {} moves, {} replies, their sum {}",
        kind.name(),
        rounds,
        bench.moves,
        bench.replies,
        bench.sum
    )?;
    eprintln!(rt;
        "{}: moves in {} microseconds",
        kind.name(),
        bench.time.as_micros()
    )?;
    Ok(())
}

/// Moves messages as these arguments ask, and prints what that did.
pub fn run(rt: &HostRuntime, arguments: &[String]) -> anyhow::Result<()> {
    let (kinds, rounds) = parse_arguments(arguments)?;
    for kind in kinds {
        let bench = run_rounds(rt.alloc(), rt, *kind, rounds)?;
        tell(rt, *kind, rounds, &bench)?;
    }
    Ok(())
}
