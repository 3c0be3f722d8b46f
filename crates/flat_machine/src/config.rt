//! The size of a machine, and its memory map.

ghost use Rattle.std.specs.Prelude.{◌≡◌, ◌≤◌, ◌^◌, ◌↔◌, IsTrue};
ghost use Rattle.flat_machine.specs.Limits.{IsWithinLimits};

/// The first address of code.
pub const CODE_START: u32 = 0x0001_0000;

/// The first address of each processor's local memory.
pub const LOCAL_START: u32 = 0x0002_0000;

/// The bytes of the code region, and of each local memory.
pub const REGION_BYTES: u32 = 0x0001_0000;

/// The first address of shared memory.
pub const SHARED_START: u32 = 0x8000_0000;

/// The most stages of switches that a network may have.
pub const MAX_STAGES: u8 = 6;

/// The fewest places that a queue may have.
pub const MIN_QUEUE_CAPACITY: u8 = 2;

/// The most places that a queue may have.
pub const MAX_QUEUE_CAPACITY: u8 = 16;

/// The most records that a wait buffer may have.
pub const MAX_WAIT_RECORDS: u8 = 16;

/// How often an entry of a queue may be combined, at most.
pub const MAX_COMBINATIONS: u8 = 3;

/// The most words that shared memory may have.
pub const MAX_SHARED_WORDS: u32 = 262_144;

/// The size of a machine.
#[derive(Clone, Copy, Debug, PartialEq, Eq, Drop)]
pub struct Config {
    /// The number of stages of switches: 0 to 6. The machine has 2^`k` processors and memory modules.
    pub k: u8,
    /// How many messages a queue holds: 2 to 16.
    pub c: u8,
    /// How many records a wait buffer holds: 0 to 16.
    pub b: u8,
    /// How often an entry of a queue may be combined: 1 to 3, and less than `c`, so that a queue has room for all
    /// replies of an entry.
    pub r: u8,
    /// How many words the shared memory has: 1 to 262,144.
    pub shared_words: u32,
}

impl Config {
    /// Whether each number is within its limits.
    pub fn is_within_limits(&self) -> bool
        ensures { IsTrue result ↔ IsWithinLimits self.now }
    {
        self.k <= MAX_STAGES
            && MIN_QUEUE_CAPACITY <= self.c
            && self.c <= MAX_QUEUE_CAPACITY
            && self.b <= MAX_WAIT_RECORDS
            && 1 <= self.r
            && self.r <= MAX_COMBINATIONS
            && self.r < self.c
            && 1 <= self.shared_words
            && self.shared_words <= MAX_SHARED_WORDS
    }

    /// The number of processors, and of memory modules: 1 to 64.
    pub fn processors(&self) -> u8
        requires { self.now.k ≤ 6 }
        ensures { result ≡ 2 ^ self.now.k }
    {
        1 << self.k
    }
}
