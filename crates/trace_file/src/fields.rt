//! The record of a step.

ghost use Rattle.std.specs.Prelude.{◌≡◌, ◌≢◌, ◌≤◌, IfSome, IfNone, length};
ghost use Rattle.trace_file.specs.declared.fields.Fields.{Fields};
ghost use Rattle.steps.specs.declared.step.Step.{Step};
ghost use Rattle.trace_file.specs.Reading.{fields_in};
ghost use Rattle.trace_file.specs.Records.{fields_of, field_bytes, has_poke_record, has_record, HasRecord, named_step};

use byteorder::{ByteOrder, LittleEndian};
use flat_machine::{LOCAL_START, MAX_SHARED_WORDS, PC, Poke, REGION_BYTES, SHARED_START};
use steps::Step;

/// The number of bytes of a record.
pub const RECORD_BYTES: usize = 12;

const TURN: u8 = 1;

const UP: u8 = 2;

const SERVE: u8 = 3;

const DOWN: u8 = 4;

const POKE_REGISTER: u8 = 5;

const POKE_LOCAL: u8 = 6;

const POKE_SHARED: u8 = 7;

/// The last address of local memory.
const LAST_LOCAL: u32 = LOCAL_START + (REGION_BYTES - 1);

/// The last address of shared memory at its largest.
const LAST_SHARED: u32 = SHARED_START + (4 * MAX_SHARED_WORDS - 1);

/// The fields of a record, in the order of its bytes.
#[derive(Clone, Copy, Debug, PartialEq, Eq, Drop)]
pub struct Fields {
    /// The kind of the step: 1 to 7.
    pub kind: u8,
    pub a: u8,
    pub b: u8,
    /// Always 0.
    pub unused: u8,
    pub address: u32,
    pub value: u32,
}

impl Fields {
    /// The fields of a step's record.
    pub fn of(step: &Step) -> Self
        ensures { result ≡ fields_of step.now }
    {
        let (kind, a, b, address, value) = match *step {
            Step::Turn(processor) => (TURN, processor, 0, 0, 0),
            Step::Up { stage, wire } => (UP, stage, wire, 0, 0),
            Step::Serve(module) => (SERVE, module, 0, 0, 0),
            Step::Down { stage, wire } => (DOWN, stage, wire, 0, 0),
            Step::Poke(
                Poke::Register {
                    processor,
                    register,
                    value,
                },
            ) => (POKE_REGISTER, processor, register, 0, value),
            Step::Poke(
                Poke::Local {
                    processor,
                    address,
                    value,
                },
            ) => (POKE_LOCAL, processor, 0, address, u32::from(value)),
            Step::Poke(Poke::Shared { address, value }) => {
                (POKE_SHARED, 0, 0, address, u32::from(value))
            }
        };
        Fields {
            kind,
            a,
            b,
            unused: 0,
            address,
            value,
        }
    }

    /// The bytes of the record.
    #[tactic(auto, unfolding(crate::specs::Records::field_bytes))]
    pub fn bytes(&self) -> [u8; RECORD_BYTES]
        ensures { result ≡ field_bytes self.now }
    {
        let mut bytes = [
            self.kind,
            self.a,
            self.b,
            self.unused,
            0,
            0,
            0,
            0,
            0,
            0,
            0,
            0,
        ];
        LittleEndian::write_u32(&mut bytes[4..], self.address);
        LittleEndian::write_u32(&mut bytes[8..], self.value);
        bytes
    }

    /// The fields of 12 bytes.
    pub fn in_bytes(bytes: &[u8]) -> Self
        requires { length bytes.now ≡ 12 }
        ensures fields { result ≡ fields_in bytes.now }
        ensures bytes { field_bytes result ≡ bytes.now }
    {
        Fields {
            kind: bytes[0],
            a: bytes[1],
            b: bytes[2],
            unused: bytes[3],
            address: u32::from_le_bytes([bytes[4], bytes[5], bytes[6], bytes[7]]),
            value: u32::from_le_bytes([bytes[8], bytes[9], bytes[10], bytes[11]]),
        }
    }

    /// The step whose record this is, for a machine with `k` stages. `None` if there is no such step.
    pub fn step(&self, k: u8) -> Option<Step>
        requires { k ≤ 6 }
        ensures some { IfSome result (λ step. HasRecord k step × (fields_of step ≡ self.now)) }
        ensures none { IfNone result ((step : Step) → HasRecord k step → fields_of step ≢ self.now) }
    {
        let step = self.named_step()?;
        if Fields::of(&step) == *self && has_record(&step, k) {
            Some(step)
        } else {
            None
        }
    }

    /// The step that kind, A, B, address and value name, whatever the other fields are.
    #[tactic(auto, unfolding(crate::specs::Records::named_step))]
    fn named_step(&self) -> Option<Step>
        ensures { result ≡ named_step self.now }
    {
        let step = match self.kind {
            TURN => Step::Turn(self.a),
            UP => Step::Up {
                stage: self.a,
                wire: self.b,
            },
            SERVE => Step::Serve(self.a),
            DOWN => Step::Down {
                stage: self.a,
                wire: self.b,
            },
            POKE_REGISTER => Step::Poke(Poke::Register {
                processor: self.a,
                register: self.b,
                value: self.value,
            }),
            POKE_LOCAL => Step::Poke(Poke::Local {
                processor: self.a,
                address: self.address,
                value: u8::try_from(self.value).ok()?,
            }),
            POKE_SHARED => Step::Poke(Poke::Shared {
                address: self.address,
                value: u8::try_from(self.value).ok()?,
            }),
            _ => return None,
        };
        Some(step)
    }
}

/// Whether the entries of the step's record are in range, for a machine with `k` stages.
pub fn has_record(step: &Step, k: u8) -> bool
    requires { k ≤ 6 }
    ensures { result ≡ has_record k step.now }
{
    let processors = 1u8 << k;
    match *step {
        Step::Turn(number) | Step::Serve(number) => number < processors,
        Step::Up { stage, wire } | Step::Down { stage, wire } => stage < k && wire < processors,
        Step::Poke(poke) => has_poke_record(&poke, processors),
    }
}

/// Whether the entries of the poke's record are in range, for this many processors.
fn has_poke_record(poke: &Poke, processors: u8) -> bool
    ensures { result ≡ has_poke_record processors poke.now }
{
    match *poke {
        Poke::Register {
            processor,
            register,
            value,
        } => {
            processor < processors
                && 1 <= register
                && register <= PC
                && (register < PC || value % 4 == 0)
        }
        Poke::Local {
            processor,
            address,
            value: _value,
        } => processor < processors && LOCAL_START <= address && address <= LAST_LOCAL,
        Poke::Shared {
            address,
            value: _value,
        } => SHARED_START <= address && address <= LAST_SHARED,
    }
}
