//! The header of a trace.

ghost use Rattle.std.specs.Prelude.{◌≡◌, ◌≢◌, ◌≤◌, ◌↔◌, ◌==◌, IsTrue, IfSome, IfNone, length, slice_index};
ghost use Rattle.std.specs.Prelude.{if◌then◌else◌};
ghost use Rattle.trace_file.specs.Traces.{header_bytes, header_of, long_header, short_header, trace_of, IsHeader};
ghost use Rattle.trace_file.specs.Faults.{header_size};
ghost use Rattle.trace_file.specs.Reading.{header_in};

use arrayvec::ArrayVec;
use flat_machine::{
    Config, MAX_COMBINATIONS, MAX_QUEUE_CAPACITY, MAX_STAGES, MAX_WAIT_RECORDS, MIN_QUEUE_CAPACITY,
};
use steps::{MAX_STEPS, Step};

/// The number of bytes of the longest header.
pub const MAX_HEADER_BYTES: usize = 16;

/// The bytes of a header.
pub type HeaderBytes = ArrayVec<u8, MAX_HEADER_BYTES>;

/// The first bytes of a trace. The number of its format comes next.
const MAGIC: [u8; 4] = [b'U', b'L', b'T', b'R'];

/// The sizes of the network, and the number of records.
#[derive(Clone, Copy, Debug, PartialEq, Eq, Drop)]
pub struct Header {
    pub k: u8,
    pub c: u8,
    pub b: u8,
    pub r: u8,
    pub count: u32,
}

/// The number of bytes of a header in the format with this number.
pub fn header_size(format: u8) -> usize
    ensures exact { result ≡ (if format == 2 then 16 else 12) }
    ensures least { 12 ≤ result }
    ensures most { result ≤ 16 }
{
    if format == 2 { 16 } else { 12 }
}

impl Header {
    /// The header of the trace of these steps, on a machine of this size.
    pub fn new(config: &Config, steps: &[Step]) -> Self
        requires { length steps.now ≤ 4194304 }
        ensures { result ≡ header_of (trace_of config.now steps.now) }
    {
        Header {
            k: config.k,
            c: config.c,
            b: config.b,
            r: config.r,
            count: steps.len() as u32,
        }
    }

    /// The bytes of the header: in format 1 if an entry of a queue is combined at most once, otherwise in format 2.
    #[tactic(auto, unfolding(crate::specs::Traces::header_bytes))]
    pub fn bytes(&self) -> HeaderBytes
        ensures { result.items ≡ header_bytes self.now }
    {
        if self.r == 1 {
            self.short_bytes()
        } else {
            self.long_bytes()
        }
    }

    /// The bytes of the header in format 1.
    fn short_bytes(&self) -> HeaderBytes
        ensures { result.items ≡ short_header self.now }
    {
        let [u, l, t, r] = MAGIC;
        let mut bytes = HeaderBytes::new();
        bytes
            .try_extend_from_slice(&[u, l, t, r, 1, self.k, self.c, self.b])
            .unwrap();
        bytes
            .try_extend_from_slice(&self.count.to_le_bytes())
            .unwrap();
        bytes
    }

    /// The bytes of the header in format 2.
    fn long_bytes(&self) -> HeaderBytes
        ensures { result.items ≡ long_header self.now }
    {
        let [u, l, t, r] = MAGIC;
        let mut bytes = HeaderBytes::new();
        bytes
            .try_extend_from_slice(&[u, l, t, r, 2, self.k, self.c, self.b, self.r, 0, 0, 0])
            .unwrap();
        bytes
            .try_extend_from_slice(&self.count.to_le_bytes())
            .unwrap();
        bytes
    }

    /// The header in range with these bytes. `None` if there is no such header.
    pub fn of(bytes: &[u8]) -> Option<Self>
        requires { length bytes.now ≡ header_size bytes.now }
        ensures some { IfSome result (λ header. IsHeader header × (header_bytes header ≡ bytes.now)) }
        ensures none { IfNone result ((h : Header) → IsHeader h → bytes.now ≢ header_bytes h) }
    {
        let header = Header::in_bytes(bytes);
        if header.is_in_range() && header.bytes().as_slice() == bytes {
            Some(header)
        } else {
            None
        }
    }

    /// The numbers in these bytes at the places of a header's.
    #[tactic(auto, unfolding(crate::specs::Reading::header_in))]
    fn in_bytes(bytes: &[u8]) -> Self
        requires short { 12 ≤ length bytes.now }
        requires long { slice_index bytes.now 4 ≡ 2 → 16 ≤ length bytes.now }
        ensures { result ≡ header_in bytes.now }
    {
        let (k, c, b) = (bytes[5], bytes[6], bytes[7]);
        if bytes[4] == 2 {
            Header {
                k,
                c,
                b,
                r: bytes[8],
                count: u32::from_le_bytes([bytes[12], bytes[13], bytes[14], bytes[15]]),
            }
        } else {
            Header {
                k,
                c,
                b,
                r: 1,
                count: u32::from_le_bytes([bytes[8], bytes[9], bytes[10], bytes[11]]),
            }
        }
    }

    /// Whether the numbers are in range.
    pub fn is_in_range(&self) -> bool
        ensures { IsTrue result ↔ IsHeader self.now }
    {
        self.k <= MAX_STAGES
            && MIN_QUEUE_CAPACITY <= self.c
            && self.c <= MAX_QUEUE_CAPACITY
            && self.b <= MAX_WAIT_RECORDS
            && 1 <= self.r
            && self.r <= MAX_COMBINATIONS
            && self.r < self.c
            && self.count as usize <= MAX_STEPS
    }
}
