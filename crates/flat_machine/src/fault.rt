//! Faults, which stop a processor.

ghost use Rattle.std.specs.Prelude.{◌≡◌};
ghost use Rattle.flat_machine.specs.State.{number_of_fault};

/// Why an instruction was not carried out. The variants are in the order of their numbers, 1 to 8.
#[derive(Clone, Copy, Debug, PartialEq, Eq, Drop)]
pub enum Fault {
    /// 1: the word at `pc` spells no instruction.
    NoRow,
    /// 2: `pc` is outside the code region.
    FetchOutsideCode,
    /// 3: a jump or a taken branch to a target that is not divisible by 4.
    TargetNotAligned,
    /// 4: a load, a store or an AMO at an address that is not divisible by its size.
    AddressNotAligned,
    /// 5: an address in no region.
    NoRegion,
    /// 6: a store or an AMO to code.
    StoreToCode,
    /// 7: an unknown environment call.
    UnknownCall,
    /// 8: EBREAK.
    Breakpoint,
}

impl Fault {
    /// The fault's number, 1 to 8.
    pub fn number(self) -> u8
        ensures { result ≡ number_of_fault self }
    {
        match self {
            Fault::NoRow => 1,
            Fault::FetchOutsideCode => 2,
            Fault::TargetNotAligned => 3,
            Fault::AddressNotAligned => 4,
            Fault::NoRegion => 5,
            Fault::StoreToCode => 6,
            Fault::UnknownCall => 7,
            Fault::Breakpoint => 8,
        }
    }
}
