//! Laws of the functions of instructions. Each is the contract of a function that does nothing.

ghost use Rattle.hart.specs.Bytes.{NewPartsAreNewBytes, PartsAreBytes};

/// The parts of a word that division gives are its bytes in memory, the lowest first.
pub fn parts_are_bytes()
    ensures read { PartsAreBytes }
    ensures written { NewPartsAreNewBytes }
{}
