//! The machine on random steps, and the plain machine with which it is compared.

mod plain;
mod random;

use super::same;

/// The registers `a0`, `a1` and `a2`.
const A0: u8 = 10;

const A1: u8 = 11;

const A2: u8 = 12;
