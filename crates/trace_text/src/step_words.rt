//! The words of a step.

ghost use Rattle.std.specs.Prelude.{◌≡◌, map};
ghost use Rattle.trace_text.specs.Words.{hex_word_in};
ghost use Rattle.trace_text.specs.Steps.{move_of, poke_at, poke_of, register_in, step_of, turn_or_service_of};

use crate::fault::TextFault;
use crate::numbers::{hex_byte_in, hex_word_in, number_in};
use asm_lines::register_named;
use flat_machine::{PC, Poke};
use steps::Step;

/// The step that words say. The machine need not have its places.
///
/// # Errors
///
/// [`TextFault::Form`] if the words are no step, [`TextFault::Range`] if a number is over 255.
pub(crate) fn step_of(words: &[&[u8]]) -> Result<Step, TextFault>
    ensures { result ≡ step_of (map (λ word. word.now) words.now) }
{
    match words {
        [name, number] => turn_or_service_of(name, number),
        [name, stage, wire] => move_of(name, stage, wire),
        [name, owner, place, value] if *name == b"poke".as_slice() => {
            poke_of(owner, place, value)
        }
        _ => Err(TextFault::Form),
    }
}

/// `turn P` or `serve M`.
#[tactic(auto, unfolding(crate::specs::Steps::turn_or_service_of))]
fn turn_or_service_of(name: &[u8], number: &[u8]) -> Result<Step, TextFault>
    ensures { result ≡ turn_or_service_of name.now number.now }
{
    if name == b"turn".as_slice() {
        return Ok(Step::Turn(number_in(number)?));
    }
    if name == b"serve".as_slice() {
        return Ok(Step::Serve(number_in(number)?));
    }
    Err(TextFault::Form)
}

/// `up S W` or `down S W`.
#[tactic(auto, unfolding(crate::specs::Steps::move_of))]
fn move_of(name: &[u8], stage: &[u8], wire: &[u8]) -> Result<Step, TextFault>
    ensures { result ≡ move_of name.now stage.now wire.now }
{
    if name == b"up".as_slice() {
        let stage = number_in(stage)?;
        let wire = number_in(wire)?;
        return Ok(Step::Up { stage, wire });
    }
    if name == b"down".as_slice() {
        let stage = number_in(stage)?;
        let wire = number_in(wire)?;
        return Ok(Step::Down { stage, wire });
    }
    Err(TextFault::Form)
}

/// The owner, the place and the value of a poke: `- AAAAAAAA BB`, `P AAAAAAAA BB`, `P xN VVVVVVVV` or `P pc VVVVVVVV`.
#[tactic(auto, unfolding(crate::specs::Steps::poke_of))]
fn poke_of(owner: &[u8], place: &[u8], value: &[u8]) -> Result<Step, TextFault>
    ensures { result ≡ poke_of owner.now place.now value.now }
{
    if owner == b"-".as_slice() {
        let address = hex_word_in(place).ok_or(TextFault::Form)?;
        let value = hex_byte_in(value).ok_or(TextFault::Form)?;
        return Ok(Step::Poke(Poke::Shared { address, value }));
    }
    let processor = number_in(owner)?;
    poke_at(processor, place, value)
}

/// A poke to a byte of local memory, or to a register if the place is no address.
fn poke_at(processor: u8, place: &[u8], value: &[u8]) -> Result<Step, TextFault>
    ensures { result ≡ poke_at processor (hex_word_in place.now) place.now value.now }
{
    if let Some(address) = hex_word_in(place) {
        let value = hex_byte_in(value).ok_or(TextFault::Form)?;
        return Ok(Step::Poke(Poke::Local {
            processor,
            address,
            value,
        }));
    }
    let register = register_in(place).ok_or(TextFault::Form)?;
    let value = hex_word_in(value).ok_or(TextFault::Form)?;
    Ok(Step::Poke(Poke::Register {
        processor,
        register,
        value,
    }))
}

/// The number of a register that a word names, 32 for `pc`.
#[tactic(auto, unfolding(crate::specs::Steps::register_in))]
fn register_in(word: &[u8]) -> Option<u8>
    ensures { result ≡ register_in word.now }
{
    if word == b"pc".as_slice() {
        return Some(PC);
    }
    match register_named(word) {
        Some(register) => Some(register.number()),
        None => None,
    }
}
