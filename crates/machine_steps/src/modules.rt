//! The modules with which a machine opens.

ghost use Rattle.std.specs.Prelude.{◌≡◌, ◌<◌, ◌*◌, ◌^◌, slice_index, IfOk};
ghost use Rattle.flat_machine.specs.Limits.{IsWithinLimits};
ghost use Rattle.flat_machine.specs.Memory.{number_at};
ghost use Rattle.machine_steps.specs.Parts.{opening_module, opening_modules, places_of};

use flat_machine::Config;
use memory_module::Module;
use std::alloc::{AllocError, Global};

/// Makes the modules of a machine of this size. Their words begin with these bytes, the lowest byte of a word first,
/// and are zero after them.
///
/// # Errors
///
/// [`AllocError`] if there is no memory for them.
#[tactic(auto, using(crate::proofs::Parts::one_module_more))]
pub fn new_modules(alloc: Global, config: Config, shared: &[u8]) -> Result<Vec<Module>, AllocError>
    requires { IsWithinLimits config }
    ensures { IfOk result (λ modules. modules.items ≡ opening_modules config shared.now (2 ^ config.k)) }
{
    let count = config.processors();
    let mut modules = Vec::with_capacity(alloc, usize::from(count))?;
    for number in 0..count {
        modules.push(new_module(alloc, config, shared, number)?)?;
    }
    Ok(modules)
}

/// Makes one module of a machine of this size.
#[tactic(auto, using(crate::proofs::Parts::one_word_more))]
fn new_module(
    alloc: Global,
    config: Config,
    shared: &[u8],
    number: u8,
) -> Result<Module, AllocError>
    requires limits { IsWithinLimits config }
    requires there { number < 2 ^ config.k }
    ensures { IfOk result (λ m. m ≡ opening_module config shared.now (places_of config) number) }
{
    let places = (config.shared_words >> config.k) + 1;
    let mut words = Vec::with_capacity(alloc, places as usize)?;
    for place in 0..places {
        let word = (place << config.k) + u32::from(number);
        words.push(word_of(shared, word))?;
    }
    Ok(Module::of_words(words))
}

/// The word of this number in these bytes, with zeros after the last.
#[tactic(auto, unfolding(flat_machine::specs::Memory::number_at))]
fn word_of(bytes: &[u8], number: u32) -> u32
    requires { number < 2 ^ 20 }
    ensures { result ≡ number_at bytes.now (4 * number) 4 }
{
    let place = 4 * number as usize;
    let low = byte_of(bytes, place) + 256 * byte_of(bytes, place + 1);
    let high = byte_of(bytes, place + 2) + 256 * byte_of(bytes, place + 3);
    low + 65_536 * high
}

/// The byte at a place, or zero after the last.
fn byte_of(bytes: &[u8], place: usize) -> u32
    ensures value { result ≡ slice_index bytes.now place }
    ensures small { result < 256 }
{
    match bytes.get(place) {
        Some(byte) => u32::from(*byte),
        None => 0,
    }
}
