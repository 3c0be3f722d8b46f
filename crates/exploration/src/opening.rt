//! The cores and the shared words from which a search starts.

ghost use Rattle.std.specs.Prelude.{◌≡◌, ◌≤◌, ◌^◌, map, IfOk};
ghost use Rattle.std.specs.List.{range_with_len};
ghost use Rattle.machine_steps.specs.Machines.{AreHome};
ghost use Rattle.machine_steps.specs.machine_theory.Processors.{port_at, word_at};

use hart::Core;
use machine_steps::Machine;
use state_search::SparseWords;
use std::alloc::{AllocError, Global};

/// Copies the cores of all processors. None of them may be away.
pub fn cores_of(alloc: Global, machine: &Machine) -> Result<Vec<Core>, AllocError>
    requires home { AreHome machine.now }
    ensures { IfOk result (λ cores. cores.items
        ≡ map (λ p. (port_at machine.now.ports p).core) (range_with_len 0 (2 ^ machine.now.config.k))) }
{
    let mut cores = Vec::new(alloc);
    for p in 0..machine.config().processors() {
        match machine.core(p) {
            Some(core) => cores.push(core.copy()?)?,
            None => unreachable!(),
        }
    }
    Ok(cores)
}

/// Copies all shared words.
pub fn words_of(alloc: Global, machine: &Machine) -> Result<SparseWords, AllocError>
    ensures { IfOk result (λ words. words
        ≡ map (word_at machine.now.config.k machine.now.modules) (range_with_len 0 machine.now.config.shared_words)) }
{
    let mut words = SparseWords::new(alloc);
    for number in 0..machine.config().shared_words {
        match machine.word(number) {
            Some(word) => words.push(word)?,
            None => unreachable!(),
        }
    }
    Ok(words)
}
