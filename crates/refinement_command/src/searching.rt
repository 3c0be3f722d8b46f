//! All results of a program.

ghost use Rattle.std.specs.Prelude.{◌≡◌, ◌↔◌, true, false, IfOk, IfErr, IsErrOf};
ghost use Rattle.machine_steps.specs.Machines.{AreHome, IsIdle};
ghost use Rattle.machine_steps.specs.Openings.{flat_state};
ghost use Rattle.refinement_command.specs.Refinements.{AreResults, HasResults, IsNotFound, IsNotSearched};
ghost use Rattle.refinement_command.specs.Refinements.{fault_of_search};

use command_io::{Fault, image_of, machine_of};
use elf_image::ImageError;
use exploration::{Explored, FinalResult, Refusal, Search, SearchObserver, explore};
use flat_machine::Config;
use link::LinkRead;
use machine_steps::Machine;
use std::alloc::Global;

/// All results of a machine of this size that opens on the image in a file. The search gives up at `limit` states.
///
/// # Errors
///
/// Faults are checked in this order: of the image, [`Fault::Image`]; of the size, [`Fault::Size`]; of the search,
/// [`Fault::States`] and [`Fault::Alone`]. [`Fault::Memory`] if there is no memory.
pub(crate) fn results_of<R: LinkRead, G: SearchObserver>(
    alloc: Global,
    file: &mut R,
    config: Config,
    limit: u32,
    observer: &mut G,
) -> Result<Vec<FinalResult>, Fault>
    requires reads { R.has_failed file.old ≡ false }
    ensures found { IfOk result (λ results. HasResults config (R.remaining file.old) results.items) }
    ensures refused { IfErr result (IsNotFound config limit (R.remaining file.old)) }
    ensures unread { IsErrOf result (Fault.Image ImageError.Link) ↔ (R.has_failed file.new ≡ true) }
{
    let image = image_of(alloc, file, &config)?;
    let machine = machine_of(alloc, image, config)?;
    let results = search_all(alloc, &machine, limit, observer)?;
    Ok(results)
}

/// All results of a machine that has just opened.
fn search_all<G: SearchObserver>(
    alloc: Global,
    machine: &Machine,
    limit: u32,
    observer: &mut G,
) -> Result<Vec<FinalResult>, Fault>
    requires idle { IsIdle machine.now }
    requires home { AreHome machine.now }
    ensures results { IfOk result (λ results. AreResults machine.now results.items) }
    ensures refused { IfErr result (IsNotSearched (flat_state machine.now) limit) }
    ensures read { IsErrOf result (Fault.Image ImageError.Link) → ⊥ }
{
    let search = Search {
        limit,
        exchanged: false,
        fair: false,
        wanted: None,
    };
    let found = explore(alloc, machine, search, observer);
    observer.over();
    match found {
        Ok(explored) => {
            let Explored { results, .. } = explored;
            Ok(results)
        }
        Err(given_up) => Err(fault_of_search(given_up.why())),
    }
}

/// The fault that reports why a search gave up.
fn fault_of_search(refusal: Refusal) -> Fault
    ensures fault { result ≡ fault_of_search refusal }
    ensures read { result ≡ Fault.Image ImageError.Link → ⊥ }
{
    match refusal {
        Refusal::Memory => Fault::Memory,
        Refusal::States => Fault::States,
        Refusal::Stopped => Fault::Budget,
        Refusal::Alone => Fault::Alone,
    }
}
