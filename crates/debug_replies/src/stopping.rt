//! Stop replies.

ghost use Rattle.std.specs.Prelude.{◌≡◌, ◌≤◌, ◌<◌, ◌++◌, ◌&&◌, not, false, length};
ghost use Rattle.std.specs.Fmt.{digit_glyph, digits};
ghost use Rattle.arrayvec.specs.ArrayVec.{array_vec_len};
ghost use Rattle.machine_steps.specs.Machines.{AreHome};
ghost use Rattle.machine_steps.specs.Runs.{flat_state};
ghost use Rattle.flat_machine.specs.State.{is_running};
ghost use Rattle.debug_replies.specs.Stops.{are_halted, has_break_at, is_at_break, is_flagged};
ghost use Rattle.debug_replies.specs.Stops.{is_halted, is_halted_at, is_newly_faulted, is_running_at};
ghost use Rattle.debug_replies.specs.Stops.{name_text, named_stop, smallest, stop_text};

use crate::breaks::Breaks;
use crate::digits::push;
use crate::faults::{Faults, is_faulted};
use arrayvec::ArrayVec;
use flat_machine::Status;
use machine_steps::{Machine, flat_pc, flat_processors, flat_status};

/// Replaces the text by a stop reply: `halted` if all processors are halted, else `at` and the processor that is
/// named, in hex without leading zeros, or `-` for none.
#[tactic(auto, unfolding(crate::specs::Stops::stop_text))]
pub fn show_stop(machine: &Machine, named: Option<u8>, text: &mut ArrayVec<u8, 1024>)
    requires home { AreHome machine.now }
    ensures { text.new.items ≡ stop_text (flat_state machine.now) named }
{
    text.clear();
    if are_all_halted(machine) {
        push(text, b"halted");
    } else {
        push(text, b"at ");
        push_name(text, named);
    }
}

/// Appends the number of a processor, or `-` for none.
#[tactic(auto, unfolding(crate::specs::Stops::name_text))]
fn push_name(text: &mut ArrayVec<u8, 1024>, named: Option<u8>)
    requires { array_vec_len text.old ≤ 1000 }
    ensures { text.new.items ≡ text.old.items ++ name_text named }
{
    match named {
        None => push(text, b"-"),
        Some(processor) => push_number(text, processor),
    }
}

/// Appends a number in hex without leading zeros.
#[tactic(auto, using(std::proofs::lemmas::Fmt::hex_one_digit, std::proofs::lemmas::Fmt::hex_two_digits))]
fn push_number(text: &mut ArrayVec<u8, 1024>, number: u8)
    requires { array_vec_len text.old ≤ 1000 }
    ensures { text.new.items ≡ text.old.items ++ digits 16 false number }
{
    if number < 16 {
        push(text, &[digit(number)]);
    } else {
        push(text, &[digit(number / 16), digit(number % 16)]);
    }
}

/// A digit in lower case.
fn digit(value: u8) -> u8
    requires { value < 16 }
    ensures { result ≡ digit_glyph false value }
{
    if value < 10 {
        b'0' + value
    } else {
        b'a' + (value - 10)
    }
}

/// Whether all processors are halted.
fn are_all_halted(machine: &Machine) -> bool
    requires home { AreHome machine.now }
    ensures { result ≡ are_halted (flat_state machine.now) (length (flat_state machine.now).processors) }
{
    for processor in 0..flat_processors(machine) {
        if !is_halted(machine, processor) {
            return false;
        }
    }
    true
}

/// Whether a processor is there and halted.
fn is_halted(machine: &Machine, processor: u32) -> bool
    requires home { AreHome machine.now }
    ensures { result ≡ is_halted_at (flat_state machine.now) processor }
{
    match flat_status(machine, processor) {
        Some(status) => has_halted(status),
        None => false,
    }
}

/// Whether a status is that of a processor that is halted.
fn has_halted(status: Status) -> bool
    ensures { result ≡ is_halted status }
{
    matches!(status, Status::Halted(_))
}

/// The processor that the stop reply of `cont` names: the smallest at a break; else the smallest that a fault has
/// stopped, and that none had stopped before; else none.
#[tactic(auto, unfolding(crate::specs::Stops::named_stop))]
pub fn named_stop(machine: &Machine, breaks: &Breaks, before: &Faults) -> Option<u8>
    requires home { AreHome machine.now }
    ensures { result ≡ named_stop (is_flagged before.now) (flat_state machine.now) breaks.now }
{
    match first_at_break(machine, breaks) {
        Some(processor) => Some(processor),
        None => first_faulted(machine, before),
    }
}

/// The smallest processor at a break.
fn first_at_break(machine: &Machine, breaks: &Breaks) -> Option<u8>
    requires home { AreHome machine.now }
    ensures { result
        ≡ smallest (is_at_break breaks.now (flat_state machine.now)) (length (flat_state machine.now).processors) }
{
    for processor in 0..flat_processors(machine) {
        if is_at_break(machine, breaks, processor) {
            return Some(processor as u8);
        }
    }
    None
}

/// The smallest processor that a fault has stopped, and that none had stopped before.
fn first_faulted(machine: &Machine, before: &Faults) -> Option<u8>
    requires home { AreHome machine.now }
    ensures { result
        ≡ smallest (is_newly_faulted (is_flagged before.now) (flat_state machine.now))
        (length (flat_state machine.now).processors) }
{
    for processor in 0..flat_processors(machine) {
        if is_faulted(machine, processor) && !before.contains(processor) {
            return Some(processor as u8);
        }
    }
    None
}

/// Whether a processor is at a break: it runs, and its next instruction is at one.
fn is_at_break(machine: &Machine, breaks: &Breaks, processor: u32) -> bool
    requires home { AreHome machine.now }
    ensures { result ≡ is_at_break breaks.now (flat_state machine.now) processor }
{
    is_running(machine, processor) && has_break(machine, breaks, processor)
}

/// Whether a processor's next instruction is at a break.
fn has_break(machine: &Machine, breaks: &Breaks, processor: u32) -> bool
    requires home { AreHome machine.now }
    ensures { result ≡ has_break_at breaks.now (flat_state machine.now) processor }
{
    match flat_pc(machine, processor) {
        Some(pc) => breaks.contains(pc),
        None => false,
    }
}

/// Whether a processor is there and runs.
pub fn is_running(machine: &Machine, processor: u32) -> bool
    requires home { AreHome machine.now }
    ensures { result ≡ is_running_at (flat_state machine.now) processor }
{
    match flat_status(machine, processor) {
        Some(status) => runs(status),
        None => false,
    }
}

/// Whether a status is that of a processor that runs.
fn runs(status: Status) -> bool
    ensures { result ≡ is_running status }
{
    matches!(status, Status::Running)
}
