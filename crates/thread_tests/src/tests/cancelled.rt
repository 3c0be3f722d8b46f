//! A fault that decides how a run ends stops the other threads.

use super::rounds::{run_text, shuffled};
use processor_threads::{Gate, RunFault};
use std::test::Fail;
use std::thread;
use std::time::{Clock, Duration};
use test_support::{assert_same, lend};

/// Holds a thread back for a millisecond before each turn.
#[derive(Drop)]
struct Slow<'a, C: Clock> {
    clock: &'a C,
}

impl<C: Clock> Gate for Slow<'_, C> {
    fn before(&self, _p: u8, _turn: u64) {
        thread::sleep(self.clock, Duration::from_millis(1));
    }
}

/// No processor ever stops, so each of four threads uses up its budget, which takes 300 milliseconds at least and
/// cancels no other thread. If the host refuses one of the five threads, whichever it is, the others are cancelled
/// before that.
#[test]
fn a_fault_ends_a_run_without_end(rt: HostRuntime) -> Result<(), Fail> {
    let gate = Slow { clock: &rt };
    let seen = run_text(&rt, rt.alloc(), "jal x0, 0", 2, shuffled, &gate, 300)?;
    lend(seen, |seen| {
        let mut found = [0_u8, 0, 0];
        for fault in &seen.faults {
            match fault {
                Some(RunFault::Budget) => found[0] = found[0].saturating_add(1),
                Some(RunFault::Start) => found[1] = found[1].saturating_add(1),
                Some(RunFault::Cancelled) => found[2] = found[2].saturating_add(1),
                _ => {}
            }
        }
        let wanted = match (seen.fault, seen.listener) {
            (Some(RunFault::Start), Some(RunFault::Start)) => [0, 0, 4],
            (Some(RunFault::Start), _) => [0, 1, 3],
            _ => [4, 0, 0],
        };
        assert_same!(rt; found, wanted);
    });
    Ok(())
}
