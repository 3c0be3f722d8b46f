//! The classes of processors that can be exchanged.

ghost use Rattle.std.specs.Prelude.{◌≡◌, ◌<◌, ◌≤◌, false, slice_index, IfOk};
ghost use Rattle.state_search.specs.Search.{AreClassesOf};
ghost use Rattle.state_store.specs.Moves.{AreClasses};

use state_store::{Extent, StateVector};
use std::alloc::{AllocError, Global};

/// The class of each processor, named by the first processor in it. If processors are exchanged, those with equal
/// numbers in the first row form a class; otherwise each processor has a class of its own.
pub fn classes_of<const N: usize>(
    alloc: Global,
    extent: Extent,
    first: &StateVector<N>,
) -> Result<Vec<u8>, AllocError>
    requires room { extent.processors < N }
    requires narrow { N ≤ 65 }
    ensures classes { IfOk result (λ classes. AreClasses extent classes.items) }
    ensures alike { IfOk result (λ classes. AreClassesOf extent classes.items first.now) }
{
    let mut classes = Vec::new(alloc);
    for p in 0..extent.processors {
        let class = class_of(extent, first, p);
        classes.push(class)?;
    }
    Ok(classes)
}

/// The first processor with the same number in the row, if processors are exchanged; otherwise the processor itself.
fn class_of<const N: usize>(extent: Extent, first: &StateVector<N>, p: u8) -> u8
    requires there { p < N }
    requires narrow { N ≤ 65 }
    ensures alike { slice_index first.now result ≡ slice_index first.now p }
    ensures own { extent.exchanged ≡ false → result ≡ p }
{
    if extent.exchanged {
        for q in 0..p {
            if first[usize::from(q)] == first[usize::from(p)] {
                return q;
            }
        }
    }
    p
}
