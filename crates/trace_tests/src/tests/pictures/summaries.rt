//! The summary of 16 processors.

use super::{run, texts_of};
use std::alloc::Global;
use std::test::Fail;
use test_support::{ADD_AT_X12, assert_same, image_of, trace_of};

/// The steps by which 16 processors each send an add of 1 to word 0, and all are combined: at stage 0 those of P and
/// P + 8, at the next stages those whose leaders differ by 4, by 2 and by 1.
fn combined(alloc: Global) -> Result<Vec<[u8; 12]>, Fail> {
    let mut steps = Vec::new(alloc);
    for p in 0..16_u8 {
        steps.push([5, p, 11, 0, 0, 0, 0, 0, 1, 0, 0, 0])?;
        steps.push([5, p, 12, 0, 0, 0, 0, 0, 0, 0, 0, 0x80])?;
    }
    for p in 0..16_u8 {
        steps.push([1, p, 0, 0, 0, 0, 0, 0, 0, 0, 0, 0])?;
    }
    for (stage, apart) in [(0_u8, 1_u8), (1, 2), (2, 4), (3, 8)] {
        for wire in 0..16_u8 {
            if wire % apart == 0 {
                steps.push([2, stage, wire, 0, 0, 0, 0, 0, 0, 0, 0, 0])?;
            }
        }
    }
    Ok(steps)
}

/// The picture after these steps.
fn drawn(alloc: Global) -> Result<Vec<u8>, Fail> {
    let image = image_of(alloc, ADD_AT_X12)?;
    let steps = combined(alloc)?;
    let trace = trace_of(alloc, (4, 4, 4), steps.as_slice())?;
    let after = u32::try_from(steps.len()).unwrap_or(0);
    let ran = run(
        alloc,
        trace.as_slice(),
        Ok(image.as_slice()),
        1,
        Some(after),
    );
    Ok(ran.out)
}

/// The one request stands for all 16 processors, of which four are shown. Each of the others waits by a record.
#[test]
fn sixteen_adds(rt: HostRuntime) -> Result<(), Fail> {
    let alloc = rt.alloc();
    let out = drawn(alloc)?;
    let picture = str::from_utf8(out.as_slice())?;
    let shown = texts_of(alloc, picture, "request")?;
    assert_same!(rt; shown.as_str(), "stage 3 wire 0: add 00000010 to word 0 {0 8 4 12 .. 16}");
    let shown = texts_of(alloc, picture, "word")?;
    assert_same!(rt; shown.as_str(), "module 0: word 0 = 00000000");
    let shown = texts_of(alloc, picture, "record")?;
    assert_same!(rt; shown.as_str().split('|').count(), 15);
    assert!(rt;
        shown
            .as_str()
            .starts_with("stage 0 wire 0: 8 waits for 0: add 00000001|")
    );
    assert!(rt;
        shown
            .as_str()
            .ends_with("|stage 3 wire 0: 1 waits for 0: add 00000008")
    );
    assert!(rt; picture.contains("class='held2'/>\n<text x='454' y='61' class='mark'>2</text>"));
    Ok(())
}
