//! The texts of functions, worked out by hand from what the functions do.

use super::same;
use phi_algebra::{Phi, SignedRange, UnsignedRange};
use std::test::Fail;
use trace_lines::push_function;

#[test]
fn functions_have_texts(rt: HostRuntime) -> Result<(), Fail> {
    let alloc = rt.alloc();
    let all = u32::MAX;
    for (function, wanted) in [
        (Phi::Add(0), "load"),
        (Phi::Bits { and: all, xor: 0 }, "load"),
        (Phi::Clamp(SignedRange::new(i32::MIN, i32::MAX)), "load"),
        (Phi::ClampU(UnsignedRange::new(0, all)), "load"),
        (Phi::Bits { and: 0, xor: 0x1F }, "store 0000001f"),
        (Phi::Clamp(SignedRange::new(-2, -2)), "store fffffffe"),
        (Phi::ClampU(UnsignedRange::new(9, 9)), "store 00000009"),
        (Phi::Add(0xFFFF_FFFF), "add ffffffff"),
        (Phi::Bits { and: 0xF0, xor: 0 }, "and 000000f0"),
        (
            Phi::Bits {
                and: !0xF0,
                xor: 0xF0,
            },
            "or 000000f0",
        ),
        (
            Phi::Bits {
                and: all,
                xor: 0xF0,
            },
            "xor 000000f0",
        ),
        // A store of the byte 12 (hex).
        (
            Phi::Bits {
                and: 0xFFFF_00FF,
                xor: 0x1200,
            },
            "and ffff00ff xor 00001200",
        ),
        (Phi::Clamp(SignedRange::new(i32::MIN, -2)), "min fffffffe"),
        (Phi::Clamp(SignedRange::new(-2, i32::MAX)), "max fffffffe"),
        (
            Phi::Clamp(SignedRange::new(-2, 5)),
            "max fffffffe min 00000005",
        ),
        (Phi::ClampU(UnsignedRange::new(0, 5)), "minu 00000005"),
        (Phi::ClampU(UnsignedRange::new(5, all)), "maxu 00000005"),
        (
            Phi::ClampU(UnsignedRange::new(5, 7)),
            "maxu 00000005 minu 00000007",
        ),
    ] {
        let mut text = String::new(alloc);
        push_function(alloc, &mut text, &function)?;
        same(&rt, &text.as_str(), &wanted, &function);
    }
    Ok(())
}
