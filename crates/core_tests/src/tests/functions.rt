//! Values of functions at the limits of signed and unsigned words, and compositions of functions.

ghost use Rattle.std.specs.Prelude.{◌≤◌, ◌≤ℤ◌};

use phi_algebra::{Phi, SignedRange, UnsignedRange, compose};
use rv_table::{AmoOp, StoreOp};
use test_support::assert_same;

const LOWEST: u32 = 0x8000_0000;

const HIGHEST: u32 = 0x7FFF_FFFF;

fn clamp(lo: i32, hi: i32) -> Phi
    requires { lo ≤ℤ hi }
{
    Phi::Clamp(SignedRange::new(lo, hi))
}

fn clamp_unsigned(lo: u32, hi: u32) -> Phi
    requires { lo ≤ hi }
{
    Phi::ClampU(UnsignedRange::new(lo, hi))
}

#[test]
fn applies_at_the_sign_boundary(rt: HostRuntime) {
    let words = [0, HIGHEST, LOWEST, 0xFFFF_FFFF];
    let rows = [
        (Phi::Add(1), [1, 0x8000_0000, 0x8000_0001, 0]),
        (Phi::Add(LOWEST), [0x8000_0000, 0xFFFF_FFFF, 0, 0x7FFF_FFFF]),
        (
            Phi::Bits {
                and: 0x7FFF_FFFF,
                xor: 0x8000_0001,
            },
            [0x8000_0001, 0xFFFF_FFFE, 0x8000_0001, 0xFFFF_FFFE],
        ),
        (clamp(-1, 1), [0, 1, 0xFFFF_FFFF, 0xFFFF_FFFF]),
        (
            clamp(i32::MIN, -2),
            [0xFFFF_FFFE, 0xFFFF_FFFE, 0x8000_0000, 0xFFFF_FFFE],
        ),
        (
            clamp_unsigned(1, LOWEST),
            [1, 0x7FFF_FFFF, 0x8000_0000, 0x8000_0000],
        ),
    ];
    for (phi, values) in rows {
        for i in 0..4 {
            assert_same!(rt; phi.apply(words[i]), values[i], (&phi, &words[i]));
        }
    }
}

#[test]
fn each_amo_has_its_value(rt: HostRuntime) {
    let rows = [
        (AmoOp::Add, 0xFFFF_FFFF, 1, 0),
        (AmoOp::Add, HIGHEST, 1, 0x8000_0000),
        (AmoOp::Swap, 0x1122_3344, 0xAABB_CCDD, 0xAABB_CCDD),
        (AmoOp::Xor, 0xF0F0_F0F0, 0xFF00_FF00, 0x0FF0_0FF0),
        (AmoOp::Or, 0xF0F0_F0F0, 0xFF00_FF00, 0xFFF0_FFF0),
        (AmoOp::And, 0xF0F0_F0F0, 0xFF00_FF00, 0xF000_F000),
        (AmoOp::Min, LOWEST, HIGHEST, 0x8000_0000),
        (AmoOp::Min, HIGHEST, LOWEST, 0x8000_0000),
        (AmoOp::Min, 0, 0xFFFF_FFFF, 0xFFFF_FFFF),
        (AmoOp::Max, LOWEST, HIGHEST, 0x7FFF_FFFF),
        (AmoOp::Max, HIGHEST, LOWEST, 0x7FFF_FFFF),
        (AmoOp::Max, 0, 0xFFFF_FFFF, 0),
        (AmoOp::Minu, LOWEST, HIGHEST, 0x7FFF_FFFF),
        (AmoOp::Minu, 0, 0xFFFF_FFFF, 0),
        (AmoOp::Maxu, LOWEST, HIGHEST, 0x8000_0000),
        (AmoOp::Maxu, 0, 0xFFFF_FFFF, 0xFFFF_FFFF),
    ];
    for (op, before, value, after) in rows {
        assert_same!(rt; hart::amo(op, value).apply(before), after, (&op, &value, &before));
    }
}

#[test]
fn each_instruction_has_its_function(rt: HostRuntime) {
    let v = 0xFFFF_FFFE;
    let rows = [
        (
            hart::load(),
            Phi::Bits {
                and: 0xFFFF_FFFF,
                xor: 0,
            },
        ),
        (
            hart::store_byte(1, v),
            Phi::Bits {
                and: 0xFFFF_00FF,
                xor: 0x0000_FE00,
            },
        ),
        (
            hart::store_half(2, v),
            Phi::Bits {
                and: 0x0000_FFFF,
                xor: 0xFFFE_0000,
            },
        ),
        (
            hart::store_word(v),
            Phi::Bits {
                and: 0,
                xor: 0xFFFF_FFFE,
            },
        ),
        (hart::amo_add(v), Phi::Add(0xFFFF_FFFE)),
        (
            hart::amo_swap(v),
            Phi::Bits {
                and: 0,
                xor: 0xFFFF_FFFE,
            },
        ),
        (
            hart::amo_xor(v),
            Phi::Bits {
                and: 0xFFFF_FFFF,
                xor: 0xFFFF_FFFE,
            },
        ),
        (
            hart::amo_or(v),
            Phi::Bits {
                and: 1,
                xor: 0xFFFF_FFFE,
            },
        ),
        (
            hart::amo_and(v),
            Phi::Bits {
                and: 0xFFFF_FFFE,
                xor: 0,
            },
        ),
        (hart::amo_min(v), clamp(-2_147_483_648, -2)),
        (hart::amo_max(v), clamp(-2, 2_147_483_647)),
        (hart::amo_minu(v), clamp_unsigned(0, 0xFFFF_FFFE)),
        (hart::amo_maxu(v), clamp_unsigned(0xFFFF_FFFE, 0xFFFF_FFFF)),
    ];
    for (phi, expected) in rows {
        assert_same!(rt; phi, expected);
    }
}

#[test]
fn stores_keep_the_other_bytes(rt: HostRuntime) {
    let rows = [
        (hart::store_byte(0, 0xAA), 0x1122_33AA),
        (hart::store_byte(1, 0xAA), 0x1122_AA44),
        (hart::store_byte(2, 0xAA), 0x11AA_3344),
        (hart::store_byte(3, 0xAA), 0xAA22_3344),
        (hart::store(StoreOp::Sb, 3, 0xFFFF_FFAA), 0xAA22_3344),
        (hart::store_half(0, 0xBBAA), 0x1122_BBAA),
        (hart::store_half(2, 0xBBAA), 0xBBAA_3344),
        (hart::store(StoreOp::Sh, 2, 0xFFFF_BBAA), 0xBBAA_3344),
        (hart::store_word(0xDDCC_BBAA), 0xDDCC_BBAA),
        (hart::store(StoreOp::Sw, 0, 0xDDCC_BBAA), 0xDDCC_BBAA),
        (hart::load(), 0x1122_3344),
    ];
    for (phi, after) in rows {
        assert_same!(rt; phi.apply(0x1122_3344), after, phi);
    }
}

#[test]
fn identities_and_constants_are_known(rt: HostRuntime) {
    let rows = [
        (Phi::identity(), true, false),
        (Phi::constant(7), false, true),
        (Phi::Add(1), false, false),
        (
            Phi::Bits {
                and: 0xFFFF_FFFF,
                xor: 0,
            },
            true,
            false,
        ),
        (
            Phi::Bits {
                and: 0xFFFF_FFFF,
                xor: 1,
            },
            false,
            false,
        ),
        (
            Phi::Bits {
                and: 0x7FFF_FFFF,
                xor: 0,
            },
            false,
            false,
        ),
        (Phi::Bits { and: 0, xor: 0 }, false, true),
        (clamp(i32::MIN, i32::MAX), true, false),
        (clamp(i32::MIN, i32::MAX - 1), false, false),
        (clamp(i32::MIN + 1, i32::MAX), false, false),
        (clamp(-3, -3), false, true),
        (clamp_unsigned(0, u32::MAX), true, false),
        (clamp_unsigned(1, u32::MAX), false, false),
        (clamp_unsigned(0, u32::MAX - 1), false, false),
        (clamp_unsigned(5, 5), false, true),
    ];
    for (phi, identity, constant) in rows {
        assert_same!(rt; phi.is_identity(), identity, phi);
        assert_same!(rt; phi.is_constant(), constant, phi);
    }
}

#[test]
fn ranges_keep_their_ends(rt: HostRuntime) {
    let signed = SignedRange::new(-5, 3);
    assert_same!(rt; (signed.lo(), signed.hi()), (-5, 3));
    let unsigned = UnsignedRange::new(2, 9);
    assert_same!(rt; (unsigned.lo(), unsigned.hi()), (2, 9));
}

#[test]
fn compositions_are_of_the_kind_said(rt: HostRuntime) {
    let rows = [
        // Both functions are of one kind.
        (Phi::Add(0xFFFF_FFFF), Phi::Add(1), Some(Phi::Add(0))),
        (
            Phi::Add(0x4000_0000),
            Phi::Add(0x4000_0000),
            Some(Phi::Add(0x8000_0000)),
        ),
        (
            Phi::Bits {
                and: 0xFFFF_0000,
                xor: 0x0000_00FF,
            },
            Phi::Bits {
                and: 0xFF00_000F,
                xor: 0x0000_0001,
            },
            Some(Phi::Bits {
                and: 0xFF00_0000,
                xor: 0x0000_000E,
            }),
        ),
        (clamp(-4, 4), clamp(0, 9), Some(clamp(0, 4))),
        (clamp(-4, 0), clamp(0, 9), Some(clamp(0, 0))),
        (clamp(-4, -1), clamp(3, 9), Some(clamp(3, 3))),
        (
            clamp_unsigned(5, 8),
            clamp_unsigned(1, 3),
            Some(clamp_unsigned(3, 3)),
        ),
        (
            clamp_unsigned(0, 8),
            clamp_unsigned(7, 9),
            Some(clamp_unsigned(7, 8)),
        ),
        // Two kinds, and one function is an identity or a constant.
        (Phi::Add(0), clamp(-4, 4), Some(clamp(-4, 4))),
        (Phi::Add(5), clamp(9, 9), Some(clamp(9, 9))),
        (Phi::Add(5), clamp_unsigned(0, u32::MAX), Some(Phi::Add(5))),
        (
            clamp(-3, -3),
            Phi::Add(5),
            Some(Phi::Bits { and: 0, xor: 2 }),
        ),
        // Two kinds, and neither function is an identity or a constant.
        (clamp(-2_147_483_648, 3), Phi::Add(1), None),
        (Phi::Add(1), clamp(-2_147_483_648, 3), None),
        (
            Phi::Add(0x8000_0000),
            Phi::Bits {
                and: 0xFFFF_FFFF,
                xor: 1,
            },
            None,
        ),
        (clamp(0, 9), clamp_unsigned(0, 9), None),
    ];
    for (first, second, expected) in rows {
        assert_same!(rt; compose(&first, &second), expected, (&first, &second));
    }
}

#[test]
fn an_identity_applies_as_what_follows(rt: HostRuntime) {
    let rows = [
        Phi::Add(3),
        Phi::Bits {
            and: 0x0000_FFFF,
            xor: 0x8000_0000,
        },
        clamp(-4, 4),
        clamp_unsigned(4, 9),
    ];
    for second in rows {
        for x in [0, HIGHEST, LOWEST, 0xFFFF_FFFF] {
            let value = compose(&Phi::Add(0), &second).map(|phi| phi.apply(x));
            assert_same!(rt; value, Some(second.apply(x)), (&second, &x));
        }
    }
}
