//! Local memory and code, with little-endian numbers worked out by hand, and the words of a module.

use flat_machine::{Fault, Size};
use local_memory::{Code, Local, SavedLocal};
use memory_module::Module;
use phi_algebra::Phi;
use rv_table::Insn;
use std::test::Fail;
use test_support::assert_same;

#[test]
fn local_accesses(rt: HostRuntime) -> Result<(), Fail> {
    let mut local = Local::new(rt.alloc(), &[0x11, 0x22, 0x33, 0x44, 0x55])?;
    for (address, size, number) in [
        (0x0002_0000, Size::Word, Ok(0x4433_2211)),
        (0x0002_0002, Size::Half, Ok(0x4433)),
        (0x0002_0004, Size::Word, Ok(0x55)),
        (0x0002_0001, Size::Byte, Ok(0x22)),
        (0x0002_FFFC, Size::Word, Ok(0)),
        (0x0002_0001, Size::Half, Err(Fault::AddressNotAligned)),
        (0x0003_0002, Size::Word, Err(Fault::AddressNotAligned)),
        (0x0003_0000, Size::Word, Err(Fault::NoRegion)),
        (0x0001_FFFF, Size::Byte, Err(Fault::NoRegion)),
    ] {
        assert_same!(rt; local.load(address, size), number, address);
    }
    assert_same!(rt; local.store(0x0002_0002, Size::Half, 0xAABB_CCDD), Ok(()));
    assert_same!(rt; local.number(0, Size::Word), 0xCCDD_2211);
    assert_same!(rt; local.store(0x0002_0001, Size::Byte, 0xEE), Ok(()));
    assert_same!(rt; local.number(0, Size::Word), 0xCCDD_EE11);
    let refused = local.store(0x0002_0002, Size::Word, 0);
    assert_same!(rt; refused, Err(Fault::AddressNotAligned));
    let refused = local.store(0x0004_0000, Size::Word, 0);
    assert_same!(rt; refused, Err(Fault::NoRegion));
    assert_same!(rt; local.number(0, Size::Word), 0xCCDD_EE11);
    local.set_number(4, Size::Word, 0x0102_0304);
    assert_same!(rt; local.number(4, Size::Byte), 4);
    assert_same!(rt; local.number(7, Size::Byte), 1);
    Ok(())
}

/// After each store, as many bytes are saved as there are up to the last one that is not zero.
#[test]
fn saved_bytes(rt: HostRuntime) -> Result<(), Fail> {
    let mut local = Local::new(rt.alloc(), &[0, 0, 0, 0])?;
    for (address, word, bytes) in [
        (0x0002_0000, 0, 0),
        (0x0002_0000, 0x0000_0700, 2),
        (0x0002_0008, 0xFF00_0000, 12),
        (0x0002_FFFC, 1, 0xFFFD),
        (0x0002_FFFC, 0x8000_0000, 0x1_0000),
        (0x0002_FFFC, 0, 12),
        (0x0002_0008, 0, 2),
        (0x0002_0000, 0, 0),
    ] {
        assert_same!(rt; local.store(address, Size::Word, word), Ok(()), address);
        let saved = SavedLocal::new(&local)?;
        assert_same!(rt; saved.stored_bytes().len(), bytes, address);
        assert!(rt; saved.restore()?.equals(&local), "{address}");
    }
    Ok(())
}

/// The code is a word of zeros, which is no instruction, and `ecall`, which is 0x00000073.
#[test]
fn code_accesses(rt: HostRuntime) -> Result<(), Fail> {
    let code = Code::new(rt.alloc(), &[0, 0, 0, 0, 0x73, 0, 0, 0])?;
    for (pc, insn) in [
        (0x0001_0000, Err(Fault::NoRow)),
        (0x0001_0004, Ok(Insn::Ecall)),
        (0x0001_FFFC, Err(Fault::NoRow)),
        (0x0000_FFFC, Err(Fault::FetchOutsideCode)),
        (0x0002_0004, Err(Fault::FetchOutsideCode)),
    ] {
        assert_same!(rt; code.fetch(pc), insn, pc);
    }
    assert_same!(rt; code.load(0x0001_0004, Size::Word), Ok(0x73));
    assert_same!(rt; code.load(0x0001_0005, Size::Half), Err(Fault::AddressNotAligned));
    assert_same!(rt; code.load(0x0002_0004, Size::Word), Err(Fault::NoRegion));
    assert_same!(rt; code.number(4, Size::Byte), 0x73);
    Ok(())
}

/// Each request returns the old value of a word and leaves the new one. The other words keep their values.
#[test]
fn words_are_served(rt: HostRuntime) -> Result<(), Fail> {
    let mut module = Module::new(rt.alloc(), 3)?;
    for (place, phi, old, new) in [
        (0, Phi::Add(7), 0, 7),
        (0, Phi::Add(u32::MAX), 7, 6),
        (2, Phi::constant(0x1122_3344), 0, 0x1122_3344),
        (2, hart::store_byte(3, 0xBB), 0x1122_3344, 0xBB22_3344),
        (2, Phi::identity(), 0xBB22_3344, 0xBB22_3344),
        (1, Phi::Bits { and: 0, xor: 5 }, 0, 5),
    ] {
        assert!(rt; (place as usize) < module.len());
        assert_same!(rt; module.serve(place, &phi), old, phi);
        assert_same!(rt; module.word(place), Some(new), phi);
    }
    assert_same!(rt; module.word(0), Some(6));
    assert_same!(rt; module.word(1), Some(5));
    assert_same!(rt; module.word(2), Some(0xBB22_3344));
    Ok(())
}

/// A module has exactly the number of words asked for, and all are 0.
#[test]
fn places(rt: HostRuntime) -> Result<(), Fail> {
    for words in [0_u32, 1, 262_144] {
        let module = Module::new(rt.alloc(), words)?;
        assert_same!(rt; module.len(), words as usize);
        assert_same!(rt; module.word(words), None);
        if words > 0 {
            assert_same!(rt; module.word(words - 1), Some(0));
        }
    }
    Ok(())
}
