//! Runs of local instructions on a single core. The words come from the manual, and their results are worked out by
//! hand.

use flat_machine::{CODE_START, Cause, Setting, Status};
use hart::{Core, LocalEnd, Retirements, run_local};
use local_memory::Code;
use std::alloc::AllocGlobal;
use std::process::Abort;
use std::test::Fail;
use test_support::assert_same;

/// `lui x5, 0x80000`, `addi x6, x0, 100`, `addi x7, x0, 1`, and then `amoadd.w x8, x7, (x5)`, which refers to the
/// shared word 0.
static ADDS: [u32; 4] = [0x8000_02B7, 0x0640_0313, 0x0010_0393, 0x0072_A42F];

/// `addi x17, x0, 1`, `addi x10, x0, 65`, `addi x6, x0, 300`, and then the loop `ecall`, `addi x6, x6, -1`, `bne x6,
/// x0, -8`, which prints `A` 300 times.
static PRINTS: [u32; 6] = [
    0x0010_0893,
    0x0410_0513,
    0x12C0_0313,
    0x0000_0073,
    0xFFF3_0313,
    0xFE03_1CE3,
];

/// A core, and the code that it runs.
#[derive(Drop)]
struct Rig {
    code: Code,
    core: Core,
}

/// Processor 0 of two, with four shared words, about to execute the first of these words. Its registers are 0.
fn before(rt: &(impl Abort + AllocGlobal), words: &[u32]) -> Result<Rig, Fail> {
    let setting = Setting {
        number: 0,
        processors: 2,
        shared_words: 4,
    };
    let mut bytes = Vec::new(rt.alloc());
    for word in words {
        bytes.extend_from_slice(&word.to_le_bytes())?;
    }
    assert!(rt; bytes.len() <= 0x1_0000);
    let code = Code::new(rt.alloc(), bytes.as_slice())?;
    let core = Core::new(rt.alloc(), setting, CODE_START, &[])?;
    Ok(Rig { code, core })
}

impl Rig {
    fn run(&mut self, list: &mut Retirements) -> LocalEnd {
        run_local(&mut self.core, &self.code, list)
    }
}

/// Compares all retirements with these rows: the `pc` of each, its result and its byte for the console.
fn are_listed(rt: &impl Abort, list: &Retirements, rows: &[(u32, Option<u32>, Option<u8>)]) {
    assert_same!(rt; list.len(), rows.len());
    for (retired, &(pc, result, out)) in list.as_slice().iter().zip(rows) {
        assert_same!(rt; retired.pc, pc);
        assert_same!(rt; retired.result, result, pc);
        assert_same!(rt; retired.out, out, pc);
    }
}

/// A run ends before a reference to a shared word. A second run retires nothing more.
#[test]
fn a_shared_word_ends_it(rt: HostRuntime) -> Result<(), Fail> {
    let mut rig = before(&rt, &ADDS)?;
    let mut list = Retirements::new(rt.alloc(), 64)?;
    for _again in 0..2 {
        assert_same!(rt; rig.run(&mut list), LocalEnd::Other);
        let rows = [
            (0x0001_0000, Some(0x8000_0000), None),
            (0x0001_0004, Some(100), None),
            (0x0001_0008, Some(1), None),
        ];
        are_listed(&rt, &list, &rows);
        assert_same!(rt; rig.core.pc(), 0x0001_000C);
        assert_same!(rt; rig.core.registers()[6], 100);
        assert_same!(rt; rig.core.registers()[8], 0);
    }
    Ok(())
}

/// A run also ends if the list is full, and after a byte for the console. If both hold, it reports the byte.
#[test]
fn bytes_and_full_lists_end_it(rt: HostRuntime) -> Result<(), Fail> {
    let mut rig = before(&rt, &PRINTS)?;
    let mut first = Retirements::new(rt.alloc(), 3)?;
    assert_same!(rt; rig.run(&mut first), LocalEnd::Most);
    let rows = [
        (0x0001_0000, Some(1), None),
        (0x0001_0004, Some(65), None),
        (0x0001_0008, Some(300), None),
    ];
    are_listed(&rt, &first, &rows);
    let mut second = Retirements::new(rt.alloc(), 3)?;
    assert_same!(rt; second.most(), 3);
    assert_same!(rt; rig.run(&mut second), LocalEnd::Out(65));
    are_listed(&rt, &second, &[(0x0001_000C, None, Some(65))]);
    assert_same!(rt; rig.run(&mut second), LocalEnd::Most);
    let rows = [
        (0x0001_000C, None, Some(65)),
        (0x0001_0010, Some(299), None),
        (0x0001_0014, None, None),
    ];
    are_listed(&rt, &second, &rows);
    let mut third = Retirements::new(rt.alloc(), 1)?;
    assert_same!(rt; rig.run(&mut third), LocalEnd::Out(65));
    assert_same!(rt; rig.run(&mut third), LocalEnd::Most);
    are_listed(&rt, &third, &[(0x0001_000C, None, Some(65))]);
    assert_same!(rt; rig.core.pc(), 0x0001_0010);
    Ok(())
}

/// A run ends before an instruction that stops the processor: `ecall`, which halts because `x17` is 0, and `ebreak`.
#[test]
fn stops_end_it(rt: HostRuntime) -> Result<(), Fail> {
    for word in [0x0000_0073, 0x0010_0073] {
        let mut rig = before(&rt, &[word])?;
        let mut list = Retirements::new(rt.alloc(), 2)?;
        assert_same!(rt; rig.run(&mut list), LocalEnd::Other);
        assert_same!(rt; list.len(), 0);
        assert_same!(rt; rig.core.status(), Status::Running);
        assert_same!(rt; rig.core.pc(), CODE_START);
    }
    Ok(())
}

/// A core that has stopped takes no instruction. A copy made before the stop goes on from there.
#[test]
fn stopped_cores_and_copies(rt: HostRuntime) -> Result<(), Fail> {
    let mut rig = before(&rt, &ADDS)?;
    let core = rig.core.copy()?;
    rig.core.stop(Cause::Halt(7));
    let mut list = Retirements::new(rt.alloc(), 2)?;
    assert_same!(rt; rig.run(&mut list), LocalEnd::Other);
    assert_same!(rt; list.len(), 0);
    rig.core = core;
    assert_same!(rt; rig.run(&mut list), LocalEnd::Most);
    assert_same!(rt; rig.core.pc(), 0x0001_0008);
    let full = rig.core.copy()?;
    assert!(rt; full.equals(&rig.core));
    let mut more = Retirements::new(rt.alloc(), 1)?;
    assert_same!(rt; rig.run(&mut more), LocalEnd::Most);
    assert!(rt; !full.equals(&rig.core));
    Ok(())
}
