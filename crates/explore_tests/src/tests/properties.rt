//! Properties of small programs, and ways to the states that break them. All addresses are worked out by hand: code
//! begins at 0x10000, and an instruction has four bytes.

use super::texts::{LOST_SUM, SPIN};
use exploration::{NoProgress, Refusal};
use flat_machine::Config;
use property_search::{Judged, Verdict, judge};
use state_conditions::{Condition, Kind, Property, wrong_part};
use std::alloc::Global;
use std::process::Abort;
use std::test::Fail;
use test_support::{assert_same, machine_of, tight_size};

/// A lock that is taken by a load and a store. Inside are the references at 0x10010, 0x10014, 0x1001c and 0x10020.
const LOAD_AND_STORE_LOCK: &str =
    "lui x1, 0x80000\naddi x3, x0, 1\ntake: lw x2, 0(x1)\nbne x2, x0, take\n\
    inside: sw x3, 0(x1)\nlw x2, 4(x1)\naddi x2, x2, 1\nsw x2, 4(x1)\nsw x0, 0(x1)\necall";

/// A lock that is taken by a swap. Inside are the references at 0x10010, 0x10018 and 0x1001c.
const SWAP_LOCK: &str =
    "lui x1, 0x80000\naddi x3, x0, 1\ntake: amoswap.w x2, x3, (x1)\nbne x2, x0, take\n\
    lw x2, 4(x1)\naddi x2, x2, 1\nsw x2, 4(x1)\nsw x0, 0(x1)\necall";

/// The verdict on a property of a text on 2^k processors.
fn judged(
    alloc: Global,
    text: &str,
    k: u8,
    kind: Kind,
    condition: &str,
) -> Result<Result<Judged, Refusal>, Fail> {
    let config = Config {
        shared_words: 16,
        ..tight_size(k)
    };
    let machine = machine_of(alloc, text, config)?;
    let Some(condition) = Condition::of_text(alloc, condition, 16, &None)? else {
        return Err(Fail::new(format_args!("no condition: {condition}")));
    };
    let property = Property { kind, condition };
    Ok(judge(alloc, &machine, 10_000, &property, &mut NoProgress))
}

/// Checks the verdict on a property of a text, and the length of the shortest way to a state that breaks it.
fn has_verdict(
    rt: &impl Abort,
    alloc: Global,
    (text, k): (&str, u8),
    (kind, condition): (Kind, &str),
    (verdict, length): (Verdict, usize),
) -> Result<(), Fail> {
    match judged(alloc, text, k, kind, condition)? {
        Ok(judged) => {
            assert_same!(rt; judged.verdict, verdict, condition);
            assert_same!(rt; judged.way.len(), length, condition);
            Ok(())
        }
        Err(refusal) => Err(Fail::new(format_args!("{condition}: {refusal:?}"))),
    }
}

/// Two loads and two stores can leave 1 or 2.
#[test]
fn words_of_lost_sums(rt: HostRuntime) -> Result<(), Fail> {
    for (k, kind, condition, verdict, length) in [
        (1, Kind::Never, "word 0 > 2", Verdict::Holds, 0),
        (1, Kind::Never, "word 0 > 1", Verdict::Broken, 4),
        (1, Kind::Always, "word 0 <= 2", Verdict::Holds, 0),
        (1, Kind::Always, "word 0 == 0", Verdict::Broken, 2),
        (1, Kind::Finally, "word 0 == 2", Verdict::Broken, 4),
        (
            1,
            Kind::Finally,
            "word 0 == 2 | word 0 == 1",
            Verdict::Holds,
            0,
        ),
        (
            1,
            Kind::Finally,
            "word 0 == 2 & halted == 2",
            Verdict::Broken,
            4,
        ),
        (
            0,
            Kind::Finally,
            "word 0 == 1 & halted == 1",
            Verdict::Holds,
            0,
        ),
    ] {
        has_verdict(
            &rt,
            rt.alloc(),
            (LOST_SUM, k),
            (kind, condition),
            (verdict, length),
        )?;
    }
    Ok(())
}

/// In the first state both are at the load, at 0x10004.
#[test]
fn processors_of_lost_sums(rt: HostRuntime) -> Result<(), Fail> {
    for (k, kind, condition, verdict, length) in [
        (1, Kind::Never, "any fault", Verdict::Holds, 0),
        (1, Kind::Always, "running == 2", Verdict::Broken, 2),
        (1, Kind::Never, "at 0x10004 == 2", Verdict::Broken, 0),
        (1, Kind::Never, "at 65540-0x10004 != 2", Verdict::Broken, 1),
        (1, Kind::Never, "at 0x10000-0x10003 > 0", Verdict::Holds, 0),
        (1, Kind::Never, "at 0x1000c >= 2", Verdict::Broken, 2),
        (
            1,
            Kind::Never,
            "running < 2 & halted < 1",
            Verdict::Holds,
            0,
        ),
    ] {
        has_verdict(
            &rt,
            rt.alloc(),
            (LOST_SUM, k),
            (kind, condition),
            (verdict, length),
        )?;
    }
    Ok(())
}

/// Both load 0, and then both are inside.
#[test]
fn a_lock_by_a_load_and_a_store(rt: HostRuntime) -> Result<(), Fail> {
    for (k, kind, condition, verdict, length) in [
        (1, Kind::Never, "at 0x10010-0x10020 > 1", Verdict::Broken, 2),
        (2, Kind::Never, "at 0x10010-0x10020 > 3", Verdict::Broken, 4),
    ] {
        has_verdict(
            &rt,
            rt.alloc(),
            (LOAD_AND_STORE_LOCK, k),
            (kind, condition),
            (verdict, length),
        )?;
    }
    Ok(())
}

/// By a swap only one finds 0.
#[test]
fn a_lock_by_a_swap(rt: HostRuntime) -> Result<(), Fail> {
    for (k, kind, condition, verdict, length) in [
        (1, Kind::Never, "at 0x10010-0x1001c > 1", Verdict::Holds, 0),
        (
            1,
            Kind::Finally,
            "word 1 == 2 & word 0 == 0",
            Verdict::Holds,
            0,
        ),
        (2, Kind::Never, "at 0x10010-0x1001c > 1", Verdict::Holds, 0),
    ] {
        has_verdict(
            &rt,
            rt.alloc(),
            (SWAP_LOCK, k),
            (kind, condition),
            (verdict, length),
        )?;
    }
    Ok(())
}

/// A processor spins in the first state, and no other is found.
#[test]
fn a_processor_that_spins(rt: HostRuntime) -> Result<(), Fail> {
    for (k, kind, condition, verdict, length) in [
        (0, Kind::Never, "halted > 0", Verdict::Unknown, 0),
        (0, Kind::Always, "halted > 0", Verdict::Broken, 0),
        (0, Kind::Finally, "halted > 0", Verdict::Holds, 0),
    ] {
        has_verdict(
            &rt,
            rt.alloc(),
            (SPIN, k),
            (kind, condition),
            (verdict, length),
        )?;
    }
    Ok(())
}

/// To break the sum that is lost, both load before either stores.
#[test]
fn the_way_to_a_broken_property_is_shortest(rt: HostRuntime) -> Result<(), Fail> {
    match judged(rt.alloc(), LOST_SUM, 1, Kind::Finally, "word 0 == 2")? {
        Ok(judged) => {
            let are_late = match judged.way.as_slice() {
                [first, second, third, last] => first != second && third != last,
                _ => false,
            };
            assert_same!(rt; are_late, true);
        }
        Err(refusal) => return Err(Fail::new(format_args!("{refusal:?}"))),
    }
    Ok(())
}

/// The search gives up as one for results does: two processors that add have more than two states.
#[test]
fn a_search_for_a_property_gives_up(rt: HostRuntime) -> Result<(), Fail> {
    let config = Config {
        shared_words: 16,
        ..tight_size(1)
    };
    let machine = machine_of(rt.alloc(), LOST_SUM, config)?;
    let Some(condition) = Condition::of_text(rt.alloc(), "any fault", 16, &None)? else {
        return Err(Fail::new(format_args!("no condition")));
    };
    let property = Property {
        kind: Kind::Never,
        condition,
    };
    match judge(rt.alloc(), &machine, 2, &property, &mut NoProgress) {
        Ok(_) => return Err(Fail::new(format_args!("a verdict"))),
        Err(refusal) => assert_same!(rt; refusal, Refusal::States),
    }
    Ok(())
}

/// Texts that are no conditions on a machine with 16 shared words, each by one mistake.
#[test]
fn other_texts_are_no_conditions(rt: HostRuntime) -> Result<(), Fail> {
    for (text, is_condition) in [
        ("word 15 > 1", true),
        ("word 16 > 1", false),
        ("  word  0xf   >=   0x10  ", true),
        ("word 0 > 4294967295", true),
        ("word 0 > 4294967296", false),
        ("word 0 > -1", false),
        ("word 0 > 0x", false),
        ("word 0 => 1", false),
        ("word 0 > 1 2", false),
        ("word 0 >", false),
        ("words 0 > 1", false),
        ("at 0x10-0x20 > 1", true),
        ("at 0x20-0x10 > 1", false),
        ("at 0x10- > 1", false),
        ("running != 1|halted<1", false),
        ("running != 1|halted < 1&any fault", true),
        ("any fault &", false),
        ("| any fault", false),
        ("any faulted", false),
        ("faulted == 0", true),
        ("", false),
    ] {
        let read = Condition::of_text(rt.alloc(), text, 16, &None)?;
        assert_same!(rt; read.is_some(), is_condition, text);
        assert_same!(rt; wrong_part(text, 16, &None).is_none(), is_condition, text);
    }
    Ok(())
}
