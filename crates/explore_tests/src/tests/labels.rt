//! Conditions with names of addresses and of shared words. What they stand for is worked out by hand.

use exploration::SparseWords;
use flat_machine::Status;
use state_conditions::{Condition, ProcessorState, wrong_part};
use std::alloc::Global;
use std::test::Fail;
use symbol_table::SymbolTable;
use test_support::assert_same;

/// Names of addresses, of which `take` has two, of a shared word, of a byte in one, and of the word after the last.
const NAMES: &str =
    "00010004 t take\n00010008 t inside\n00010000 t take\n80000008 00000004 d count\n80000009 d odd\n\
    80000040 d after\n7ffffffc t below\n";

/// A processor at an address.
fn at(pc: u32, status: Status) -> ProcessorState {
    ProcessorState { pc, status }
}

/// Processors at three of the addresses, and one that has halted at a fourth.
fn four_processors() -> [ProcessorState; 4] {
    [
        at(0x0001_0000, Status::Running),
        at(0x0001_0004, Status::Halted(0)),
        at(0x0001_0008, Status::Running),
        at(0x0001_0010, Status::Running),
    ]
}

/// The first of sixteen shared words: 5 in word 2, 7 in word 3, and 0 in the others.
fn sixteen_words(alloc: Global) -> Result<SparseWords, Fail> {
    let mut words = SparseWords::new(alloc);
    words.push(0)?;
    words.push(0)?;
    words.push(5)?;
    words.push(7)?;
    Ok(words)
}

/// Texts, and whether the condition holds; None if there is no such condition.
#[test]
fn names_stand_for_addresses_and_words(rt: HostRuntime) -> Result<(), Fail> {
    let alloc = rt.alloc();
    let names = Some(SymbolTable::of_file(alloc, NAMES.as_bytes())?);
    let (processors, words) = (four_processors(), sixteen_words(alloc)?);
    for (text, wanted) in [
        // Of two symbols with one name the lower address counts, and there a processor runs.
        ("at take == 1", Some(true)),
        ("at inside == 1", Some(true)),
        ("at inside > 1", Some(false)),
        ("at inside-inside+8 == 2", Some(true)),
        ("at inside-inside+0x7 == 1", Some(true)),
        ("at take-0x10008 == 2", Some(true)),
        ("at 0x10001-inside == 1", Some(true)),
        ("at take+0x10 == 1", Some(true)),
        ("at inside-take == 0", None),
        ("at inside+ == 0", None),
        ("at inside+-8 == 0", None),
        ("at +8 == 0", Some(true)),
        ("at take+4294967295 == 0", None),
        ("at outside == 0", None),
        ("at outside+4 == 0", None),
        ("at inside-outside == 0", None),
        ("word count == 5", Some(true)),
        ("word count+4 == 7", Some(true)),
        ("word count+52 == 0", Some(true)),
        ("word count+56 == 0", None),
        ("word count+2 == 5", None),
        ("word odd == 5", None),
        ("word odd+3 == 7", Some(true)),
        ("word after == 0", None),
        ("word below == 0", None),
        ("word below+4 == 0", Some(true)),
        ("word take == 0", None),
        ("word missing == 0", None),
        ("word 2 == 5 & at take > 0", Some(true)),
        ("at count == count", None),
    ] {
        let condition = Condition::of_text(alloc, text, 16, &names)?;
        let holds = match condition {
            Some(condition) => Some(condition.holds(&processors, &words)),
            None => None,
        };
        assert_same!(rt; holds, wanted, text);
        assert_same!(rt; wrong_part(text, 16, &names).is_none(), wanted.is_some(), text);
    }
    Ok(())
}

/// Without a file of symbols no name stands for anything.
#[test]
fn names_need_symbols(rt: HostRuntime) -> Result<(), Fail> {
    for text in ["at take == 1", "at take-0x10008 > 0", "word count == 5"] {
        let condition = Condition::of_text(rt.alloc(), text, 16, &None)?;
        assert_same!(rt; condition.is_none(), true, text);
        assert_same!(rt; wrong_part(text, 16, &None), Some(text));
    }
    Ok(())
}
