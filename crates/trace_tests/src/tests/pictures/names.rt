//! Pictures with the names of symbols, which are lines as `nm` prints them. The texts are worked out by hand from the
//! addresses: the words are at 0x80000000 and 0x80000004, and the code begins at 0x00010000.

use super::{run, run_named, texts_of};
use std::alloc::Global;
use std::process::Abort;
use std::test::Fail;
use symbol_table::SymbolTable;
use test_support::{ADD_AT_X12, assert_same, image_of, trace_of};

/// An instruction that does nothing, an add to the word at `x12`, and a load of it.
const REFERENCES: &str = "
 addi x0, x0, 0
 amoadd.w x10, x11, (x12)
 lw x10, 0(x12)
";

/// Processor 0 does nothing, and then sends an add of 1 to word 0. Processor 1 begins at the load, and sends it for
/// word 1. Both requests are in the processors' slots, since the network has taken no step.
const TWO_REFERENCES: [[u8; 12]; 7] = [
    [5, 0, 11, 0, 0, 0, 0, 0, 1, 0, 0, 0],
    [5, 0, 12, 0, 0, 0, 0, 0, 0, 0, 0, 0x80],
    [5, 1, 12, 0, 0, 0, 0, 0, 4, 0, 0, 0x80],
    [5, 1, 32, 0, 0, 0, 0, 0, 8, 0, 1, 0],
    [1, 0, 0, 0, 0, 0, 0, 0, 0, 0, 0, 0],
    [1, 0, 0, 0, 0, 0, 0, 0, 0, 0, 0, 0],
    [1, 1, 0, 0, 0, 0, 0, 0, 0, 0, 0, 0],
];

/// Symbols, and what the picture of the two references shows with their names: the processors, their requests, and the
/// words of the modules.
struct Named {
    symbols: &'static str,
    processors: &'static str,
    requests: &'static str,
    words: &'static str,
}

static NAMED: [Named; 6] = [
    // Two words have names of their own. The add is four bytes past `loop`, and the load has a name.
    Named {
        symbols: "00010000 T loop\n00010008 T read\n80000000 B count\n80000004 B flag\n",
        processors: "0 run loop+0x4 count|1 run read flag",
        requests: "add 00000001 to count {0}|load flag {1}",
        words: "count = 00000000|flag = 00000000",
    },
    // An array names both words. A symbol of four bytes names the load alone.
    Named {
        symbols: "00010008 00000004 t read\n80000000 00000008 B queue\n",
        processors: "0 run 00010004 queue|1 run read queue+0x4",
        requests: "add 00000001 to queue {0}|load queue+0x4 {1}",
        words: "queue = 00000000|queue+0x4 = 00000000",
    },
    // Nothing has a name.
    Named {
        symbols: "00020000 00000004 D local\n",
        processors: "0 run 00010004 word 0|1 run 00010008 word 1",
        requests: "add 00000001 to word 0 {0}|load word 1 {1}",
        words: "word 0 = 00000000|word 1 = 00000000",
    },
    // A name has 24 letters at most. One of 24 is whole, and of one of 26 the first 22 are left.
    Named {
        symbols: "00010004 T abcdefghijklmnopqrstuvwx\n80000000 B abcdefghijklmnopqrstuvwxyz\n80000004 B b\n",
        processors: "0 run abcdefghijklmnopqrstuvwx abcdefghijklmnopqrstuv..|\
            1 run abcdefghijklmnopqr..+0x4 b",
        requests: "add 00000001 to abcdefghijklmnopqrstuv.. {0}|load b {1}",
        words: "abcdefghijklmnopqrstuv.. = 00000000|b = 00000000",
    },
    // The offset stays whole. With `+0x4` a label of 20 letters is whole, and of one of 21 the first 18 are left.
    Named {
        symbols: "00010000 T abcdefghijklmnopqrst\n80000000 B abcdefghijklmnopqrstu\n",
        processors: "0 run abcdefghijklmnopqrst+0x4 abcdefghijklmnopqrstu|\
            1 run abcdefghijklmnopqrst+0x8 abcdefghijklmnopqr..+0x4",
        requests: "add 00000001 to abcdefghijklmnopqrstu {0}|load abcdefghijklmnopqr..+0x4 {1}",
        words: "abcdefghijklmnopqrstu = 00000000|abcdefghijklmnopqr..+0x4 = 00000000",
    },
    // What XML spells by an entity is one letter of a name: one of 24 is whole, and of one of 25 the first 22 are left.
    Named {
        symbols: "00010004 T a<b>\n00010008 T x&\"y'\n80000000 B list<item>::first&second>\n\
            80000004 B list<item>::first&second\n",
        processors: "0 run a&lt;b&gt; list&lt;item&gt;::first&amp;seco..|\
            1 run x&amp;&quot;y' list&lt;item&gt;::first&amp;second",
        requests: "add 00000001 to list&lt;item&gt;::first&amp;seco.. {0}|\
            load list&lt;item&gt;::first&amp;second {1}",
        words: "list&lt;item&gt;::first&amp;seco.. = 00000000|list&lt;item&gt;::first&amp;second = 00000000",
    },
];

/// The picture of the two references with the names of these symbols.
fn drawn(alloc: Global, symbols: &str) -> Result<Vec<u8>, Fail> {
    let image = image_of(alloc, REFERENCES)?;
    let trace = trace_of(alloc, (1, 4, 4), &TWO_REFERENCES)?;
    let table = SymbolTable::of_file(alloc, symbols.as_bytes())?;
    let ran = run_named(
        alloc,
        trace.as_slice(),
        Ok(image.as_slice()),
        2,
        Some(7),
        Some(&table),
    );
    Ok(ran.out)
}

/// Checks the texts of a class.
fn expect_texts(
    rt: &impl Abort,
    alloc: Global,
    picture: &str,
    (class, wanted): (&str, &str),
) -> Result<(), Fail> {
    let shown = texts_of(alloc, picture, class)?;
    assert_same!(rt; shown.as_str(), wanted, class);
    Ok(())
}

#[test]
fn words_and_program_counters(rt: HostRuntime) -> Result<(), Fail> {
    let alloc = rt.alloc();
    for named in &NAMED {
        let out = drawn(alloc, named.symbols)?;
        let picture = str::from_utf8(out.as_slice())?;
        let titles = format!(in alloc; "{}|wire 0|wire 1|module 0|module 1", named.processors)?;
        expect_texts(&rt, alloc, picture, ("title", titles.as_str()))?;
        expect_texts(&rt, alloc, picture, ("request", named.requests))?;
        expect_texts(&rt, alloc, picture, ("word", named.words))?;
    }
    Ok(())
}

/// A picture in which nothing has a name is the picture without names, to the byte.
#[test]
fn nothing_has_a_name(rt: HostRuntime) -> Result<(), Fail> {
    let alloc = rt.alloc();
    let image = image_of(alloc, REFERENCES)?;
    let trace = trace_of(alloc, (1, 4, 4), &TWO_REFERENCES)?;
    let plain = run(alloc, trace.as_slice(), Ok(image.as_slice()), 2, Some(7));
    for symbols in ["", "00020000 00000004 D local\n"] {
        let out = drawn(alloc, symbols)?;
        assert!(rt; out.as_slice() == plain.out.as_slice(), "{symbols}");
    }
    Ok(())
}

/// A summary has room for 12 letters of a name: of `barrier_count`, 13 letters, the first 10 are left, and with `+0x4`
/// the first 6. Processor 0 sends its add, and processor 1 waits at a word without an open reference.
#[test]
fn names_in_a_summary(rt: HostRuntime) -> Result<(), Fail> {
    let alloc = rt.alloc();
    let image = image_of(alloc, ADD_AT_X12)?;
    let steps = [
        [5, 0, 11, 0, 0, 0, 0, 0, 1, 0, 0, 0],
        [5, 0, 12, 0, 0, 0, 0, 0, 0, 0, 0, 0x80],
        [5, 1, 32, 0, 0, 0, 0, 0, 4, 0, 1, 0],
        [1, 0, 0, 0, 0, 0, 0, 0, 0, 0, 0, 0],
    ];
    let trace = trace_of(alloc, (4, 4, 4), &steps)?;
    let symbols = b"00010000 T fetch_add_it\n80000000 B barrier_count\n";
    let table = SymbolTable::of_file(alloc, symbols.as_slice())?;
    let ran = run_named(
        alloc,
        trace.as_slice(),
        Ok(image.as_slice()),
        1,
        Some(4),
        Some(&table),
    );
    let picture = str::from_utf8(ran.out.as_slice())?;
    let marks = texts_of(alloc, picture, "mark")?;
    assert!(rt;
        marks.as_str().starts_with(
            "0 run fetch_add_it barrier_co..|1 run fetch_..+0x4|2 run fetch_add_it|"
        ),
        "{marks}"
    );
    let request = "processor 0: add 00000001 to barrier_co.. {0}";
    expect_texts(&rt, alloc, picture, ("request", request))?;
    expect_texts(
        &rt,
        alloc,
        picture,
        ("word", "module 0: barrier_co.. = 00000000"),
    )?;
    Ok(())
}
