//! The formats of lines: what they print for some lines.

use line_formats::{Csv, Format, FormattedLines, Json, LineFormat, Names, Places, Shape, shapes};
use std::alloc::Global;
use std::io::Write;
use std::process::Abort;
use std::test::Fail;
use symbol_table::SymbolTable;
use test_support::assert_same;

/// Whether a line that is written in two parts is passed on as this text.
// The shapes are an argument, so that no proof computes with their table.
fn passes_on<F: LineFormat + Drop, R: Abort>(
    rt: &R,
    alloc: Global,
    format: F,
    line: &str,
    text: &str,
) -> Result<(), Fail> {
    let mut lines = FormattedLines::new(alloc, format, Vec::new(alloc));
    let bytes = line.as_bytes();
    let middle = bytes.len() / 2;
    lines.write_all(&bytes[..middle])?;
    lines.write_all(&bytes[middle..])?;
    lines.write_all(b"\n")?;
    assert_same!(rt; lines.device.as_slice(), text.as_bytes(), line);
    Ok(())
}

/// Whether a line is passed on as this object.
fn has_object<R: Abort>(
    rt: &R,
    alloc: Global,
    shapes: &[Shape],
    line: &str,
    object: &str,
) -> Result<(), Fail> {
    let text = format!(in alloc; "{object}\n")?;
    passes_on(rt, alloc, Json(shapes), line, text.as_str())
}

/// A line of a report, one that none has, an empty one, and bytes that JSON escapes.
#[test]
fn lines_of_reports_have_objects(rt: HostRuntime) -> Result<(), Fail> {
    for (line, object) in [
        ("word 3 0000002a", r#"{"kind":"word","word":3,"value":42}"#),
        (
            "word 3 0000002A",
            r#"{"kind":"text","text":"word 3 0000002A"}"#,
        ),
        ("", r#"{"kind":"text","text":""}"#),
        ("Ä\t", r#"{"kind":"text","text":"Ä\t"}"#),
    ] {
        has_object(&rt, rt.alloc(), shapes::report(), line, object)?;
    }
    Ok(())
}

/// Numbers before nouns, a list of groups, and a mistake with quotes in it.
#[test]
fn other_lines_have_objects(rt: HostRuntime) -> Result<(), Fail> {
    let alloc = rt.alloc();
    let results = shapes::results();
    let object = r#"{"kind":"results","results":2,"states":1}"#;
    has_object(&rt, alloc, results, "2 results, 1 state", object)?;
    let object = r#"{"kind":"text","text":"1 results, 2 states"}"#;
    has_object(&rt, alloc, results, "1 results, 2 states", object)?;
    let object = r#"{"kind":"module","module":3,"serves":9,"groups":[[1,5],[4,1]]}"#;
    has_object(
        &rt,
        alloc,
        shapes::counts(),
        "module 3 serves 9 1x5 4x1",
        object,
    )?;
    let line = "latency word 3 references 2 least 1 mean 1.50 greatest 2 rounds 1x1 2x1";
    let object =
        r#"{"kind":"latency","word":3,"references":2,"least":1,"mean":1.50,"greatest":2,"rounds":[[1,1],[2,1]]}"#;
    has_object(&rt, alloc, shapes::counts(), line, object)?;
    let line = r#"line 2 column 7: A2 \x22"": a "word" is wanted"#;
    let object =
        r#"{"kind":"fault","line":2,"column":7,"code":"A2","word":"\\x22\"\"","advice":"a \"word\" is wanted"}"#;
    has_object(&rt, alloc, shapes::mistakes(), line, object)
}

/// A round and steps of a story with functions and values: a request, a combination, a service, and replies that are
/// split.
#[test]
fn steps_with_values_have_objects(rt: HostRuntime) -> Result<(), Fail> {
    for (line, object) in [
        ("round 12", r#"{"kind":"round","round":12}"#),
        (
            "9 turn 0: sends and ffffff00 xor 00000005 to word 12",
            r#"{"kind":"step","number":9,"step":"turn","processor":0,"outcome":"sends","function":"and ffffff00 xor 00000005","word":12}"#,
        ),
        (
            "8 up 1 2: 1 joins 0 at stage 1: load goes on, load is kept",
            r#"{"kind":"step","number":8,"step":"up","stage":1,"wire":2,"outcome":"joins","second":1,"leader":0,"at_stage":1,"goes_on":"load","kept":"load"}"#,
        ),
        (
            "19 serve 0: serves 2: 0 1: word 4 0000000a to 00000019",
            r#"{"kind":"step","number":19,"step":"serve","module":0,"outcome":"serves","served":2,"processors":[0,1],"word":4,"before":10,"after":25}"#,
        ),
        (
            "20 down 1 0: answers 1 3 at stage 1: 0000000f ffffffff",
            r#"{"kind":"step","number":20,"step":"down","stage":1,"wire":0,"outcome":"answers","leaders":[1,3],"at_stage":1,"values":[15,4294967295]}"#,
        ),
        (
            "20 down 1 0: answers 1 at stage 1: 000000",
            r#"{"kind":"text","text":"20 down 1 0: answers 1 at stage 1: 000000"}"#,
        ),
    ] {
        has_object(&rt, rt.alloc(), shapes::story(), line, object)?;
    }
    Ok(())
}

/// Lines of `dis`: an instruction, a word that is none, and one with a comment.
#[test]
fn lines_of_code_have_objects(rt: HostRuntime) -> Result<(), Fail> {
    for (line, object) in [
        (
            "0001000c 0072a42f amoadd.w x8, x7, (x5)",
            r#"{"kind":"code","address":65548,"encoding":7513135,"instruction":"amoadd.w x8, x7, (x5)"}"#,
        ),
        (
            "00010000 ffffffff -",
            r#"{"kind":"code","address":65536,"encoding":4294967295}"#,
        ),
        (
            "00010010 1002a42f - # lr.w",
            r#"{"kind":"code","address":65552,"encoding":268608559,"comment":"lr.w"}"#,
        ),
    ] {
        has_object(&rt, rt.alloc(), shapes::listing(), line, object)?;
    }
    Ok(())
}

/// `push` begins at 0x00010000, and `count` is the first shared word.
#[derive(Drop)]
struct TwoNames;

impl Places for TwoNames {
    ghost use Rattle.std.specs.Prelude.{◌-◌, None, Some, codes, if◌then◌else◌, nat_lt};

    ghost place = { λ names address. if nat_lt address 0x80000000
        then (if nat_lt address 0x10000 then None else Some (codes "push", address - 0x10000))
        else Some (codes "count", address - 0x80000000) };

    fn place(&self, address: u32) -> Option<(&str, u32)> {
        if address >= 0x8000_0000 {
            Some(("count", address - 0x8000_0000))
        } else if address >= 0x1_0000 {
            Some(("push", address - 0x1_0000))
        } else {
            None
        }
    }
}

/// Whether a line is passed on as this line with names, and with names in its instruction if that is wanted.
fn has_names<R: Abort>(
    rt: &R,
    alloc: Global,
    shapes: &[Shape],
    disassembly: bool,
    line: &str,
    named: &str,
) -> Result<(), Fail> {
    let format = Names {
        shapes,
        places: Some(TwoNames),
        disassembly,
        decimal: false,
    };
    let text = format!(in alloc; "{named}\n")?;
    passes_on(rt, alloc, format, line, text.as_str())
}

/// Addresses and shared words, with and without an offset, without a name, and in a line that has no shape.
#[test]
fn addresses_have_names(rt: HostRuntime) -> Result<(), Fail> {
    for (line, named) in [
        (
            "5 1 00010004 amoadd.w x8, x7, (x5) = 00000100 word 0 00000100 00000107",
            "5 1 00010004 <push+0x4> amoadd.w x8, x7, (x5) = 00000100 word 0 (count) 00000100 00000107",
        ),
        ("7 1 00010000 halt 00", "7 1 00010000 <push> halt 00"),
        ("7 1 0000fffc halt 00", "7 1 0000fffc halt 00"),
        (
            "2 - poke 80000401 01 word 256 00000000 00000100",
            "2 - poke 80000401 <count+0x401> 01 word 256 (count+0x400) 00000000 00000100",
        ),
        ("3 0 poke x5 00010000", "3 0 poke x5 00010000"),
        ("pc 00010000", "pc 00010000"),
    ] {
        has_names(&rt, rt.alloc(), shapes::order(), false, line, named)?;
    }
    let report = "processor 0 pc 00010010 run retired 4 console -";
    let named = "processor 0 pc 00010010 <push+0x10> run retired 4 console -";
    has_names(&rt, rt.alloc(), shapes::report(), false, report, named)
}

/// Without a table, no line has names.
#[test]
fn lines_have_no_names_without_a_table(rt: HostRuntime) -> Result<(), Fail> {
    let places: Option<TwoNames> = None;
    let format = Names {
        shapes: shapes::report(),
        places,
        disassembly: false,
        decimal: false,
    };
    passes_on(
        &rt,
        rt.alloc(),
        format,
        "word 3 0000002a",
        "word 3 0000002a\n",
    )
}

/// Registers in each kind of operand, and jumps to and fro, to a place without a name, and past address 0.
#[test]
fn instructions_have_names(rt: HostRuntime) -> Result<(), Fail> {
    for (line, named) in [
        (
            "00010000 800002b7 lui x5, 524288",
            "00010000 <push> 800002b7 lui t0, 524288",
        ),
        (
            "00010018 0002a483 lw x9, 0(x5)",
            "00010018 <push+0x18> 0002a483 lw s1, 0(t0)",
        ),
        (
            "0001000c 0072a42f amoadd.w x8, x7, (x5)",
            "0001000c <push+0xc> 0072a42f amoadd.w s0, t2, (t0)",
        ),
        (
            "00010010 fff30313 addi x6, x6, -1",
            "00010010 <push+0x10> fff30313 addi t1, t1, -1",
        ),
        (
            "00010014 fe031ce3 bne x6, x0, -8",
            "00010014 <push+0x14> fe031ce3 bne t1, zero, 0001000c <push+0xc>",
        ),
        (
            "00010020 00b4ee63 bltu x9, x11, 28",
            "00010020 <push+0x20> 00b4ee63 bltu s1, a1, 0001003c <push+0x3c>",
        ),
        (
            "00010000 ffdff0ef jal x1, -4",
            "00010000 <push> ffdff0ef jal ra, 0000fffc",
        ),
        (
            "00000000 ffdff0ef jal x1, -4",
            "00000000 ffdff0ef jal ra, fffffffc <count+0x7ffffffc>",
        ),
        (
            "0001002c 00000073 ecall",
            "0001002c <push+0x2c> 00000073 ecall",
        ),
        ("00010030 ffffffff -", "00010030 <push+0x30> ffffffff -"),
    ] {
        has_names(&rt, rt.alloc(), shapes::listing(), true, line, named)?;
    }
    Ok(())
}

/// An entry of a serial order has its target, and a step of a story, which has no address, its offset.
#[test]
fn instructions_of_other_lines_have_names(rt: HostRuntime) -> Result<(), Fail> {
    let alloc = rt.alloc();
    let line = "9 0 00010010 beq x5, x6, -8";
    let named = "9 0 00010010 <push+0x10> beq t0, t1, 00010008 <push+0x8>";
    has_names(&rt, alloc, shapes::order(), true, line, named)?;
    let line = "4 1 00010004 amoadd.w x31, x3, (x4) = 00000100 word 1 00000100 00000107";
    let named =
        "4 1 00010004 <push+0x4> amoadd.w t6, gp, (tp) = 00000100 word 1 (count+0x4) 00000100 00000107";
    has_names(&rt, alloc, shapes::order(), true, line, named)?;
    let line = "23 turn 0: retires jal x1, 8 = 00010008";
    let named = "23 turn 0: retires jal ra, 8 = 00010008";
    has_names(&rt, alloc, shapes::story(), true, line, named)
}

/// Values are in decimal, in two's complement: in a word, in a function, and in a list. Addresses, instructions, bytes
/// and words of other lengths stay as they are.
#[test]
fn values_in_decimal(rt: HostRuntime) -> Result<(), Fail> {
    for (shapes, line, decimal) in [
        (shapes::report(), "word 3 0000002a", "word 3 42"),
        (shapes::results(), "word 3 ffffffff", "word 3 -1"),
        (
            shapes::order(),
            "5 1 00010004 amoadd.w x8, x7, (x5) = 7fffffff word 0 80000000 00000107",
            "5 1 00010004 amoadd.w x8, x7, (x5) = 2147483647 word 0 -2147483648 263",
        ),
        (shapes::order(), "3 0 poke x5 00010000", "3 0 poke x5 65536"),
        (
            shapes::story(),
            "9 turn 0: sends max fffffffe min 00000003 to word 12",
            "9 turn 0: sends max -2 min 3 to word 12",
        ),
        (
            shapes::story(),
            "18 up 1 2: 1 joins 0 at stage 1: add 0000000f goes on, load is kept",
            "18 up 1 2: 1 joins 0 at stage 1: add 15 goes on, load is kept",
        ),
        (
            shapes::story(),
            "20 down 1 0: answers 1 3 at stage 1: 0000000f ffffffff",
            "20 down 1 0: answers 1 3 at stage 1: 15 -1",
        ),
        (
            shapes::story(),
            "0 poke - 80000000 0a: writes",
            "0 poke - 80000000 0a: writes",
        ),
        (shapes::story(), "word 3 0000002a", "word 3 0000002a"),
    ] {
        let format: Names<'_, TwoNames> = Names {
            shapes,
            places: None,
            disassembly: false,
            decimal: true,
        };
        let text = format!(in rt.alloc(); "{decimal}\n")?;
        passes_on(&rt, rt.alloc(), format, line, text.as_str())?;
    }
    Ok(())
}

/// Whether these rows are passed on for a line.
fn has_rows<R: Abort>(
    rt: &R,
    alloc: Global,
    shapes: &[Shape],
    line: &str,
    rows: &str,
) -> Result<(), Fail> {
    passes_on(rt, alloc, Csv(shapes), line, rows)
}

/// Each line of `stats`, and a line that is none.
#[test]
fn numbers_of_counts_have_rows(rt: HostRuntime) -> Result<(), Fail> {
    for (line, rows) in [
        (
            "machine k 6 c 4 b 4 r 1",
            "subject,number,count,value\nmachine,,k,6\nmachine,,c,4\nmachine,,b,4\nmachine,,r,1\n",
        ),
        (
            "steps 89584 turns 51584 up 25200 serve 200 down 12600 poke 0 rounds 2806",
            "steps,,steps,89584\nsteps,,turns,51584\nsteps,,up,25200\nsteps,,serve,200\nsteps,,down,12600
steps,,poke,0\nsteps,,rounds,2806\n",
        ),
        (
            "stage 0 up 6400 combined 6400 down 0 split 6400 requests 1 records 1 replies 1",
            "stage,0,up,6400\nstage,0,combined,6400\nstage,0,down,0\nstage,0,split,6400\nstage,0,requests,1
stage,0,records,1\nstage,0,replies,1\n",
        ),
        ("module 7 serves 0", "module,7,serves,0\n"),
        (
            "module 0 serves 200 1x150 64x50",
            "module,0,serves,200\nmodule,0,groups of 1,150\nmodule,0,groups of 64,50\n",
        ),
        (
            "processor 0 turns 806 retired 605",
            "processor,0,turns,806\nprocessor,0,retired,605\n",
        ),
        (
            "latency all references 4 least 1 mean 1.25 greatest 2 rounds 1x3 2x1",
            "latency,,references,4\nlatency,,least,1\nlatency,,mean,1.25\nlatency,,greatest,2
latency,,rounds of 1,3\nlatency,,rounds of 2,1\n",
        ),
        (
            "latency processor 0 references 200 least 11 mean 11.50 greatest 17 rounds 8x150 16x50",
            "processor,0,references,200\nprocessor,0,least,11\nprocessor,0,mean,11.50\nprocessor,0,greatest,17
processor,0,rounds of 8,150\nprocessor,0,rounds of 16,50\n",
        ),
        (
            "latency word 3 references 1 least 1 mean 1.00 greatest 1 rounds 1x1",
            "word,3,references,1\nword,3,least,1\nword,3,mean,1.00\nword,3,greatest,1\nword,3,rounds of 1,1\n",
        ),
        ("word 3 0000002a", ""),
    ] {
        has_rows(&rt, rt.alloc(), shapes::counts(), line, rows)?;
    }
    Ok(())
}

/// A format that is chosen while the program runs: lines as they are, objects, and rows.
#[test]
fn chosen_formats_print(rt: HostRuntime) -> Result<(), Fail> {
    let alloc = rt.alloc();
    let line = "module 7 serves 0";
    let plain: Format<TwoNames> = Format::Plain;
    passes_on(&rt, alloc, plain, line, "module 7 serves 0\n")?;
    let json: Format<TwoNames> = Format::Json(shapes::counts());
    let object = "{\"kind\":\"module\",\"module\":7,\"serves\":0}\n";
    passes_on(&rt, alloc, json, line, object)?;
    let csv: Format<TwoNames> = Format::Csv(shapes::counts());
    passes_on(&rt, alloc, csv, line, "module,7,serves,0\n")
}

/// Names from a symbol table.
#[test]
fn symbols_are_names(rt: HostRuntime) -> Result<(), Fail> {
    let alloc = rt.alloc();
    let places = SymbolTable::of_file(alloc, b"00010000 T push\n80000000 B count\n")?;
    let names = Names {
        shapes: shapes::order(),
        places: Some(places),
        disassembly: true,
        decimal: false,
    };
    let line = "5 1 00010010 beq x5, x6, -8 word 0 00000100 00000107";
    let named =
        "5 1 00010010 <push+0x10> beq t0, t1, 00010008 <push+0x8> word 0 (count) 00000100 00000107\n";
    passes_on(&rt, alloc, Format::Named(names), line, named)
}
