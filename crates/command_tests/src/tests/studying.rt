//! The command `study`, from the bytes of an image to the bytes of the rows, which are worked out by hand.

use link::Meter;
use std::alloc::Global;
use std::test::Fail;
use study_command::{StudyFormat, size_list, study_command};
use study_rows::{Column, Layout, Size, column_named, sizes_of};
use test_support::{Ran, Sink, assert_same, image_of, ran, size};

/// The most steps of a run that is to end by itself.
const AMPLE: u32 = 1000;

/// The outcome of a study of these sizes.
fn study(
    alloc: Global,
    file: &[u8],
    sizes: &[Size],
    budget: u32,
    format: StudyFormat,
) -> Ran<Vec<u8>> {
    ran!(
        Vec::new(alloc),
        Vec::new(alloc),
        |out, err| study_command(
            alloc,
            &mut Meter::new(file),
            size(0),
            sizes,
            budget,
            format,
            out,
            err
        )
    )
}

/// Each processor adds 1 to word 0, and reads word 1.
const TWO_WORDS: &str = "
 lui s2, 0x80000
 addi s5, x0, 1
 amoadd.w t0, s5, (s2)
 lw t1, 4(s2)
 addi a7, x0, 0
 addi a0, x0, 0
 ecall
";

/// A processor takes nine turns: two for each reference, and one for each other instruction. Without a network a module
/// serves in the round of the turn that sends the request, and the next turn retires the instruction. Two processors
/// whose requests combine are as fast: the request, the service and the reply are all in the round of the turns, and
/// each of the two references is two moves up, a service and a reply that is split. If requests do not combine, two of
/// them wait for module 0 in the third round, and the second is served in the next. Its processor is a round later from
/// then on, so no other request waits; its first reference takes two rounds, and the four take five.
const ROWS: &str = "\
k,b,r,processors,end,steps,rounds,references,serve,combined,requests,records,replies,mean
0,0,1,1,over,11,9,2,2,0,0,0,0,1.00
0,4,1,1,over,11,9,2,2,0,0,0,0,1.00
1,0,1,2,over,30,10,4,4,0,2,0,1,1.25
1,4,1,2,over,26,9,4,2,2,1,1,1,1.00
";

const TABLE: &str = "\
k  b r processors    end   steps  rounds references   serve combined requests records replies     mean
0  0 1          1   over      11       9          2       2        0        0       0       0     1.00
0  4 1          1   over      11       9          2       2        0        0       0       0     1.00
1  0 1          2   over      30      10          4       4        0        2       0       1     1.25
1  4 1          2   over      26       9          4       2        2        1       1       1     1.00
";

const LINES: &str = "\
k 1 b 0 r 1 processors 2 end over steps 30 rounds 10 references 4 serve 4 combined 0 requests 2 records 0 replies 1 mean 1.25
";

#[test]
fn two_words(rt: HostRuntime) -> Result<(), Fail> {
    let alloc = rt.alloc();
    let image = image_of(alloc, TWO_WORDS)?;
    let sizes = sizes_of(alloc, &[0, 1], &[0, 4], &[1])?;
    for (layout, sizes, wanted) in [
        (Layout::Csv, sizes.as_slice(), ROWS),
        (Layout::Table, sizes.as_slice(), TABLE),
        (Layout::Lines, &sizes.as_slice()[2..3], LINES),
    ] {
        let format = StudyFormat::Rows(layout);
        let ran = study(alloc, image.as_slice(), sizes, AMPLE, format);
        assert_same!(rt; str::from_utf8(ran.out.as_slice())?, wanted);
        assert_same!(rt; ran.status, 0);
        assert_same!(rt; ran.err.len(), 0);
    }
    Ok(())
}

/// Each processor draws a number, and the one that draws 1 stops by a fault: of a single processor none does. A budget
/// of five steps is used up before. The greatest status decides.
const DRAWN: &str = "
 lui x1, 0x80000
 addi x4, x0, 1
 amoadd.w a0, x4, (x1)
 bne a0, x4, good
 ebreak
good: addi a7, x0, 0
 ecall
";

#[test]
fn ends(rt: HostRuntime) -> Result<(), Fail> {
    let alloc = rt.alloc();
    let image = image_of(alloc, DRAWN)?;
    let sizes = sizes_of(alloc, &[0, 1], &[4], &[1])?;
    for (k, budget, end, status) in [
        (0..1, AMPLE, "over", 0),
        (0..2, AMPLE, "fault", 1),
        (0..1, 5, "budget", 4),
        (0..2, 6, "budget", 4),
    ] {
        let format = StudyFormat::Rows(Layout::Csv);
        let ran = study(
            alloc,
            image.as_slice(),
            &sizes.as_slice()[k],
            budget,
            format,
        );
        let text = str::from_utf8(ran.out.as_slice())?;
        let last = text.lines().last().unwrap_or("");
        assert_same!(rt; last.split(',').nth(4), Some(end));
        assert_same!(rt; ran.status, status);
        assert_same!(rt; ran.err.len(), 0);
    }
    Ok(())
}

/// A size out of limits is reported before any run: `r` is to be below `c`, which is 4.
#[test]
fn wrong_size(rt: HostRuntime) -> Result<(), Fail> {
    let alloc = rt.alloc();
    let image = image_of(alloc, TWO_WORDS)?;
    let sizes = sizes_of(alloc, &[0], &[4], &[1, 4])?;
    let format = StudyFormat::Plot(Column::Steps);
    let ran = study(alloc, image.as_slice(), sizes.as_slice(), AMPLE, format);
    assert_same!(rt; ran.out.len(), 0);
    assert_same!(rt; ran.status, 2);
    assert_same!(rt; ran.err.as_slice(), b"ultra: K1\n".as_slice());
    Ok(())
}

/// A list with its range, and its numbers if it is a list.
type List = (&'static str, u8, u8, Option<&'static [u8]>);

static LISTS: [List; 16] = [
    ("0", 0, 6, Some(&[0])),
    ("0..6", 0, 6, Some(&[0, 1, 2, 3, 4, 5, 6])),
    ("0,4", 0, 16, Some(&[0, 4])),
    ("0..1,3,5..6", 0, 6, Some(&[0, 1, 3, 5, 6])),
    ("2..2,+3,04", 1, 4, Some(&[2, 3, 4])),
    ("255", 0, 255, Some(&[255])),
    ("254..255", 0, 255, Some(&[254, 255])),
    ("", 0, 6, None),
    ("7", 0, 6, None),
    ("0,3", 1, 3, None),
    ("1,0", 0, 6, None),
    ("1,1", 0, 6, None),
    ("0..2,2", 0, 6, None),
    ("3..2", 0, 6, None),
    ("0.2", 0, 6, None),
    ("0...2", 0, 6, None),
];

#[test]
fn lists(rt: HostRuntime) -> Result<(), Fail> {
    let alloc = rt.alloc();
    for (list, low, high, wanted) in &LISTS {
        let found = size_list(alloc, list, *low, *high)?;
        assert_same!(rt; found.as_ref().map(|numbers| numbers.as_slice()), *wanted, list);
    }
    Ok(())
}

/// The plot of the steps of one run: 30 of them are three steps of 10 on the axis, and so 300 above its end, which is 460
/// down. One stage is 90 right of none, at 160.
#[test]
fn plot(rt: HostRuntime) -> Result<(), Fail> {
    let alloc = rt.alloc();
    let image = image_of(alloc, TWO_WORDS)?;
    let sizes = sizes_of(alloc, &[1], &[0], &[1])?;
    let format = StudyFormat::Plot(Column::Steps);
    let ran = study(alloc, image.as_slice(), sizes.as_slice(), AMPLE, format);
    let text = str::from_utf8(ran.out.as_slice())?;
    for part in [
        ">40</text>",
        "points=' 250,160'",
        "cx='250' cy='160'",
        ">b 0 r 1</text>",
    ] {
        assert_same!(rt; text.contains(part), true, &part);
    }
    assert_same!(rt; ran.status, 0);
    Ok(())
}

/// The tests run with each of their allocations refused in turn. The command then prints its rows, or reports that it is
/// out of memory.
#[test]
fn short_of_memory(rt: HostRuntime) -> Result<(), Fail> {
    let alloc = rt.alloc();
    let image = image_of(alloc, TWO_WORDS)?;
    let sizes = [Size { k: 0, b: 4, r: 1 }];
    let mut out = Meter::new(Sink::new(Vec::with_capacity(alloc, 256)?, 0));
    let mut err = Sink::new(Vec::with_capacity(alloc, 64)?, 0);
    let status = study_command(
        alloc,
        &mut Meter::new(image.as_slice()),
        size(0),
        &sizes,
        AMPLE,
        StudyFormat::Rows(Layout::Lines),
        &mut out,
        &mut err,
    );
    if status == 0 {
        assert_same!(rt; out.device.bytes.len(), 125);
        assert_same!(rt; err.bytes.len(), 0);
    } else {
        assert_same!(rt; status, 4);
        assert_same!(rt; out.device.bytes.len(), 0);
        assert_same!(rt; err.bytes.as_slice(), b"ultra: memory\n".as_slice());
    }
    Ok(())
}

#[test]
fn columns(rt: HostRuntime) {
    for (name, wanted) in [
        ("k", Some(Column::K)),
        ("processors", Some(Column::Processors)),
        ("serve", Some(Column::Serve)),
        ("mean", Some(Column::Mean)),
        ("end", None),
        ("step", None),
        ("", None),
    ] {
        assert_same!(rt; column_named(name), wanted, &name);
    }
}
