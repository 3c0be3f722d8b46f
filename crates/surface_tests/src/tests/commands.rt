//! The words of the command line, and the commands, from the bytes of files to the bytes of reports.

use asm_commands::{asm_command, dis_command};
use elf_image::Meter;
use run_command::run_command;
use settings::{Dis, Settings, settings, status_of};
use std::alloc::{AllocError, Global};
use std::fmt::Write;
use std::test::Fail;
use test_support::{EBREAK, Ran, assert_same, metered, ran, size, with_bytes};
use trace_commands::replay_command;
use words_command::words_command;

#[test]
fn words_are_settings(rt: HostRuntime) -> Result<(), Fail> {
    match settings(rt.alloc(), &["ultra", "dis", "a.elf"]) {
        Ok(found) => {
            let wanted = Settings::Dis(Dis {
                file: "a.elf",
                comments: false,
                symbols: None,
                abi: false,
                words: 1024,
            });
            assert_same!(rt; found, wanted);
        }
        Err(_) => return Err(Fail::from("a mistake")),
    }
    let alone = ["ultra"];
    match settings(rt.alloc(), &alone) {
        Ok(_) => return Err(Fail::from("no command")),
        Err(error) => assert_same!(rt; status_of(&alone, &error), 2),
    }
    Ok(())
}

/// What `ultra words` prints for a program that halts at once.
fn blank_report(alloc: Global) -> Result<String, AllocError> {
    let mut text = String::new(alloc);
    for number in 0..32u8 {
        write!(text, "x{number} 00000000\n")?;
    }
    text.push_str("pc 00010000\nhalt 00\n")?;
    Ok(text)
}

#[test]
fn words_are_run(rt: HostRuntime) -> Result<(), Fail> {
    let alloc = rt.alloc();
    let report = blank_report(alloc)?;
    let file = b"00000073\n".as_slice();
    ran!(Vec::new(alloc), Vec::new(alloc), |out, err| {
        words_command(alloc, file, out, err)
    })
    .comes_to(0, report.as_bytes(), "")
}

#[test]
fn texts_become_images(rt: HostRuntime) -> Result<(), Fail> {
    let alloc = rt.alloc();
    ran!(Vec::new(alloc), Vec::new(alloc), |out, err| {
        asm_command(alloc, &mut Meter::new(b"ebreak".as_slice()), out, err)
    })
    .comes_to(0, &EBREAK, "")
}

#[test]
fn images_become_lines(rt: HostRuntime) -> Result<(), Fail> {
    let alloc = rt.alloc();
    ran!(Vec::new(alloc), Vec::new(alloc), |out, err| {
        dis_command(
            alloc,
            &mut Meter::new(EBREAK.as_slice()),
            1024,
            false,
            out,
            err
        )
    })
    .comes_to(0, b"00010000 00100073 ebreak\n", "")
}

/// The report on the text `ecall` on one processor.
const REPORT: &str = "processor 0 pc 00010000 halt 00 retired 0 console -\n";

/// The trace of its run: one turn.
static TRACE: [u8; 24] = [
    0x55, 0x4C, 0x54, 0x52, 1, 0, 4, 4, 1, 0, 0, 0, // the header
    1, 0, 0, 0, 0, 0, 0, 0, 0, 0, 0, 0, // the record
];

/// The image of `ecall`: that of `ebreak` with another word.
fn image() -> [u8; 88] {
    with_bytes(EBREAK, 86, &[0])
}

#[test]
fn images_are_run(rt: HostRuntime) -> Result<(), Fail> {
    let alloc = rt.alloc();
    let file = image();
    let mut trace = Some(Meter::new(Vec::new(alloc)));
    ran!(Vec::new(alloc), Vec::new(alloc), |out, err| {
        let file = &mut Meter::new(file.as_slice());
        run_command(alloc, file, size(0), 100, false, &mut trace, out, err)
    })
    .comes_to(0, REPORT.as_bytes(), "")?;
    if let Some(trace) = &trace {
        assert_same!(rt; trace.device.as_slice(), TRACE.as_slice());
    }
    Ok(())
}

#[test]
fn images_are_replayed(rt: HostRuntime) -> Result<(), Fail> {
    let alloc = rt.alloc();
    let file = image();
    ran!(Vec::new(alloc), Vec::new(alloc), |out, err| {
        let (mut trace, mut file) = (Meter::new(TRACE.as_slice()), metered(Ok(file.as_slice())));
        replay_command(alloc, &mut trace, &mut file, 1024, out, err)
    })
    .comes_to(0, REPORT.as_bytes(), "")
}
