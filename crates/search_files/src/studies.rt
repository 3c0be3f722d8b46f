//! What `ultra study` asks for.

ghost use Rattle.std.specs.Prelude.{◌≡◌, false};

use crate::refusal::SearchRefusal;
use flat_machine::Config;
use host_files::{Reason, open};
use link::{LinkWrite, Meter};
use settings::Study;
use std::alloc::Global;
use std::io::{Input, Write};
use std::rt::Files;
use study_command::{StudyFormat, size_list, study_command};
use study_rows::{Layout, Size, column_named, sizes_of};

/// An option of a study that takes a list of numbers.
#[derive(Clone, Copy, Debug, Drop)]
pub enum SizeOption {
    Stages,
    Records,
    Combinations,
}

impl SizeOption {
    /// Its name.
    pub(crate) fn name(self) -> &'static str {
        match self {
            SizeOption::Stages => "k",
            SizeOption::Records => "b",
            SizeOption::Combinations => "r",
        }
    }

    /// The least number that it takes.
    pub(crate) fn low(self) -> u8 {
        match self {
            SizeOption::Stages | SizeOption::Records => 0,
            SizeOption::Combinations => 1,
        }
    }

    /// The greatest number that it takes.
    pub(crate) fn high(self) -> u8 {
        match self {
            SizeOption::Stages => 6,
            SizeOption::Records => 16,
            SizeOption::Combinations => 3,
        }
    }

    /// The list if none is given.
    fn default_list(self) -> &'static str {
        match self {
            SizeOption::Stages => "0..6",
            SizeOption::Records => "4",
            SizeOption::Combinations => "1",
        }
    }
}

/// Does what `study FILE` asks for.
pub fn study_file<'a, R: Files + Input + AllocGlobal, W: LinkWrite, E: Write>(
    rt: &R,
    study: &Study<'a>,
    reason: &Reason,
    out: &mut W,
    err: &mut E,
) -> Result<u8, SearchRefusal<'a>>
    requires works { W.has_failed out.old ≡ false }
{
    let alloc = rt.alloc();
    let format = format_of(study)?;
    let sizes = sizes_in(alloc, study)?;
    let mut file = Meter::new(open(rt, study.file, reason)?);
    // A study takes k, b and r from the sizes.
    let config = Config {
        k: 0,
        c: study.c,
        b: 0,
        r: 1,
        shared_words: study.words,
    };
    Ok(study_command(
        alloc,
        &mut file,
        config,
        sizes.as_slice(),
        study.budget,
        format,
        out,
        err,
    ))
}

/// How the rows are printed. JSON is made of lines.
fn format_of<'a>(study: &Study<'a>) -> Result<StudyFormat, SearchRefusal<'a>> {
    match (study.plot, study.csv, study.json) {
        (None, false, false) => Ok(StudyFormat::Rows(Layout::Table)),
        (None, true, false) => Ok(StudyFormat::Rows(Layout::Csv)),
        (None, false, true) => Ok(StudyFormat::Rows(Layout::Lines)),
        (Some(name), false, false) => match column_named(name) {
            Some(column) => Ok(StudyFormat::Plot(column)),
            None => Err(SearchRefusal::NoColumn(name)),
        },
        _ => Err(SearchRefusal::StudyFormats),
    }
}

/// The sizes that the lists make.
fn sizes_in<'a>(alloc: Global, study: &Study<'a>) -> Result<Vec<Size>, SearchRefusal<'a>> {
    let ks = numbers_in(alloc, SizeOption::Stages, study.ks)?;
    let bs = numbers_in(alloc, SizeOption::Records, study.bs)?;
    let rs = numbers_in(alloc, SizeOption::Combinations, study.rs)?;
    match sizes_of(alloc, ks.as_slice(), bs.as_slice(), rs.as_slice()) {
        Ok(sizes) => Ok(sizes),
        Err(_) => Err(SearchRefusal::Memory),
    }
}

/// The numbers of an option, from its list if one is given.
fn numbers_in<'a>(
    alloc: Global,
    option: SizeOption,
    list: Option<&'a str>,
) -> Result<Vec<u8>, SearchRefusal<'a>> {
    let list = match list {
        Some(list) => list,
        None => option.default_list(),
    };
    match size_list(alloc, list, option.low(), option.high()) {
        Ok(Some(numbers)) => Ok(numbers),
        Ok(None) => Err(SearchRefusal::NoSizes(option, list)),
        Err(_) => Err(SearchRefusal::Memory),
    }
}
