//! The page of a trace.

ghost use Rattle.std.specs.Prelude.{◌≡◌, ◌++◌, IfOk, string_bytes};
ghost use Rattle.page_command.specs.Pages.{escaped};

use crate::data::data_text;
use crate::escape::push_escaped;
use crate::window::Window;
use command_io::Fault;
use elf_image::Image;
use flat_machine::Config;
use std::alloc::{AllocError, Global};
use steps::Step;
use symbol_table::SymbolTable;
use trace_commands::TraceReport;

/// What `ultra page` prints for a trace ([`trace_commands::lines_command`]): a text, the data ([`data_text`]) in which
/// no tag begins, and another text. The exit status is 1 if a fault has stopped a processor.
#[derive(Clone, Copy, Debug, Drop)]
pub struct Page<'a> {
    /// What stands before the data.
    pub front: &'a str,
    /// What stands after it.
    pub back: &'a str,
    /// The steps that the page plays.
    pub window: Window,
    /// The names of words and program counters, if there are any.
    pub symbols: Option<&'a SymbolTable<'a>>,
}

impl<'a> TraceReport for Page<'a> {
    ghost use Rattle.std.specs.Option.{option_copied};
    ghost use Rattle.machine_views.specs.Names.{rows_in};
    ghost use Rattle.page_command.specs.Pages.{frame_of, prints_page};

    ghost reports = { λ page. prints_page (frame_of page.front.now page.back.now) page.window
        (rows_in (option_copied page.symbols)) };

    fn text(
        &self,
        alloc: Global,
        image: &Image,
        config: Config,
        steps: &[Step],
    ) -> Result<(String, u8), Fault> {
        let (shown, status) = data_text(alloc, image, config, steps, self.window, self.symbols)?;
        let text = page_text(alloc, self.front, shown.as_str(), self.back)?;
        Ok((text, status))
    }
}

/// A page of these three parts, the second one escaped.
fn page_text(alloc: Global, front: &str, shown: &str, back: &str) -> Result<String, AllocError>
    ensures { IfOk result (λ text. string_bytes text ≡ front.now ++ escaped shown.now ++ back.now) }
{
    let mut text = String::new(alloc);
    text.push_str(front)?;
    push_escaped(&mut text, shown)?;
    text.push_str(back)?;
    Ok(text)
}
