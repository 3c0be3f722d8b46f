//! What all pictures have: a white page with a heading and a legend.

ghost use Rattle.std.specs.Prelude.{◌≡◌, ◌++◌, ◌≤◌, IfOk, OnOk, string_bytes};
ghost use Rattle.machine_picture.specs.Pages.{boxes_style, closing, colours_style, column_name, end_text, heading};
ghost use Rattle.machine_picture.specs.Pages.{is_stage, legend, legend_line, legend_of_groups, legend_of_records};
ghost use Rattle.machine_picture.specs.Pages.{legend_of_sides, legend_of_wires, namespace, page_text, shades_style};
ghost use Rattle.machine_picture.specs.Pages.{sides_style, sizes_text, style, svg_text, view_box, view_start};

use crate::elements::{Point, Size, push_attribute, push_box, push_label, push_size, push_span};
use flat_machine::Config;
use machine_views::MachineView;
use std::alloc::{AllocError, Global};
use std::fmt::Write;

/// Appends the beginning of a picture of this size: a white page with a heading.
#[tactic(auto, unfolding(crate::specs::Pages::page_text))]
pub fn push_page(
    alloc: Global,
    text: &mut String,
    view: &MachineView,
    size: Size,
) -> Result<(), AllocError>
    ensures { OnOk result (string_bytes text.new ≡ string_bytes text.old
        ++ page_text view.now size.width size.height) }
{
    push_svg(text, size)?;
    push_style(text)?;
    push_box(text, Point { x: 0, y: 0 }, size, "page")?;
    let line = heading(alloc, view)?;
    push_label(text, Point { x: 10, y: 18 }, "heading", line.as_str())
}

/// Appends the first line of a picture of this size.
#[tactic(auto, unfolding(crate::specs::Pages::svg_text))]
fn push_svg(text: &mut String, size: Size) -> Result<(), AllocError>
    ensures { OnOk result (string_bytes text.new ≡ string_bytes text.old ++ svg_text size.width size.height) }
{
    push_namespace(text)?;
    push_size(text, size)?;
    push_view_box(text, size)?;
    text.push('>')?;
    text.push('\n')
}

/// Appends the name of SVG.
#[tactic(auto, unfolding(crate::specs::Pages::namespace))]
fn push_namespace(text: &mut String) -> Result<(), AllocError>
    ensures { OnOk result (string_bytes text.new ≡ string_bytes text.old ++ namespace) }
{
    text.push_str("<svg xmlns='http://www.w3.org/2000/svg'")
}

/// Appends what part of a picture is shown.
#[tactic(auto, unfolding(crate::specs::Pages::view_box))]
fn push_view_box(text: &mut String, size: Size) -> Result<(), AllocError>
    ensures { OnOk result (string_bytes text.new ≡ string_bytes text.old ++ view_box size.width size.height) }
{
    let Size { width, height } = size;
    push_view_start(text)?;
    write!(text, "{width} {height}'")
}

/// Appends what is before the size.
#[tactic(auto, unfolding(crate::specs::Pages::view_start))]
fn push_view_start(text: &mut String) -> Result<(), AllocError>
    ensures { OnOk result (string_bytes text.new ≡ string_bytes text.old ++ view_start) }
{
    text.push_str(" viewBox='0 0 ")
}

/// Appends the style of the elements.
#[tactic(auto, unfolding(crate::specs::Pages::style))]
fn push_style(text: &mut String) -> Result<(), AllocError>
    ensures { OnOk result (string_bytes text.new ≡ string_bytes text.old ++ style) }
{
    text.push_str("<style>")?;
    push_boxes_style(text)?;
    push_colours_style(text)?;
    push_sides_style(text)?;
    push_shades_style(text)?;
    text.push_str("</style>")?;
    text.push('\n')
}

/// Appends the style of texts, boxes and wires.
#[tactic(auto, unfolding(crate::specs::Pages::boxes_style))]
fn push_boxes_style(text: &mut String) -> Result<(), AllocError>
    ensures { OnOk result (string_bytes text.new ≡ string_bytes text.old ++ boxes_style) }
{
    text.push_str(
        "text{font:11px monospace}rect{fill:#fff;stroke:#444}line{stroke:#999}.page{stroke:none}",
    )
}

/// Appends the colours of lines.
#[tactic(auto, unfolding(crate::specs::Pages::colours_style))]
fn push_colours_style(text: &mut String) -> Result<(), AllocError>
    ensures { OnOk result (string_bytes text.new ≡ string_bytes text.old ++ colours_style) }
{
    text.push_str(".request{fill:#1f4e9c}.record{fill:#207020}.reply{fill:#a02020}")
}

/// Appends which lines end at their place or have their middle there, and which texts are bold.
#[tactic(auto, unfolding(crate::specs::Pages::sides_style))]
fn push_sides_style(text: &mut String) -> Result<(), AllocError>
    ensures { OnOk result (string_bytes text.new ≡ string_bytes text.old ++ sides_style) }
{
    text.push_str(
        ".cell .request{text-anchor:end}.cell .record{text-anchor:middle}.heading,.column{font-weight:bold}",
    )
}

/// Appends the shades of a summary.
#[tactic(auto, unfolding(crate::specs::Pages::shades_style))]
fn push_shades_style(text: &mut String) -> Result<(), AllocError>
    ensures { OnOk result (string_bytes text.new ≡ string_bytes text.old ++ shades_style) }
{
    text.push_str(".held1{fill:#ddd}.held2{fill:#bbb}.held3{fill:#999}.held4{fill:#888}")
}

/// The machine's sizes, and how many steps it has taken.
#[tactic(auto, unfolding(crate::specs::Pages::heading))]
fn heading(alloc: Global, view: &MachineView) -> Result<String, AllocError>
    ensures { IfOk result (λ text. string_bytes text ≡ heading view.now) }
{
    let Config { k, c, b, r, .. } = view.config;
    let steps = view.steps;
    let mut text = sizes_text(alloc, k, c, b, r)?;
    write!(text, " after {steps} steps")?;
    Ok(text)
}

/// The machine's sizes.
#[tactic(auto, unfolding(crate::specs::Pages::sizes_text))]
fn sizes_text(alloc: Global, k: u8, c: u8, b: u8, r: u8) -> Result<String, AllocError>
    ensures { IfOk result (λ text. string_bytes text ≡ sizes_text k c b r) }
{
    let mut text = String::new(alloc);
    write!(text, "machine k {k} c {c}")?;
    write!(text, " b {b} r {r}")?;
    Ok(text)
}

/// Appends the end of a picture, with the legend below this height.
#[tactic(auto, unfolding(crate::specs::Pages::end_text))]
pub fn push_end(text: &mut String, y: u32) -> Result<(), AllocError>
    ensures { OnOk result (string_bytes text.new ≡ string_bytes text.old ++ end_text y) }
{
    text.push_str("<text")?;
    push_attribute(text, "y", y)?;
    text.push('>')?;
    push_legend(text)?;
    text.push_str("</text>")?;
    text.push('\n')?;
    push_closing(text)
}

/// Appends the end of a picture.
#[tactic(auto, unfolding(crate::specs::Pages::closing))]
fn push_closing(text: &mut String) -> Result<(), AllocError>
    ensures { OnOk result (string_bytes text.new ≡ string_bytes text.old ++ closing) }
{
    text.push_str("</svg>")?;
    text.push('\n')
}

/// Appends how the parts of a picture are to be read.
#[tactic(auto, unfolding(crate::specs::Pages::legend))]
fn push_legend(text: &mut String) -> Result<(), AllocError>
    ensures { OnOk result (string_bytes text.new ≡ string_bytes text.old ++ legend) }
{
    push_legend_of_sides(text)?;
    push_legend_of_wires(text)?;
    push_legend_of_groups(text)?;
    push_legend_of_records(text)
}

/// Appends where messages go.
#[tactic(auto, unfolding(crate::specs::Pages::legend_of_sides))]
fn push_legend_of_sides(text: &mut String) -> Result<(), AllocError>
    ensures { OnOk result (string_bytes text.new ≡ string_bytes text.old ++ legend_of_sides) }
{
    push_legend_line(
        text,
        "Requests go right, replies go left; of those at one place, the first to go on is on top.",
    )
}

/// Appends what stands at a wire.
#[tactic(auto, unfolding(crate::specs::Pages::legend_of_wires))]
fn push_legend_of_wires(text: &mut String) -> Result<(), AllocError>
    ensures { OnOk result (string_bytes text.new ≡ string_bytes text.old ++ legend_of_wires) }
{
    push_legend_line(
        text,
        "wire W: an output, with its wait buffer and requests, and the input beside it, with replies",
    )
}

/// Appends what a group is.
#[tactic(auto, unfolding(crate::specs::Pages::legend_of_groups))]
fn push_legend_of_groups(text: &mut String) -> Result<(), AllocError>
    ensures { OnOk result (string_bytes text.new ≡ string_bytes text.old ++ legend_of_groups) }
{
    push_legend_line(
        text,
        "{P Q ..}: the processors for which a message stands, in the order in which they are served",
    )
}

/// Appends what a record says.
#[tactic(auto, unfolding(crate::specs::Pages::legend_of_records))]
fn push_legend_of_records(text: &mut String) -> Result<(), AllocError>
    ensures { OnOk result (string_bytes text.new ≡ string_bytes text.old ++ legend_of_records) }
{
    push_legend_line(
        text,
        "Q waits for P: add V: Q will find what this function makes of the value that P finds",
    )
}

/// Appends a line of the legend.
#[tactic(auto, unfolding(crate::specs::Pages::legend_line))]
fn push_legend_line(text: &mut String, line: &str) -> Result<(), AllocError>
    ensures { OnOk result (string_bytes text.new ≡ string_bytes text.old ++ legend_line line.now) }
{
    push_span(text, 10, 14, "legend", line)
}

/// Whether a column has a stage.
pub fn is_stage(stages: u8, column: u8) -> bool
    ensures { result ≡ is_stage stages column }
{
    column > 0 && column <= stages
}

/// The name of a column.
#[tactic(auto, unfolding(crate::specs::Pages::column_name))]
pub fn column_name(alloc: Global, stages: u8, column: u8) -> Result<String, AllocError>
    ensures { IfOk result (λ name. string_bytes name ≡ column_name stages column) }
{
    match column.checked_sub(1) {
        None => Ok(String::from_str(alloc, "processors")?),
        Some(stage) => {
            if column <= stages {
                format!(in alloc; "stage {stage}")
            } else {
                Ok(String::from_str(alloc, "modules")?)
            }
        }
    }
}
