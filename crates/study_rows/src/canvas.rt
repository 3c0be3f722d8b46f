//! The page of a plot: its elements, in SVG.

ghost use Rattle.std.specs.Prelude.{◌≡◌, ◌≤◌, ◌<◌, ◌^◌, ◌++◌, OnOk, string_bytes};
ghost use Rattle.std.specs.Fmt.{decimal};
ghost use Rattle.run_counts.specs.Lines.{first_lines};
ghost use Rattle.study_rows.specs.Canvas.{axes, axis_style, captions, closing, colour_style, dash_style, grid_text};
ghost use Rattle.study_rows.specs.Canvas.{heading, key_text, label_text, line_class, line_end, line_start};
ghost use Rattle.study_rows.specs.Canvas.{mark_style, mark_text, more_colours, more_dashes, paper, point_text};
ghost use Rattle.study_rows.specs.Canvas.{processors_of};
ghost use Rattle.study_rows.specs.Canvas.{processors_text, sizes_text, style, svg_text, text_style, tick_text};
ghost use Rattle.study_rows.specs.Canvas.{key_place, key_start, mark_place, mark_start, points_start};
ghost use Rattle.study_rows.specs.Canvas.{polyline_start, sizes_pair, sizes_start, svg_end, svg_start, text_end};
ghost use Rattle.study_rows.specs.Canvas.{circle_start, class_end, title_start, view_start};
ghost use Rattle.study_rows.specs.Columns.{number_text};

use crate::cells::push_hundredths;
use crate::column::{Column, Content, title_of};
use crate::scale::x_of;
use std::alloc::AllocError;
use std::fmt::Write;

/// How a line of a plot is drawn.
#[derive(Clone, Copy, Drop)]
pub(crate) struct Pen {
    pub(crate) colour: u8,
    pub(crate) dashes: u8,
}

/// A point of a plot.
#[derive(Clone, Copy, Drop)]
pub(crate) struct Point {
    pub(crate) x: u32,
    pub(crate) y: u32,
}

// ---- the page

/// Appends the beginning of a picture of this height.
#[tactic(auto, unfolding(crate::specs::Canvas::svg_text))]
pub(crate) fn push_svg(text: &mut String, height: u32) -> Result<(), AllocError>
    ensures { OnOk result (string_bytes text.new ≡ string_bytes text.old ++ svg_text height) }
{
    push_svg_start(text)?;
    push_decimal(text, height)?;
    push_view_start(text)?;
    push_decimal(text, height)?;
    push_svg_end(text)
}

/// Appends what is before the height of a picture.
#[tactic(auto, unfolding(crate::specs::Canvas::svg_start))]
fn push_svg_start(text: &mut String) -> Result<(), AllocError>
    ensures { OnOk result (string_bytes text.new ≡ string_bytes text.old ++ svg_start) }
{
    text.push_str("<svg xmlns='http://www.w3.org/2000/svg' width='1000' height='")
}

/// Appends what is before the height of the part that is shown, which is all.
#[tactic(auto, unfolding(crate::specs::Canvas::view_start))]
fn push_view_start(text: &mut String) -> Result<(), AllocError>
    ensures { OnOk result (string_bytes text.new ≡ string_bytes text.old ++ view_start) }
{
    text.push_str("' viewBox='0 0 1000 ")
}

/// Appends what is after it.
#[tactic(auto, unfolding(crate::specs::Canvas::svg_end))]
fn push_svg_end(text: &mut String) -> Result<(), AllocError>
    ensures { OnOk result (string_bytes text.new ≡ string_bytes text.old ++ svg_end) }
{
    text.push_str("'>\n")
}

/// Appends a number.
fn push_decimal(text: &mut String, number: u32) -> Result<(), AllocError>
    ensures { OnOk result (string_bytes text.new ≡ string_bytes text.old ++ decimal number) }
{
    write!(text, "{number}")
}

/// Appends the style of the elements.
#[tactic(auto, unfolding(crate::specs::Canvas::style))]
pub(crate) fn push_style(text: &mut String) -> Result<(), AllocError>
    ensures { OnOk result (string_bytes text.new ≡ string_bytes text.old ++ style) }
{
    text.push_str("<style>")?;
    push_text_style(text)?;
    push_axis_style(text)?;
    push_mark_style(text)?;
    push_colour_style(text)?;
    push_more_colours(text)?;
    push_dash_style(text)?;
    push_more_dashes(text)?;
    text.push_str("</style>\n")
}

/// Appends the style of texts and boxes.
#[tactic(auto, unfolding(crate::specs::Canvas::text_style))]
fn push_text_style(text: &mut String) -> Result<(), AllocError>
    ensures { OnOk result (string_bytes text.new ≡ string_bytes text.old ++ text_style) }
{
    text.push_str(
        "text{font:24px sans-serif;fill:#111}rect{fill:#fff}.title{font-weight:bold}.small{font-size:18px}",
    )
}

/// Appends where texts are aligned, and the style of the axes.
#[tactic(auto, unfolding(crate::specs::Canvas::axis_style))]
fn push_axis_style(text: &mut String) -> Result<(), AllocError>
    ensures { OnOk result (string_bytes text.new ≡ string_bytes text.old ++ axis_style) }
{
    text.push_str(
        ".right{text-anchor:end}.middle{text-anchor:middle}.grid{stroke:#ccc}.axis{stroke:#111}",
    )
}

/// Appends how thick lines are, and the style of marks.
#[tactic(auto, unfolding(crate::specs::Canvas::mark_style))]
fn push_mark_style(text: &mut String) -> Result<(), AllocError>
    ensures { OnOk result (string_bytes text.new ≡ string_bytes text.old ++ mark_style) }
{
    text.push_str(
        "polyline,.key{fill:none;stroke-width:5}circle{fill:#fff;stroke-width:4}.budget{fill:#999}.fault{fill:#111}",
    )
}

/// Appends the first colours of lines.
#[tactic(auto, unfolding(crate::specs::Canvas::colour_style))]
fn push_colour_style(text: &mut String) -> Result<(), AllocError>
    ensures { OnOk result (string_bytes text.new ≡ string_bytes text.old ++ colour_style) }
{
    text.push_str(".s0{stroke:#0050a0}.s1{stroke:#c04000}.s2{stroke:#007040}.s3{stroke:#a0208c}")
}

/// Appends the other colours of lines.
#[tactic(auto, unfolding(crate::specs::Canvas::more_colours))]
fn push_more_colours(text: &mut String) -> Result<(), AllocError>
    ensures { OnOk result (string_bytes text.new ≡ string_bytes text.old ++ more_colours) }
{
    text.push_str(".s4{stroke:#111}.s5{stroke:#b08000}.s6{stroke:#3090d0}.s7{stroke:#702020}")
}

/// Appends the dashes of lines past the eighth.
#[tactic(auto, unfolding(crate::specs::Canvas::dash_style))]
fn push_dash_style(text: &mut String) -> Result<(), AllocError>
    ensures { OnOk result (string_bytes text.new ≡ string_bytes text.old ++ dash_style) }
{
    text.push_str(
        ".d1{stroke-dasharray:16 8}.d2{stroke-dasharray:6 6}.d3{stroke-dasharray:20 6 4 6}",
    )
}

/// Appends the dashes of lines past the 32nd.
#[tactic(auto, unfolding(crate::specs::Canvas::more_dashes))]
fn push_more_dashes(text: &mut String) -> Result<(), AllocError>
    ensures { OnOk result (string_bytes text.new ≡ string_bytes text.old ++ more_dashes) }
{
    text.push_str(
        ".d4{stroke-dasharray:30 10}.d5{stroke-dasharray:2 6}.d6{stroke-dasharray:20 5 4 5 4 5}",
    )
}

/// Appends a white page.
#[tactic(auto, unfolding(crate::specs::Canvas::paper))]
pub(crate) fn push_paper(text: &mut String, height: u32) -> Result<(), AllocError>
    ensures { OnOk result (string_bytes text.new ≡ string_bytes text.old ++ paper height) }
{
    write!(text, "<rect width='1000' height='{height}'/>\n")
}

/// Appends the heading.
#[tactic(auto, unfolding(crate::specs::Canvas::heading))]
pub(crate) fn push_heading(text: &mut String, column: Column) -> Result<(), AllocError>
    ensures { OnOk result (string_bytes text.new ≡ string_bytes text.old ++ heading column) }
{
    push_title_start(text)?;
    text.push_str(title_of(column))?;
    push_text_end(text)
}

/// Appends what is before the heading.
#[tactic(auto, unfolding(crate::specs::Canvas::title_start))]
fn push_title_start(text: &mut String) -> Result<(), AllocError>
    ensures { OnOk result (string_bytes text.new ≡ string_bytes text.old ++ title_start) }
{
    text.push_str("<text class='title' x='160' y='38'>")
}

/// Appends the end of a text.
#[tactic(auto, unfolding(crate::specs::Canvas::text_end))]
fn push_text_end(text: &mut String) -> Result<(), AllocError>
    ensures { OnOk result (string_bytes text.new ≡ string_bytes text.old ++ text_end) }
{
    text.push_str("</text>\n")
}

// ---- the axes

/// Appends the lines across the plot and their numbers, which are 0 to 4 times this step.
pub(crate) fn push_ticks(text: &mut String, content: Content, step: u128) -> Result<(), AllocError>
    requires { step ≤ 2 ^ 67 }
    ensures { OnOk result (string_bytes text.new ≡ string_bytes text.old ++ first_lines (tick_text content step) 5) }
{
    for i in 0..5 {
        push_tick(text, content, step, i)?;
    }
    Ok(())
}

/// Appends the line across the plot at this number of steps, and the number there.
fn push_tick(text: &mut String, content: Content, step: u128, i: u8) -> Result<(), AllocError>
    requires few { step ≤ 2 ^ 67 }
    requires on_axis { i < 5 }
    ensures { OnOk result (string_bytes text.new ≡ string_bytes text.old ++ tick_text content step i) }
{
    push_grid(text, 460 - 100 * u32::from(i))?;
    push_label(
        text,
        content,
        468 - 100 * u32::from(i),
        step * u128::from(i),
    )
}

/// Appends a line across the plot.
#[tactic(auto, unfolding(crate::specs::Canvas::grid_text))]
fn push_grid(text: &mut String, y: u32) -> Result<(), AllocError>
    ensures { OnOk result (string_bytes text.new ≡ string_bytes text.old ++ grid_text y) }
{
    write!(
        text,
        "<line class='grid' x1='160' y1='{y}' x2='700' y2='{y}'/>\n"
    )
}

/// Appends a number on the axis.
#[tactic(auto, unfolding(crate::specs::Canvas::label_text))]
fn push_label(text: &mut String, content: Content, y: u32, number: u128) -> Result<(), AllocError>
    ensures { OnOk result (string_bytes text.new ≡ string_bytes text.old ++ label_text content y number) }
{
    write!(text, "<text class='right' x='148' y='{y}'>")?;
    push_number(text, content, number)?;
    text.push_str("</text>\n")
}

/// Appends a number of a column with this content.
fn push_number(text: &mut String, content: Content, number: u128) -> Result<(), AllocError>
    ensures { OnOk result (string_bytes text.new ≡ string_bytes text.old ++ number_text content number) }
{
    match content {
        Content::Count => write!(text, "{number}"),
        Content::Hundredths => push_hundredths(text, number),
        Content::End => Ok(()),
    }
}

/// Appends the numbers of processors below the plot.
pub(crate) fn push_all_processors(text: &mut String) -> Result<(), AllocError>
    ensures { OnOk result (string_bytes text.new ≡ string_bytes text.old ++ first_lines processors_of 7) }
{
    for k in 0..7 {
        push_processors_of(text, k)?;
    }
    Ok(())
}

/// Appends the number of processors of a machine with this number of stages.
fn push_processors_of(text: &mut String, k: u8) -> Result<(), AllocError>
    requires { k < 7 }
    ensures { OnOk result (string_bytes text.new ≡ string_bytes text.old ++ processors_of k) }
{
    push_processors(text, x_of(k), 1_u8 << k)
}

/// Appends a number of processors below the plot.
#[tactic(auto, unfolding(crate::specs::Canvas::processors_text))]
fn push_processors(text: &mut String, x: u32, number: u8) -> Result<(), AllocError>
    ensures { OnOk result (string_bytes text.new ≡ string_bytes text.old ++ processors_text x number) }
{
    write!(
        text,
        "<text class='middle' x='{x}' y='492'>{number}</text>\n"
    )
}

/// Appends the axes themselves.
#[tactic(auto, unfolding(crate::specs::Canvas::axes))]
pub(crate) fn push_axes(text: &mut String) -> Result<(), AllocError>
    ensures { OnOk result (string_bytes text.new ≡ string_bytes text.old ++ axes) }
{
    text.push_str("<line class='axis' x1='160' y1='460' x2='700' y2='460'/>\n")?;
    text.push_str("<line class='axis' x1='160' y1='60' x2='160' y2='460'/>\n")
}

/// Appends what is below the plot.
#[tactic(auto, unfolding(crate::specs::Canvas::captions))]
pub(crate) fn push_captions(text: &mut String) -> Result<(), AllocError>
    ensures { OnOk result (string_bytes text.new ≡ string_bytes text.old ++ captions) }
{
    text.push_str("<text class='middle' x='430' y='524'>processors</text>\n")?;
    text.push_str(
        "<text class='small' x='160' y='550'>grey mark: the budget is used up; black: a fault</text>\n",
    )
}

/// Appends the end of a picture.
#[tactic(auto, unfolding(crate::specs::Canvas::closing))]
pub(crate) fn push_closing(text: &mut String) -> Result<(), AllocError>
    ensures { OnOk result (string_bytes text.new ≡ string_bytes text.old ++ closing) }
{
    text.push_str("</svg>\n")
}

// ---- lines

/// Appends the class of a line: its colour and its dashes.
#[tactic(auto, unfolding(crate::specs::Canvas::line_class))]
fn push_class(text: &mut String, pen: Pen) -> Result<(), AllocError>
    ensures { OnOk result (string_bytes text.new ≡ string_bytes text.old ++ line_class pen.colour pen.dashes) }
{
    let Pen { colour, dashes } = pen;
    write!(text, "s{colour} d{dashes}")
}

/// Appends the beginning of a line, up to its points.
#[tactic(auto, unfolding(crate::specs::Canvas::line_start))]
pub(crate) fn push_start(text: &mut String, pen: Pen) -> Result<(), AllocError>
    ensures { OnOk result (string_bytes text.new ≡ string_bytes text.old ++ line_start pen.colour pen.dashes) }
{
    push_polyline_start(text)?;
    push_class(text, pen)?;
    push_points_start(text)
}

/// Appends what is before the class of a line.
#[tactic(auto, unfolding(crate::specs::Canvas::polyline_start))]
fn push_polyline_start(text: &mut String) -> Result<(), AllocError>
    ensures { OnOk result (string_bytes text.new ≡ string_bytes text.old ++ polyline_start) }
{
    text.push_str("<polyline class='")
}

/// Appends what is before the points of a line.
#[tactic(auto, unfolding(crate::specs::Canvas::points_start))]
fn push_points_start(text: &mut String) -> Result<(), AllocError>
    ensures { OnOk result (string_bytes text.new ≡ string_bytes text.old ++ points_start) }
{
    text.push_str("' points='")
}

/// Appends a point of a line.
#[tactic(auto, unfolding(crate::specs::Canvas::point_text))]
pub(crate) fn push_point(text: &mut String, point: Point) -> Result<(), AllocError>
    ensures { OnOk result (string_bytes text.new ≡ string_bytes text.old ++ point_text point.x point.y) }
{
    let Point { x, y } = point;
    write!(text, " {x},{y}")
}

/// Appends the end of a line.
#[tactic(auto, unfolding(crate::specs::Canvas::line_end))]
pub(crate) fn push_end(text: &mut String) -> Result<(), AllocError>
    ensures { OnOk result (string_bytes text.new ≡ string_bytes text.old ++ line_end) }
{
    text.push_str("'/>\n")
}

/// Appends the mark of a point.
pub(crate) fn push_mark(
    text: &mut String,
    colour: u8,
    class: &str,
    point: Point,
) -> Result<(), AllocError>
    ensures { OnOk result (string_bytes text.new ≡ string_bytes text.old
        ++ mark_text colour class.now point.x point.y) }
{
    push_mark_start(text, colour, class)?;
    push_mark_place(text, point)
}

/// Appends the beginning of a mark, and its class.
#[tactic(auto, unfolding(crate::specs::Canvas::mark_start))]
fn push_mark_start(text: &mut String, colour: u8, class: &str) -> Result<(), AllocError>
    ensures { OnOk result (string_bytes text.new ≡ string_bytes text.old ++ mark_start colour class.now) }
{
    push_circle_start(text)?;
    push_decimal(text, u32::from(colour))?;
    push_class_end(text, class)
}

/// Appends what is before the colour of a mark.
#[tactic(auto, unfolding(crate::specs::Canvas::circle_start))]
fn push_circle_start(text: &mut String) -> Result<(), AllocError>
    ensures { OnOk result (string_bytes text.new ≡ string_bytes text.old ++ circle_start) }
{
    text.push_str("<circle class='s")
}

/// Appends a further class.
#[tactic(auto, unfolding(crate::specs::Canvas::class_end))]
fn push_class_end(text: &mut String, class: &str) -> Result<(), AllocError>
    ensures { OnOk result (string_bytes text.new ≡ string_bytes text.old ++ class_end class.now) }
{
    write!(text, " {class}'")
}

/// Appends the place of a mark.
#[tactic(auto, unfolding(crate::specs::Canvas::mark_place))]
fn push_mark_place(text: &mut String, point: Point) -> Result<(), AllocError>
    ensures { OnOk result (string_bytes text.new ≡ string_bytes text.old ++ mark_place point.x point.y) }
{
    let Point { x, y } = point;
    write!(text, " cx='{x}' cy='{y}' r='8'/>\n")
}

/// Appends a piece of a line in the legend.
#[tactic(auto, unfolding(crate::specs::Canvas::key_text))]
pub(crate) fn push_key(text: &mut String, pen: Pen, y: u32) -> Result<(), AllocError>
    ensures { OnOk result (string_bytes text.new ≡ string_bytes text.old ++ key_text pen.colour pen.dashes y) }
{
    push_key_start(text)?;
    push_class(text, pen)?;
    push_key_place(text, y)
}

/// Appends what is before the class of a line in the legend.
#[tactic(auto, unfolding(crate::specs::Canvas::key_start))]
fn push_key_start(text: &mut String) -> Result<(), AllocError>
    ensures { OnOk result (string_bytes text.new ≡ string_bytes text.old ++ key_start) }
{
    text.push_str("<line class='key ")
}

/// Appends the place of a line in the legend.
#[tactic(auto, unfolding(crate::specs::Canvas::key_place))]
fn push_key_place(text: &mut String, y: u32) -> Result<(), AllocError>
    ensures { OnOk result (string_bytes text.new ≡ string_bytes text.old ++ key_place y) }
{
    write!(text, "' x1='730' y1='{y}' x2='780' y2='{y}'/>\n")
}

/// Appends what a line stands for, in the legend.
pub(crate) fn push_sizes(text: &mut String, y: u32, b: u8, r: u8) -> Result<(), AllocError>
    ensures { OnOk result (string_bytes text.new ≡ string_bytes text.old ++ sizes_text y b r) }
{
    push_sizes_start(text, y)?;
    push_sizes_pair(text, b, r)
}

/// Appends the beginning of a text in the legend.
#[tactic(auto, unfolding(crate::specs::Canvas::sizes_start))]
fn push_sizes_start(text: &mut String, y: u32) -> Result<(), AllocError>
    ensures { OnOk result (string_bytes text.new ≡ string_bytes text.old ++ sizes_start y) }
{
    write!(text, "<text x='792' y='{y}'>")
}

/// Appends a text in the legend.
#[tactic(auto, unfolding(crate::specs::Canvas::sizes_pair))]
fn push_sizes_pair(text: &mut String, b: u8, r: u8) -> Result<(), AllocError>
    ensures { OnOk result (string_bytes text.new ≡ string_bytes text.old ++ sizes_pair b r) }
{
    write!(text, "b {b} r {r}</text>\n")
}
