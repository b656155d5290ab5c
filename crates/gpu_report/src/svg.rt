//! The elements of a picture.

ghost use Rattle.std.specs.Prelude.{◌≡◌, ◌≤◌, ◌<◌, ◌^◌, ◌*◌, Some};
ghost use Rattle.std.specs.Fmt.{DisplaysOnOk};
ghost use Rattle.gpu_report.specs.Picture.{cell_of};
ghost use Rattle.gpu_report.specs.Svg.{class_name, unit_of, amount_text, named, own_name, style_svg, entry_svg, legend_svg, class_svg, span_svg, swatch_svg, word_svg, what_svg, bytes_svg, height_svg, view_box_svg, rectangle_svg, title_svg, label_svg, cell_svg, page_end_svg, page_ends_svg, shown_pages, scale_note, bar_top, bar_start_svg, picture_start_svg, totals_svg};

use crate::escape::{Escaping, write_escaped};
use crate::place::place;
use std::fmt;

/// What a rectangle stands for.
#[derive(Clone, Copy)]
pub enum Look {
    /// Bytes that no piece takes.
    Gap,
    /// Bytes before a piece's own.
    Padding,
    Linear,
    NonLinear,
    /// A piece whose kind isn't known.
    Piece,
    /// Gaps and padding, which a report doesn't tell apart.
    Rest,
}

/// The bytes from `start` up to `end` of a block, what they are, and their piece's name.
#[derive(Clone, Copy)]
pub struct Shown<'a> {
    pub look: Look,
    pub start: u64,
    pub end: u64,
    pub name: &'a str,
}

/// A bar's block, in bytes, and the bar's width.
#[derive(Clone, Copy)]
pub struct Scale {
    pub size: u64,
    pub width: u64,
}

fn class_of(look: Look) -> &'static str
    ensures { result.now ≡ class_name look }
{
    match look {
        Look::Gap => "gap",
        Look::Padding => "padding",
        Look::Linear => "linear",
        Look::NonLinear => "nonlinear",
        Look::Piece => "piece",
        Look::Rest => "rest",
    }
}

fn unit_of(bytes: u64) -> (u64, &'static str)
    ensures unit { result.0 ≡ (unit_of bytes).0 }
    ensures name { result.1.now ≡ (unit_of bytes).1 }
    ensures bounded { (0 < result.0) × (result.0 ≤ 2 ^ 60) }
{
    if bytes < 1 << 20 {
        (1 << 10, " KiB")
    } else if bytes < 1 << 30 {
        (1 << 20, " MiB")
    } else if bytes < 1 << 40 {
        (1 << 30, " GiB")
    } else if bytes < 1 << 50 {
        (1 << 40, " TiB")
    } else if bytes < 1 << 60 {
        (1 << 50, " PiB")
    } else {
        (1 << 60, " EiB")
    }
}

/// Writes an amount of bytes in the largest unit that it reaches, cut to a tenth.
#[tactic(auto, unfolding(crate::specs::Svg::amount_text))]
pub fn write_amount<W: fmt::Write>(bytes: u64, f: &mut fmt::Formatter<W>) -> fmt::Result
    ensures { DisplaysOnOk W.write_str_gives f.old result (Some (amount_text bytes)) f.new }
{
    if bytes < 1024 {
        return write!(f, "{bytes} B");
    }
    let (unit, name) = unit_of(bytes);
    let whole = bytes / unit;
    let tenth = bytes % unit * 10 / unit;
    write!(f, "{whole}.{tenth}{name}")
}

#[tactic(auto, unfolding(crate::specs::Svg::class_svg))]
pub fn write_class<W: fmt::Write>(look: Look, f: &mut fmt::Formatter<W>) -> fmt::Result
    ensures { DisplaysOnOk W.write_str_gives f.old result (Some (class_svg look)) f.new }
{
    let class = class_of(look);
    write!(f, "<rect class=\"{class}\"")
}

#[tactic(auto, unfolding(crate::specs::Svg::span_svg))]
pub fn write_span<W: fmt::Write>(x: u64, end: u64, f: &mut fmt::Formatter<W>) -> fmt::Result
    ensures { DisplaysOnOk W.write_str_gives f.old result (Some (span_svg x end)) f.new }
{
    let width = end.saturating_sub(x);
    write!(f, " x=\"{x}\" width=\"{width}\"")
}

#[tactic(auto, unfolding(crate::specs::Svg::rectangle_svg))]
fn write_rectangle<W: fmt::Write>(
    x: u64,
    end: u64,
    look: Look,
    f: &mut fmt::Formatter<W>,
) -> fmt::Result
    ensures { DisplaysOnOk W.write_str_gives f.old result (Some (rectangle_svg x end look)) f.new }
{
    write_class(look, f)?;
    write_span(x, end, f)?;
    f.write_str(" y=\"150\" height=\"350\">")
}

#[tactic(auto, unfolding(crate::specs::Svg::what_svg))]
pub fn write_what<W: fmt::Write>(look: Look, f: &mut fmt::Formatter<W>) -> fmt::Result
    ensures { DisplaysOnOk W.write_str_gives f.old result (Some (what_svg look)) f.new }
{
    let class = class_of(look);
    write!(f, "<title>{class}, ")
}

#[tactic(auto, unfolding(crate::specs::Svg::bytes_svg))]
pub fn write_bytes<W: fmt::Write>(start: u64, end: u64, f: &mut fmt::Formatter<W>) -> fmt::Result
    ensures { DisplaysOnOk W.write_str_gives f.old result (Some (bytes_svg start end)) f.new }
{
    let bytes = end.saturating_sub(start);
    write!(f, "{bytes} bytes at {start}")
}

pub fn write_named<W: fmt::Write>(name: &str, f: &mut fmt::Formatter<W>) -> fmt::Result
    ensures { DisplaysOnOk W.write_str_gives f.old result (Some (named name.now)) f.new }
{
    if name.is_empty() {
        return Ok(());
    }
    f.write_str(": ")?;
    write_escaped(Escaping::Xml, name, f)
}

#[tactic(auto, unfolding(crate::specs::Svg::title_svg))]
fn write_title<W: fmt::Write>(shown: Shown<'_>, f: &mut fmt::Formatter<W>) -> fmt::Result
    ensures { DisplaysOnOk W.write_str_gives f.old result (Some (title_svg (cell_of shown.entry)))
        f.new }
{
    write_what(shown.look, f)?;
    write_bytes(shown.start, shown.end, f)?;
    write_named(shown.name, f)?;
    f.write_str("</title></rect>\n")
}

#[tactic(auto, unfolding(crate::specs::Svg::label_svg))]
fn write_label<W: fmt::Write>(
    x: u64,
    end: u64,
    name: &str,
    f: &mut fmt::Formatter<W>,
) -> fmt::Result
    requires { x ≤ 10000 }
    ensures { DisplaysOnOk W.write_str_gives f.old result (Some (label_svg x end name.now)) f.new }
{
    if name.is_empty() || name.len() as u64 > end.saturating_sub(x) / 75 {
        return Ok(());
    }
    let inside = x + 30;
    write!(f, "<text x=\"{inside}\" y=\"360\">")?;
    write_escaped(Escaping::Xml, name, f)?;
    f.write_str("</text>\n")
}

fn own_name<'a>(shown: Shown<'a>) -> &'a str
    ensures { result.now ≡ own_name shown.entry.look shown.entry.name.now }
{
    match shown.look {
        Look::Gap | Look::Padding | Look::Rest => "",
        Look::Linear | Look::NonLinear | Look::Piece => shown.name,
    }
}

/// Writes the rectangle of a block's bytes, and the name on it where it fits.
#[tactic(auto, unfolding(crate::specs::Svg::cell_svg))]
pub fn write_cell<W: fmt::Write>(
    scale: Scale,
    shown: Shown<'_>,
    f: &mut fmt::Formatter<W>,
) -> fmt::Result
    requires { scale.width ≤ 10000 }
    ensures { DisplaysOnOk W.write_str_gives f.old result
        (Some (cell_svg scale.size scale.width (cell_of shown.entry))) f.new }
{
    let x = place(scale.size, scale.width, shown.start);
    let end = place(scale.size, scale.width, shown.end);
    write_rectangle(x, end, shown.look, f)?;
    write_title(shown, f)?;
    write_label(x, end, own_name(shown), f)
}

#[tactic(auto, unfolding(crate::specs::Svg::page_end_svg))]
fn write_page_end<W: fmt::Write>(x: u64, f: &mut fmt::Formatter<W>) -> fmt::Result
    ensures { DisplaysOnOk W.write_str_gives f.old result (Some (page_end_svg x)) f.new }
{
    write!(f, "<path class=\"line\" d=\"M{x} 150v350\"/>\n")
}

/// How many ends of pages a bar shows.
fn shown_pages(size: u64, page: u64) -> u64
    ensures shown { result ≡ shown_pages size page }
    ensures within { result * page ≤ size }
{
    if page <= 1 || size / page > 250 {
        return 0;
    }
    size / page
}

/// Writes where the pages end.
pub fn write_page_ends<W: fmt::Write>(
    scale: Scale,
    page: u64,
    f: &mut fmt::Formatter<W>,
) -> fmt::Result
    ensures { DisplaysOnOk W.write_str_gives f.old result
        (Some (page_ends_svg scale.size scale.width page (shown_pages scale.size page))) f.new }
{
    for k in 0..shown_pages(scale.size, page) {
        write_page_end(place(scale.size, scale.width, (k + 1) * page), f)?;
    }
    Ok(())
}

/// Writes that the bar of a block of `size` bytes isn't to scale, where it isn't.
pub fn write_scale_note<W: fmt::Write>(
    largest: u64,
    size: u64,
    f: &mut fmt::Formatter<W>,
) -> fmt::Result
    ensures { DisplaysOnOk W.write_str_gives f.old result (Some (scale_note largest size)) f.new }
{
    if place(largest, 10_000, size) >= 1250 {
        return Ok(());
    }
    f.write_str(", not to scale")
}

fn bar_top(i: u64) -> u64
    ensures { result ≡ bar_top i }
{
    i.saturating_mul(70).saturating_add(70)
}

/// Writes the beginning of the bar with index `i`, up to its label.
#[tactic(auto, unfolding(crate::specs::Svg::bar_start_svg))]
pub fn write_bar_start<W: fmt::Write>(i: u64, f: &mut fmt::Formatter<W>) -> fmt::Result
    ensures { DisplaysOnOk W.write_str_gives f.old result (Some (bar_start_svg i)) f.new }
{
    let top = bar_top(i);
    write!(
        f,
        "<g transform=\"translate(200 {top}0)\">\n<text x=\"0\" y=\"110\">"
    )
}

#[tactic(auto, unfolding(crate::specs::Svg::height_svg))]
fn write_height<W: fmt::Write>(bars: u64, f: &mut fmt::Formatter<W>) -> fmt::Result
    ensures { DisplaysOnOk W.write_str_gives f.old result (Some (height_svg bars)) f.new }
{
    let height = bar_top(bars);
    write!(
        f,
        "<svg xmlns=\"http://www.w3.org/2000/svg\" width=\"1040\" height=\"{height}\""
    )
}

#[tactic(auto, unfolding(crate::specs::Svg::view_box_svg))]
fn write_view_box<W: fmt::Write>(bars: u64, f: &mut fmt::Formatter<W>) -> fmt::Result
    ensures { DisplaysOnOk W.write_str_gives f.old result (Some (view_box_svg bars)) f.new }
{
    let height = bar_top(bars);
    write!(
        f,
        " viewBox=\"0 0 10400 {height}0\" font-family=\"monospace\" font-size=\"110\">\n"
    )
}

/// Writes the beginning of a picture.
#[tactic(auto, unfolding(crate::specs::Svg::picture_start_svg))]
pub fn write_picture_start<W: fmt::Write>(bars: u64, f: &mut fmt::Formatter<W>) -> fmt::Result
    ensures { DisplaysOnOk W.write_str_gives f.old result (Some (picture_start_svg bars)) f.new }
{
    write_height(bars, f)?;
    write_view_box(bars, f)
}

/// Writes the colours.
#[tactic(auto, unfolding(crate::specs::Svg::style_svg))]
pub fn write_style<W: fmt::Write>(f: &mut fmt::Formatter<W>) -> fmt::Result
    ensures { DisplaysOnOk W.write_str_gives f.old result (Some style_svg) f.new }
{
    f.write_str(
        "<style>rect{stroke:#000;stroke-width:1}.sheet{fill:#fff;stroke:none}.gap,.rest{fill:#eee}.padding{fill:#cc79a7}",
    )?;
    f.write_str(
        ".linear{fill:#56b4e9}.nonlinear{fill:#e69f00}.piece{fill:#009e73}.line{stroke:#000;stroke-width:4;stroke-dasharray:12 24}</style>\n",
    )?;
    f.write_str("<rect class=\"sheet\" width=\"100%\" height=\"100%\"/>\n")
}

#[tactic(auto, unfolding(crate::specs::Svg::swatch_svg))]
fn write_swatch<W: fmt::Write>(x: u64, f: &mut fmt::Formatter<W>) -> fmt::Result
    ensures { DisplaysOnOk W.write_str_gives f.old result (Some (swatch_svg x)) f.new }
{
    write!(f, " x=\"{x}\" y=\"400\" width=\"150\" height=\"150\"/>")
}

#[tactic(auto, unfolding(crate::specs::Svg::word_svg))]
fn write_word<W: fmt::Write>(x: u64, look: Look, f: &mut fmt::Formatter<W>) -> fmt::Result
    requires { x ≤ 10000 }
    ensures { DisplaysOnOk W.write_str_gives f.old result (Some (word_svg x look)) f.new }
{
    let class = class_of(look);
    let behind = x + 200;
    write!(f, "<text x=\"{behind}\" y=\"520\">{class}</text>\n")
}

/// Writes one entry of a legend, `x` from the left.
#[tactic(auto, unfolding(crate::specs::Svg::entry_svg))]
pub fn write_entry<W: fmt::Write>(x: u64, look: Look, f: &mut fmt::Formatter<W>) -> fmt::Result
    requires { x ≤ 10000 }
    ensures { DisplaysOnOk W.write_str_gives f.old result (Some (entry_svg x look)) f.new }
{
    write_class(look, f)?;
    write_swatch(x, f)?;
    write_word(x, look, f)
}

/// Writes the legend of a picture of blocks.
#[tactic(auto, unfolding(crate::specs::Svg::legend_svg))]
pub fn write_legend<W: fmt::Write>(f: &mut fmt::Formatter<W>) -> fmt::Result
    ensures { DisplaysOnOk W.write_str_gives f.old result (Some legend_svg) f.new }
{
    write_entry(200, Look::Linear, f)?;
    write_entry(1700, Look::NonLinear, f)?;
    write_entry(3200, Look::Padding, f)?;
    write_entry(4700, Look::Gap, f)?;
    f.write_str(
        "<path class=\"line\" d=\"M6275 400v150\"/><text x=\"6400\" y=\"520\">end of a page</text>\n",
    )
}

/// Writes how many blocks and pieces there are, and what is taken, up to the element's end.
#[tactic(auto, unfolding(crate::specs::Svg::totals_svg))]
pub fn write_totals<W: fmt::Write>(
    blocks: usize,
    pieces: usize,
    taken: u64,
    capacity: u64,
    f: &mut fmt::Formatter<W>,
) -> fmt::Result
    ensures { DisplaysOnOk W.write_str_gives f.old result
        (Some (totals_svg blocks pieces taken capacity)) f.new }
{
    write!(
        f,
        "<text x=\"200\" y=\"250\" font-size=\"150\">{blocks} blocks, {pieces} pieces: "
    )?;
    write_amount(taken, f)?;
    f.write_str(" of ")?;
    write_amount(capacity, f)?;
    f.write_str(" taken")
}
