//! A picture of a plan: passes across, and the heap's bytes up.

ghost use Rattle.std.specs.Prelude.{◌≡◌, ◌≤◌, ◌<◌, Some};
ghost use Rattle.std.specs.List.{flat_map};
ghost use Rattle.std.specs.Fmt.{DisplaysOnOk};
ghost use Rattle.gpu_report.specs.Svg.{bytes_svg, what_svg};
ghost use Rattle.gpu_report.specs.PlanSvg.{look_of, end_pass, end_byte, passes_from, level, area_of, lives_svg, title_svg, upright_svg, rectangle_svg, label_svg, resource_svg, pass_svg, passes_svg, shown_passes, peak_svg, heap_svg, plan_line, plan_legend_svg, picture_svg};

use crate::ResourceView;
use crate::escape::{Escaping, write_escaped};
use crate::place::place;
use crate::svg::{
    Look, write_amount, write_bytes, write_class, write_entry, write_named, write_picture_start,
    write_span, write_style, write_what,
};
use gpu_plan::Kind;
use std::fmt;

/// How many passes and how many bytes are drawn.
#[derive(Clone, Copy)]
pub struct Extents {
    pub passes: u64,
    pub heap: u64,
}

/// A rectangle: a resource's passes from the left to the right, its bytes from the bottom to the top.
#[derive(Clone, Copy)]
pub struct Area {
    pub left: u64,
    pub right: u64,
    pub top: u64,
    pub bottom: u64,
}

fn look_of(kind: Kind) -> Look
    ensures { result ≡ look_of kind }
{
    match kind {
        Kind::Linear => Look::Linear,
        Kind::Optimal => Look::NonLinear,
    }
}

/// The pass behind a resource's last one.
fn end_pass(view: &ResourceView<'_>) -> u64
    ensures { result ≡ end_pass view.now }
{
    view.placed.resource.last.saturating_add(1)
}

/// The byte behind a resource's last one.
fn end_byte(view: &ResourceView<'_>) -> u64
    ensures { result ≡ end_byte view.now }
{
    view.placed.offset.saturating_add(view.placed.resource.size)
}

/// How many passes there are, from pass 0 on.
fn passes_of(views: &[ResourceView<'_>]) -> u64
    ensures { result ≡ passes_from 0 views.now }
{
    let mut passes = 0;
    for view in views {
        passes = passes.max(end_pass(view));
    }
    passes
}

/// How far a byte lies from the top.
fn level(heap: u64, at: u64) -> u64
    ensures level { result ≡ level heap at }
    ensures within { result ≤ 4500 }
{
    4500 - place(heap, 4500, at)
}

#[tactic(auto, unfolding(crate::specs::PlanSvg::area_of))]
fn area_of(extents: Extents, view: &ResourceView<'_>) -> Area
    ensures area { result ≡ area_of extents view.now }
    ensures left { result.left ≤ 10000 }
    ensures top { result.top ≤ 4500 }
{
    Area {
        left: place(extents.passes, 10_000, view.placed.resource.first),
        right: place(extents.passes, 10_000, end_pass(view)),
        top: level(extents.heap, end_byte(view)),
        bottom: level(extents.heap, view.placed.offset),
    }
}

fn write_kind<W: fmt::Write>(kind: Kind, f: &mut fmt::Formatter<W>) -> fmt::Result
    ensures { DisplaysOnOk W.write_str_gives f.old result (Some (what_svg (look_of kind))) f.new }
{
    write_what(look_of(kind), f)
}

fn write_place<W: fmt::Write>(view: &ResourceView<'_>, f: &mut fmt::Formatter<W>) -> fmt::Result
    ensures { DisplaysOnOk W.write_str_gives f.old result
        (Some (bytes_svg view.now.placed.offset (end_byte view.now))) f.new }
{
    write_bytes(view.placed.offset, end_byte(view), f)
}

#[tactic(auto, unfolding(crate::specs::PlanSvg::lives_svg))]
fn write_lives<W: fmt::Write>(first: u64, last: u64, f: &mut fmt::Formatter<W>) -> fmt::Result
    ensures { DisplaysOnOk W.write_str_gives f.old result (Some (lives_svg first last)) f.new }
{
    write!(f, ", passes {first} to {last}")
}

#[tactic(auto, unfolding(crate::specs::PlanSvg::title_svg))]
fn write_title<W: fmt::Write>(view: &ResourceView<'_>, f: &mut fmt::Formatter<W>) -> fmt::Result
    ensures { DisplaysOnOk W.write_str_gives f.old result (Some (title_svg view.now)) f.new }
{
    let resource = view.placed.resource;
    write_kind(resource.kind, f)?;
    write_place(view, f)?;
    write_lives(resource.first, resource.last, f)?;
    write_named(view.name, f)?;
    f.write_str("</title></rect>\n")
}

#[tactic(auto, unfolding(crate::specs::PlanSvg::upright_svg))]
fn write_upright<W: fmt::Write>(top: u64, bottom: u64, f: &mut fmt::Formatter<W>) -> fmt::Result
    ensures { DisplaysOnOk W.write_str_gives f.old result (Some (upright_svg top bottom)) f.new }
{
    let height = bottom.saturating_sub(top);
    write!(f, " y=\"{top}\" height=\"{height}\">")
}

#[tactic(auto, unfolding(crate::specs::PlanSvg::rectangle_svg))]
fn write_rectangle<W: fmt::Write>(look: Look, area: Area, f: &mut fmt::Formatter<W>) -> fmt::Result
    ensures { DisplaysOnOk W.write_str_gives f.old result (Some (rectangle_svg look area)) f.new }
{
    write_class(look, f)?;
    write_span(area.left, area.right, f)?;
    write_upright(area.top, area.bottom, f)
}

/// Writes a name on a rectangle, where it fits.
#[tactic(auto, unfolding(crate::specs::PlanSvg::label_svg))]
fn write_label<W: fmt::Write>(area: Area, name: &str, f: &mut fmt::Formatter<W>) -> fmt::Result
    requires left { area.left ≤ 10000 }
    requires top { area.top ≤ 4500 }
    ensures { DisplaysOnOk W.write_str_gives f.old result (Some (label_svg area name.now)) f.new }
{
    if area.bottom.saturating_sub(area.top) < 150
        || name.len() as u64 > area.right.saturating_sub(area.left) / 75
    {
        return Ok(());
    }
    let x = area.left + 30;
    let y = area.top + 120;
    write!(f, "<text x=\"{x}\" y=\"{y}\">")?;
    write_escaped(Escaping::Xml, name, f)?;
    f.write_str("</text>\n")
}

/// Writes a resource's rectangle, from its first pass to the end of its last and from its offset to its end, and its name.
#[tactic(auto, unfolding(crate::specs::PlanSvg::resource_svg))]
fn write_resource<W: fmt::Write>(
    extents: Extents,
    view: &ResourceView<'_>,
    f: &mut fmt::Formatter<W>,
) -> fmt::Result
    ensures { DisplaysOnOk W.write_str_gives f.old result (Some (resource_svg extents view.now))
        f.new }
{
    let area = area_of(extents, view);
    write_rectangle(look_of(view.placed.resource.kind), area, f)?;
    write_title(view, f)?;
    write_label(area, view.name, f)
}

fn write_resources<W: fmt::Write>(
    extents: Extents,
    views: &[ResourceView<'_>],
    f: &mut fmt::Formatter<W>,
) -> fmt::Result
    ensures { DisplaysOnOk W.write_str_gives f.old result
        (Some (flat_map (resource_svg extents) views.now)) f.new }
{
    for view in views {
        write_resource(extents, view, f)?;
    }
    Ok(())
}

/// Writes where a pass begins, and its number.
#[tactic(auto, unfolding(crate::specs::PlanSvg::pass_svg))]
fn write_pass<W: fmt::Write>(passes: u64, pass: u64, f: &mut fmt::Formatter<W>) -> fmt::Result
    ensures { DisplaysOnOk W.write_str_gives f.old result (Some (pass_svg passes pass)) f.new }
{
    let x = place(passes, 10_000, pass);
    let inside = x + 30;
    write!(
        f,
        "<path class=\"line\" d=\"M{x} 0v4500\"/><text x=\"{inside}\" y=\"4630\">{pass}</text>\n"
    )
}

/// How many passes are numbered.
fn shown_passes(passes: u64) -> u64
    ensures { result ≡ shown_passes passes }
{
    if passes > 50 {
        return 0;
    }
    passes
}

fn write_passes<W: fmt::Write>(passes: u64, f: &mut fmt::Formatter<W>) -> fmt::Result
    ensures { DisplaysOnOk W.write_str_gives f.old result
        (Some (passes_svg passes (shown_passes passes))) f.new }
{
    for pass in 0..shown_passes(passes) {
        write_pass(passes, pass, f)?;
    }
    Ok(())
}

/// Writes a line at the most bytes that are alive in one pass.
#[tactic(auto, unfolding(crate::specs::PlanSvg::peak_svg))]
fn write_peak<W: fmt::Write>(heap: u64, peak: u64, f: &mut fmt::Formatter<W>) -> fmt::Result
    ensures { DisplaysOnOk W.write_str_gives f.old result (Some (peak_svg heap peak)) f.new }
{
    let y = level(heap, peak);
    write!(
        f,
        "<path d=\"M0 {y}h10000\" stroke=\"#d55e00\" stroke-width=\"16\"><title>peak, {peak} bytes</title></path>\n"
    )
}

/// Writes the beginning of the heap, on which the resources lie.
#[tactic(auto, unfolding(crate::specs::PlanSvg::heap_svg))]
fn write_heap<W: fmt::Write>(heap: u64, f: &mut fmt::Formatter<W>) -> fmt::Result
    ensures { DisplaysOnOk W.write_str_gives f.old result (Some (heap_svg heap)) f.new }
{
    write!(
        f,
        "<g transform=\"translate(200 700)\">\n<rect class=\"gap\" width=\"10000\" height=\"4500\"><title>heap, {heap} bytes</title></rect>\n"
    )
}

/// Writes how many resources and passes there are, the heap and the peak.
#[tactic(auto, unfolding(crate::specs::PlanSvg::plan_line))]
fn write_line<W: fmt::Write>(
    resources: usize,
    extents: Extents,
    peak: u64,
    f: &mut fmt::Formatter<W>,
) -> fmt::Result
    ensures { DisplaysOnOk W.write_str_gives f.old result
        (Some (plan_line resources extents peak)) f.new }
{
    let passes = extents.passes;
    write!(
        f,
        "<text x=\"200\" y=\"250\" font-size=\"150\">{resources} resources in {passes} passes: heap "
    )?;
    write_amount(extents.heap, f)?;
    f.write_str(", peak ")?;
    write_amount(peak, f)?;
    f.write_str("</text>\n")
}

/// Writes the legend.
#[tactic(auto, unfolding(crate::specs::PlanSvg::plan_legend_svg))]
fn write_plan_legend<W: fmt::Write>(f: &mut fmt::Formatter<W>) -> fmt::Result
    ensures { DisplaysOnOk W.write_str_gives f.old result (Some plan_legend_svg) f.new }
{
    write_entry(200, Look::Linear, f)?;
    write_entry(1700, Look::NonLinear, f)?;
    write_entry(3200, Look::Gap, f)?;
    f.write_str(
        "<path d=\"M4700 475h150\" stroke=\"#d55e00\" stroke-width=\"16\"/><text x=\"4900\" y=\"520\">peak</text>\n",
    )?;
    f.write_str(
        "<path class=\"line\" d=\"M6275 400v150\"/><text x=\"6400\" y=\"520\">start of a pass</text>\n",
    )
}

#[tactic(auto, unfolding(crate::specs::PlanSvg::picture_svg))]
fn write_picture<W: fmt::Write>(
    extents: Extents,
    peak: u64,
    resources: &[ResourceView<'_>],
    f: &mut fmt::Formatter<W>,
) -> fmt::Result
    ensures { DisplaysOnOk W.write_str_gives f.old result
        (Some (picture_svg extents peak resources.now)) f.new }
{
    write_picture_start(7, f)?;
    write_style(f)?;
    write_line(resources.len(), extents, peak, f)?;
    write_plan_legend(f)?;
    write_heap(extents.heap, f)?;
    write_resources(extents, resources, f)?;
    write_passes(extents.passes, f)?;
    write_peak(extents.heap, peak, f)?;
    f.write_str("</g>\n</svg>\n")
}

/// A plan as a picture: passes from left to right, the heap's bytes from the bottom up, and a rectangle for each resource, from its
/// first pass to the end of its last and from its offset to its end. docs/REPORT.md says what it shows. Printing it takes no memory,
/// and fails where the writer does. Heap and peak are bytes.
#[derive(Clone, Copy)]
pub struct PlanSvg<'a> {
    pub resources: &'a [ResourceView<'a>],
    pub heap: u64,
    pub peak: u64,
}

impl<'a> fmt::Display for PlanSvg<'a> {
    ghost use Rattle.gpu_report.specs.PlanSvg.{plan_svg};

    ghost output = { λ p. Some (plan_svg p.resources.now p.heap p.peak) };

    fn fmt<W: fmt::Write>(&self, f: &mut fmt::Formatter<W>) -> fmt::Result {
        let extents = Extents {
            passes: passes_of(self.resources),
            heap: self.heap,
        };
        write_picture(extents, self.peak, self.resources, f)
    }
}
