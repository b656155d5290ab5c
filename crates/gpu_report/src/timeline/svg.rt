//! A picture of samples: a chart for each memory type.

ghost use Rattle.std.specs.Prelude.{◌≡◌, ◌≤◌, ◌<◌, Some};
ghost use Rattle.std.specs.Fmt.{DisplaysOnOk};
ghost use Rattle.gpu_report.specs.Timeline.{level, step_svg, column_svg, columns_svg, class_name, curve_start_svg, curve_svg, peak_note, chart_top, chart_start_svg, label_svg, frame_svg, chart_svg, charts_svg, mark_svg, marked_svg, marks_svg, height_svg, view_box_svg, style_svg, totals_svg, legend_svg, picture_svg};
ghost use Rattle.gpu_report.specs.Samples.{column_count};

use crate::place::place;
use crate::timeline::columns::{column, column_count};
use crate::timeline::samples::{Measure, Sample, first_line, greatest, least, sum};
use crate::write_amount;
use std::fmt;

/// What a curve shows, and the amount that reaches a chart's top.
#[derive(Clone, Copy)]
struct Curve {
    measure: Measure,
    scale: u64,
}

fn level(scale: u64, amount: u64) -> u64
    ensures { result ≡ level scale amount }
{
    1150 - place(scale, 1000, amount)
}

#[tactic(auto, unfolding(crate::specs::Timeline::step_svg))]
fn write_step<W: fmt::Write>(x: u64, low: u64, high: u64, f: &mut fmt::Formatter<W>) -> fmt::Result
    ensures { DisplaysOnOk W.write_str_gives f.old result (Some (step_svg x low high)) f.new }
{
    write!(f, "H{x}V{low}V{high}")
}

/// Writes a column of a curve, from the least to the greatest amount of its samples.
#[tactic(auto, unfolding(crate::specs::Timeline::column_svg))]
fn write_column<W: fmt::Write>(
    curve: Curve,
    count: u64,
    samples: &[Sample],
    j: u64,
    f: &mut fmt::Formatter<W>,
) -> fmt::Result
    requires { j ≤ 1000 }
    ensures { DisplaysOnOk W.write_str_gives f.old result
        (Some (column_svg curve.measure curve.scale count samples.now j)) f.new }
{
    let part = column(count, j, samples);
    let low = level(curve.scale, least(curve.measure, part));
    let high = level(curve.scale, greatest(curve.measure, part));
    write_step(place(count, 10_000, j), low, high, f)
}

fn write_columns<W: fmt::Write>(
    curve: Curve,
    samples: &[Sample],
    f: &mut fmt::Formatter<W>,
) -> fmt::Result
    ensures { DisplaysOnOk W.write_str_gives f.old result
        (Some (columns_svg curve.measure curve.scale (column_count samples.now) samples.now
        (column_count samples.now))) f.new }
{
    let count = column_count(samples);
    for j in 0..count {
        write_column(curve, count, samples, j, f)?;
    }
    Ok(())
}

fn class_of(measure: Measure) -> &'static str
    ensures { result.now ≡ class_name measure }
{
    match measure {
        Measure::Blocks(_) => "blocks",
        Measure::Pieces(_) => "pieces",
        Measure::Refused => "refused",
        Measure::Types => "types",
    }
}

#[tactic(auto, unfolding(crate::specs::Timeline::curve_start_svg))]
fn write_curve_start<W: fmt::Write>(measure: Measure, f: &mut fmt::Formatter<W>) -> fmt::Result
    ensures { DisplaysOnOk W.write_str_gives f.old result (Some (curve_start_svg measure)) f.new }
{
    let class = class_of(measure);
    write!(f, "<path class=\"{class}\" d=\"M0 1150")
}

#[tactic(auto, unfolding(crate::specs::Timeline::curve_svg))]
fn write_curve<W: fmt::Write>(
    curve: Curve,
    samples: &[Sample],
    f: &mut fmt::Formatter<W>,
) -> fmt::Result
    ensures { DisplaysOnOk W.write_str_gives f.old result
        (Some (curve_svg curve.measure curve.scale samples.now)) f.new }
{
    write_curve_start(curve.measure, f)?;
    write_columns(curve, samples, f)?;
    f.write_str("H10000\"/>\n")
}

/// Writes the greatest amount, and where it first was so.
#[tactic(auto, unfolding(crate::specs::Timeline::peak_note))]
fn write_peak<W: fmt::Write>(
    measure: Measure,
    samples: &[Sample],
    f: &mut fmt::Formatter<W>,
) -> fmt::Result
    ensures { DisplaysOnOk W.write_str_gives f.old result (Some (peak_note measure samples.now))
        f.new }
{
    let peak = greatest(measure, samples);
    let line = first_line(measure, peak, samples);
    write_amount(peak, f)?;
    write!(f, " at line {line}")
}

fn chart_top(t: u64) -> u64
    ensures { result ≡ chart_top t }
{
    t.saturating_mul(140).saturating_add(80)
}

#[tactic(auto, unfolding(crate::specs::Timeline::chart_start_svg))]
fn write_chart_start<W: fmt::Write>(t: u64, f: &mut fmt::Formatter<W>) -> fmt::Result
    ensures { DisplaysOnOk W.write_str_gives f.old result (Some (chart_start_svg t)) f.new }
{
    let top = chart_top(t);
    write!(
        f,
        "<g transform=\"translate(200 {top}0)\">\n<text x=\"0\" y=\"110\">type {t}"
    )
}

#[tactic(auto, unfolding(crate::specs::Timeline::label_svg))]
fn write_label<W: fmt::Write>(
    t: usize,
    samples: &[Sample],
    f: &mut fmt::Formatter<W>,
) -> fmt::Result
    ensures { DisplaysOnOk W.write_str_gives f.old result (Some (label_svg t samples.now)) f.new }
{
    f.write_str(": blocks at most ")?;
    write_peak(Measure::Blocks(t), samples, f)?;
    f.write_str(", pieces at most ")?;
    write_peak(Measure::Pieces(t), samples, f)?;
    f.write_str("</text>\n")
}

#[tactic(auto, unfolding(crate::specs::Timeline::frame_svg))]
fn write_frame<W: fmt::Write>(f: &mut fmt::Formatter<W>) -> fmt::Result
    ensures { DisplaysOnOk W.write_str_gives f.old result (Some frame_svg) f.new }
{
    f.write_str("<rect class=\"frame\" y=\"150\" width=\"10000\" height=\"1000\"/>\n")
}

/// Writes the chart of the memory type with index `t`.
#[tactic(auto, unfolding(crate::specs::Timeline::chart_svg))]
fn write_chart<W: fmt::Write>(
    t: usize,
    samples: &[Sample],
    f: &mut fmt::Formatter<W>,
) -> fmt::Result
    ensures { DisplaysOnOk W.write_str_gives f.old result (Some (chart_svg t samples.now)) f.new }
{
    let scale = greatest(Measure::Blocks(t), samples);
    let blocks = Curve {
        measure: Measure::Blocks(t),
        scale,
    };
    let pieces = Curve {
        measure: Measure::Pieces(t),
        scale,
    };
    write_chart_start(t as u64, f)?;
    write_label(t, samples, f)?;
    write_frame(f)?;
    write_curve(blocks, samples, f)?;
    write_curve(pieces, samples, f)?;
    f.write_str("</g>\n")
}

fn write_charts<W: fmt::Write>(
    charts: u64,
    samples: &[Sample],
    f: &mut fmt::Formatter<W>,
) -> fmt::Result
    ensures { DisplaysOnOk W.write_str_gives f.old result (Some (charts_svg samples.now charts))
        f.new }
{
    for t in 0..charts {
        write_chart(t as usize, samples, f)?;
    }
    Ok(())
}

#[tactic(auto, unfolding(crate::specs::Timeline::mark_svg))]
fn write_mark<W: fmt::Write>(x: u64, line: u64, f: &mut fmt::Formatter<W>) -> fmt::Result
    ensures { DisplaysOnOk W.write_str_gives f.old result (Some (mark_svg x line)) f.new }
{
    write!(
        f,
        "<path class=\"refused\" d=\"M{x} 600v150\"><title>line {line}</title></path>\n"
    )
}

/// Writes a column's mark, where a command of it was refused.
#[tactic(auto, unfolding(crate::specs::Timeline::marked_svg))]
fn write_marked<W: fmt::Write>(
    count: u64,
    samples: &[Sample],
    j: u64,
    f: &mut fmt::Formatter<W>,
) -> fmt::Result
    requires { j ≤ 1000 }
    ensures { DisplaysOnOk W.write_str_gives f.old result (Some (marked_svg count samples.now j))
        f.new }
{
    let part = column(count, j, samples);
    if greatest(Measure::Refused, part) == 0 {
        return Ok(());
    }
    let line = first_line(Measure::Refused, 1, part);
    write_mark(200 + place(count, 10_000, j), line, f)
}

fn write_marks<W: fmt::Write>(samples: &[Sample], f: &mut fmt::Formatter<W>) -> fmt::Result
    ensures { DisplaysOnOk W.write_str_gives f.old result
        (Some (marks_svg (column_count samples.now) samples.now (column_count samples.now))) f.new }
{
    let count = column_count(samples);
    for j in 0..count {
        write_marked(count, samples, j, f)?;
    }
    Ok(())
}

#[tactic(auto, unfolding(crate::specs::Timeline::height_svg))]
fn write_height<W: fmt::Write>(charts: u64, f: &mut fmt::Formatter<W>) -> fmt::Result
    ensures { DisplaysOnOk W.write_str_gives f.old result (Some (height_svg charts)) f.new }
{
    let height = chart_top(charts);
    write!(
        f,
        "<svg xmlns=\"http://www.w3.org/2000/svg\" width=\"1040\" height=\"{height}\""
    )
}

#[tactic(auto, unfolding(crate::specs::Timeline::view_box_svg))]
fn write_view_box<W: fmt::Write>(charts: u64, f: &mut fmt::Formatter<W>) -> fmt::Result
    ensures { DisplaysOnOk W.write_str_gives f.old result (Some (view_box_svg charts)) f.new }
{
    let height = chart_top(charts);
    write!(
        f,
        " viewBox=\"0 0 10400 {height}0\" font-family=\"monospace\" font-size=\"110\">\n"
    )
}

/// Writes the colours.
#[tactic(auto, unfolding(crate::specs::Timeline::style_svg))]
fn write_style<W: fmt::Write>(f: &mut fmt::Formatter<W>) -> fmt::Result
    ensures { DisplaysOnOk W.write_str_gives f.old result (Some style_svg) f.new }
{
    f.write_str(
        "<style>.sheet{fill:#fff}.frame{fill:none;stroke:#999;stroke-width:4}.blocks{fill:none;stroke:#0072b2;stroke-width:16}",
    )?;
    f.write_str(
        ".pieces{fill:none;stroke:#e69f00;stroke-width:16}.refused{stroke:#000;stroke-width:16}</style>\n",
    )?;
    f.write_str("<rect class=\"sheet\" width=\"100%\" height=\"100%\"/>\n")
}

#[tactic(auto, unfolding(crate::specs::Timeline::totals_svg))]
fn write_totals<W: fmt::Write>(
    commands: usize,
    refused: u64,
    f: &mut fmt::Formatter<W>,
) -> fmt::Result
    ensures { DisplaysOnOk W.write_str_gives f.old result (Some (totals_svg commands refused))
        f.new }
{
    write!(
        f,
        "<text x=\"200\" y=\"250\" font-size=\"150\">{commands} commands, {refused} refused</text>\n"
    )
}

/// Writes the legend.
#[tactic(auto, unfolding(crate::specs::Timeline::legend_svg))]
fn write_legend<W: fmt::Write>(f: &mut fmt::Formatter<W>) -> fmt::Result
    ensures { DisplaysOnOk W.write_str_gives f.old result (Some legend_svg) f.new }
{
    f.write_str(
        "<path class=\"blocks\" d=\"M200 475h150\"/><text x=\"400\" y=\"520\">bytes of blocks</text>\n",
    )?;
    f.write_str(
        "<path class=\"pieces\" d=\"M2200 475h150\"/><text x=\"2400\" y=\"520\">bytes of pieces</text>\n",
    )?;
    f.write_str(
        "<path class=\"refused\" d=\"M4275 400v150\"/><text x=\"4400\" y=\"520\">a refused command</text>\n",
    )
}

#[tactic(auto, unfolding(crate::specs::Timeline::picture_svg))]
fn write_picture<W: fmt::Write>(
    charts: u64,
    commands: usize,
    refused: u64,
    samples: &[Sample],
    f: &mut fmt::Formatter<W>,
) -> fmt::Result
    ensures { DisplaysOnOk W.write_str_gives f.old result
        (Some (picture_svg charts commands refused samples.now)) f.new }
{
    write_height(charts, f)?;
    write_view_box(charts, f)?;
    write_style(f)?;
    write_totals(commands, refused, f)?;
    write_legend(f)?;
    write_marks(samples, f)?;
    write_charts(charts, samples, f)?;
    f.write_str("</svg>\n")
}

/// Samples as a picture: for each memory type a chart of its blocks' bytes and of its pieces', and a mark where a command was
/// refused. docs/REPORT.md says what it shows. Printing it takes no memory, and fails where the writer does.
#[derive(Clone, Copy)]
pub struct TimelineSvg<'a>(pub &'a [Sample]);

impl<'a> fmt::Display for TimelineSvg<'a> {
    ghost use Rattle.gpu_report.specs.Timeline.{timeline_svg};

    ghost output = { λ t. Some (timeline_svg t.0.now) };

    fn fmt<W: fmt::Write>(&self, f: &mut fmt::Formatter<W>) -> fmt::Result {
        let samples = self.0;
        let charts = greatest(Measure::Types, samples);
        let refused = sum(Measure::Refused, samples);
        write_picture(charts, samples.len(), refused, samples, f)
    }
}
