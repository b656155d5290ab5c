//! A picture of an allocator's report.

ghost use Rattle.std.specs.Prelude.{◌≡◌, ◌≤◌, Some, length};
ghost use Rattle.std.specs.List.{flat_map};
ghost use Rattle.std.specs.Fmt.{DisplaysOnOk};
ghost use Rattle.gpu_report.specs.Svg.{cell_svg};
ghost use Rattle.gpu_report.specs.ReportSvg.{row_cell, rest_cell, rows_in, largest_of, index_note, count_note, row_label_svg, row_bar_svg, row_bars_svg, report_line, report_legend_svg};

use crate::place::bar_width;
use crate::svg::{
    Look, Scale, Shown, write_amount, write_bar_start, write_cell, write_entry,
    write_picture_start, write_scale_note, write_style, write_totals,
};
use gpu_values::{AllocationReport, AllocatorReport, MemoryBlockReport};
use std::fmt;

fn largest(blocks: &[MemoryBlockReport]) -> u64
    ensures { result ≡ largest_of 0 blocks.now }
{
    let mut largest = 0u64;
    for block in blocks {
        largest = largest.max(block.size);
    }
    largest
}

/// The rows of a block's range.
fn rows_in<'a>(rows: &'a [AllocationReport], block: &MemoryBlockReport) -> &'a [AllocationReport]
    ensures { result.now ≡ rows_in rows.now block.now }
{
    let start = block.allocations.start;
    let end = block.allocations.end;
    if start <= end && end <= rows.len() {
        let upto = &rows[..end];
        return &upto[start..];
    }
    &[]
}

fn write_row<W: fmt::Write>(
    scale: Scale,
    row: &AllocationReport,
    f: &mut fmt::Formatter<W>,
) -> fmt::Result
    requires { scale.width ≤ 10000 }
    ensures { DisplaysOnOk W.write_str_gives f.old result
        (Some (cell_svg scale.size scale.width (row_cell row.now))) f.new }
{
    let shown = Shown {
        look: Look::Piece,
        start: row.offset,
        end: row.offset.saturating_add(row.size),
        name: row.name.as_str(),
    };
    write_cell(scale, shown, f)
}

fn write_rest<W: fmt::Write>(
    scale: Scale,
    block: &MemoryBlockReport,
    f: &mut fmt::Formatter<W>,
) -> fmt::Result
    requires { scale.width ≤ 10000 }
    ensures { DisplaysOnOk W.write_str_gives f.old result
        (Some (cell_svg scale.size scale.width (rest_cell block.now))) f.new }
{
    let shown = Shown {
        look: Look::Rest,
        start: 0,
        end: block.size,
        name: "",
    };
    write_cell(scale, shown, f)
}

fn write_rows<W: fmt::Write>(
    scale: Scale,
    rows: &[AllocationReport],
    f: &mut fmt::Formatter<W>,
) -> fmt::Result
    requires { scale.width ≤ 10000 }
    ensures { DisplaysOnOk W.write_str_gives f.old result
        (Some (flat_map (λ a. cell_svg scale.size scale.width (row_cell a)) rows.now)) f.new }
{
    for row in rows {
        write_row(scale, row, f)?;
    }
    Ok(())
}

#[tactic(auto, unfolding(crate::specs::ReportSvg::index_note))]
fn write_index_note<W: fmt::Write>(
    i: u64,
    block: &MemoryBlockReport,
    f: &mut fmt::Formatter<W>,
) -> fmt::Result
    ensures { DisplaysOnOk W.write_str_gives f.old result (Some (index_note i block.now)) f.new }
{
    let size = block.size;
    write!(f, "block {i}: ")?;
    write_amount(size, f)
}

#[tactic(auto, unfolding(crate::specs::ReportSvg::count_note))]
fn write_count_note<W: fmt::Write>(pieces: usize, f: &mut fmt::Formatter<W>) -> fmt::Result
    ensures { DisplaysOnOk W.write_str_gives f.old result (Some (count_note pieces)) f.new }
{
    write!(f, ", {pieces} pieces")
}

#[tactic(auto, unfolding(crate::specs::ReportSvg::row_label_svg))]
fn write_label<W: fmt::Write>(
    largest: u64,
    i: u64,
    pieces: usize,
    block: &MemoryBlockReport,
    f: &mut fmt::Formatter<W>,
) -> fmt::Result
    ensures { DisplaysOnOk W.write_str_gives f.old result
        (Some (row_label_svg largest i pieces block.now)) f.new }
{
    write_index_note(i, block, f)?;
    write_count_note(pieces, f)?;
    write_scale_note(largest, block.size, f)?;
    f.write_str("</text>\n")
}

#[tactic(auto, unfolding(crate::specs::ReportSvg::row_bar_svg))]
fn write_bar<W: fmt::Write>(
    largest: u64,
    rows: &[AllocationReport],
    i: u64,
    block: &MemoryBlockReport,
    f: &mut fmt::Formatter<W>,
) -> fmt::Result
    ensures { DisplaysOnOk W.write_str_gives f.old result
        (Some (row_bar_svg largest rows.now i block.now)) f.new }
{
    let size = block.size;
    let width = bar_width(largest, size);
    let scale = Scale { size, width };
    let own = rows_in(rows, block);
    write_bar_start(i, f)?;
    write_label(largest, i, own.len(), block, f)?;
    write_rest(scale, block, f)?;
    write_rows(scale, own, f)?;
    f.write_str("</g>\n")
}

fn write_bars<W: fmt::Write>(
    largest: u64,
    rows: &[AllocationReport],
    blocks: &[MemoryBlockReport],
    f: &mut fmt::Formatter<W>,
) -> fmt::Result
    ensures { DisplaysOnOk W.write_str_gives f.old result
        (Some (row_bars_svg largest rows.now 0 blocks.now)) f.new }
{
    for (i, block) in blocks.iter().enumerate() {
        write_bar(largest, rows, i as u64, block, f)?;
    }
    Ok(())
}

#[tactic(auto, unfolding(crate::specs::ReportSvg::report_line))]
fn write_line<W: fmt::Write>(report: &AllocatorReport, f: &mut fmt::Formatter<W>) -> fmt::Result
    ensures { DisplaysOnOk W.write_str_gives f.old result (Some (report_line report.now)) f.new }
{
    let allocated = report.total_allocated_bytes;
    let capacity = report.total_capacity_bytes;
    write_totals(
        report.blocks.len(),
        report.allocations.len(),
        allocated,
        capacity,
        f,
    )?;
    f.write_str("</text>\n")
}

#[tactic(auto, unfolding(crate::specs::ReportSvg::report_legend_svg))]
fn write_report_legend<W: fmt::Write>(f: &mut fmt::Formatter<W>) -> fmt::Result
    ensures { DisplaysOnOk W.write_str_gives f.old result (Some report_legend_svg) f.new }
{
    write_entry(200, Look::Piece, f)?;
    write_entry(1700, Look::Rest, f)
}

/// An allocator's report as a picture: a bar for each block, with the pieces of its range at their places. Printing it takes
/// no memory, and fails where the writer does.
#[derive(Clone, Copy)]
pub struct ReportSvg<'a>(pub &'a AllocatorReport);

impl<'a> fmt::Display for ReportSvg<'a> {
    ghost use Rattle.gpu_report.specs.ReportSvg.{report_svg};

    ghost output = { λ r. Some (report_svg r.0.now) };

    fn fmt<W: fmt::Write>(&self, f: &mut fmt::Formatter<W>) -> fmt::Result {
        let report = self.0;
        let largest = largest(&report.blocks);
        write_picture_start(report.blocks.len() as u64, f)?;
        write_style(f)?;
        write_line(report, f)?;
        write_report_legend(f)?;
        write_bars(largest, &report.allocations, &report.blocks, f)?;
        f.write_str("</svg>\n")
    }
}
