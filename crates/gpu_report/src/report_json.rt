//! An allocator's report as JSON.

ghost use Rattle.std.specs.Prelude.{Some, map};
ghost use Rattle.std.specs.Fmt.{DisplaysOnOk};
ghost use Rattle.gpu_values.specs.Report.{row_of, report_of};
ghost use Rattle.gpu_report.specs.Json.{listed};
ghost use Rattle.gpu_report.specs.ReportJson.{row_json, block_row_json, sums_json};

use crate::escape::write_quoted;
use gpu_values::{AllocationReport, AllocatorReport, MemoryBlockReport};
use std::fmt;

#[tactic(auto, unfolding(crate::specs::ReportJson::row_json))]
fn write_row<W: fmt::Write>(row: &AllocationReport, f: &mut fmt::Formatter<W>) -> fmt::Result
    ensures { DisplaysOnOk W.write_str_gives f.old result (Some (row_json (row_of row.now))) f.new }
{
    let offset = row.offset;
    let size = row.size;
    f.write_str("{\"name\":")?;
    write_quoted(row.name.as_str(), f)?;
    write!(f, ",\"offset\":{offset},\"size\":{size}}}")
}

fn write_rows<W: fmt::Write>(rows: &[AllocationReport], f: &mut fmt::Formatter<W>) -> fmt::Result
    ensures { DisplaysOnOk W.write_str_gives f.old result
        (Some (listed row_json (map row_of rows.now))) f.new }
{
    let Some((first, others)) = rows.split_first() else {
        return Ok(());
    };
    write_row(first, f)?;
    for row in others {
        f.write_str(",")?;
        write_row(row, f)?;
    }
    Ok(())
}

#[tactic(auto, unfolding(crate::specs::ReportJson::block_row_json))]
fn write_block<W: fmt::Write>(block: &MemoryBlockReport, f: &mut fmt::Formatter<W>) -> fmt::Result
    ensures { DisplaysOnOk W.write_str_gives f.old result (Some (block_row_json block.now)) f.new }
{
    let size = block.size;
    let start = block.allocations.start;
    let end = block.allocations.end;
    write!(
        f,
        "{{\"allocations\":{{\"end\":{end},\"start\":{start}}},\"size\":{size}}}"
    )
}

fn write_blocks<W: fmt::Write>(
    blocks: &[MemoryBlockReport],
    f: &mut fmt::Formatter<W>,
) -> fmt::Result
    ensures { DisplaysOnOk W.write_str_gives f.old result (Some (listed block_row_json blocks.now))
        f.new }
{
    let Some((first, others)) = blocks.split_first() else {
        return Ok(());
    };
    write_block(first, f)?;
    for block in others {
        f.write_str(",")?;
        write_block(block, f)?;
    }
    Ok(())
}

#[tactic(auto, unfolding(crate::specs::ReportJson::sums_json))]
fn write_sums<W: fmt::Write>(report: &AllocatorReport, f: &mut fmt::Formatter<W>) -> fmt::Result
    ensures { DisplaysOnOk W.write_str_gives f.old result (Some (sums_json (report_of report.now)))
        f.new }
{
    let allocated = report.total_allocated_bytes;
    let capacity = report.total_capacity_bytes;
    write!(
        f,
        "],\"schema\":\"gpu_report.allocator\",\"total_allocated_bytes\":{allocated}"
    )?;
    write!(f, ",\"total_capacity_bytes\":{capacity},\"version\":1}}")
}

/// An allocator's report as JSON, by the schema `gpu_report.allocator` of docs/REPORT.md. Printing it takes no memory, and
/// fails where the writer does.
#[derive(Clone, Copy)]
pub struct ReportJson<'a>(pub &'a AllocatorReport);

impl<'a> fmt::Display for ReportJson<'a> {
    ghost use Rattle.gpu_values.specs.Report.{report_of};
    ghost use Rattle.gpu_report.specs.ReportJson.{report_json};

    ghost output = { λ r. Some (report_json (report_of r.0.now)) };

    fn fmt<W: fmt::Write>(&self, f: &mut fmt::Formatter<W>) -> fmt::Result {
        let report = self.0;
        f.write_str("{\"allocations\":[")?;
        write_rows(&report.allocations, f)?;
        f.write_str("],\"blocks\":[")?;
        write_blocks(&report.blocks, f)?;
        write_sums(report, f)
    }
}
