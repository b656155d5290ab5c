//! The numbers of what is printed fit in 64 bits.

ghost use Rattle.std.specs.Prelude.{All};
ghost use Rattle.gpu_values.specs.Report.{row_of, report_of};
ghost use Rattle.gpu_report.specs.Fits.{NumberFits, RowFits, BlockRowFits, ReportFits, GapFits, BlockFits};

use crate::BlockView;
use gpu_block_pieces::{Gaps, Pieces};
use gpu_values::{AllocationReport, AllocatorReport, MemoryBlockReport};

fn row_fits(row: &AllocationReport)
    ensures { RowFits (row_of row.now) }
{
    let _offset = row.offset;
    let _size = row.size;
}

fn rows_fit(rows: &[AllocationReport])
    ensures { All (λ a. RowFits (row_of a)) rows.now }
{
    for row in rows {
        row_fits(row);
    }
}

fn block_row_fits(block: &MemoryBlockReport)
    ensures { BlockRowFits block.now }
{
    let _start = block.allocations.start;
    let _end = block.allocations.end;
    let _size = block.size;
}

fn block_rows_fit(blocks: &[MemoryBlockReport])
    ensures { All BlockRowFits blocks.now }
{
    for block in blocks {
        block_row_fits(block);
    }
}

/// The numbers of a report are below 2^64. Nothing needs to call it: it says so of each report.
pub fn report_fits(report: &AllocatorReport)
    ensures { ReportFits (report_of report.now) }
{
    rows_fit(&report.allocations);
    block_rows_fit(&report.blocks);
    let _allocated = report.total_allocated_bytes;
    let _capacity = report.total_capacity_bytes;
}

fn numbers_fit(pieces: Pieces<'_>)
    ensures { All (λ x. NumberFits x.chunk_id) pieces.entry }
{
    for piece in pieces {
        let _number = piece.chunk_id();
    }
}

fn gaps_fit(gaps: Gaps<'_>)
    ensures { All GapFits gaps.entry }
{
    for gap in gaps {
        let (_start, _end) = gap;
    }
}

#[tactic(auto, using(crate::proofs::Laid::pieces_fit))]
fn block_fits(view: &BlockView<'_>)
    ensures { BlockFits view.now }
{
    let _memory_type = view.memory_type;
    let _slot = view.slot;
    let _page_size = view.page_size;
    let _size = view.block.size();
    let _statistics = view.block.statistics();
    gaps_fit(view.block.gaps());
    numbers_fit(view.block.pieces());
}

/// The numbers of blocks as they are shown are below 2^64, and each piece's places stand in order. Nothing needs to call it: it
/// says so of all blocks.
pub fn blocks_fit(views: &[BlockView<'_>])
    ensures { All BlockFits views.now }
{
    for view in views {
        block_fits(view);
    }
}
