//! The rows of a report, one for each piece.

ghost use Rattle.std.specs.Prelude.{◌≡◌, ℕ, ◌^◌, ◌<◌, [], ◌∷◌, ◌++◌, map, All, IfOk, OnOk};
ghost use Rattle.gpu_block_chunks.specs.ChunkList.{Covers, chunk_of};
ghost use Rattle.gpu_block_pieces.specs.Chunks.{IsChunk, extents_of};
ghost use Rattle.gpu_values.specs.Report.{row_of};
ghost use Rattle.gpu_block_pieces.specs.Rows.{extent_row};

use gpu_block_chunks::{ChunkView, Walk, is_free};
use gpu_cost::Cost;
use gpu_values::AllocationReport;
use std::alloc::{AllocError, Global};

fn row_of(alloc: Global, chunk: &ChunkView<'_>, size: u64) -> Result<AllocationReport, AllocError>
    ensures { IfOk result (λ a. row_of a
        ≡ record {
          name = (chunk_of chunk.now).label.name;
          offset = chunk.now.offset;
          size = size;
        }) }
{
    Ok(AllocationReport {
        name: String::from_str(alloc, chunk.label.name.as_str())?,
        offset: chunk.offset,
        size,
    })
}

fn add(rows: &mut Vec<AllocationReport>, row: AllocationReport) -> Result<(), AllocError>
    ensures { OnOk result (rows.new.items ≡ rows.old.items ++ row ∷ []) }
{
    match rows.push(row) {
        Ok(()) => Ok(()),
        Err(failed) => Err(AllocError::from(failed)),
    }
}

/// One row for each piece, in the order of the chunks.
pub fn rows_of(
    alloc: Global,
    chunks: Walk<'_>,
    cost: &mut Cost,
) -> Result<Vec<AllocationReport>, AllocError>
    requires laid_out { (from : ℕ) × (to : ℕ) × (to < 2 ^ 64) × Covers chunks from to }
    requires each { (counter : ℕ) × All (IsChunk counter) chunks }
    ensures { IfOk result (λ v. map row_of v.items ≡ map extent_row (extents_of chunks.entry)) }
{
    let mut chunks = chunks;
    let mut rows = Vec::new(alloc);
    while let Some(chunk) = chunks.next(cost) {
        if !is_free(chunk.kind) {
            let row = row_of(alloc, &chunk, chunk.start + chunk.size - chunk.offset)?;
            add(&mut rows, row)?;
        }
    }
    Ok(rows)
}
