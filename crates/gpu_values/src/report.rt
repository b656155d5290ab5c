//! Reports of what is allocated.

ghost use Rattle.std.specs.Prelude.{◌≡◌, [], map, IfOk, IfErr, string_bytes};
ghost use Rattle.gpu_values.specs.Report.{row_of, IsSumsText, counts_text};
ghost use Rattle.gpu_values.specs.declared.error.AllocationError.TheVariants.{HostOutOfMemory};

use crate::{Result, fmt_bytes};
use std::alloc::Global;
use std::ops::Range;

/// One piece: its name, and its own offset and size in bytes, without padding.
#[derive(Drop)]
pub struct AllocationReport {
    pub name: String,
    pub offset: u64,
    pub size: u64,
}

/// One block: its size in bytes, and which of the report's rows (`AllocatorReport::allocations`) are its pieces.
#[derive(Drop)]
pub struct MemoryBlockReport {
    pub size: u64,
    pub allocations: Range<usize>,
}

/// What an allocator holds: its pieces and blocks, the bytes of its pieces with their padding, and of its blocks.
#[derive(Drop)]
pub struct AllocatorReport {
    pub allocations: Vec<AllocationReport>,
    pub blocks: Vec<MemoryBlockReport>,
    /// The bytes of all pieces, padding included.
    pub total_allocated_bytes: u64,
    /// The bytes of all blocks.
    pub total_capacity_bytes: u64,
}

impl AllocationReport {
    ghost use Rattle.gpu_values.specs.Report.{row_of, IsRowText};

    /// The same row again. The only refusal is `HostOutOfMemory`.
    pub fn clone(&self) -> Result<Self>
        ensures same { IfOk result (λ a. row_of a ≡ row_of self.now) }
        ensures cause { IfErr result (λ e. e ≡ HostOutOfMemory) }
    {
        Ok(AllocationReport {
            name: self.name.clone()?,
            offset: self.offset,
            size: self.size,
        })
    }

    /// The name, quoted, and the size: `"vertices": 1.50 KB`. An empty name is shown as `"--"`. The only refusal is
    /// `HostOutOfMemory`.
    pub fn text(&self) -> Result<String>
        ensures text { IfOk result (λ s. IsRowText (row_of self.now) (string_bytes s)) }
        ensures cause { IfErr result (λ e. e ≡ HostOutOfMemory) }
    {
        let alloc = *self.name.allocator();
        let size = fmt_bytes(alloc, self.size)?;
        let name = if self.name.is_empty() {
            "--"
        } else {
            self.name.as_str()
        };
        let text = format!(in alloc; "{name:?}: {size}")?;
        Ok(text)
    }
}

impl MemoryBlockReport {
    /// The same block again. It is never refused.
    pub fn clone(&self) -> Result<Self>
        ensures { result ≡ Ok self.now }
    {
        Ok(MemoryBlockReport {
            size: self.size,
            allocations: self.allocations.start..self.allocations.end,
        })
    }
}

fn clone_rows(alloc: Global, rows: &[AllocationReport]) -> Result<Vec<AllocationReport>>
    ensures same { IfOk result (λ v. map row_of v.items ≡ map row_of rows.now) }
    ensures cause { IfErr result (λ e. e ≡ HostOutOfMemory) }
{
    let mut copies = Vec::new(alloc);
    for row in rows {
        copies.push(row.clone()?)?;
    }
    Ok(copies)
}

fn clone_blocks(alloc: Global, blocks: &[MemoryBlockReport]) -> Result<Vec<MemoryBlockReport>>
    ensures same { IfOk result (λ v. v.items ≡ blocks.now) }
    ensures cause { IfErr result (λ e. e ≡ HostOutOfMemory) }
{
    let mut copies = Vec::new(alloc);
    for block in blocks {
        copies.push(block.clone()?)?;
    }
    Ok(copies)
}

fn sums(alloc: Global, allocated: u64, capacity: u64) -> Result<String>
    ensures text { IfOk result (λ s. IsSumsText allocated capacity (string_bytes s)) }
    ensures cause { IfErr result (λ e. e ≡ HostOutOfMemory) }
{
    let part = fmt_bytes(alloc, allocated)?;
    let whole = fmt_bytes(alloc, capacity)?;
    let text = format!(in alloc; "{part} / {whole}")?;
    Ok(text)
}

fn counts(alloc: Global, blocks: usize, pieces: usize) -> Result<String>
    ensures text { IfOk result (λ s. string_bytes s ≡ counts_text blocks pieces) }
    ensures cause { IfErr result (λ e. e ≡ HostOutOfMemory) }
{
    let text = format!(in alloc; "blocks: {blocks}, allocations: {pieces}")?;
    Ok(text)
}

/// The texts of the largest rows, at most `limit` of them, the largest first and equal ones in their order.
fn largest(alloc: Global, rows: &[AllocationReport], limit: usize) -> Result<String>
    ensures none { limit ≡ 0 → IfOk result (λ s. string_bytes s ≡ []) }
    ensures cause { IfErr result (λ e. e ≡ HostOutOfMemory) }
{
    let mut order: Vec<&AllocationReport> = rows.iter().collect(alloc)?;
    order.sort_by(|left, right| right.size.cmp(&left.size))?;
    let mut text = String::new(alloc);
    order.truncate(limit);
    for row in &order {
        if !text.is_empty() {
            text.push_str(", ")?;
        }
        let line = row.text()?;
        text.push_str(line.as_str())?;
    }
    Ok(text)
}

impl AllocatorReport {
    ghost use Rattle.gpu_values.specs.Report.{report_of, IsReportText};

    /// The same report again. The only refusal is `HostOutOfMemory`.
    pub fn clone(&self) -> Result<Self>
        ensures same { IfOk result (λ r. report_of r ≡ report_of self.now) }
        ensures cause { IfErr result (λ e. e ≡ HostOutOfMemory) }
    {
        let alloc = *self.allocations.allocator();
        Ok(AllocatorReport {
            allocations: clone_rows(alloc, &self.allocations)?,
            blocks: clone_blocks(alloc, &self.blocks)?,
            total_allocated_bytes: self.total_allocated_bytes,
            total_capacity_bytes: self.total_capacity_bytes,
        })
    }

    /// The sums, the numbers of blocks and pieces, and the pieces with the largest first: all, or at most `limit` of them. The
    /// only refusal is `HostOutOfMemory`.
    pub fn text(&self, limit: Option<usize>) -> Result<String>
        ensures text { IfOk result (λ s. IsReportText (report_of self.now) limit (string_bytes s)) }
        ensures cause { IfErr result (λ e. e ≡ HostOutOfMemory) }
    {
        let alloc = *self.allocations.allocator();
        let sums = sums(alloc, self.total_allocated_bytes, self.total_capacity_bytes)?;
        let counts = counts(alloc, self.blocks.len(), self.allocations.len())?;
        let largest = largest(alloc, &self.allocations, limit.unwrap_or(usize::MAX))?;
        let text = format!(in alloc;
            "AllocatorReport {{ summary: {sums}, {counts}, largest: [{largest}] }}"
        )?;
        Ok(text)
    }
}
