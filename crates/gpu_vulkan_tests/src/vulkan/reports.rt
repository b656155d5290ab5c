//! Two pieces of one block, as a report and the texts of leaks show them.

use super::*;
use gpu_values::AllocatorReport;

/// Two linear pieces of one shared block of 4 MB: `a` of 100 bytes, and `b` of 64 at a multiple of 256.
pub fn two_pieces(a: &mut Allocator<SimVulkan>) -> Option<(Allocation, Allocation)> {
    let first = take(a, &named("a", 100, 1))?;
    let second = take(a, &named("b", 64, 256))?;
    Some((first, second))
}

/// A piece of the memory for uploads.
pub fn named(name: &str, size: u64, alignment: u64) -> AllocationCreateDesc<'_> {
    AllocationCreateDesc {
        name,
        ..managed(size, alignment, MemoryLocation::CpuToGpu)
    }
}

/// Whether the report has this row, by its index.
pub fn has_row(report: &AllocatorReport, i: usize, name: &str, offset: u64, size: u64) -> bool {
    match report.allocations.get(i) {
        Some(row) => row.name.as_str() == name && (row.offset, row.size) == (offset, size),
        None => false,
    }
}

/// Whether the report has this block, by its index: its size, and which rows are its own.
pub fn has_block(report: &AllocatorReport, i: usize, size: u64, start: usize, end: usize) -> bool {
    match report.blocks.get(i) {
        Some(block) => {
            let rows = &block.allocations;
            (block.size, rows.start, rows.end) == (size, start, end)
        }
        None => false,
    }
}

/// The text of `a` in the block of `two_pieces`.
pub const FIRST: &str =
    "leak detected: {\n    memory type: 0\n    memory block: 0\n    chunk: {\n        chunk_id: 2,\n        size: 0x64,\n        offset: 0x0,\n        allocation_type: Linear,\n        name: a\n    }\n}";

/// The text of `b` there.
pub const SECOND: &str =
    "leak detected: {\n    memory type: 0\n    memory block: 0\n    chunk: {\n        chunk_id: 3,\n        size: 0xdc,\n        offset: 0x64,\n        allocation_type: Linear,\n        name: b\n    }\n}";
