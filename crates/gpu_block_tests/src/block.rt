//! Tests of what no contract says: worked rows, printed texts, and that each call succeeds while there is memory.

ghost use Rattle.std.specs.Prelude.{◌≡◌, ◌≢◌, ◌<◌, ℕ, IfOk};
ghost use Rattle.gpu_block.specs.Block.{HasPages};
ghost use Rattle.gpu_block.specs.SubAllocator.{block_of};

mod calls;
mod leaks;
mod refused;
mod refused_or_served;
mod search;
mod sub_allocator;

use gpu_block::{DedicatedBlockAllocator, FreeListAllocator, SubAllocator};
use gpu_values::{AllocationError, AllocationType, Result};
use std::alloc::Global;
use std::num::NonZeroU64;

const MB: u64 = 1_048_576;

/// A block that is cut into pieces.
fn general(alloc: Global, size: u64, granularity: u64) -> Result<SubAllocator>
    ensures { IfOk result (λ b. HasPages (block_of b) granularity) }
{
    if size == 0 || !granularity.is_power_of_two() {
        return Err(AllocationError::InvalidAllocationCreateDesc);
    }
    let list = FreeListAllocator::new(alloc, size, granularity)?;
    Ok(SubAllocator::FreeList(list))
}

/// A block that is one piece's own.
fn dedicated(alloc: Global, size: u64) -> SubAllocator
    requires { 0 < size }
    ensures { HasPages (block_of result) 1 }
{
    SubAllocator::Dedicated(DedicatedBlockAllocator::new(alloc, size))
}

/// What is asked of a block.
#[derive(Clone, Copy)]
struct Request<'a> {
    size: u64,
    alignment: u64,
    kind: AllocationType,
    granularity: u64,
    name: &'a str,
}

fn linear(size: u64, alignment: u64, granularity: u64, name: &str) -> Request<'_>
    ensures piece { result.kind ≢ AllocationType.Free }
    ensures paged { result.granularity ≡ granularity }
{
    Request {
        size,
        alignment,
        kind: AllocationType::Linear,
        granularity,
        name,
    }
}

/// The offset and the number of a piece that is taken.
fn allocate(block: &mut SubAllocator, asked: Request) -> Result<(u64, u64)>
    requires paged { HasPages (block_of block.old) asked.granularity }
    requires piece { asked.kind ≢ AllocationType.Free }
    ensures { (g : ℕ) → HasPages (block_of block.old) g → HasPages (block_of block.new) g }
{
    if asked.size == 0 || !asked.alignment.is_power_of_two() {
        return Err(AllocationError::InvalidAllocationCreateDesc);
    }
    let (offset, chunk_id) = block.allocate(
        asked.size,
        asked.alignment,
        asked.kind,
        asked.granularity,
        asked.name,
    )?;
    Ok((offset, chunk_id.get()))
}

/// Whether this offset and number were given.
fn gave(answer: Result<(u64, u64)>, want: (u64, u64)) -> bool {
    match answer {
        Ok(got) => got == want,
        Err(_) => false,
    }
}

/// 0 stands for no number.
fn free(block: &mut SubAllocator, chunk_id: u64) -> Result<()>
    ensures { (g : ℕ) → HasPages (block_of block.old) g → HasPages (block_of block.new) g }
{
    block.free(NonZeroU64::new(chunk_id))
}

/// Gives another name. 0 stands for no number.
fn rename(block: &mut SubAllocator, chunk_id: u64, name: &str) -> Result<()>
    ensures { (g : ℕ) → HasPages (block_of block.old) g → HasPages (block_of block.new) g }
{
    block.rename_allocation(NonZeroU64::new(chunk_id), name)
}

/// Keeps a word of the caller's with a piece. 0 stands for no number.
fn set_word(block: &mut SubAllocator, chunk_id: u64, word: u64) -> Result<()>
    ensures { (g : ℕ) → HasPages (block_of block.old) g → HasPages (block_of block.new) g }
{
    block.set_word(NonZeroU64::new(chunk_id), word)
}

/// Names, offsets and sizes of the live pieces.
fn report_text(block: &SubAllocator, alloc: Global) -> Result<String> {
    let mut text = String::new(alloc);
    for row in &block.report_allocations()? {
        let name = row.name.as_str();
        let offset = row.offset;
        let size = row.size;
        let line = format!(in alloc; "{name} {offset} {size};")?;
        text.push_str(line.as_str())?;
    }
    Ok(text)
}
