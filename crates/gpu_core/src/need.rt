//! A block that is needed, with all host memory for it at hand.

ghost use Rattle.std.specs.Prelude.{◌≡◌, ◌≢◌, ◌<◌, ◌≤◌, IfOk, IfErr, IsTrue};
ghost use Rattle.std.specs.Int.{is_power_of_two};
ghost use Rattle.gpu_block_pieces.specs.Request.{request};
ghost use Rattle.gpu_block.specs.SubAllocator.{block_of};
ghost use Rattle.gpu_block.specs.Block.{TakesIn, HoldsPiece, HasPages, IsSoundBlock, HasPagesApart};
ghost use Rattle.gpu_core.specs.TypeTake.{fresh_block, asked};
ghost use Rattle.gpu_values.specs.declared.error.AllocationError.TheVariants.{HostOutOfMemory};

use crate::Request;
use gpu_block::{DedicatedBlockAllocator, FreeListAllocator, SubAllocator};
use gpu_values::{AllocationType, Result};
use std::alloc::Global;
use std::marker::Model;
use std::num::NonZeroU64;

/// A new block with the request's piece taken in it. It waits for the device's memory; dropping it changes nothing.
#[derive(Drop)]
pub struct PendingBlock {
    // In a box, since what `prepare` answers is moved often, and mostly has no block.
    pub(crate) sub: Box<SubAllocator>,
    pub(crate) chunk_id: NonZeroU64,
    pub(crate) offset: u64,
    pub(crate) size: u64,
}

impl Model for PendingBlock {
    ghost use Rattle.std.specs.Int.NonZero.{non_zero_u64_get};
    ghost use Rattle.gpu_core.specs.TypeTake.{Pending};
    ghost use Rattle.gpu_block.specs.SubAllocator.{block_of};

    ghost Value = { Pending };

    ghost view = { λ r. record {
      block = block_of r.sub.value;
      offset = r.offset;
      chunk_id =
          non_zero_u64_get r.chunk_id;
      size = r.size;
    } };
}

/// The block that a request needs: ask the device for `size` bytes, and then call `install`.
#[derive(Drop)]
pub struct NeedBlock {
    /// The block's size in bytes.
    pub size: u64,
    /// Whether the block is the piece's own.
    pub dedicated: bool,
    /// The block's lists with the piece in them, which `install` takes.
    pub room: PendingBlock,
}

fn new_block(alloc: Global, is_dedicated: bool, size: u64, granularity: u64) -> Result<SubAllocator>
    requires sized { 0 < size }
    requires paged { IsTrue (is_power_of_two granularity) }
    ensures fresh { IfOk result (λ s. block_of s ≡ fresh_block is_dedicated size granularity) }
    ensures cause { IfErr result (λ e. e ≡ HostOutOfMemory) }
{
    if is_dedicated {
        return Ok(SubAllocator::Dedicated(DedicatedBlockAllocator::new(alloc, size)));
    }
    match FreeListAllocator::new(alloc, size, granularity) {
        Ok(list) => Ok(SubAllocator::FreeList(list)),
        Err(error) => Err(error),
    }
}

/// A new block with the request's piece in it. The only refusal is `HostOutOfMemory`. Out of line: few requests need a block, and the others
/// shall not clear the stack for one.
#[cold]
#[inline(never)]
pub fn make_pending(
    alloc: Global,
    is_dedicated: bool,
    size: u64,
    granularity: u64,
    request: &Request,
) -> Result<PendingBlock>
    requires sized { 0 < request.now.size }
    requires aligned { IsTrue (is_power_of_two request.now.alignment) }
    requires piece { request.now.kind ≢ AllocationType.Free }
    requires paged { IsTrue (is_power_of_two granularity) }
    requires exact { IsTrue is_dedicated → size ≡ request.now.size }
    requires fits { request.now.size ≤ size }
    ensures takes { IfOk result (λ r. TakesIn (fresh_block is_dedicated size granularity)
        (asked request.now) r.offset r.chunk_id r.block) }
    ensures piece { IfOk result (λ r. r.size ≡ request.now.size) }
    ensures begins { IfOk result (λ r. r.offset ≡ 0) }
    ensures holds { IfOk result (λ r. HoldsPiece r.block r.chunk_id r.offset r.size) }
    ensures sound { IfOk result (λ r. IsSoundBlock r.block) }
    ensures pages { IfOk result (λ r. HasPages r.block granularity) }
    ensures separated { IfOk result (λ r. HasPagesApart r.block) }
    ensures cause { IfErr result (λ e. e ≡ HostOutOfMemory) }
{
    let mut sub = new_block(alloc, is_dedicated, size, granularity)?;
    match sub.allocate(
        request.size,
        request.alignment,
        request.kind,
        granularity,
        request.name,
    ) {
        Ok((offset, chunk_id)) => Ok(PendingBlock {
            sub: Box::new(alloc, sub)?,
            chunk_id,
            offset,
            size: request.size,
        }),
        Err(error) => Err(error),
    }
}
