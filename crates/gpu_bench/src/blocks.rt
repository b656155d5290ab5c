//! What is timed beside many full blocks of a memory type.

ghost use Rattle.std.specs.Prelude.{◌≡◌, ◌≢◌, ◌<◌, IsTrue};
ghost use Rattle.std.specs.Int.{is_power_of_two};

use crate::error::Result;
use crate::show::{Times, show_time};
use gpu_core::{MemoryType, Piece, Prepared, Request};
use gpu_values::{AllocationError, AllocationSizes, AllocationType};
use std::time::Instant;

/// Bytes of a block.
const BLOCK: u64 = 4 * 1_048_576;

/// So many pieces fill a block.
const PIECES: u64 = 128;

/// Bytes of a piece, and of the gap that it leaves.
const PIECE: u64 = BLOCK / PIECES;

/// So many pieces are taken, and then so many given back, between two looks at the clock.
const BATCH: u64 = 16;

/// A memory type, and the number of its last block.
#[derive(Drop)]
struct Blocks {
    memory: MemoryType<u64>,
    sizes: AllocationSizes,
    last: u64,
}

/// A request that goes to a shared block.
fn asked(size: u64) -> Request<'static>
    ensures size { result.size ≡ size }
    ensures alignment { IsTrue (is_power_of_two result.alignment) }
    ensures kind { result.kind ≢ AllocationType.Free }
{
    Request {
        size,
        alignment: 1,
        kind: AllocationType::Linear,
        dedicated: false,
        name: "piece",
    }
}

impl Blocks {
    fn new(rt: &HostRuntime) -> Blocks {
        Blocks {
            memory: MemoryType::new(rt.alloc(), false, 1),
            sizes: AllocationSizes::new(BLOCK, BLOCK),
            last: 0,
        }
    }

    fn take(&mut self, size: u64) -> std::result::Result<Piece<u64>, AllocationError>
        requires { 0 < size }
    {
        match self.memory.prepare(&asked(size), &self.sizes)? {
            Prepared::Taken(piece) => Ok(piece),
            Prepared::NeedBlock(need) => {
                if self.memory.capacity().checked_add(need.size).is_none() {
                    return Err(AllocationError::OutOfMemory);
                }
                self.last = self.last.wrapping_add(1);
                Ok(self.memory.install(need, self.last))
            }
        }
    }

    /// Fills so many blocks with pieces.
    fn fill(&mut self, blocks: u64, pieces: &mut Vec<Piece<u64>>) -> Result<()> {
        for _ in 0..blocks.wrapping_mul(PIECES) {
            pieces.push(self.take(PIECE)?)?;
        }
        Ok(())
    }

    /// Frees every other piece, and of the lowest block all but the first one.
    fn open(&mut self, pieces: &[Piece<u64>]) -> Result<()> {
        for (place, piece) in pieces.iter().enumerate() {
            if place % 2 == 1 || (piece.slot == 0 && place > 0) {
                let _ = self.memory.free(piece)?;
            }
        }
        Ok(())
    }

    /// Takes pieces that have a place in the lowest block alone.
    fn take_batch(&mut self, pieces: &mut Vec<Piece<u64>>) -> Result<()> {
        for _ in 0..BATCH {
            pieces.push(self.take(2 * PIECE)?)?;
        }
        Ok(())
    }

    fn free_batch(&mut self, pieces: &[Piece<u64>]) -> Result<()> {
        for piece in pieces {
            let _ = self.memory.free(piece)?;
        }
        Ok(())
    }
}

/// Takes a batch and gives it back, and adds what that took.
fn time_batch(
    rt: &HostRuntime,
    blocks: &mut Blocks,
    pieces: &mut Vec<Piece<u64>>,
    times: &mut Times,
) -> Result<()> {
    pieces.clear();
    let start = Instant::now(rt)?;
    blocks.take_batch(pieces)?;
    times.taking = times.taking.saturating_add(start.elapsed(rt)?);
    let start = Instant::now(rt)?;
    blocks.free_batch(pieces)?;
    times.giving = times.giving.saturating_add(start.elapsed(rt)?);
    Ok(())
}

/// So many full blocks with 64 gaps each above one with room.
fn full_blocks(rt: &HostRuntime, count: u64) -> Result<Blocks> {
    let mut blocks = Blocks::new(rt);
    let mut pieces = Vec::new(rt.alloc());
    blocks.fill(count.wrapping_add(1), &mut pieces)?;
    blocks.open(&pieces)?;
    Ok(blocks)
}

fn show_blocks(
    rt: &HostRuntime,
    count: u64,
    blocks: &Blocks,
    times: Times,
    operations: u64,
) -> Result<()> {
    let (capacity, slots) = (blocks.memory.capacity(), blocks.memory.slots());
    println!(rt; "beside {count} full blocks: {slots} slots of {capacity} bytes")?;
    let take = format!(in rt.alloc(); "a take beside {count} full blocks")?;
    show_time(rt, take.as_str(), times.taking, operations)?;
    let release = format!(in rt.alloc(); "a release beside {count} full blocks")?;
    show_time(rt, release.as_str(), times.giving, operations)?;
    Ok(())
}

/// Pieces that are taken from one block and given back, beside so many blocks that are full for them.
pub fn beside_blocks(rt: &HostRuntime, count: u64, turns: u64) -> Result<()> {
    let mut blocks = full_blocks(rt, count)?;
    let mut pieces = Vec::new(rt.alloc());
    let mut times = Times::new();
    for _ in 0..turns {
        time_batch(rt, &mut blocks, &mut pieces, &mut times)?;
    }
    show_blocks(rt, count, &blocks, times, turns.wrapping_mul(BATCH))
}
