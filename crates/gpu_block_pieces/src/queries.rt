//! Where counters are begun: one for a new block, and one for each call that changes nothing, whose look-ups nobody sees.
//! Calls that change a block are in `free_list`, and count in the block's own counter.

ghost use Rattle.std.specs.Prelude.{◌≡◌, ◌↔◌, ◌<◌, ◌≤◌, ◌^◌, IfOk, IfErr, IsTrue, [], All, map, true};
ghost use Rattle.std.specs.Int.{is_power_of_two};
ghost use Rattle.std.specs.Int.NonZero.{non_zero_u64_get};
ghost use Rattle.gpu_values.specs.declared.error.AllocationError.TheVariants.{HostOutOfMemory};
ghost use Rattle.gpu_values.specs.Report.{row_of};

use crate::chunks::Chunks;
use crate::free_list::FreeListAllocator;
use crate::leaks::Leaks;
use crate::pieces::Pieces;
use crate::rows::rows_of;
use gpu_block_chunks::Walk;
use gpu_cost::{BeginsCount, Cost};
use gpu_values::{AllocationReport, Result};
use std::alloc::Global;
use std::num::NonZeroU64;

/// What begins a count. Nothing outside this module has it.
struct Reading;

impl BeginsCount for Reading {}

impl FreeListAllocator {
    ghost use Rattle.gpu_block_chunks.specs.ChunkList.{Covers};
    ghost use Rattle.gpu_block_pieces.specs.FreeList.{FindsPlace, IsLongestGap, fresh_free_list};
    ghost use Rattle.gpu_block_pieces.specs.Chunks.{IsChunk, extents_of};
    ghost use Rattle.gpu_block_pieces.specs.Place.{HasNoPlace};
    ghost use Rattle.gpu_block_pieces.specs.Request.{Request};
    ghost use Rattle.gpu_block_pieces.specs.Pieces.{LieBetween, gaps_between, longest};
    ghost use Rattle.gpu_block_pieces.specs.Rows.{extent_row};
    ghost use Rattle.gpu_block_pieces.specs.Leak.{leak_of};
    ghost use Rattle.gpu_block_pieces.specs.Laws.{IsSound, IsInOrder};

    /// What `new` makes, with another first new number, 2 or more, for tests of the last one.
    pub fn with_counter(alloc: Global, size: u64, granularity: u64, counter: u64) -> Result<Self>
        requires sized { 0 < size }
        requires paged { IsTrue (is_power_of_two granularity) }
        requires counted { 2 ≤ counter }
        ensures fresh { IfOk result (λ b. b.block ≡ fresh_free_list size granularity counter) }
        ensures sound { IfOk result (λ b. IsSound b.block) }
        ensures ordered { IfOk result (λ b. IsInOrder b.block) }
        ensures cause { IfErr result (λ e. e ≡ HostOutOfMemory) }
    {
        let chunks = Chunks::new(alloc, size)?;
        Ok(FreeListAllocator {
            alloc,
            granularity,
            counter,
            allocated: 0,
            chunks,
            cost: Cost::begin(&Reading),
        })
    }

    /// The size of the block in bytes.
    pub fn size(&self) -> u64
        ensures { result ≡ self.now.block.size }
    {
        self.chunks.size(&mut Cost::begin(&Reading))
    }

    /// The bytes of the longest gap, 0 where there is none. A request of more bytes has no place. It looks at no other gap.
    pub fn longest_gap(&self) -> u64
        ensures longest { result ≡ longest
            (gaps_between 0 self.now.block.extents self.now.block.size) }
        ensures gap { IsLongestGap self.now.block result }
        ensures law { (r : Request) → result < r.size → HasNoPlace self.now.block r }
    {
        self.chunks.longest_gap(&mut Cost::begin(&Reading))
    }

    /// Whether no piece is live.
    pub fn is_empty(&self) -> bool
        ensures { IsTrue result ↔ self.now.block.extents ≡ [] }
    {
        self.chunks.is_empty(&mut Cost::begin(&Reading))
    }

    /// The offset and the size in bytes of the live piece with that number.
    pub fn place_of(&self, chunk_id: NonZeroU64) -> Option<(u64, u64)>
        ensures { FindsPlace self.now.block.extents (non_zero_u64_get chunk_id) result }
    {
        match self
            .chunks
            .piece(chunk_id.get(), &mut Cost::begin(&Reading))
        {
            Some(piece) => Some((piece.offset, piece.start + piece.size - piece.offset)),
            None => None,
        }
    }

    /// The live pieces in order of offset, each with its own offset and size. The only refusal is `HostOutOfMemory`.
    pub fn report_allocations(&self) -> Result<Vec<AllocationReport>>
        ensures rows { IfOk result (λ v. map row_of v.items
            ≡ map extent_row self.now.block.extents) }
        ensures cause { IfErr result (λ e. e ≡ HostOutOfMemory) }
    {
        let rows = rows_of(self.alloc, self.walk(), &mut Cost::begin(&Reading))?;
        Ok(rows)
    }

    /// The live pieces in order of offset, in block `memory_block` of type `memory_type`. It takes no memory.
    pub fn leaks(&self, memory_type: usize, memory_block: usize) -> Leaks<'_>
        ensures { result ≡ map (leak_of memory_type memory_block true) self.now.block.extents }
    {
        Leaks::new(
            memory_type,
            memory_block,
            true,
            self.walk(),
            Cost::begin(&Reading),
        )
    }

    /// The live pieces in order of offset. It takes no memory.
    pub fn pieces(&self) -> Pieces<'_>
        ensures pieces { result ≡ self.now.block.extents }
        ensures laid_out { LieBetween 0 result self.now.block.size }
    {
        let rest = self.walk();
        Pieces::new(rest, Cost::begin(&Reading))
    }

    /// The chunks of the block, pieces and gaps, in order of start.
    fn walk(&self) -> Walk<'_>
        ensures pieces { extents_of result ≡ self.now.block.extents }
        ensures covers { Covers result 0 self.now.block.size }
        ensures bounded { self.now.block.size < 2 ^ 64 }
        ensures each { All (IsChunk self.now.block.counter) result }
    {
        self.chunks.walk()
    }
}
