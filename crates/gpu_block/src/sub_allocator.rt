//! A block of either form, under one contract.

ghost use Rattle.std.specs.Prelude.{◌≡◌, ◌≢◌, ℕ, ◌<◌, ◌≤◌, [], map, string_bytes, IfOk, OnOk, OnErr, IfErr, IsSomeAnd, IsTrue, ◌↔◌};
ghost use Rattle.std.specs.Int.{is_power_of_two};
ghost use Rattle.std.specs.Int.NonZero.{non_zero_u64_get};
ghost use Rattle.gpu_values.specs.declared.error.AllocationError.TheVariants.{HostOutOfMemory};
ghost use Rattle.gpu_values.specs.Refusal.{refusal_of};
ghost use Rattle.gpu_block_pieces.specs.Request.{Request, request};
ghost use Rattle.gpu_values.specs.Report.{row_of};
ghost use Rattle.gpu_block_pieces.specs.Rows.{extent_row};

use crate::DedicatedBlockAllocator;
use crate::said::Said;
use gpu_block_pieces::{
    BlockStatistics, FreeListAllocator, Gaps, Leaks, Pieces, count_pieces, texts_of,
};
use gpu_values::{AllocationReport, AllocationType, Result};
use std::num::NonZeroU64;

/// A block of memory: one that is cut into pieces, or one that is one piece's own. Offsets and sizes are in bytes.
#[derive(Drop)]
pub enum SubAllocator {
    /// Cut into pieces.
    FreeList(FreeListAllocator),
    /// One piece's own.
    Dedicated(DedicatedBlockAllocator),
}

impl SubAllocator {
    ghost use Rattle.gpu_block.specs.SubAllocator.{block_of, cost_of};
    ghost use Rattle.gpu_block_pieces.specs.FreeList.{FindsPlace};
    ghost use Rattle.gpu_block_pieces.specs.Leak.{leak_text};
    ghost use Rattle.gpu_block_pieces.specs.Pieces.{LieBetween};
    ghost use Rattle.gpu_block.specs.BlockViews.{gaps_in, statistics_of, leaks_of};
    ghost use Rattle.gpu_block.specs.Said.{said_of, MayStarve};
    ghost use Rattle.gpu_block.specs.Block.{extents_of, size_of, allocated_bytes, is_shared, HasPages, TakesIn, HasNoPlaceIn, IsAllocateRefusalIn, ReleasesIn, IsReleaseRefusalIn, RenamesIn, SetsWordIn, RelabelsIn, IsRenameRefusalIn, IsSoundBlock, IsOrderedBlock, HasPagesApart, IsCoveredBlock, IsFitLaw, IsSearchIn, CountsRise};

    /// Allocates `size` bytes, and returns the piece's offset in bytes and its chunk id. A free list takes the least place
    /// in the shortest gap that fits, and refuses by `OutOfMemory` where there is none. A dedicated block takes a piece of
    /// its own size alone: `OutOfMemory` where it is taken, else `Internal` on another size. `HostOutOfMemory` comes
    /// only where there is a place. A refusal leaves the block as it was. Callers hand in a size that isn't 0, an alignment in
    /// bytes that is a power of two, a kind that isn't `Free`, and the granularity that a free list was made with.
    #[tactic(auto, unfolding(crate::specs::Block::IsSearchIn))]
    pub fn allocate(
        &mut self,
        size: u64,
        alignment: u64,
        kind: AllocationType,
        granularity: u64,
        name: &str,
    ) -> Result<(u64, NonZeroU64)>
        requires sized { 0 < size }
        requires aligned { IsTrue (is_power_of_two alignment) }
        requires piece { kind ≢ AllocationType.Free }
        requires paged { HasPages (block_of self.old) granularity }
        ensures took { IfOk result (λ p. TakesIn (block_of self.old)
            (request size alignment kind name.now) p.0 (non_zero_u64_get p.1)
            (block_of self.new)) }
        ensures cause { IfErr result (λ e. IsAllocateRefusalIn (block_of self.old)
            (request size alignment kind name.now) e) }
        ensures refused { OnErr result (block_of self.new ≡ block_of self.old) }
        ensures pages { (g : ℕ) → HasPages (block_of self.old) g → HasPages (block_of self.new) g }
        // where the pieces lie, for all pairs of them; and a gap that is long enough is never refused
        ensures sound { OnOk result (IsSoundBlock (block_of self.new)) }
        ensures ordered { OnOk result (IsOrderedBlock (block_of self.new)) }
        ensures separated { OnOk result (HasPagesApart (block_of self.new)) }
        ensures covered { OnOk result (IsCoveredBlock (block_of self.new)) }
        ensures law { IfErr result (λ e. IsFitLaw (block_of self.old)
            (request size alignment kind name.now) e) }
        // what the search for the place cost, and its taking
        ensures cost { IsSearchIn (block_of self.old) (request size alignment kind name.now)
            (cost_of self.old) (cost_of self.new) }
    {
        match self {
            SubAllocator::FreeList(list) => list.allocate(size, alignment, kind, granularity, name),
            SubAllocator::Dedicated(block) => block.allocate(size, kind, name),
        }
    }

    /// Frees a live piece. It takes no memory. `Internal` where the number is missing or is no live piece's, and
    /// then the block stays as it was.
    #[tactic(auto, unfolding(crate::specs::Block::CountsRise))]
    pub fn free(&mut self, chunk_id: Option<NonZeroU64>) -> Result<()>
        ensures freed { OnOk result (IsSomeAnd chunk_id
            (λ n. ReleasesIn (block_of self.old) (non_zero_u64_get n) (block_of self.new))) }
        ensures cause { IfErr result (λ e. IsReleaseRefusalIn (block_of self.old) chunk_id
            (refusal_of e)) }
        ensures refused { OnErr result (block_of self.new ≡ block_of self.old) }
        ensures pages { (g : ℕ) → HasPages (block_of self.old) g → HasPages (block_of self.new) g }
        ensures sound { OnOk result (IsSoundBlock (block_of self.new)) }
        ensures ordered { OnOk result (IsOrderedBlock (block_of self.new)) }
        ensures separated { OnOk result (HasPagesApart (block_of self.new)) }
        ensures covered { OnOk result (IsCoveredBlock (block_of self.new)) }
        ensures cost { CountsRise (cost_of self.old) (cost_of self.new) }
    {
        match self {
            SubAllocator::FreeList(list) => list.free(chunk_id),
            SubAllocator::Dedicated(block) => block.free(chunk_id),
        }
    }

    /// Renames a live piece. `Internal` where the number is missing or is no live piece's, else
    /// `HostOutOfMemory` where the host refused memory; a refusal leaves the block as it was.
    #[tactic(auto, unfolding(crate::specs::Block::CountsRise))]
    pub fn rename_allocation(&mut self, chunk_id: Option<NonZeroU64>, name: &str) -> Result<()>
        ensures renamed { OnOk result (IsSomeAnd chunk_id
            (λ n. RenamesIn (block_of self.old) (non_zero_u64_get n) name.now
            (block_of self.new))) }
        ensures cause { IfErr result (λ e. IsRenameRefusalIn (block_of self.old) chunk_id
            (refusal_of e)) }
        ensures refused { OnErr result (block_of self.new ≡ block_of self.old) }
        ensures pages { (g : ℕ) → HasPages (block_of self.old) g → HasPages (block_of self.new) g }
        ensures sound { OnOk result (IsSoundBlock (block_of self.new)) }
        ensures ordered { OnOk result (IsOrderedBlock (block_of self.new)) }
        ensures separated { OnOk result (HasPagesApart (block_of self.new)) }
        ensures covered { OnOk result (IsCoveredBlock (block_of self.new)) }
        ensures cost { CountsRise (cost_of self.old) (cost_of self.new) }
    {
        match self {
            SubAllocator::FreeList(list) => list.rename_allocation(chunk_id, name),
            SubAllocator::Dedicated(block) => block.rename_allocation(chunk_id, name),
        }
    }

    /// Keeps another word of the caller's with a live piece. `Internal`, as for a new name, where the number is missing or is no live
    /// piece's, and then the block stays as it was. It takes no memory.
    #[tactic(auto, unfolding(crate::specs::Block::CountsRise))]
    pub fn set_word(&mut self, chunk_id: Option<NonZeroU64>, word: u64) -> Result<()>
        ensures set { OnOk result (IsSomeAnd chunk_id
            (λ n. SetsWordIn (block_of self.old) (non_zero_u64_get n) word (block_of self.new))) }
        ensures cause { IfErr result (λ e. IsRenameRefusalIn (block_of self.old) chunk_id
            (refusal_of e)) }
        ensures no_memory { IfErr result (λ e. e ≢ HostOutOfMemory) }
        ensures refused { OnErr result (block_of self.new ≡ block_of self.old) }
        ensures pages { (g : ℕ) → HasPages (block_of self.old) g → HasPages (block_of self.new) g }
        ensures sound { OnOk result (IsSoundBlock (block_of self.new)) }
        ensures ordered { OnOk result (IsOrderedBlock (block_of self.new)) }
        ensures separated { OnOk result (HasPagesApart (block_of self.new)) }
        ensures covered { OnOk result (IsCoveredBlock (block_of self.new)) }
        ensures cost { CountsRise (cost_of self.old) (cost_of self.new) }
    {
        match self {
            SubAllocator::FreeList(list) => list.set_word(chunk_id, word),
            SubAllocator::Dedicated(block) => block.set_word(chunk_id, word),
        }
    }

    /// Gives a live piece the name, or keeps the word with it, as the two calls above do.
    #[tactic(auto, unfolding(crate::specs::Block::CountsRise))]
    pub fn relabel(&mut self, chunk_id: Option<NonZeroU64>, said: Said<'_>) -> Result<()>
        ensures relabelled { OnOk result (IsSomeAnd chunk_id
            (λ n. RelabelsIn (block_of self.old) (non_zero_u64_get n) (said_of said.entry)
            (block_of self.new))) }
        ensures cause { IfErr result (λ e. IsRenameRefusalIn (block_of self.old) chunk_id
            (refusal_of e)) }
        ensures starved { IfErr result (λ e. e ≡ HostOutOfMemory → MayStarve (said_of said.entry)) }
        ensures refused { OnErr result (block_of self.new ≡ block_of self.old) }
        ensures pages { (g : ℕ) → HasPages (block_of self.old) g → HasPages (block_of self.new) g }
        ensures sound { OnOk result (IsSoundBlock (block_of self.new)) }
        ensures ordered { OnOk result (IsOrderedBlock (block_of self.new)) }
        ensures separated { OnOk result (HasPagesApart (block_of self.new)) }
        ensures covered { OnOk result (IsCoveredBlock (block_of self.new)) }
        ensures cost { CountsRise (cost_of self.old) (cost_of self.new) }
    {
        match said {
            Said::Name(name) => self.rename_allocation(chunk_id, name),
            Said::Word(word) => self.set_word(chunk_id, word),
        }
    }

    /// The live pieces in order of offset, each with its own offset and size. The only refusal is `HostOutOfMemory`.
    pub fn report_allocations(&self) -> Result<Vec<AllocationReport>>
        ensures rows { IfOk result (λ v. map row_of v.items
            ≡ map extent_row (extents_of (block_of self.now))) }
        ensures cause { IfErr result (λ e. e ≡ HostOutOfMemory) }
    {
        match self {
            SubAllocator::FreeList(list) => list.report_allocations(),
            SubAllocator::Dedicated(block) => block.report_allocations(),
        }
    }

    /// The live pieces in order of offset, as leaks of block `memory_block` of type `memory_type`. It takes no memory.
    pub fn leaks(&self, memory_type: usize, memory_block: usize) -> Leaks<'_>
        ensures { result ≡ leaks_of memory_type memory_block (block_of self.now) }
    {
        match self {
            SubAllocator::FreeList(list) => list.leaks(memory_type, memory_block),
            SubAllocator::Dedicated(block) => block.leaks(memory_type, memory_block),
        }
    }

    /// The texts of `leaks`, in the same order. The only refusal is `HostOutOfMemory`.
    pub fn leak_texts(&self, memory_type: usize, memory_block: usize) -> Result<Vec<String>>
        ensures texts { IfOk result (λ v. map string_bytes v.items
            ≡ map leak_text (leaks_of memory_type memory_block (block_of self.now))) }
        ensures cause { IfErr result (λ e. e ≡ HostOutOfMemory) }
    {
        let alloc = match self {
            SubAllocator::FreeList(list) => list.alloc(),
            SubAllocator::Dedicated(block) => block.alloc,
        };
        texts_of(alloc, self.leaks(memory_type, memory_block))
    }

    /// The live pieces in order of offset: they lie in the block one behind another. It takes no memory.
    pub fn pieces(&self) -> Pieces<'_>
        ensures pieces { result ≡ extents_of (block_of self.now) }
        ensures laid_out { LieBetween 0 result (size_of (block_of self.now)) }
    {
        match self {
            SubAllocator::FreeList(list) => list.pieces(),
            SubAllocator::Dedicated(block) => block.pieces(),
        }
    }

    /// The gaps before, between and behind the live pieces, in order of start. It takes no memory.
    pub fn gaps(&self) -> Gaps<'_>
        ensures { result ≡ gaps_in (block_of self.now) }
    {
        Gaps::new(self.pieces(), self.size())
    }

    /// How many live pieces and gaps there are, what the pieces take with their padding, and the longest gap, in bytes.
    /// It takes no memory.
    pub fn statistics(&self) -> BlockStatistics
        ensures { result ≡ statistics_of (block_of self.now) }
    {
        count_pieces(self.pieces(), self.size())
    }

    /// The bytes of the longest gap, 0 where there is none, which `statistics` finds by counting. A request of more bytes has no
    /// place. It looks at no other gap.
    pub fn longest_gap(&self) -> u64
        ensures longest { result ≡ (statistics_of (block_of self.now)).longest_gap }
        ensures law { (r : Request) → result < r.size → HasNoPlaceIn (block_of self.now) r }
    {
        match self {
            SubAllocator::FreeList(list) => list.longest_gap(),
            SubAllocator::Dedicated(block) => block.longest_gap(),
        }
    }

    /// The bytes of all live pieces, padding included.
    pub fn allocated(&self) -> u64
        ensures sum { result ≡ allocated_bytes (block_of self.now) }
        ensures within { result ≤ size_of (block_of self.now) }
    {
        match self {
            SubAllocator::FreeList(list) => list.allocated(),
            SubAllocator::Dedicated(block) => block.allocated(),
        }
    }

    /// The offset and the size in bytes of the live piece with that number; `None` where there is none.
    pub fn place_of(&self, chunk_id: NonZeroU64) -> Option<(u64, u64)>
        ensures { FindsPlace (extents_of (block_of self.now)) (non_zero_u64_get chunk_id) result }
    {
        match self {
            SubAllocator::FreeList(list) => list.place_of(chunk_id),
            SubAllocator::Dedicated(block) => block.place_of(chunk_id),
        }
    }

    /// The size of the block in bytes.
    pub fn size(&self) -> u64
        ensures { result ≡ size_of (block_of self.now) }
    {
        match self {
            SubAllocator::FreeList(list) => list.size(),
            SubAllocator::Dedicated(block) => block.size(),
        }
    }

    /// Whether no piece is live.
    pub fn is_empty(&self) -> bool
        ensures { IsTrue result ↔ extents_of (block_of self.now) ≡ [] }
    {
        match self {
            SubAllocator::FreeList(list) => list.is_empty(),
            SubAllocator::Dedicated(block) => block.is_empty(),
        }
    }

    /// Whether pieces of any size may be asked for: true of a free list alone.
    pub fn supports_general_allocations(&self) -> bool
        ensures { result ≡ is_shared (block_of self.now) }
    {
        match self {
            SubAllocator::FreeList(_) => true,
            SubAllocator::Dedicated(_) => false,
        }
    }
}
