//! A block that is cut into pieces, each in the shortest gap that it fits in, and what its searches cost so far.

ghost use Rattle.std.specs.Prelude.{◌≡◌, ◌≢◌, ℕ, ◌+◌, ◌^◌, ◌<◌, ◌≤◌, IfOk, OnOk, OnErr, IfErr, IfSome, IsSomeAnd, IsTrue, ◌↔◌};
ghost use Rattle.std.specs.Int.{is_power_of_two};
ghost use Rattle.std.specs.Int.NonZero.{non_zero_u64_get};
ghost use Rattle.std.specs.List.{list_any};
ghost use Rattle.gpu_values.specs.Refusal.{refusal_of};
ghost use Rattle.gpu_cost.specs.Cost.{LooksUp};
ghost use Rattle.gpu_block_pieces.specs.BlockRefusal.{no_piece_fault};
ghost use Rattle.gpu_block_pieces.specs.Chunks.{is_gap_by};
ghost use Rattle.gpu_values.specs.declared.error.AllocationError.TheVariants.{HostOutOfMemory};

use crate::chunks::Chunks;
use crate::place::Wanted;
use crate::search::{Found, find};
use gpu_block_chunks::{NewLabel, NewName};
use gpu_cost::Cost;
use gpu_values::{AllocationError, AllocationType, Result, internal_fault};
use std::alloc::Global;
use std::marker::Model;
use std::num::NonZeroU64;

/// A block of memory that is cut into pieces. It holds no memory of a device: it says which piece lies where. A piece
/// lies in the shortest gap that it fits in, of equal ones in the lowest, and linear and other pieces share no page of
/// the block's granularity.
pub struct FreeListAllocator {
    pub(crate) alloc: Global,
    pub(crate) granularity: u64,
    pub(crate) counter: u64,
    /// The bytes of all pieces, padding included.
    pub(crate) allocated: u64,
    pub(crate) chunks: Chunks,
    pub(crate) cost: Cost,
}

// Written out, so that where one is dropped a proof sees one call, and not each of its parts.
impl Drop for FreeListAllocator {
    fn drop(self) {
        let FreeListAllocator {
            alloc: _,
            granularity: _,
            counter: _,
            allocated: _,
            chunks: _,
            cost: _,
        } = self;
    }
}

impl Model for FreeListAllocator {
    ghost use Rattle.std.specs.Prelude.{IsTrue, ◌<◌, ◌^◌};
    ghost use Rattle.std.specs.Int.{is_power_of_two};
    ghost use Rattle.std.specs.Prelude.{◌≡◌};
    ghost use Rattle.gpu_cost.specs.Cost.{counts_of};
    ghost use Rattle.gpu_block_pieces.specs.FreeList.{Counted, extent_bytes};
    ghost use Rattle.gpu_block_pieces.specs.Chunks.{AreChunks, extents_of, free_list_of};
    ghost use Rattle.gpu_block_pieces.specs.Laws.{IsPageSeparated};

    ghost Value = { Counted };

    ghost view = { λ a. record {
      block = free_list_of a.chunks.size a.granularity a.counter a.chunks.items;
      cost = counts_of a.cost;
    } };

    ghost invariant = { λ a. IsTrue (is_power_of_two a.granularity)
        × AreChunks a.chunks.items a.chunks.size a.counter
        × IsPageSeparated (free_list_of a.chunks.size a.granularity a.counter a.chunks.items)
        × (a.chunks.size < 2 ^ 64)
        × (a.allocated ≡ extent_bytes (extents_of a.chunks.items)) };
}

impl FreeListAllocator {
    ghost use Rattle.gpu_block_pieces.specs.FreeList.{SomeExtent, IsGap, extent_bytes, fresh_free_list};
    ghost use Rattle.gpu_block_pieces.specs.Request.{request};
    ghost use Rattle.gpu_cost.specs.Cost.{Rises};
    ghost use Rattle.gpu_block_pieces.specs.Search.{IsSearch, LooksUpTo};
    ghost use Rattle.gpu_block_pieces.specs.Changes.{Takes, Releases, Renames, SetsWord};
    ghost use Rattle.gpu_block_pieces.specs.BlockRefusal.{IsAllocateRefusal, release_refusal, IsRenameRefusal};
    ghost use Rattle.gpu_block_pieces.specs.Laws.{IsSound, IsInOrder, IsPageSeparated, IsLongEnough, IsForChunkIds, IsCovered};

    /// A block of `size` bytes without pieces: one gap with number 1, and 2 is the next new number. `size` isn't 0.
    /// `granularity` is the page size in bytes, a power of two: Vulkan's bufferImageGranularity, elsewhere 1. The only refusal
    /// is `HostOutOfMemory`.
    pub fn new(alloc: Global, size: u64, granularity: u64) -> Result<Self>
        requires sized { 0 < size }
        requires paged { IsTrue (is_power_of_two granularity) }
        ensures fresh { IfOk result (λ b. b.block ≡ fresh_free_list size granularity 2) }
        ensures sound { IfOk result (λ b. IsSound b.block) }
        ensures ordered { IfOk result (λ b. IsInOrder b.block) }
        ensures cause { IfErr result (λ e. e ≡ HostOutOfMemory) }
    {
        Self::with_counter(alloc, size, granularity, 2)
    }

    /// Allocates `size` bytes at their best fit, and returns the piece's offset in bytes and its chunk id. `OutOfMemory` where
    /// there is no place, else `HostOutOfMemory` where the host refused memory; a refusal leaves the block as it was.
    /// What the piece's `free` will need is taken here. Callers hand in a size that isn't 0, an alignment in bytes that is a
    /// power of two, a kind that isn't `Free`, and the granularity that the block was made with.
    pub fn allocate(
        &mut self,
        size: u64,
        alignment: u64,
        kind: AllocationType,
        granularity: u64,
        name: &str,
    ) -> Result<(u64, NonZeroU64)>
        requires sized { 0 < size }
        requires aligned { IsTrue (is_power_of_two alignment) }
        requires piece { kind ≢ AllocationType.Free }
        requires paged { granularity ≡ self.old.block.granularity }
        ensures took { IfOk result (λ p. Takes self.old.block (request size alignment kind name.now)
            p.0 (non_zero_u64_get p.1) self.new.block) }
        ensures cause { IfErr result
            (λ e. IsAllocateRefusal self.old.block (request size alignment kind name.now) e) }
        ensures refused { OnErr result (self.new.block ≡ self.old.block) }
        ensures pages { self.new.block.granularity ≡ self.old.block.granularity }
        // where the pieces lie, for all pairs of them; and a gap that is long enough is never refused
        ensures sound { OnOk result (IsSound self.new.block) }
        ensures ordered { OnOk result (IsInOrder self.new.block) }
        ensures separated { OnOk result (IsPageSeparated self.new.block) }
        ensures covered { OnOk result (IsCovered self.new.block) }
        ensures law { IfErr result (λ e. (s t : ℕ) → IsGap self.old.block s t
            → IsLongEnough self.old.block (request size alignment kind name.now) s t
            → IsForChunkIds self.old.block e) }
        // what the search for the place cost, and its taking
        ensures cost { IsSearch self.old.block (request size alignment kind name.now) self.old.cost
            self.new.cost }
    {
        let wanted = Wanted {
            size,
            alignment,
            kind,
            granularity,
        };
        let Some(found) = find(self.chunks.gaps(), &wanted, &mut self.cost) else {
            return Err(AllocationError::OutOfMemory);
        };
        let rest = leaves_rest(found, size);
        if rest && self.counter == u64::MAX {
            return Err(AllocationError::OutOfMemory);
        }
        let text = NewLabel::new(self.alloc, name)?;
        let chunk_id = self
            .chunks
            .allocate(found, &wanted, self.counter, text, &mut self.cost)?;
        self.allocated += found.offset + size - found.gap.start;
        if rest {
            self.counter += 1;
        }
        Ok((found.offset, non_zero(chunk_id)))
    }

    /// Frees a live piece; its place joins the gaps beside it. It takes no memory. `Internal` where the number is
    /// missing or is no live piece's, and then the block stays as it was.
    pub fn free(&mut self, chunk_id: Option<NonZeroU64>) -> Result<()>
        ensures freed { OnOk result (IsSomeAnd chunk_id
            (λ n. Releases self.old.block (non_zero_u64_get n) self.new.block)) }
        ensures cause { IfErr result (λ e. refusal_of e ≡ release_refusal chunk_id) }
        ensures not_live { OnErr result
            (IfSome chunk_id (λ n. SomeExtent self.old.block (λ x. x.chunk_id ≡ non_zero_u64_get n)
            → ⊥)) }
        ensures refused { OnErr result (self.new.block ≡ self.old.block) }
        ensures pages { self.new.block.granularity ≡ self.old.block.granularity }
        ensures sound { OnOk result (IsSound self.new.block) }
        ensures ordered { OnOk result (IsInOrder self.new.block) }
        ensures separated { OnOk result (IsPageSeparated self.new.block) }
        ensures covered { OnOk result (IsCovered self.new.block) }
        ensures cost { Rises self.old.cost self.new.cost }
        ensures lookups { LooksUpTo 18 self.old.cost self.new.cost }
    {
        let Some(id) = chunk_id else {
            return Err(internal_fault("Chunk ID must be a valid value."));
        };
        let Some(freed) = self.chunks.free(id.get(), &mut self.cost) else {
            return Err(internal_fault("Attempting to free chunk that is not in chunk list."));
        };
        self.allocated -= freed;
        Ok(())
    }

    /// Renames a live piece. `Internal` where the number is missing, a gap's or nobody's, else
    /// `HostOutOfMemory` where the host refused memory; a refusal leaves the block as it was.
    pub fn rename_allocation(&mut self, chunk_id: Option<NonZeroU64>, name: &str) -> Result<()>
        ensures renamed { OnOk result (IsSomeAnd chunk_id
            (λ n. Renames self.old.block (non_zero_u64_get n) name.now self.new.block)) }
        ensures cause { IfErr result (λ e. IsRenameRefusal self.old.block chunk_id (refusal_of e)) }
        ensures refused { OnErr result (self.new.block ≡ self.old.block) }
        ensures pages { self.new.block.granularity ≡ self.old.block.granularity }
        ensures sound { OnOk result (IsSound self.new.block) }
        ensures ordered { OnOk result (IsInOrder self.new.block) }
        ensures separated { OnOk result (IsPageSeparated self.new.block) }
        ensures covered { OnOk result (IsCovered self.new.block) }
        ensures cost { Rises self.old.cost self.new.cost }
        ensures lookups { LooksUpTo 2 self.old.cost self.new.cost }
    {
        let Some(id) = chunk_id else {
            return Err(internal_fault("Chunk ID must be a valid value."));
        };
        let Some(piece) = self.chunks.piece(id.get(), &mut self.cost) else {
            return Err(no_piece(&self.chunks, id.get(), &mut self.cost));
        };
        let offset = piece.offset;
        let kind = piece.kind;
        let word = piece.label.word;
        let new_name = NewName::new(self.alloc, name)?;
        let label = NewLabel {
            name: new_name,
            word,
        };
        self.chunks
            .rename(id.get(), offset, kind, label, &mut self.cost);
        Ok(())
    }

    /// Keeps another word of the caller's with a live piece. `Internal`, as for a new name, where the number is missing, a gap's or
    /// nobody's, and then the block stays as it was. It takes no memory.
    pub fn set_word(&mut self, chunk_id: Option<NonZeroU64>, word: u64) -> Result<()>
        ensures set { OnOk result (IsSomeAnd chunk_id
            (λ n. SetsWord self.old.block (non_zero_u64_get n) word self.new.block)) }
        ensures cause { IfErr result (λ e. IsRenameRefusal self.old.block chunk_id (refusal_of e)) }
        ensures no_memory { IfErr result (λ e. e ≢ HostOutOfMemory) }
        ensures refused { OnErr result (self.new.block ≡ self.old.block) }
        ensures pages { self.new.block.granularity ≡ self.old.block.granularity }
        ensures sound { OnOk result (IsSound self.new.block) }
        ensures ordered { OnOk result (IsInOrder self.new.block) }
        ensures separated { OnOk result (IsPageSeparated self.new.block) }
        ensures covered { OnOk result (IsCovered self.new.block) }
        ensures cost { Rises self.old.cost self.new.cost }
        ensures lookups { LooksUpTo 2 self.old.cost self.new.cost }
    {
        let Some(id) = chunk_id else {
            return Err(internal_fault("Chunk ID must be a valid value."));
        };
        let Some(_piece) = self.chunks.piece(id.get(), &mut self.cost) else {
            return Err(no_piece(&self.chunks, id.get(), &mut self.cost));
        };
        self.chunks.set_word(id.get(), word, &mut self.cost);
        Ok(())
    }

    /// The bytes of all pieces, padding included. It looks at no piece.
    pub fn allocated(&self) -> u64
        ensures sum { result ≡ extent_bytes self.now.block.extents }
        ensures within { result ≤ self.now.block.size }
    {
        let _chunks = self.chunks.walk();
        self.allocated
    }

    /// Where the block takes the host's memory from.
    pub fn alloc(&self) -> Global {
        self.alloc
    }
}

/// Why a number that is no live piece's gets no other name or word.
fn no_piece(chunks: &Chunks, chunk_id: u64, cost: &mut Cost) -> AllocationError
    ensures value { refusal_of result
        ≡ no_piece_fault (list_any (λ c. is_gap_by c.kind chunk_id c) chunks.now.items) }
    ensures counted { LooksUp 1 cost.old cost.new }
{
    if chunks.has_gap(chunk_id, cost) {
        return internal_fault("Attempting to rename a freed allocation.");
    }
    internal_fault("Attempting to rename chunk that is not in chunk list.")
}

/// Whether a piece of that size at the found place leaves a rest of the gap.
fn leaves_rest(found: Found, size: u64) -> bool
    requires { (found.offset + size < 2 ^ 64) × (found.gap.start + found.gap.length < 2 ^ 64) }
    ensures { IsTrue result ↔ (found.offset + size < found.gap.start + found.gap.length) }
{
    found.offset + size < found.gap.start + found.gap.length
}

fn non_zero(n: u64) -> NonZeroU64
    requires { 0 < n }
    ensures { non_zero_u64_get result ≡ n }
{
    NonZeroU64::new(n).unwrap()
}
