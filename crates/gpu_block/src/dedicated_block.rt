//! A block that is one piece's own.

ghost use Rattle.std.specs.Prelude.{◌≡◌, ◌<◌, ◌≤◌, IfOk, OnOk, OnErr, IfErr, IfSome, IsSomeAnd, codes, None, IsTrue, ◌↔◌, ◌≢◌, []};
ghost use Rattle.std.specs.Int.NonZero.{non_zero_u64_get};
ghost use Rattle.gpu_values.specs.Refusal.{refusal_of, internal};
ghost use Rattle.gpu_values.specs.declared.error.AllocationError.TheVariants.{HostOutOfMemory};

use gpu_block_chunks::{Chunk, Label, Name, NewLabel};
use gpu_values::{AllocationError, AllocationType, Result, internal_fault};
use std::alloc::Global;
use std::marker::Model;
use std::num::NonZeroU64;

/// A block of memory for one piece, which has its size, offset 0 and number 1. It holds no memory of a device.
pub struct DedicatedBlockAllocator {
    pub(crate) alloc: Global,
    size: u64,
    pub(crate) piece: Option<Chunk>,
}

// Written out, so that where one is dropped a proof sees one call, and not each of its parts.
impl Drop for DedicatedBlockAllocator {
    fn drop(self) {
        let DedicatedBlockAllocator {
            alloc: _,
            size: _,
            piece: _,
        } = self;
    }
}

impl Model for DedicatedBlockAllocator {
    ghost use Rattle.std.specs.Prelude.{IfSome, ◌<◌, ◌^◌};
    ghost use Rattle.std.specs.Option.{option_map};
    ghost use Rattle.gpu_block.specs.Dedicated.{Dedicated};
    ghost use Rattle.gpu_block_pieces.specs.Chunks.{extent, IsWholeChunk};

    ghost Value = { Dedicated };

    ghost view = { λ a. record { size = a.size; piece = option_map extent a.piece } };

    ghost invariant = { λ a. (0 < a.size) × (a.size < 2 ^ 64)
        × IfSome a.piece (IsWholeChunk a.size) };
}

impl DedicatedBlockAllocator {
    ghost use Rattle.gpu_block_pieces.specs.FreeList.{FindsPlace, extent_bytes};
    ghost use Rattle.gpu_block_pieces.specs.Request.{Request, request};
    ghost use Rattle.gpu_block.specs.Block.{HasNoPlaceIn, dedicated};
    ghost use Rattle.gpu_block_pieces.specs.Pieces.{gaps_between, longest};
    ghost use Rattle.gpu_block.specs.Dedicated.{IsWhole, empty_dedicated, held_extents, DedicatedTakes, IsDedicatedAllocateRefusal, DedicatedReleases, IsDedicatedReleaseRefusal, DedicatedRenames, DedicatedSetsWord, IsDedicatedRenameRefusal};

    /// An empty block of `size` bytes, which isn't 0. It takes no memory.
    pub fn new(alloc: Global, size: u64) -> Self
        requires { 0 < size }
        ensures { result ≡ empty_dedicated size }
    {
        DedicatedBlockAllocator {
            alloc,
            size,
            piece: None,
        }
    }

    /// Allocates the whole block, and returns offset 0 and chunk id 1. `OutOfMemory` where it is taken, else `Internal` where `size`
    /// (bytes) isn't the block's, else `HostOutOfMemory` where the host refused memory for the name; a refusal leaves the block
    /// as it was. `kind` isn't `Free`.
    pub fn allocate(
        &mut self,
        size: u64,
        kind: AllocationType,
        name: &str,
    ) -> Result<(u64, NonZeroU64)>
        requires piece { kind ≢ AllocationType.Free }
        ensures took { IfOk result (λ p. DedicatedTakes self.old (request size 1 kind name.now) p.0
            (non_zero_u64_get p.1) self.new) }
        ensures cause { IfErr result (λ e. IsDedicatedAllocateRefusal self.old
            (request size 1 kind name.now) (refusal_of e)) }
        ensures refused { OnErr result (self.new ≡ self.old) }
        ensures sound { OnOk result (IsWhole self.new) }
    {
        if self.piece.is_some() {
            return Err(AllocationError::OutOfMemory);
        }
        if size != self.size {
            return Err(internal_fault("DedicatedBlockAllocator size must match allocation size."));
        }
        let label = Label::of(NewLabel::new(self.alloc, name)?);
        self.piece = Some(Chunk {
            start: 0,
            size,
            offset: 0,
            kind,
            chunk_id: 1,
            label,
        });
        Ok((0, NonZeroU64::MIN))
    }

    /// Frees the piece. It takes no memory. `Internal` where the number is missing or isn't 1, or no piece is held; then
    /// nothing changes.
    pub fn free(&mut self, chunk_id: Option<NonZeroU64>) -> Result<()>
        ensures freed { OnOk result
            (IsSomeAnd chunk_id (λ n. DedicatedReleases self.old (non_zero_u64_get n) self.new)) }
        ensures cause { IfErr result (λ e. IsDedicatedReleaseRefusal self.old chunk_id
            (refusal_of e)) }
        ensures refused { OnErr result (self.new ≡ self.old) }
        ensures sound { OnOk result (IsWhole self.new) }
    {
        first(chunk_id)?;
        if self.piece.is_none() {
            return Err(internal_fault("Attempting to free a freed allocation."));
        }
        self.piece = None;
        Ok(())
    }

    /// Renames the piece. `Internal` where the number is missing or isn't 1, or no piece is held, else
    /// `HostOutOfMemory` where the host refused memory; a refusal leaves the block as it was.
    pub fn rename_allocation(&mut self, chunk_id: Option<NonZeroU64>, name: &str) -> Result<()>
        ensures renamed { OnOk result (IsSomeAnd chunk_id
            (λ n. DedicatedRenames self.old (non_zero_u64_get n) name.now self.new)) }
        ensures cause { IfErr result (λ e. IsDedicatedRenameRefusal self.old chunk_id
            (refusal_of e)) }
        ensures refused { OnErr result (self.new ≡ self.old) }
        ensures sound { OnOk result (IsWhole self.new) }
    {
        first(chunk_id)?;
        match &mut self.piece {
            None => Err(internal_fault("Attempting to rename a freed allocation.")),
            Some(chunk) => {
                chunk.label.name = Name::new(self.alloc, name)?;
                Ok(())
            }
        }
    }

    /// Keeps another word of the caller's with the piece. `Internal`, as for a new name, where the number is missing or isn't 1, or no
    /// piece is held, and then the block stays as it was. It takes no memory.
    pub fn set_word(&mut self, chunk_id: Option<NonZeroU64>, word: u64) -> Result<()>
        ensures set { OnOk result (IsSomeAnd chunk_id
            (λ n. DedicatedSetsWord self.old (non_zero_u64_get n) word self.new)) }
        ensures cause { IfErr result (λ e. IsDedicatedRenameRefusal self.old chunk_id
            (refusal_of e)) }
        ensures no_memory { IfErr result (λ e. e ≢ HostOutOfMemory) }
        ensures refused { OnErr result (self.new ≡ self.old) }
        ensures sound { OnOk result (IsWhole self.new) }
    {
        first(chunk_id)?;
        let Some(chunk) = &mut self.piece else {
            return Err(internal_fault("Attempting to rename a freed allocation."));
        };
        chunk.label.word = word;
        Ok(())
    }

    /// The bytes of the piece; 0 where none is held.
    pub fn allocated(&self) -> u64
        ensures sum { result ≡ extent_bytes (held_extents self.now) }
        ensures within { result ≤ self.now.size }
    {
        match &self.piece {
            None => 0,
            Some(chunk) => chunk.size,
        }
    }

    /// The offset and the size in bytes of the piece, if one is held and that is its number.
    pub(crate) fn place_of(&self, chunk_id: NonZeroU64) -> Option<(u64, u64)>
        ensures { FindsPlace (held_extents self.now) (non_zero_u64_get chunk_id) result }
    {
        match &self.piece {
            Some(chunk) if chunk_id.get() == 1 => Some((0, chunk.size)),
            _ => None,
        }
    }

    /// The size of the block in bytes.
    pub(crate) fn size(&self) -> u64
        ensures { result ≡ self.now.size }
    {
        self.size
    }

    /// The bytes of the longest gap: the block's where no piece is held, else 0. A request of more bytes has no place.
    pub fn longest_gap(&self) -> u64
        ensures longest { result ≡ longest (gaps_between 0 (held_extents self.now) self.now.size) }
        ensures law { (r : Request) → result < r.size → HasNoPlaceIn (dedicated self.now) r }
    {
        match self.piece {
            None => self.size,
            Some(_) => 0,
        }
    }

    /// Whether no piece is held.
    pub fn is_empty(&self) -> bool
        ensures { IsTrue result ↔ held_extents self.now ≡ [] }
    {
        self.piece.is_none()
    }
}

/// The number 1, which alone is a piece's.
fn first(chunk_id: Option<NonZeroU64>) -> Result<()>
    ensures is { OnOk result (IsSomeAnd chunk_id (λ n. non_zero_u64_get n ≡ 1)) }
    ensures cause { IfErr result (λ e. refusal_of e ≡ internal (codes "Chunk ID must be 1.") None) }
    ensures other { OnErr result (IfSome chunk_id (λ n. non_zero_u64_get n ≢ 1)) }
{
    match chunk_id {
        Some(chunk_id) if chunk_id.get() == 1 => Ok(()),
        _ => Err(internal_fault("Chunk ID must be 1.")),
    }
}
