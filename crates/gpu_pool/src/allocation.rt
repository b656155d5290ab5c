//! A piece of a pool, as its owner holds it.

ghost use Rattle.std.specs.Prelude.{◌≡◌, Some, false, IsSomeAnd, string_bytes};
ghost use Rattle.gpu_pool.specs.Allocation.{piece_of, IsAllocated};

use gpu_core::Piece;
use std::num::NonZeroU64;

/// A piece of a heap: bytes `offset..offset + size` of `heap`. Place a resource there. Give it back by the allocator's
/// `free`; one that is dropped otherwise stays live until `destroy`.
#[derive(Debug, Drop)]
pub struct Allocation<H> {
    pub(crate) chunk_id: NonZeroU64,
    pub(crate) offset: u64,
    pub(crate) size: u64,
    pub(crate) memory_block_index: usize,
    pub(crate) memory_type_index: usize,
    pub(crate) heap: H,
    pub(crate) name: String,
}

/// The allocation of a piece of the memory type at `index`.
pub(crate) fn allocation_of<H>(index: usize, piece: Piece<H>, name: String) -> Allocation<H>
    ensures { IsAllocated index (string_bytes name) piece result }
{
    Allocation {
        chunk_id: piece.chunk_id,
        offset: piece.offset,
        size: piece.size,
        memory_block_index: piece.slot,
        memory_type_index: index,
        heap: piece.handle,
        name,
    }
}

impl<H: Copy> Allocation<H> {
    /// The number of the piece in its block. It is always there.
    pub fn chunk_id(&self) -> Option<NonZeroU64>
        ensures { result ≡ Some self.now.chunk_id }
    {
        Some(self.chunk_id)
    }

    /// The heap that it lies in.
    pub fn heap(&self) -> H
        ensures { result ≡ self.now.heap }
    {
        self.heap
    }

    /// Where it begins in its heap, in bytes; a multiple of the alignment that was asked for.
    pub fn offset(&self) -> u64
        ensures { result ≡ self.now.offset }
    {
        self.offset
    }

    /// Its size in bytes, as it was asked for.
    pub fn size(&self) -> u64
        ensures { result ≡ self.now.size }
    {
        self.size
    }

    /// The index of its memory type.
    pub fn memory_type_index(&self) -> usize
        ensures { result ≡ self.now.memory_type_index }
    {
        self.memory_type_index
    }

    /// The slot of its block in its memory type.
    pub fn memory_block_index(&self) -> usize
        ensures { result ≡ self.now.memory_block_index }
    {
        self.memory_block_index
    }

    /// The name that it was last given. Every allocation has one.
    pub fn name(&self) -> Option<&str>
        ensures { IsSomeAnd result (λ name. name.now ≡ string_bytes self.now.name) }
    {
        Some(self.name.as_str())
    }

    /// Whether it is no piece. None such is ever made.
    pub fn is_null(&self) -> bool
        ensures { result ≡ false }
    {
        false
    }

    /// The piece that it stands for.
    pub fn piece(&self) -> Piece<H>
        ensures { result ≡ piece_of self.now }
    {
        Piece {
            slot: self.memory_block_index,
            chunk_id: self.chunk_id,
            offset: self.offset,
            size: self.size,
            handle: self.heap,
        }
    }
}
