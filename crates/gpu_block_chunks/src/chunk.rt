//! A chunk of a block: a piece with its padding, or a gap.

ghost use Rattle.std.specs.Prelude.{◌≡◌, IsTrue, ◌↔◌};

use crate::label::{Label, NewLabel};
use gpu_values::AllocationType;
use std::marker::Model;

/// The bytes `start..start + size` of a block, which belong to one piece or are free.
#[derive(Drop)]
pub struct Chunk {
    pub start: u64,
    pub size: u64,
    pub kind: AllocationType,
    pub chunk_id: u64,
    /// Where the piece begins: what lies before it in the chunk is padding.
    pub offset: u64,
    pub label: Label,
}

/// A chunk that is to be put into a slot, with its label made ready.
#[derive(Drop)]
pub struct NewChunk<'a> {
    pub start: u64,
    pub size: u64,
    pub kind: AllocationType,
    pub chunk_id: u64,
    /// Where the piece begins: what lies before it in the chunk is padding.
    pub offset: u64,
    pub label: NewLabel<'a>,
}

impl<'a> Model for NewChunk<'a> {
    ghost use Rattle.gpu_block_chunks.specs.declared.chunk.Chunk.{Chunk};

    ghost Value = { Chunk };

    ghost view = { λ c. record {
      start = c.start;
      size = c.size;
      kind = c.kind;
      chunk_id = c.chunk_id;
      offset = c.offset;
      label = c.label;
    } };
}

/// What is read of a chunk: its numbers, and its label lent.
#[derive(Clone, Copy)]
pub struct ChunkView<'a> {
    pub start: u64,
    pub size: u64,
    pub kind: AllocationType,
    pub chunk_id: u64,
    /// Where the piece begins: what lies before it in the chunk is padding.
    pub offset: u64,
    pub label: &'a Label,
}

ghost use Rattle.gpu_block_chunks.specs.ChunkList.{IsFree, chunk_of};

impl Chunk {
    /// What is read of it.
    #[inline(always)]
    pub fn view(&self) -> ChunkView<'_>
        ensures { chunk_of result ≡ self.now }
    {
        ChunkView {
            start: self.start,
            size: self.size,
            kind: self.kind,
            chunk_id: self.chunk_id,
            offset: self.offset,
            label: &self.label,
        }
    }
}

/// Whether a chunk of this kind is a gap.
pub fn is_free(kind: AllocationType) -> bool
    ensures { IsTrue result ↔ IsFree kind }
{
    match kind {
        AllocationType::Free => true,
        AllocationType::Linear | AllocationType::NonLinear => false,
    }
}
