//! Chunks with links to the ones beside them.

ghost use Rattle.std.specs.Prelude.{◌≡◌};
ghost use Rattle.gpu_block_chunks.specs.Nodes.{link_chunk_id, link_slot};

use super::Neighbour;
use crate::chunk::{ChunkView, NewChunk};
use crate::label::NewLabel;

/// Where a chunk is found: its number, and the slot that it stands in.
#[derive(Clone, Copy)]
pub struct Link {
    pub chunk_id: u64,
    pub slot: u32,
}

/// A chunk that is to be put into a slot, and the slots of the ones beside it.
#[derive(Drop)]
pub struct LinkedChunk<'a> {
    pub prev: Option<u32>,
    pub chunk: NewChunk<'a>,
    pub next: Option<u32>,
}

/// What is read of a chunk in a slot, and the slots of the ones beside it.
#[derive(Clone, Copy)]
pub struct LinkedView<'a> {
    pub prev: Option<u32>,
    pub chunk: ChunkView<'a>,
    pub next: Option<u32>,
}

impl<'a> LinkedChunk<'a> {
    /// The chunk of that label, where it stands there and these are beside it.
    pub fn new(
        here: Neighbour,
        offset: u64,
        label: NewLabel<'a>,
        prev: Option<u32>,
        next: Option<u32>,
    ) -> LinkedChunk<'a>
        ensures links { (result.prev ≡ prev) × (result.next ≡ next) }
        ensures value { result.chunk ≡ record {
          start = here.start;
          size = here.size;
          offset = offset;
          kind = here.kind;
          chunk_id = here.chunk_id;
          label = label.entry;
        } }
    {
        let chunk = NewChunk {
            start: here.start,
            size: here.size,
            offset,
            kind: here.kind,
            chunk_id: here.chunk_id,
            label,
        };
        LinkedChunk { prev, next, chunk }
    }
}

/// The number of the chunk that a link leads to, if there is one.
pub fn chunk_id_of(link: Option<Link>) -> Option<u64>
    ensures { result ≡ link_chunk_id link }
{
    link.map(|link| link.chunk_id)
}

/// The slot that a link leads to, if there is one.
pub fn slot_of(link: Option<Link>) -> Option<u32>
    ensures { result ≡ link_slot link }
{
    link.map(|link| link.slot)
}
