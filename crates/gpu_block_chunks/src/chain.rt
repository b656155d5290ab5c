//! The chunks of a block, in slots that chains of numbers find, each linked to the slots of the ones beside it.

ghost use Rattle.std.specs.Prelude.{◌≡◌, ◌+◌, ◌-◌, ◌^◌, ◌<◌, ◌≤◌, is_some, if◌then◌else◌, IfSome, IfOk, OnOk, IsOk, MatchOption, Some, None};
ghost use Rattle.std.specs.Option.{option_map};
ghost use Rattle.gpu_cost.specs.Cost.{LooksUp, LooksUpBetween};
ghost use Rattle.gpu_block_chunks.specs.Slots.{linked_of};
ghost use Rattle.gpu_block_chunks.specs.Nodes.{held_at, node_value, link_chunk_id, IsTaken, Reaches};
ghost use Rattle.gpu_block_chunks.specs.ChunkList.{Covers, AreDistinct, chunk_of};
ghost use Rattle.gpu_block_chunks.specs.Chain.{HasChunkId, HasNoChunkId, HasNoPiece, ReleasesPiece, IsSplit, IsFilled, IsWorded, from_chunk_id, beside, beside_of, around_of, first_after, IsChunkAt, IsFresh, IsLonger};

mod chunk_ids;
mod eras;
mod link;
mod node;
mod nodes;
mod slot_link;
mod slots;

use crate::chunk::{ChunkView, is_free};
use crate::label::{Label, NewLabel};
use gpu_cost::Cost;
use gpu_values::AllocationType;
use link::{Link, LinkedChunk, LinkedView, chunk_id_of};
use node::{
    cut_front, ends_of, join_left, join_right, link_at, linked_at, set_next_of, set_use, set_word,
};
use nodes::Nodes;
use std::alloc::{AllocError, Global};
use std::marker::Model;

/// A chunk without its label.
#[derive(Clone, Copy)]
pub struct Neighbour {
    pub start: u64,
    pub size: u64,
    pub kind: AllocationType,
    pub chunk_id: u64,
}

/// A chunk, and what stands before and behind it.
#[derive(Clone, Copy)]
pub struct Neighbours {
    pub here: Neighbour,
    pub before: Option<Neighbour>,
    pub after: Option<Neighbour>,
}

/// The chunks of a block, from its start to its end. They cover it without overlap, and no two have one number.
#[derive(Drop)]
pub struct Chain {
    nodes: Nodes,
    first: u64,
    size: u64,
}

impl Model for Chain {
    ghost use Rattle.std.specs.Prelude.{Some};
    ghost use Rattle.gpu_block_chunks.specs.Chain.{Linked, IsChain, walk, chunks_in};
    ghost use Rattle.gpu_block_chunks.specs.Nodes.{held_at, room_of};

    ghost Value = { Linked };

    ghost view = { λ s. record {
      chunks = chunks_in (walk s.size (held_at s.nodes) (Some s.first));
      size = s.size;
      room = room_of s.nodes;
    } };

    ghost invariant = { λ s. IsChain (held_at s.nodes) s.first s.size
        (walk s.size (held_at s.nodes) (Some s.first)) };
}

/// The one way to read a chunk by its number.
fn node_at<'a>(nodes: &'a Nodes, chunk_id: u64, cost: &mut Cost) -> Option<LinkedView<'a>>
    ensures value { option_map (node_value nodes.now.ids) (option_map linked_of result)
        ≡ held_at nodes.now chunk_id }
    ensures links { IfSome result (λ n. IsTaken nodes.now.ids n.prev
        × IsTaken nodes.now.ids n.next) }
    ensures counted { LooksUp 1 cost.old cost.new }
{
    cost.look_up();
    nodes.get(chunk_id)
}

fn short(chunk: &ChunkView<'_>) -> Neighbour
    ensures { result ≡ beside (chunk_of chunk.now) }
{
    Neighbour {
        start: chunk.start,
        size: chunk.size,
        kind: chunk.kind,
        chunk_id: chunk.chunk_id,
    }
}

/// The chunk that a link leads to, if it is one.
fn beside_at(nodes: &Nodes, link: Option<Link>, cost: &mut Cost) -> Option<Neighbour>
    requires { Reaches nodes.now link }
    ensures value { result ≡ beside_of (held_at nodes.now) (link_chunk_id link) }
    ensures counted { LooksUp (if is_some link then 1 else 0) cost.old cost.new }
{
    let link = link?;
    Some(short(&linked_at(nodes, link, cost).chunk))
}

/// The chunk that a link leads to, and what stands beside it.
fn around_at(nodes: &Nodes, at: Link, cost: &mut Cost) -> Neighbours
    requires { Reaches nodes.now (Some at) }
    ensures value { option_map (around_of (held_at nodes.now)) (held_at nodes.now at.chunk_id)
        ≡ Some result }
    ensures counted { LooksUpBetween 1 3 cost.old cost.new }
{
    let node = linked_at(nodes, at, cost);
    let before = beside_at(nodes, nodes.link_in(node.prev), cost);
    let after = beside_at(nodes, nodes.link_in(node.next), cost);
    Neighbours {
        here: short(&node.chunk),
        before,
        after,
    }
}

/// The number of the first chunk, after one was put behind `prev`.
fn first_of(prev: Option<u64>, chunk_id: u64, first: u64) -> u64
    ensures { result ≡ first_after prev chunk_id first }
{
    match prev {
        Some(_) => first,
        None => chunk_id,
    }
}

impl Chain {
    /// A block of `size` bytes that is one free chunk, with number 1.
    pub fn new(alloc: Global, size: u64) -> Result<Chain, AllocError>
        requires { 0 < size }
        ensures { IfOk result (λ c. (c.size ≡ size) × IsFresh c.chunks size) }
    {
        let mut nodes = Nodes::with_capacity(alloc, 1)?;
        let here = Neighbour {
            start: 0,
            size,
            kind: AllocationType::Free,
            chunk_id: 1,
        };
        nodes.put(1, LinkedChunk::new(here, 0, NewLabel::empty(), None, None));
        Ok(Chain {
            nodes,
            first: 1,
            size,
        })
    }

    /// Tells proofs that the chunks cover the block, and that no two have one number; it does nothing.
    pub fn laid_out(&self)
        ensures covers { Covers self.now.chunks 0 self.now.size }
        ensures distinct { AreDistinct self.now.chunks }
        ensures bounded { self.now.size < 2 ^ 64 }
    {
        let _size = self.size;
    }

    /// The size of the block in bytes. It counts as a look-up.
    pub fn size(&self, count: &mut Cost) -> u64
        ensures value { result ≡ self.now.size }
        ensures counted { LooksUp 1 count.old count.new }
    {
        count.look_up();
        self.size
    }

    /// The number of the chunk at the block's start.
    pub(crate) fn first(&self) -> u64
        ensures { from_chunk_id (Some result) self.now.chunks ≡ self.now.chunks }
    {
        self.first
    }

    /// The chunk of that number, and the number of the next one.
    pub fn chunk(&self, chunk_id: u64, cost: &mut Cost) -> Option<(ChunkView<'_>, Option<u64>)>
        ensures value { MatchOption result (HasNoChunkId self.now.chunks chunk_id)
            (λ p. IsChunkAt self.now.chunks chunk_id (chunk_of p.0) p.1) }
        ensures counted { LooksUp 1 cost.old cost.new }
    {
        // a read, so that the proof has the invariant
        let _size = self.size;
        let node = node_at(&self.nodes, chunk_id, cost)?;
        Some((node.chunk, chunk_id_of(self.nodes.link_in(node.next))))
    }

    /// Makes room for that many more chunks, where there isn't room enough. A refusal changes no chunk.
    pub fn reserve(&mut self, more: usize) -> Result<(), AllocError>
        ensures same { (self.new.chunks ≡ self.old.chunks) × (self.new.size ≡ self.old.size) }
        ensures room { OnOk result (more ≤ self.new.room) }
        ensures kept { self.old.room ≤ self.new.room }
        ensures enough { more ≤ self.old.room → IsOk result × (self.new ≡ self.old) }
    {
        if more <= self.nodes.room() {
            return Ok(());
        }
        self.nodes.reserve(more)
    }

    /// Cuts a piece off the front of a chunk, under a new number. There is room for it, so no memory is taken.
    pub fn split_front(
        &mut self,
        chunk_id: u64,
        new: u64,
        taken: u64,
        offset: u64,
        kind: AllocationType,
        label: NewLabel<'_>,
        cost: &mut Cost,
    )
        requires longer { IsLonger self.old.chunks chunk_id taken }
        requires positive { 0 < taken }
        requires fresh { HasNoChunkId self.old.chunks new }
        requires room { 0 < self.old.room }
        ensures chunks { IsSplit self.old.chunks chunk_id taken new offset kind label.entry
            self.new.chunks }
        ensures size { self.new.size ≡ self.old.size }
        ensures counted { LooksUpBetween 3 4 cost.old cost.new }
    {
        // a read, so that the proof has the invariant
        let _size = self.size;
        let rest = self.nodes.link_to(chunk_id);
        let ends = ends_of(&self.nodes, rest, cost);
        let prev = self.nodes.link_in(ends.prev);
        let here = Neighbour {
            start: ends.start,
            size: taken,
            kind,
            chunk_id: new,
        };
        cost.look_up();
        let piece = self.nodes.put(
            new,
            LinkedChunk::new(here, offset, label, ends.prev, Some(rest.slot)),
        );
        cut_front(&mut self.nodes, rest, taken, Some(piece), cost);
        set_next_of(&mut self.nodes, prev, Some(piece), cost);
        self.first = first_of(chunk_id_of(prev), new, self.first);
    }

    /// Gives a chunk another offset, kind and label. It takes no memory.
    pub fn fill(
        &mut self,
        chunk_id: u64,
        offset: u64,
        kind: AllocationType,
        label: NewLabel<'_>,
        cost: &mut Cost,
    )
        requires there { HasChunkId self.old.chunks chunk_id }
        ensures chunks { IsFilled self.old.chunks chunk_id offset kind label.entry self.new.chunks }
        ensures size { self.new.size ≡ self.old.size }
        ensures counted { LooksUp 1 cost.old cost.new }
    {
        let at = self.nodes.link_to(chunk_id);
        set_use(&mut self.nodes, at, offset, kind, Label::of(label), cost);
        // a read, so that the proof has the invariant
        let _size = self.size;
    }

    /// Gives the chunk of that number another word. It takes no memory.
    pub fn set_word(&mut self, chunk_id: u64, word: u64, cost: &mut Cost)
        requires there { HasChunkId self.old.chunks chunk_id }
        ensures chunks { IsWorded self.old.chunks chunk_id word self.new.chunks }
        ensures size { self.new.size ≡ self.old.size }
        ensures counted { LooksUp 1 cost.old cost.new }
    {
        let at = self.nodes.link_to(chunk_id);
        set_word(&mut self.nodes, at, word, cost);
        // a read, so that the proof has the invariant
        let _size = self.size;
    }

    /// Frees the piece of that number, and joins it with the free chunks beside it: what stood beside it, and what stands beside the chunk
    /// that it became part of. Where the number is no piece's nothing changes. It takes no memory.
    #[inline(always)]
    pub fn release_piece(
        &mut self,
        chunk_id: u64,
        cost: &mut Cost,
    ) -> Option<(Neighbours, Neighbours)>
        ensures released { MatchOption result
            (HasNoPiece self.old.chunks chunk_id × (self.new ≡ self.old))
            (λ r. ReleasesPiece self.old.chunks chunk_id self.new.chunks r.0 r.1) }
        ensures size { self.new.size ≡ self.old.size }
        ensures counted { MatchOption result (LooksUpBetween 1 4 cost.old cost.new)
            (λ r. LooksUpBetween 6 18 cost.old cost.new) }
    {
        // a read, so that the proof has the invariant
        let _size = self.size;
        let at = link_at(&self.nodes, chunk_id, cost)?;
        let was = around_at(&self.nodes, at, cost);
        if is_free(was.here.kind) {
            return None;
        }
        set_use(
            &mut self.nodes,
            at,
            was.here.start,
            AllocationType::Free,
            Label::empty(),
            cost,
        );
        join_right(&mut self.nodes, at, cost);
        let joined = join_left(&mut self.nodes, at, cost);
        Some((was, around_at(&self.nodes, joined, cost)))
    }
}
