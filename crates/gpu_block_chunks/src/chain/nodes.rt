//! The chunks of a chain in slots, which are found by number.

ghost use Rattle.std.specs.Prelude.{◌≡◌, ℕ, ◌+◌, ◌≤◌, ◌<◌, IsSome, IfOk, OnOk, IfSome, MatchOption, Some, None};
ghost use Rattle.std.specs.Option.{option_map};
ghost use Rattle.gpu_block_chunks.specs.Chain.{SetsAt, IsUnlinked};
ghost use Rattle.gpu_block_chunks.specs.Slots.{linked_of};
ghost use Rattle.gpu_block_chunks.specs.Nodes.{held_at, room_of, node_value, link_chunk_id, link_slot, number_at, IsTaken, Leads, Reaches, KeepsOthers, KeepsReached, IsAlone};

use super::chunk_ids::ChunkIds;
use super::link::{Link, LinkedChunk, LinkedView};
use super::slots::Slots;
use std::alloc::{AllocError, Global};
use std::marker::Model;

/// The chunks of a chain, each in a slot of its own, and the number in each slot. A chunk keeps its slot until it is taken out;
/// then the slot is the first to be used again.
#[derive(Drop)]
pub struct Nodes {
    pub(super) ids: ChunkIds,
    pub(super) chunks: Slots,
}

impl Model for Nodes {
    ghost use Rattle.std.specs.Prelude.{◌-◌, min, length};
    ghost use Rattle.gpu_block_chunks.specs.ChunkIds.{ids_of};
    ghost use Rattle.gpu_block_chunks.specs.Nodes.{Slotted, AreNodes};
    ghost use Rattle.gpu_block_chunks.specs.Slots.{taken};

    ghost Value = { Slotted };

    ghost view = { λ n. record {
      ids = ids_of n.chunks.slots (length n.ids.followers.items);
      chunks = n.chunks.slots;
      room = min (length n.ids.followers.items - taken n.chunks) n.chunks.room;
    } };

    ghost invariant = { λ n. AreNodes n.ids.eras n.ids.heads.items n.ids.followers.items n.chunks.slots };
}

impl Nodes {
    /// No chunks, and room for that many.
    pub fn with_capacity(alloc: Global, capacity: usize) -> Result<Nodes, AllocError>
        ensures none { IfOk result (λ n. (k : ℕ) → held_at n k ≡ None) }
        ensures room { IfOk result (λ n. capacity ≤ room_of n) }
    {
        let chunks = Slots::with_capacity(alloc, capacity)?;
        let mut ids = ChunkIds::new(alloc)?;
        ids.reserve_to(capacity)?;
        Ok(Nodes { ids, chunks })
    }

    /// The chunk of a number.
    pub fn get(&self, chunk_id: u64) -> Option<LinkedView<'_>>
        ensures value { option_map (node_value self.now.ids) (option_map linked_of result)
            ≡ held_at self.now chunk_id }
        ensures links { IfSome result (λ n. IsTaken self.now.ids n.prev
            × IsTaken self.now.ids n.next) }
    {
        let slot = self.ids.find(&self.chunks, chunk_id)?;
        self.chunks.get(slot as usize)
    }

    /// Where the chunk of a number is found, if there is one.
    #[inline(always)]
    pub fn find_link(&self, chunk_id: u64) -> Option<Link>
        ensures { MatchOption result (held_at self.now chunk_id ≡ None)
            (λ link. (link.chunk_id ≡ chunk_id) × Reaches self.now (Some link)) }
    {
        match self.ids.find(&self.chunks, chunk_id) {
            Some(slot) => Some(Link { chunk_id, slot }),
            None => None,
        }
    }

    /// Where the chunk of a number is found.
    pub fn link_to(&self, chunk_id: u64) -> Link
        requires { IsSome (held_at self.now chunk_id) }
        ensures chunk_id { result.chunk_id ≡ chunk_id }
        ensures leads { Leads self.now (Some result) }
    {
        match self.ids.find(&self.chunks, chunk_id) {
            Some(slot) => Link { chunk_id, slot },
            None => unreachable!(),
        }
    }

    /// The chunk that a link leads to.
    #[inline(always)]
    pub fn linked(&self, link: Link) -> LinkedView<'_>
        requires { Reaches self.now (Some link) }
        ensures value { held_at self.now link.chunk_id
            ≡ Some (node_value self.now.ids (linked_of result)) }
        ensures links { IsTaken self.now.ids result.prev × IsTaken self.now.ids result.next }
    {
        // a read, so that the proof has the invariant
        let _ids = &self.ids;
        self.chunks.at(link.slot as usize)
    }

    /// A link to the chunk in a slot, if it is one.
    pub fn link_in(&self, slot: Option<u32>) -> Option<Link>
        requires { IsTaken self.now.ids slot }
        ensures chunk_id { link_chunk_id result ≡ number_at self.now.ids slot }
        ensures slot { link_slot result ≡ slot }
        ensures reaches { Reaches self.now result }
    {
        // a read, so that the proof has the invariant
        let _ids = &self.ids;
        let slot = slot?;
        let linked = self.chunks.at(slot as usize);
        Some(Link {
            chunk_id: linked.chunk.chunk_id,
            slot,
        })
    }

    /// For how many more chunks there is room.
    pub fn room(&self) -> usize
        ensures { result ≡ room_of self.now }
    {
        let ids = self.ids.slots() - self.chunks.live();
        ids.min(self.chunks.room())
    }

    /// Makes room for that many more chunks. A refusal changes no chunk.
    pub fn reserve(&mut self, more: usize) -> Result<(), AllocError>
        ensures same { (k : ℕ) → held_at self.new k ≡ held_at self.old k }
        ensures room { OnOk result (more ≤ room_of self.new) }
        ensures kept { room_of self.old ≤ room_of self.new }
    {
        self.chunks.reserve(more)?;
        self.ids.reserve_to(self.chunks.capacity())
    }

    /// Puts a chunk under its number, which no other has. There is room for it, so no memory is taken.
    #[inline(always)]
    pub fn put(&mut self, chunk_id: u64, chunk: LinkedChunk<'_>) -> Link
        requires room { 0 < room_of self.old }
        requires numbered { (chunk.chunk).chunk_id ≡ chunk_id }
        requires unlinked { IsUnlinked chunk_id (held_at self.old) }
        requires prev { IsTaken self.old.ids chunk.prev }
        requires next { IsTaken self.old.ids chunk.next }
        ensures sets { SetsAt chunk_id (Some (node_value self.old.ids chunk.entry)) (held_at self.old)
            (held_at self.new) }
        ensures link { (result.chunk_id ≡ chunk_id) × Leads self.new (Some result) }
        ensures links { KeepsReached self.old self.new }
        ensures room { room_of self.old ≤ room_of self.new + 1 }
    {
        let before = self.ids.place(&self.chunks, chunk_id);
        let slot = self.chunks.insert_reserved(chunk) as u32;
        self.ids.link(chunk_id, before, slot);
        Link { chunk_id, slot }
    }

    /// Takes the chunk that a link leads to out of its slot. No other is linked to it.
    #[inline(always)]
    pub fn remove(&mut self, link: Link)
        requires there { Reaches self.old (Some link) }
        requires alone { IsAlone link.chunk_id (held_at self.old) }
        ensures sets { SetsAt link.chunk_id None (held_at self.old) (held_at self.new) }
        ensures kept { KeepsOthers self.old self.new link.chunk_id }
        ensures room { room_of self.old ≤ room_of self.new }
    {
        self.ids.unlink(&self.chunks, link.chunk_id, link.slot);
        self.chunks.remove(link.slot as usize);
    }
}
