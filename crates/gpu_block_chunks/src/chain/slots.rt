//! Chunks in slots, and the list of the free slots. The labels lie apart, so that a look at a chunk reads 48 bytes.

ghost use Rattle.std.specs.Prelude.{◌≡◌, ◌+◌, ◌^◌, ◌≤◌, ◌<◌, [], length, IsSome, IsSomeAnd, IfSome, IfOk, OnOk, Some, None};
ghost use Rattle.std.specs.Option.{option_map};
ghost use Rattle.gpu_block_chunks.specs.Slots.{chunk_at, taken, changed_at, ChangesSlot, IsFirst};
ghost use Rattle.gpu_block_chunks.specs.Slots.{linked_of, linked_next, linked_prev, cut_linked, joined_linked, used_linked, worded_linked};
ghost use Rattle.gpu_block_chunks.specs.SlotLink.{IsLinkable};
ghost use Rattle.gpu_block_chunks.specs.FreeSlots.{Taken, slot_of};

use super::link::{LinkedChunk, LinkedView};
use super::slot_link::SlotLink;
use crate::chunk::ChunkView;
use crate::label::{Label, NewLabel};
use gpu_rows::Rows;
use gpu_values::AllocationType;
use std::alloc::{AllocError, Global};
use std::marker::Model;

/// A slot without its label. One that is taken has a chunk; another is free, and its `next` is the next slot that is free.
#[derive(Clone, Copy)]
struct Cell {
    start: u64,
    size: u64,
    offset: u64,
    chunk_id: u64,
    prev: SlotLink,
    next: SlotLink,
    kind: AllocationType,
    taken: bool,
}

// What a look at a chunk reads.
const _: () = prove!(size_of::<Cell>() == 48);

/// The cell of a chunk, and its label.
fn parts<'a>(linked: LinkedChunk<'a>) -> (Cell, NewLabel<'a>)
    requires prev { IfSome linked.prev IsLinkable }
    requires next { IfSome linked.next IsLinkable }
    ensures { slot_of result.0 result.1 ≡ Taken linked.entry }
{
    let LinkedChunk { prev, chunk, next } = linked;
    let cell = Cell {
        start: chunk.start,
        size: chunk.size,
        offset: chunk.offset,
        chunk_id: chunk.chunk_id,
        prev: SlotLink::new(prev),
        next: SlotLink::new(next),
        kind: chunk.kind,
        taken: true,
    };
    (cell, chunk.label)
}

/// Chunks in slots. A chunk keeps its slot until it is taken out; then the slot is the first to be used again. The label of a free slot is
/// empty, so that the memory of a long one is given back.
#[derive(Drop)]
pub struct Slots {
    cells: Rows<Cell>,
    labels: Rows<Label>,
    free: SlotLink,
    live: usize,
}

impl Model for Slots {
    ghost use Rattle.std.specs.Prelude.{◌-◌, map, min};
    ghost use Rattle.gpu_block_chunks.specs.Slots.{Stored};
    ghost use Rattle.gpu_block_chunks.specs.FreeSlots.{chunk_in, slots_of, AreSlots};

    ghost Value = { Stored };

    ghost view = { λ s. record {
      slots = map chunk_in (slots_of s.cells.items s.labels.items);
      room = min s.cells.capacity s.labels.capacity - s.live;
    } };

    ghost invariant = { λ s. AreSlots s.cells.items s.labels.items s.live s.free };
}

impl Slots {
    /// No chunks, and room for that many.
    pub fn with_capacity(alloc: Global, capacity: usize) -> Result<Slots, AllocError>
        ensures empty { IfOk result (λ s. s.slots ≡ []) }
        ensures room { IfOk result (λ s. capacity ≤ s.room) }
    {
        let mut slots = Slots {
            cells: Rows::new(alloc),
            labels: Rows::new(alloc),
            free: SlotLink::none(),
            live: 0,
        };
        slots.reserve(capacity)?;
        Ok(slots)
    }

    /// For how many more chunks there is room: no fewer than free slots.
    pub fn room(&self) -> usize
        ensures value { result ≡ self.now.room }
        ensures free { length self.now.slots ≤ taken self.now + result }
    {
        self.cells.capacity().min(self.labels.capacity()) - self.live
    }

    /// How many chunks there are.
    pub fn live(&self) -> usize
        ensures { result ≡ taken self.now }
    {
        self.live
    }

    /// How many chunks there can be without taking memory.
    pub fn capacity(&self) -> usize
        ensures { result ≡ taken self.now + self.now.room }
    {
        self.cells.capacity().min(self.labels.capacity())
    }

    /// Makes room for that many more chunks, and for their labels. A refusal changes no slot.
    pub fn reserve(&mut self, more: usize) -> Result<(), AllocError>
        ensures same { self.new.slots ≡ self.old.slots }
        ensures room { OnOk result (more ≤ self.new.room) }
        ensures kept { self.old.room ≤ self.new.room }
    {
        if more <= self.room() {
            return Ok(());
        }
        let free = self.cells.len() - self.live;
        self.labels.reserve(more - free)?;
        self.cells.reserve(more - free)
    }

    /// The chunk in a slot.
    #[inline(always)]
    pub fn get(&self, slot: usize) -> Option<LinkedView<'_>>
        ensures { option_map linked_of result ≡ chunk_at self.now slot }
    {
        if slot >= self.cells.len() || !self.cells[slot].taken {
            return None;
        }
        Some(self.at(slot))
    }

    /// The chunk in a slot that is taken.
    #[inline(always)]
    pub fn at(&self, slot: usize) -> LinkedView<'_>
        requires { IsSome (chunk_at self.now slot) }
        ensures { chunk_at self.now slot ≡ Some (linked_of result) }
    {
        let cell = &self.cells[slot];
        let chunk = ChunkView {
            start: cell.start,
            size: cell.size,
            kind: cell.kind,
            chunk_id: cell.chunk_id,
            offset: cell.offset,
            label: &self.labels[slot],
        };
        LinkedView {
            prev: cell.prev.slot(),
            chunk,
            next: cell.next.slot(),
        }
    }

    /// Links the chunk in a slot to another next one.
    pub fn set_next(&mut self, slot: usize, next: Option<u32>)
        requires there { IsSome (chunk_at self.old slot) }
        requires next { IfSome next IsLinkable }
        ensures changes { self.new ≡ changed_at self.old slot (linked_next next) }
        ensures count { taken self.new ≡ taken self.old }
    {
        self.cells[slot].next = SlotLink::new(next);
    }

    /// Links the chunk in a slot to another one before it.
    pub fn set_prev(&mut self, slot: usize, prev: Option<u32>)
        requires there { IsSome (chunk_at self.old slot) }
        requires prev { IfSome prev IsLinkable }
        ensures changes { self.new ≡ changed_at self.old slot (linked_prev prev) }
        ensures count { taken self.new ≡ taken self.old }
    {
        self.cells[slot].prev = SlotLink::new(prev);
    }

    /// Takes that much off the front of the chunk in a slot.
    pub fn cut_front(&mut self, slot: usize, cut: u64, prev: Option<u32>)
        requires longer { IsSomeAnd (chunk_at self.old slot)
            (λ n. (cut < (n.chunk).size) × ((n.chunk).start + (n.chunk).size < 2 ^ 64)) }
        requires prev { IfSome prev IsLinkable }
        ensures changes { self.new ≡ changed_at self.old slot (cut_linked cut prev) }
        ensures count { taken self.new ≡ taken self.old }
    {
        let cell = &mut self.cells[slot];
        let start = cell.start + cut;
        cell.start = start;
        cell.size -= cut;
        cell.offset = start;
        cell.prev = SlotLink::new(prev);
    }

    /// Makes the chunk in a slot longer.
    pub fn lengthen(&mut self, slot: usize, more: u64, next: Option<u32>)
        requires fits { IsSomeAnd (chunk_at self.old slot) (λ n. (n.chunk).size + more < 2 ^ 64) }
        requires next { IfSome next IsLinkable }
        ensures changes { self.new ≡ changed_at self.old slot (joined_linked more next) }
        ensures count { taken self.new ≡ taken self.old }
    {
        let cell = &mut self.cells[slot];
        cell.size += more;
        cell.next = SlotLink::new(next);
    }

    /// Gives the chunk in a slot another use.
    pub fn set_use(&mut self, slot: usize, offset: u64, kind: AllocationType, label: Label)
        requires { IsSome (chunk_at self.old slot) }
        ensures changes { self.new ≡ changed_at self.old slot (used_linked offset kind label) }
        ensures count { taken self.new ≡ taken self.old }
    {
        let cell = &mut self.cells[slot];
        cell.offset = offset;
        cell.kind = kind;
        self.labels[slot] = label;
    }

    /// Gives the chunk in a slot another word.
    pub fn set_word(&mut self, slot: usize, word: u64)
        requires { IsSome (chunk_at self.old slot) }
        ensures changes { self.new ≡ changed_at self.old slot (worded_linked word) }
        ensures count { taken self.new ≡ taken self.old }
    {
        self.labels[slot].word = word;
    }

    /// Puts a chunk into the first free slot, or into a new one. There is room for it, so no memory is taken.
    #[inline(always)]
    pub fn insert_reserved(&mut self, chunk: LinkedChunk<'_>) -> usize
        requires room { 0 < self.old.room }
        requires few { taken self.old + 1 < 2 ^ 32 }
        requires prev { IfSome chunk.prev IsLinkable }
        requires next { IfSome chunk.next IsLinkable }
        ensures was_free { chunk_at self.old result ≡ None }
        ensures changes { ChangesSlot self.old self.new result (Some chunk.entry) }
        ensures count { taken self.new ≡ taken self.old + 1 }
        ensures first { IsFirst self.old self.new result }
        ensures room { self.new.room + 1 ≡ self.old.room }
    {
        let (cell, text) = parts(chunk);
        self.live += 1;
        let Some(slot) = self.free.slot() else {
            let slot = self.cells.len();
            self.cells.push_reserved(cell);
            self.labels.push_reserved(Label::of(text));
            return slot;
        };
        let slot = slot as usize;
        self.free = self.cells[slot].next;
        self.cells[slot] = cell;
        self.labels[slot].set(text);
        slot
    }

    /// Takes the chunk out of its slot, which is the first free one then.
    pub fn remove(&mut self, slot: usize)
        requires { IsSome (chunk_at self.old slot) }
        ensures changes { ChangesSlot self.old self.new slot None }
        ensures count { taken self.new + 1 ≡ taken self.old }
        ensures length { length self.new.slots ≡ length self.old.slots }
        ensures room { self.new.room ≡ self.old.room + 1 }
    {
        // reads, so that the proof has room for each slot
        let _cells = self.cells.len();
        let _labels = self.labels.len();
        let cell = &mut self.cells[slot];
        cell.taken = false;
        cell.next = self.free;
        self.labels[slot] = Label::empty();
        self.free = SlotLink::new(Some(slot as u32));
        self.live -= 1;
    }
}
