//! The chunks of a block: a chain of all of them, and an index of the gaps.

ghost use Rattle.std.specs.Prelude.{◌≡◌, ◌≢◌, ℕ, ◌+◌, ◌^◌, ◌<◌, ◌≤◌, [], IfOk, OnOk, OnErr, MatchOption, IsTrue, ◌↔◌};
ghost use Rattle.std.specs.List.{list_any};
ghost use Rattle.gpu_cost.specs.Cost.{LooksUp, LooksUpBetween, Tests};
ghost use Rattle.gpu_block_chunks.specs.ChunkList.{IsFree, chunk_of};
ghost use Rattle.gpu_block_pieces.specs.Chunks.{IsTaken, IsLabelledAt, HoldsChunkId, extents_of, is_gap_by};
ghost use Rattle.gpu_block_chunks.specs.Chain.{IsFresh, HasNoChunkId, StandsAt};
ghost use Rattle.gpu_block_chunks.specs.Label.{with_name, with_word};
ghost use Rattle.gpu_block_pieces.specs.Indexed.{HasSame, gaps_between, ArePlaced, IsChosen, chosen_at, IsFreed, IsPieceAt, IsPieceOf, IsLongestOf};

use crate::place::Wanted;
use crate::search::Found;
use crate::update::{allocate_front, allocate_whole, release};
use gpu_block_chunks::{Chain, ChunkView, NewLabel, Walk, is_free};
use gpu_block_gaps::{Gap, GapIndex};
use gpu_cost::Cost;
use gpu_values::AllocationType;
use std::alloc::{AllocError, Global};
use std::marker::Model;

/// The chunks of a block, from its start to its end: they cover it, and no two gaps touch.
#[derive(Drop)]
pub struct Chunks {
    chain: Chain,
    index: GapIndex,
    live: usize,
}

impl Model for Chunks {
    ghost use Rattle.gpu_block_pieces.specs.Indexed.{LaidChunks, IsIndexed};

    ghost Value = { LaidChunks };

    ghost view = { λ s. record { items = s.chain.chunks; size = s.chain.size } };

    ghost invariant = { λ s. IsIndexed s.chain.chunks s.index.gaps s.live s.index.room };
}

impl Chunks {
    /// A block of `size` bytes that is one gap, with number 1.
    pub fn new(alloc: Global, size: u64) -> Result<Chunks, AllocError>
        requires { 0 < size }
        ensures { IfOk result (λ c. (c.size ≡ size) × IsFresh c.items size) }
    {
        let chain = Chain::new(alloc, size)?;
        let mut index = GapIndex::new(alloc, size);
        index.reserve_to(1)?;
        index.insert(Gap {
            length: size,
            start: 0,
            chunk_id: 1,
            before: AllocationType::Free,
            after: AllocationType::Free,
        });
        Ok(Chunks {
            chain,
            index,
            live: 0,
        })
    }

    /// The size of the block in bytes.
    pub fn size(&self, cost: &mut Cost) -> u64
        ensures value { result ≡ self.now.size }
        ensures counted { LooksUp 1 cost.old cost.new }
    {
        self.chain.size(cost)
    }

    /// The index of the gaps, lent to a search.
    pub fn gaps(&self) -> &GapIndex
        ensures same { HasSame result.now.gaps
            (gaps_between AllocationType.Free self.now.items AllocationType.Free) }
        ensures placed { ArePlaced result.now.gaps }
    {
        // a read, so that the proof has the invariant
        let _live = self.live;
        self.chain.laid_out();
        &self.index
    }

    /// The length of the longest gap, 0 where there is none.
    pub fn longest_gap(&self, cost: &mut Cost) -> u64
        ensures longest { IsLongestOf self.now.items result }
        ensures counted { Tests 1 cost.old cost.new }
    {
        // a read, so that the proof has the invariant
        let _live = self.live;
        self.index.longest(cost)
    }

    /// Puts a piece into the found gap, or its front, and returns its chunk id. All memory is taken first, also for what
    /// the piece's release will need.
    pub fn allocate(
        &mut self,
        found: Found,
        wanted: &Wanted,
        counter: u64,
        label: NewLabel<'_>,
        cost: &mut Cost,
    ) -> Result<u64, AllocError>
        requires chosen { IsChosen self.old.items wanted.now found }
        requires sized { 0 < wanted.now.size }
        requires piece { wanted.now.kind ≢ AllocationType.Free }
        requires fresh { HasNoChunkId self.old.items counter }
        ensures taken { IfOk result (λ chunk_id. (h : IsChosen self.old.items wanted.now found)
            → IsTaken self.old.items (chosen_at self.old.items wanted.now found h) wanted.now
            counter label.entry chunk_id self.new.items) }
        ensures refused { OnErr result (self.new.items ≡ self.old.items) }
        ensures size { self.new.size ≡ self.old.size }
        // three or four look-ups where a rest is left, and one where none is
        ensures front { OnOk result
            (found.offset + wanted.now.size < found.gap.start + found.gap.length
            → LooksUpBetween 3 4 cost.old cost.new) }
        ensures whole { OnOk result
            (found.gap.start + found.gap.length ≤ found.offset + wanted.now.size
            → LooksUp 1 cost.old cost.new) }
        ensures none { OnErr result (LooksUp 0 cost.old cost.new) }
    {
        // a read, so that the proof has the invariant
        self.chain.laid_out();
        make_room(&mut self.chain, &mut self.index, self.live)?;
        let taken = found.offset + wanted.size - found.gap.start;
        if taken < found.gap.length {
            self.live += 1;
            allocate_front(
                &mut self.chain,
                &mut self.index,
                found,
                taken,
                wanted.kind,
                counter,
                label,
                cost,
            );
            return Ok(counter);
        }
        self.live += 1;
        allocate_whole(
            &mut self.chain,
            &mut self.index,
            found,
            wanted.kind,
            label,
            cost,
        );
        Ok(found.gap.chunk_id)
    }

    /// Frees the live piece of that number, and joins its place with the gaps beside it: its bytes, padding included. Where the number is
    /// no live piece's nothing changes. It takes no memory.
    pub fn free(&mut self, chunk_id: u64, cost: &mut Cost) -> Option<u64>
        ensures freed { MatchOption result
            (((k : ℕ) → HoldsChunkId self.old.items chunk_id k → ⊥) × (self.new ≡ self.old))
            (λ bytes. IsFreed self.old.items chunk_id bytes self.new.items) }
        ensures size { self.new.size ≡ self.old.size }
        ensures counted { MatchOption result (LooksUpBetween 1 4 cost.old cost.new)
            (λ bytes. LooksUpBetween 6 18 cost.old cost.new) }
    {
        let freed = release(&mut self.chain, &mut self.index, chunk_id, cost)?;
        self.live -= 1;
        Some(freed)
    }

    /// The live piece of that number.
    pub fn piece(&self, chunk_id: u64, cost: &mut Cost) -> Option<ChunkView<'_>>
        ensures counted { LooksUp 1 cost.old cost.new }
        ensures piece { MatchOption result ((k : ℕ) → HoldsChunkId self.now.items chunk_id k → ⊥)
            (λ c. (IsFree c.kind → ⊥) × StandsAt self.now.items chunk_id (chunk_of c)) }
    {
        // a read, so that the proof has the invariant
        let _live = self.live;
        self.chain.laid_out();
        let (chunk, _) = self.chain.chunk(chunk_id, cost)?;
        if is_free(chunk.kind) {
            return None;
        }
        Some(chunk)
    }

    /// Whether a gap has that number.
    pub fn has_gap(&self, chunk_id: u64, cost: &mut Cost) -> bool
        ensures gap { result ≡ list_any (λ c. is_gap_by c.kind chunk_id c) self.now.items }
        ensures counted { LooksUp 1 cost.old cost.new }
    {
        // a read, so that the proof has the invariant
        self.chain.laid_out();
        match self.chain.chunk(chunk_id, cost) {
            Some((chunk, _)) => is_free(chunk.kind),
            None => false,
        }
    }

    /// Renames the live piece with that chunk id.
    pub fn rename(
        &mut self,
        chunk_id: u64,
        offset: u64,
        kind: AllocationType,
        label: NewLabel<'_>,
        cost: &mut Cost,
    )
        requires piece { IsPieceOf self.old.items chunk_id offset kind label.word }
        ensures named { (i : ℕ) → HoldsChunkId self.old.items chunk_id i
            → IsLabelledAt self.old.items i (with_name label.entry.name) self.new.items }
        ensures size { self.new.size ≡ self.old.size }
        ensures counted { LooksUp 1 cost.old cost.new }
    {
        // two reads, so that the proof has the invariant
        self.chain.laid_out();
        let _live = self.live;
        self.chain.fill(chunk_id, offset, kind, label, cost);
    }

    /// Gives the live piece of that chunk id another word.
    pub fn set_word(&mut self, chunk_id: u64, word: u64, cost: &mut Cost)
        requires { IsPieceAt self.old.items chunk_id }
        ensures worded { (i : ℕ) → HoldsChunkId self.old.items chunk_id i
            → IsLabelledAt self.old.items i (with_word word) self.new.items }
        ensures size { self.new.size ≡ self.old.size }
        ensures counted { LooksUp 1 cost.old cost.new }
    {
        // two reads, so that the proof has the invariant
        self.chain.laid_out();
        let _live = self.live;
        self.chain.set_word(chunk_id, word, cost);
    }

    /// All chunks, from the block's start on.
    pub fn walk(&self) -> Walk<'_>
        ensures { result ≡ self.now.items }
    {
        Walk::of_chain(&self.chain)
    }

    /// Whether all chunks are free. It counts as a look-up.
    pub fn is_empty(&self, cost: &mut Cost) -> bool
        ensures free { IsTrue result ↔ extents_of self.now.items ≡ [] }
        ensures counted { LooksUp 1 cost.old cost.new }
    {
        cost.look_up();
        self.live == 0
    }
}

/// Makes room for one piece more, and for what its release will need.
fn make_room(chain: &mut Chain, index: &mut GapIndex, live: usize) -> Result<(), AllocError>
    ensures chain { (chain.new.chunks ≡ chain.old.chunks) × (chain.new.size ≡ chain.old.size) }
    ensures index { (index.new.gaps ≡ index.old.gaps) × (index.old.room ≤ index.new.room) }
    ensures room { OnOk result ((live + 2 < 2 ^ 64) × (live + 2 ≤ index.new.room)
        × (0 < chain.new.room)) }
{
    let Some(gaps) = live.checked_add(2) else {
        return Err(AllocError);
    };
    index.reserve_to(gaps)?;
    chain.reserve(1)
}
