//! The slots of a memory type.

ghost use Rattle.std.specs.Prelude.{◌≡◌, ◌≢◌, ℕ, ◌+◌, ◌^◌, ◌<◌, ◌≤◌, ◌||◌, nat_lt, [], ◌∷◌, ◌++◌, length, vec_capacity, IfOk, IfErr, OnOk, OnErr, IfSome, IsNone, IsTrue};
ghost use Rattle.std.specs.Int.{is_power_of_two};
ghost use Rattle.std.specs.Option.{is_some};
ghost use Rattle.gpu_values.specs.declared.error.AllocationError.TheVariants.{HostOutOfMemory};
ghost use Rattle.gpu_values.specs.Refusal.{refusal_of};
ghost use Rattle.gpu_block.specs.Said.{said_of, MayStarve};
ghost use Rattle.gpu_core.specs.TypeState.{slot_at, capacity_of, shared_count, highest_empty};
ghost use Rattle.gpu_core.specs.TypeRelease.{IsLive, IsFreeRefusal, IsNameRefusal, ReleasesPiece, RelabelsPiece};
ghost use Rattle.gpu_core.specs.TypeTake.{asked, PreparesPiece, NoneServes, NoneServesFrom, new_slot, with_block};
ghost use Rattle.gpu_core.specs.Slots.{slot_of, slots_of, AreSound, AreNoted, OthersAreNoted, released_handle, released_size, released_shared};

use crate::marks::Marks;
use crate::slot::{LiveBlock, ReleasedBlock, longest_in, relabel, release, vacancies};
use crate::{Piece, Request};
use gpu_block::{Said, SubAllocator};
use gpu_values::{AllocationError, AllocationType, Result, internal_fault};
use std::alloc::{AllocError, Global};
use std::marker::Model;

/// What is noted of each slot: the length of its shared block's longest gap, and how many blocks it has a place for.
#[derive(Drop)]
struct Notes {
    longest: Marks,
    vacant: Marks,
}

/// The slots of a memory type, each empty or with a live block, and what is noted of them: a search looks at no block whose
/// gaps are all too short and, for an empty slot, at no block, and passes over runs of slots at once.
#[derive(Drop)]
pub struct Slots<H> {
    blocks: Vec<Option<LiveBlock<H>>>,
    notes: Notes,
}

impl<H> Model for Slots<H> {
    ghost use Rattle.std.specs.Prelude.{vec_capacity, min};
    ghost use Rattle.gpu_core.specs.Slots.{SlotList, slots_of, AreNoted};

    ghost Value = { SlotList H };

    ghost view = { λ s. record {
      slots = slots_of s.blocks.items;
      room = min (vec_capacity s.blocks)
          (min s.notes.longest.room s.notes.vacant.room);
    } };

    ghost invariant = { λ s. AreNoted s.notes (slots_of s.blocks.items) };
}

impl<H: Copy + Eq> Slots<H> {
    /// No slots. It takes no memory.
    pub fn new(alloc: Global) -> Self
        ensures { result.slots ≡ [] }
    {
        Slots {
            blocks: Vec::new(alloc),
            notes: Notes {
                longest: Marks::new(alloc),
                vacant: Marks::new(alloc),
            },
        }
    }

    /// How many there are, the empty ones included.
    pub fn len(&self) -> usize
        ensures { result ≡ length self.now.slots }
    {
        self.blocks.len()
    }

    /// The slots in order.
    pub fn as_slice(&self) -> &[Option<LiveBlock<H>>]
        ensures { slots_of result.now ≡ self.now.slots }
    {
        &self.blocks
    }

    /// Allocates a piece of the highest shared block that has a place, or answers `None` where none has. The only refusal is
    /// `HostOutOfMemory`.
    #[inline(always)]
    pub fn allocate(&mut self, request: &Request, granularity: u64) -> Result<Option<Piece<H>>>
        requires sized { 0 < request.now.size }
        requires aligned { IsTrue (is_power_of_two request.now.alignment) }
        requires piece { request.now.kind ≢ AllocationType.Free }
        requires sound { AreSound granularity self.old.slots }
        ensures took { IfOk result (λ o. IfSome o
            (λ p. PreparesPiece self.old.slots (asked request.now) p self.new.slots)) }
        ensures none { IfOk result (λ o. IsNone o
            → NoneServes self.old.slots (asked request.now) × (self.new.slots ≡ self.old.slots)) }
        ensures cause { IfErr result (λ e. e ≡ HostOutOfMemory) }
        ensures refused { OnErr result (self.new.slots ≡ self.old.slots) }
        ensures room { self.new.room ≡ self.old.room }
        ensures kept { AreSound granularity self.new.slots }
    {
        self.allocate_from(request, granularity, 0)
    }

    /// The same of the slots from `first` on alone.
    pub fn allocate_from(
        &mut self,
        request: &Request,
        granularity: u64,
        first: usize,
    ) -> Result<Option<Piece<H>>>
        requires sized { 0 < request.now.size }
        requires aligned { IsTrue (is_power_of_two request.now.alignment) }
        requires piece { request.now.kind ≢ AllocationType.Free }
        requires sound { AreSound granularity self.old.slots }
        ensures took { IfOk result (λ o. IfSome o
            (λ p. PreparesPiece self.old.slots (asked request.now) p self.new.slots
            × (first ≤ p.slot))) }
        ensures none { IfOk result (λ o. IsNone o
            → NoneServesFrom self.old.slots (asked request.now) first
            × (self.new.slots ≡ self.old.slots)) }
        ensures cause { IfErr result (λ e. e ≡ HostOutOfMemory) }
        ensures refused { OnErr result (self.new.slots ≡ self.old.slots) }
        ensures room { self.new.room ≡ self.old.room }
        ensures kept { AreSound granularity self.new.slots }
    {
        let Request {
            size,
            alignment,
            kind,
            name,
            ..
        } = *request;
        let mut below = self.notes.longest.pass_over(self.blocks.len(), size);
        while below > first {
            below -= 1;
            if let Some(LiveBlock { handle, sub }) = &mut self.blocks[below] {
                if let SubAllocator::FreeList(list) = sub {
                    match list.allocate(size, alignment, kind, granularity, name) {
                        Ok((offset, chunk_id)) => {
                            let piece = Piece {
                                slot: below,
                                chunk_id,
                                offset,
                                size,
                                handle: *handle,
                            };
                            measure(&mut self.notes, &self.blocks, below);
                            return Ok(Some(piece));
                        }
                        Err(AllocationError::OutOfMemory) => (),
                        Err(error) => return Err(error),
                    }
                }
            }
            below = self.notes.longest.pass_over(below, size);
        }
        Ok(None)
    }

    /// Makes host memory for one more block. The only refusal is `HostOutOfMemory`.
    pub fn reserve(&mut self) -> Result<()>
        ensures slots { self.new.slots ≡ self.old.slots }
        ensures room { OnOk result (IsTrue
            (is_some (highest_empty self.new.slots) || nat_lt (length self.new.slots)
            self.new.room)) }
        ensures cause { IfErr result (λ e. e ≡ HostOutOfMemory) }
    {
        if self.highest_empty().is_none() {
            self.blocks.reserve(1)?;
            self.notes.reserve()?;
        }
        Ok(())
    }

    /// The highest empty slot.
    fn highest_empty(&self) -> Option<usize>
        ensures { result ≡ highest_empty self.now.slots }
    {
        match self.notes.vacant.pass_over(self.blocks.len(), 1) {
            0 => None,
            end => Some(end - 1),
        }
    }

    /// Where a dedicated or a shared block goes.
    fn new_slot(&self, is_dedicated: bool) -> usize
        ensures { result ≡ new_slot is_dedicated self.now.slots }
    {
        if is_dedicated {
            return self.notes.vacant.lowest(1);
        }
        match self.highest_empty() {
            Some(slot) => slot,
            None => self.notes.vacant.len(),
        }
    }

    /// Puts a block where it goes, and answers that slot. It takes no memory.
    pub fn put(&mut self, block: LiveBlock<H>, is_dedicated: bool) -> usize
        requires { IsTrue (is_some (highest_empty self.old.slots) || nat_lt (length self.old.slots)
            self.old.room) }
        ensures slot { result ≡ new_slot is_dedicated self.old.slots }
        ensures slots { self.new.slots ≡ with_block self.old.slots result (slot_of block) }
        ensures length { length self.new.slots < 2 ^ 64 }
        ensures room { self.new.room ≡ self.old.room }
    {
        let slot = self.new_slot(is_dedicated);
        put_block(&mut self.blocks, block, slot);
        if slot == self.notes.longest.len() {
            self.notes.push();
        }
        measure(&mut self.notes, &self.blocks, slot);
        slot
    }

    /// Frees a piece. It takes no memory; a refusal changes nothing.
    pub fn free(&mut self, piece: &Piece<H>, several: bool) -> Result<Option<ReleasedBlock<H>>>
        requires { (g : ℕ) × AreSound g self.old.slots }
        ensures released { IfOk result (λ went. ReleasesPiece (IsTrue several) self.old.slots
            piece.now (released_handle went) self.new.slots) }
        ensures live { OnOk result (IsLive H.eq self.old.slots piece.now) }
        ensures size { IfOk result (λ went. capacity_of self.new.slots + released_size went
            ≡ capacity_of self.old.slots) }
        ensures shared { IfOk result (λ went. shared_count self.new.slots + released_shared went
            ≡ shared_count self.old.slots) }
        ensures cause { IfErr result (λ e. IsFreeRefusal H.eq piece.now
            (slot_at self.old.slots piece.now.slot) (refusal_of e)) }
        ensures refused { OnErr result (self.new.slots ≡ self.old.slots) }
        ensures room { self.new.room ≡ self.old.room }
        ensures kept { (g : ℕ) → AreSound g self.old.slots → AreSound g self.new.slots }
    {
        let gone = free_in(&mut self.blocks, piece, several)?;
        measure(&mut self.notes, &self.blocks, piece.slot);
        Ok(gone)
    }

    /// Gives a piece another name or word. A refusal changes nothing.
    pub fn relabel(&mut self, piece: &Piece<H>, said: Said<'_>) -> Result<()>
        requires { (g : ℕ) × AreSound g self.old.slots }
        ensures renamed { OnOk result (RelabelsPiece self.old.slots piece.now (said_of said.entry)
            self.new.slots) }
        ensures live { OnOk result (IsLive H.eq self.old.slots piece.now) }
        ensures starved { IfErr result (λ e. e ≡ HostOutOfMemory
            → IsLive H.eq self.old.slots piece.now) }
        ensures no_memory { IfErr result (λ e. e ≡ HostOutOfMemory → MayStarve (said_of said.entry)) }
        ensures cause { IfErr result (λ e. IsNameRefusal H.eq piece.now
            (slot_at self.old.slots piece.now.slot) (refusal_of e)) }
        ensures refused { OnErr result (self.new.slots ≡ self.old.slots) }
        ensures room { self.new.room ≡ self.old.room }
        ensures kept { (g : ℕ) → AreSound g self.old.slots → AreSound g self.new.slots }
    {
        relabel_in(&mut self.blocks, piece, said)?;
        measure(&mut self.notes, &self.blocks, piece.slot);
        Ok(())
    }
}

impl Notes {
    /// Makes host memory for one more slot.
    fn reserve(&mut self) -> Result<(), AllocError>
        ensures longest { self.new.longest.marks ≡ self.old.longest.marks }
        ensures vacant { self.new.vacant.marks ≡ self.old.vacant.marks }
        ensures longest_room { OnOk result
            (length self.new.longest.marks < self.new.longest.room) }
        ensures vacant_room { OnOk result (length self.new.vacant.marks < self.new.vacant.room) }
    {
        self.longest.reserve()?;
        self.vacant.reserve()
    }

    /// Adds a slot. It takes no memory.
    fn push(&mut self)
        requires longest { length self.old.longest.marks < self.old.longest.room }
        requires vacant { length self.old.vacant.marks < self.old.vacant.room }
        ensures longest { self.new.longest.marks ≡ self.old.longest.marks ++ 0 ∷ [] }
        ensures vacant { self.new.vacant.marks ≡ self.old.vacant.marks ++ 0 ∷ [] }
        ensures longest_room { self.new.longest.room ≡ self.old.longest.room }
        ensures vacant_room { self.new.vacant.room ≡ self.old.vacant.room }
    {
        self.longest.push();
        self.vacant.push();
    }
}

/// Notes what is to be known of a slot, after a change of it.
fn measure<H>(notes: &mut Notes, slots: &[Option<LiveBlock<H>>], slot: usize)
    requires within { slot < length slots.now }
    requires others { OthersAreNoted slot notes.old (slots_of slots.now) }
    ensures noted { AreNoted notes.new (slots_of slots.now) }
    ensures longest_room { notes.new.longest.room ≡ notes.old.longest.room }
    ensures vacant_room { notes.new.vacant.room ≡ notes.old.vacant.room }
{
    let measured = &slots[slot];
    notes.longest.set(slot, longest_in(measured));
    notes.vacant.set(slot, vacancies(measured));
}

/// Puts a block into a slot, or behind all. It takes no memory.
fn put_block<H: Drop>(slots: &mut Vec<Option<LiveBlock<H>>>, block: LiveBlock<H>, slot: usize)
    requires within { slot ≤ length slots.old.items }
    requires room { slot ≡ length slots.old.items → slot < vec_capacity slots.old }
    ensures slots { slots_of slots.new.items
        ≡ with_block (slots_of slots.old.items) slot (slot_of block) }
    ensures length { length slots.new.items < 2 ^ 64 }
    ensures room { vec_capacity slots.new ≡ vec_capacity slots.old }
{
    if slot < slots.len() {
        slots[slot] = Some(block);
    } else {
        slots.push_reserved(Some(block));
    }
}

/// Frees a piece. It takes no memory; a refusal changes nothing.
fn free_in<H: Copy + Eq>(
    slots: &mut Vec<Option<LiveBlock<H>>>,
    piece: &Piece<H>,
    several: bool,
) -> Result<Option<ReleasedBlock<H>>>
    requires { (g : ℕ) × AreSound g (slots_of slots.old.items) }
    ensures released { IfOk result (λ went. ReleasesPiece (IsTrue several)
        (slots_of slots.old.items) piece.now (released_handle went) (slots_of slots.new.items)) }
    ensures live { OnOk result (IsLive H.eq (slots_of slots.old.items) piece.now) }
    ensures size { IfOk result (λ went. capacity_of (slots_of slots.new.items) + released_size went
        ≡ capacity_of (slots_of slots.old.items)) }
    ensures shared { IfOk result (λ went. shared_count (slots_of slots.new.items) + released_shared
        went ≡ shared_count (slots_of slots.old.items)) }
    ensures cause { IfErr result (λ e. IsFreeRefusal H.eq piece.now
        (slot_at (slots_of slots.old.items) piece.now.slot) (refusal_of e)) }
    ensures refused { OnErr result (slots_of slots.new.items ≡ slots_of slots.old.items) }
    ensures room { vec_capacity slots.new ≡ vec_capacity slots.old }
    ensures kept { (g : ℕ) → AreSound g (slots_of slots.old.items)
        → AreSound g (slots_of slots.new.items) }
{
    if piece.slot >= slots.len() {
        return Err(internal_fault("Memory block must be Some."));
    }
    let slot = &mut slots[piece.slot];
    release(slot, piece, several)
}

/// Gives a piece another name or word. A refusal changes nothing.
fn relabel_in<H: Copy + Eq>(
    slots: &mut Vec<Option<LiveBlock<H>>>,
    piece: &Piece<H>,
    said: Said<'_>,
) -> Result<()>
    requires { (g : ℕ) × AreSound g (slots_of slots.old.items) }
    ensures renamed { OnOk result (RelabelsPiece (slots_of slots.old.items) piece.now (said_of said.entry)
        (slots_of slots.new.items)) }
    ensures live { OnOk result (IsLive H.eq (slots_of slots.old.items) piece.now) }
    ensures starved { IfErr result (λ e. e ≡ HostOutOfMemory
        → IsLive H.eq (slots_of slots.old.items) piece.now) }
    ensures no_memory { IfErr result (λ e. e ≡ HostOutOfMemory → MayStarve (said_of said.entry)) }
    ensures cause { IfErr result (λ e. IsNameRefusal H.eq piece.now
        (slot_at (slots_of slots.old.items) piece.now.slot) (refusal_of e)) }
    ensures refused { OnErr result (slots_of slots.new.items ≡ slots_of slots.old.items) }
    ensures room { vec_capacity slots.new ≡ vec_capacity slots.old }
    ensures kept { (g : ℕ) → AreSound g (slots_of slots.old.items)
        → AreSound g (slots_of slots.new.items) }
{
    if piece.slot >= slots.len() {
        return Err(internal_fault("Memory block must be Some."));
    }
    let slot = &mut slots[piece.slot];
    relabel(slot, piece, said)
}
