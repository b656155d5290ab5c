//! The blocks of one memory type, with no device at hand.

ghost use Rattle.std.specs.Prelude.{◌≡◌, ◌≢◌, ◌+◌, ◌^◌, ◌<◌, ◌≤◌, ◌↔◌, [], length, Some, None, IfOk, IfErr, OnOk, OnErr, IfSome, IsNone, IsTrue};
ghost use Rattle.std.specs.Int.{is_power_of_two};
ghost use Rattle.gpu_values.specs.declared.error.AllocationError.TheVariants.{HostOutOfMemory};
ghost use Rattle.gpu_values.specs.Refusal.{refusal_of};

use crate::need::{NeedBlock, make_pending};
use crate::report::add_slots;
use crate::slot::{Finding, LiveBlock, find};
use crate::slots::Slots;
use crate::statistics::count_slots;
use crate::{Piece, Request, TypeLeaks};
use gpu_block::{Said, SubAllocator};
use gpu_block_pieces::{BlockStatistics, Leaks, Pieces};
use gpu_values::{AllocationSizes, AllocationType, AllocatorReport, Result};
use std::alloc::Global;
use std::marker::Model;

/// What a request results in.
#[derive(Drop)]
pub enum Prepared<H> {
    /// A shared block has served it.
    Taken(Piece<H>),
    /// A new block is needed: ask the device for it, and then call `install`. Where the device refuses, drop this; nothing has
    /// changed.
    NeedBlock(NeedBlock),
}

/// The blocks of one memory type, each in a slot, and the pieces in them. It holds no memory of a device: `H` is the
/// device's number of a block. Sizes are bytes.
pub struct MemoryType<H: Copy + Eq> {
    is_host: bool,
    granularity: u64,
    slots: Slots<H>,
    capacity: u64,
    shared: usize,
    budget: Option<u64>,
    alloc: Global,
}

// Written out, so that where one is dropped a proof sees one call, and not each of its parts.
impl<H: Copy + Eq> Drop for MemoryType<H> {
    fn drop(self) {
        let MemoryType {
            is_host: _,
            granularity: _,
            slots: _,
            capacity: _,
            shared: _,
            budget: _,
            alloc: _,
        } = self;
    }
}

impl<H: Copy + Eq> Model for MemoryType<H> {
    ghost use Rattle.gpu_core.specs.TypeState.{TypeState};
    ghost use Rattle.gpu_core.specs.TypeInvariant.{AreKept};

    ghost Value = { TypeState H };

    ghost view = { λ t. record {
      is_host = t.is_host;
      granularity = t.granularity;
      slots = t.slots.slots;
      room = t.slots.room;
      budget = t.budget;
    } };

    ghost invariant = { λ t. AreKept t.granularity t.slots.slots t.capacity t.shared };
}

impl<H: Copy + Eq> MemoryType<H> {
    ghost use Rattle.gpu_core.specs.TypeState.{slot_at, capacity_of, shared_count, block_number, fits_budget, KeepsOneEmptyAtMost};
    ghost use Rattle.gpu_core.specs.Moves.{ProposesMove, NoneAhead};
    ghost use Rattle.gpu_core.specs.TypeTake.{asked, Installs};
    ghost use Rattle.gpu_core.specs.Slots.{AreSound};
    ghost use Rattle.gpu_core.specs.TypePrepare.{IsPrepared, CanInstall};
    ghost use Rattle.gpu_block.specs.Said.{said_of, MayStarve};
    ghost use Rattle.gpu_core.specs.TypeRelease.{has_others, IsLive, IsFreeRefusal, IsNameRefusal, ReleasesPiece, RelabelsPiece, RenamesPiece, SetsWordOf};
    ghost use Rattle.gpu_core.specs.TypeReport.{leaks_in, pieces_in, statistics_in, block_in, counted_with, nothing_counted, type_leaks, with_type};
    ghost use Rattle.gpu_block.specs.SubAllocator.{block_of};
    ghost use Rattle.std.specs.Option.{option_map};
    ghost use Rattle.gpu_values.specs.Report.{report_of};

    /// A memory type without blocks. `is_host` says which of the block sizes are its own; `granularity` is the page size
    /// of its blocks in bytes, a power of two: Vulkan's bufferImageGranularity, elsewhere 1. It takes no memory.
    pub fn new(alloc: Global, is_host: bool, granularity: u64) -> Self
        requires { IsTrue (is_power_of_two granularity) }
        ensures slots { result.slots ≡ [] }
        ensures kind { (result.is_host ≡ is_host) × (result.granularity ≡ granularity) }
        ensures budget { result.budget ≡ None }
        ensures sound { AreSound result.granularity result.slots }
        ensures empty { KeepsOneEmptyAtMost result.slots }
    {
        MemoryType {
            is_host,
            granularity,
            slots: Slots::new(alloc),
            capacity: 0,
            shared: 0,
            budget: None,
            alloc,
        }
    }

    /// Allocates a piece of the highest shared block that has a place; else says which new block is needed, with all host
    /// memory for it at hand. That is one of the piece's own where the request wants it or is above the next shared block's
    /// size. The only refusal is `HostOutOfMemory`, and leaves the slots as they were. The budget isn't looked at
    /// (`fits_budget`).
    pub fn prepare(&mut self, request: &Request, sizes: &AllocationSizes) -> Result<Prepared<H>>
        requires sized { 0 < request.now.size }
        requires aligned { IsTrue (is_power_of_two request.now.alignment) }
        requires piece { request.now.kind ≢ AllocationType.Free }
        ensures prepared { IfOk result (λ p. IsPrepared self.old sizes.now request.now p self.new) }
        ensures cause { IfErr result (λ e. e ≡ HostOutOfMemory) }
        ensures refused { OnErr result (self.new.slots ≡ self.old.slots) }
        ensures kind { (self.new.is_host ≡ self.old.is_host)
            × (self.new.granularity ≡ self.old.granularity) }
        ensures budget { self.new.budget ≡ self.old.budget }
        ensures capacity { capacity_of self.new.slots ≡ capacity_of self.old.slots }
        ensures sound { AreSound self.new.granularity self.new.slots }
        ensures empty { KeepsOneEmptyAtMost self.new.slots }
    {
        let next = sizes.memblock_size(self.is_host, self.shared);
        let dedicated = request.dedicated || request.size > next;
        if !dedicated {
            if let Some(piece) = self.slots.allocate(request, self.granularity)? {
                return Ok(Prepared::Taken(piece));
            }
        }
        self.slots.reserve()?;
        let size = if dedicated { request.size } else { next };
        let room = make_pending(self.alloc, dedicated, size, self.granularity, request)?;
        Ok(Prepared::NeedBlock(NeedBlock {
            size,
            dedicated,
            room,
        }))
    }

    /// Puts in the block that `prepare` asked for, under the driver's handle of it, and answers the piece in it. It
    /// takes no memory and can't be refused. Its caller sees to it that there is room for the block, as `prepare` leaves it, and
    /// that the sum of all blocks' sizes stays in 64 bits. Out of line, as `make_pending` is.
    #[cold]
    #[inline(never)]
    pub fn install(&mut self, need: NeedBlock, handle: H) -> Piece<H>
        requires ready { CanInstall self.old need.size need.dedicated need.room }
        requires sum { capacity_of self.old.slots + need.size < 2 ^ 64 }
        ensures installed { Installs self.old.slots need.dedicated need.room handle result
            self.new.slots }
        ensures capacity { capacity_of self.new.slots ≡ capacity_of self.old.slots + need.size }
        ensures kind { (self.new.is_host ≡ self.old.is_host)
            × (self.new.granularity ≡ self.old.granularity) }
        ensures budget { self.new.budget ≡ self.old.budget }
        ensures sound { AreSound self.new.granularity self.new.slots }
        ensures empty { KeepsOneEmptyAtMost self.new.slots }
    {
        let NeedBlock {
            size,
            dedicated,
            room,
        } = need;
        let block = LiveBlock {
            handle,
            sub: Box::into_inner(room.sub),
        };
        let slot = self.slots.put(block, dedicated);
        self.capacity += size;
        if !dedicated {
            self.shared += 1;
        }
        Piece {
            slot,
            chunk_id: room.chunk_id,
            offset: room.offset,
            size: room.size,
            handle,
        }
    }

    /// A second place for a piece, for the same request, in a block of a higher slot: the place that the request would have as
    /// a new piece, if it lies there; its word is 0. `None` where no block ahead has one. No block is needed or freed for it. The
    /// only refusal is `HostOutOfMemory`; where there is no place, nothing changes.
    pub fn propose_move(&mut self, piece: &Piece<H>, request: &Request) -> Result<Option<Piece<H>>>
        requires sized { 0 < request.now.size }
        requires aligned { IsTrue (is_power_of_two request.now.alignment) }
        requires piece { request.now.kind ≢ AllocationType.Free }
        ensures proposed { IfOk result (λ o. IfSome o
            (λ to. ProposesMove self.old.slots (asked request.now) piece.now to self.new.slots)) }
        ensures none { IfOk result (λ o. IsNone o
            → NoneAhead self.old.slots (asked request.now) piece.now.slot
            × (self.new.slots ≡ self.old.slots)) }
        ensures cause { IfErr result (λ e. e ≡ HostOutOfMemory) }
        ensures refused { OnErr result (self.new.slots ≡ self.old.slots) }
        ensures kind { (self.new.is_host ≡ self.old.is_host)
            × (self.new.granularity ≡ self.old.granularity) }
        ensures budget { self.new.budget ≡ self.old.budget }
        ensures capacity { capacity_of self.new.slots ≡ capacity_of self.old.slots }
        ensures sound { AreSound self.new.granularity self.new.slots }
        ensures empty { KeepsOneEmptyAtMost self.new.slots }
    {
        if piece.slot >= self.slots.len() {
            return Ok(None);
        }
        self.slots
            .allocate_from(request, self.granularity, piece.slot + 1)
    }

    /// Frees a piece, and names the block that went with it, if one did: a dedicated block goes, and so does an
    /// emptied shared one where another shared one is live. It takes no memory. `Internal` where the piece isn't live, and then
    /// nothing changes.
    pub fn free(&mut self, piece: &Piece<H>) -> Result<Option<H>>
        ensures released { IfOk result (λ gone. ReleasesPiece (IsTrue (has_others self.old.slots))
            self.old.slots piece.now gone self.new.slots) }
        ensures live { OnOk result (IsLive H.eq self.old.slots piece.now) }
        ensures dead { OnErr result (IsLive H.eq self.old.slots piece.now → ⊥) }
        ensures cause { IfErr result (λ e. IsFreeRefusal H.eq piece.now
            (slot_at self.old.slots piece.now.slot) (refusal_of e)) }
        ensures refused { OnErr result (self.new ≡ self.old) }
        ensures kind { (self.new.is_host ≡ self.old.is_host)
            × (self.new.granularity ≡ self.old.granularity) }
        ensures budget { self.new.budget ≡ self.old.budget }
        ensures capacity { capacity_of self.new.slots ≤ capacity_of self.old.slots }
        ensures sound { AreSound self.new.granularity self.new.slots }
        ensures empty { KeepsOneEmptyAtMost self.new.slots }
    {
        let several = self.shared > 1;
        match self.slots.free(piece, several)? {
            None => Ok(None),
            Some(gone) => {
                self.capacity -= gone.size;
                if gone.is_shared {
                    self.shared -= 1;
                }
                Ok(Some(gone.handle))
            }
        }
    }

    /// Renames a piece. `Internal` where the piece isn't live, else `HostOutOfMemory` where the host refused
    /// memory; then nothing changes.
    pub fn rename(&mut self, piece: &Piece<H>, name: &str) -> Result<()>
        ensures renamed { OnOk result (RenamesPiece self.old.slots piece.now name.now
            self.new.slots) }
        ensures live { OnOk result (IsLive H.eq self.old.slots piece.now) }
        ensures dead { IfErr result (λ e. e ≢ HostOutOfMemory → IsLive H.eq self.old.slots piece.now
            → ⊥) }
        ensures starved { IfErr result (λ e. e ≡ HostOutOfMemory
            → IsLive H.eq self.old.slots piece.now) }
        ensures cause { IfErr result (λ e. IsNameRefusal H.eq piece.now
            (slot_at self.old.slots piece.now.slot) (refusal_of e)) }
        ensures refused { OnErr result (self.new ≡ self.old) }
        ensures kind { (self.new.is_host ≡ self.old.is_host)
            × (self.new.granularity ≡ self.old.granularity) }
        ensures budget { self.new.budget ≡ self.old.budget }
        ensures capacity { capacity_of self.new.slots ≡ capacity_of self.old.slots }
        ensures sound { AreSound self.new.granularity self.new.slots }
        ensures empty { KeepsOneEmptyAtMost self.new.slots }
    {
        self.relabel(piece, Said::Name(name))
    }

    /// Keeps another word of the caller's with a piece. `Internal` where the piece isn't live; then nothing changes. It takes no memory.
    pub fn set_word(&mut self, piece: &Piece<H>, word: u64) -> Result<()>
        ensures set { OnOk result (SetsWordOf self.old.slots piece.now word self.new.slots) }
        ensures live { OnOk result (IsLive H.eq self.old.slots piece.now) }
        ensures dead { IfErr result (λ e. IsLive H.eq self.old.slots piece.now → ⊥) }
        ensures no_memory { IfErr result (λ e. e ≢ HostOutOfMemory) }
        ensures cause { IfErr result (λ e. IsNameRefusal H.eq piece.now
            (slot_at self.old.slots piece.now.slot) (refusal_of e)) }
        ensures refused { OnErr result (self.new ≡ self.old) }
        ensures kind { (self.new.is_host ≡ self.old.is_host)
            × (self.new.granularity ≡ self.old.granularity) }
        ensures budget { self.new.budget ≡ self.old.budget }
        ensures capacity { capacity_of self.new.slots ≡ capacity_of self.old.slots }
        ensures sound { AreSound self.new.granularity self.new.slots }
        ensures empty { KeepsOneEmptyAtMost self.new.slots }
    {
        self.relabel(piece, Said::Word(word))
    }

    /// Gives a piece another name or word: what `rename` and `set_word` share.
    pub(crate) fn relabel(&mut self, piece: &Piece<H>, said: Said<'_>) -> Result<()>
        ensures renamed { OnOk result (RelabelsPiece self.old.slots piece.now (said_of said.entry)
            self.new.slots) }
        ensures live { OnOk result (IsLive H.eq self.old.slots piece.now) }
        ensures dead { IfErr result (λ e. e ≢ HostOutOfMemory → IsLive H.eq self.old.slots piece.now
            → ⊥) }
        ensures starved { IfErr result (λ e. e ≡ HostOutOfMemory
            → IsLive H.eq self.old.slots piece.now) }
        ensures no_memory { IfErr result (λ e. e ≡ HostOutOfMemory → MayStarve (said_of said.entry)) }
        ensures cause { IfErr result (λ e. IsNameRefusal H.eq piece.now
            (slot_at self.old.slots piece.now.slot) (refusal_of e)) }
        ensures refused { OnErr result (self.new ≡ self.old) }
        ensures kind { (self.new.is_host ≡ self.old.is_host)
            × (self.new.granularity ≡ self.old.granularity) }
        ensures budget { self.new.budget ≡ self.old.budget }
        ensures capacity { capacity_of self.new.slots ≡ capacity_of self.old.slots }
        ensures sound { AreSound self.new.granularity self.new.slots }
        ensures empty { KeepsOneEmptyAtMost self.new.slots }
    {
        self.slots.relabel(piece, said)
    }

    /// Whether a piece is live: its slot's block is the one named, and has the piece under its number at its place.
    pub fn is_live(&self, piece: &Piece<H>) -> bool
        ensures { IsTrue result ↔ IsLive H.eq self.now.slots piece.now }
    {
        match self.slots.as_slice().get(piece.slot) {
            Some(Some(block)) => match find(block, piece) {
                Finding::Piece => true,
                _ => false,
            },
            _ => false,
        }
    }

    /// The sum of the sizes of the live blocks, in bytes.
    pub fn capacity(&self) -> u64
        ensures { result ≡ capacity_of self.now.slots }
    {
        self.capacity
    }

    /// Bounds the sum of the sizes of the live blocks, in bytes; `None` takes the bound away. A budget below the present sum
    /// gives no block back. It takes no memory.
    pub fn set_budget(&mut self, budget: Option<u64>)
        ensures { self.new ≡ record self.old { budget = budget } }
    {
        self.budget = budget;
    }

    /// The bound of the sum of the sizes of the live blocks, in bytes, or `None`.
    pub fn budget(&self) -> Option<u64>
        ensures { result ≡ self.now.budget }
    {
        self.budget
    }

    /// Whether a new block of `size` bytes keeps the sum of the sizes of the live blocks within the budget; true where there is
    /// none.
    pub fn fits_budget(&self, size: u64) -> bool
        ensures { result ≡ fits_budget self.now.budget (capacity_of self.now.slots + size) }
    {
        match self.budget {
            None => true,
            Some(budget) => self.capacity <= budget && size <= budget - self.capacity,
        }
    }

    /// How many live blocks are shared.
    pub fn active_general_blocks(&self) -> usize
        ensures { result ≡ shared_count self.now.slots }
    {
        self.shared
    }

    /// How many slots there are, the empty ones included.
    pub fn slots(&self) -> usize
        ensures { result ≡ length self.now.slots }
    {
        self.slots.len()
    }

    /// The device's number of the block in a slot, or `None` where there is none.
    pub fn block(&self, slot: usize) -> Option<H>
        ensures { result ≡ block_number (slot_at self.now.slots slot) }
    {
        match self.slots.as_slice().get(slot) {
            Some(Some(block)) => Some(block.handle),
            _ => None,
        }
    }

    /// The live pieces of the block in a slot, in order of offset, as leaks of type `memory_type`; `None` where there is
    /// no block. It takes no memory.
    pub fn leaks(&self, memory_type: usize, slot: usize) -> Option<Leaks<'_>>
        ensures { result ≡ leaks_in memory_type slot (slot_at self.now.slots slot) }
    {
        match self.slots.as_slice().get(slot) {
            Some(Some(block)) => Some(block.sub.leaks(memory_type, slot)),
            _ => None,
        }
    }

    /// The live pieces of the block in a slot, in order of offset; `None` where there is no block. It takes no memory.
    pub fn pieces(&self, slot: usize) -> Option<Pieces<'_>>
        ensures { result ≡ pieces_in (slot_at self.now.slots slot) }
    {
        match self.slots.as_slice().get(slot) {
            Some(Some(block)) => Some(block.sub.pieces()),
            _ => None,
        }
    }

    /// How many live pieces and gaps the block in a slot has, what the pieces take with their padding, and the longest gap,
    /// in bytes; `None` where there is no block. It takes no memory.
    pub fn statistics(&self, slot: usize) -> Option<BlockStatistics>
        ensures { result ≡ statistics_in (slot_at self.now.slots slot) }
    {
        match self.slots.as_slice().get(slot) {
            Some(Some(block)) => Some(block.sub.statistics()),
            _ => None,
        }
    }

    /// The same of all its blocks together: the sums, which stay at the top of 64 bits, and the longest gap of any. It takes no
    /// memory.
    pub fn total_statistics(&self) -> BlockStatistics
        ensures { result ≡ counted_with nothing_counted self.now.slots }
    {
        count_slots(self.slots.as_slice())
    }

    /// The block in a slot with its pieces and gaps, lent to be looked at; `None` where there is no block.
    pub fn sub_allocator(&self, slot: usize) -> Option<&SubAllocator>
        ensures { option_map (λ b. block_of b.now) result ≡ block_in (slot_at self.now.slots slot) }
    {
        match self.slots.as_slice().get(slot) {
            Some(Some(block)) => Some(&block.sub),
            _ => None,
        }
    }

    /// The page size of its blocks in bytes.
    pub fn granularity(&self) -> u64
        ensures { result ≡ self.now.granularity }
    {
        self.granularity
    }

    /// All live pieces by slot, then in order of offset, as leaks of type `memory_type`. It takes no memory.
    pub fn all_leaks(&self, memory_type: usize) -> TypeLeaks<'_, H>
        ensures { result ≡ type_leaks memory_type self.now.slots }
    {
        TypeLeaks::new(memory_type, self.slots.as_slice())
    }

    /// Adds the live blocks, their pieces and the sums of both to a report, by slot and then by offset. The only refusal
    /// is `HostOutOfMemory`, and then the report holds a part of it: drop it. Its caller sees to it that the report's sums with
    /// this type's capacity stay in 64 bits.
    pub fn report(&self, report: &mut AllocatorReport) -> Result<()>
        requires allocated { report.old.total_allocated_bytes + capacity_of self.now.slots
            < 2 ^ 64 }
        requires capacity { report.old.total_capacity_bytes + capacity_of self.now.slots < 2 ^ 64 }
        ensures added { OnOk result (report_of report.new
            ≡ with_type (report_of report.old) self.now.slots) }
        ensures within { OnOk result (report.old.total_allocated_bytes
            ≤ report.old.total_capacity_bytes
            → report.new.total_allocated_bytes ≤ report.new.total_capacity_bytes) }
        ensures cause { IfErr result (λ e. e ≡ HostOutOfMemory) }
    {
        add_slots(report, self.slots.as_slice())
    }
}
