//! What lies behind a handle of a memory type: its blocks, the sizes that they have, and the block that is awaited.

ghost use Rattle.std.specs.Prelude.{◌≡◌, ◌≢◌, ◌<◌, ◌≤◌, ◌+◌, ◌^◌, ◌↔◌, [], ◌∷◌, Some, None, true, false, IsSome, IsTrue, IsUtf8, MatchOption};
ghost use Rattle.std.specs.Int.{is_power_of_two};
ghost use Rattle.std.specs.Option.{option_map};
ghost use Rattle.gpu_block.specs.SubAllocator.{block_of};
ghost use Rattle.gpu_core.specs.TypeState.{slot_at, capacity_of, block_number, fits_budget};
ghost use Rattle.gpu_core.specs.TypeReport.{pieces_in, block_in};
ghost use Rattle.gpu_c.specs.Status as status;
ghost use Rattle.gpu_c.specs.Request.{IsRequestServed};
ghost use Rattle.gpu_c.specs.Status.{IsOneOf};
ghost use Rattle.gpu_c.specs.MemoryType.{AwaitingState, fresh_memory_type, memory_piece, no_memory_piece, memory_block, number_if, IsLiveIn, Prepares, IsIdleAndServed, IsTooLarge, IsPastBudget, InstallsAwaited, Abandons, FreesPiece, NamesMemory, SetsWord, statistics_of, sizes_of, block_counts};
ghost use Rattle.gpu_c.specs.Visit.{piece_view, piece_in_from, pieces_in_from, ShowsPieces, ShowsNames, ShowsName};
ghost use Rattle.gpu_c.specs.declared.status.TheConstants.{OK, OUT_OF_MEMORY, INVALID, NOT_LIVE, HOST_OUT_OF_MEMORY, BUDGET_EXCEEDED, AWAITS_BLOCK, AWAITS_NO_BLOCK};

use crate::memory_type_values::{
    MemoryBlock, MemoryBlockStatistics, MemoryPiece, MemoryPrepared, MemoryRequest,
    MemoryStatistics, MemoryTypeSettings,
};
use crate::request::served;
use crate::status::{
    AWAITS_BLOCK, AWAITS_NO_BLOCK, BUDGET_EXCEEDED, HOST_OUT_OF_MEMORY, INVALID, NOT_LIVE, OK,
    OUT_OF_MEMORY,
};
use crate::virtual_block_values::PieceView;
use crate::visit::{fill_from, first_from, name_from, names_from, no_piece};
use gpu_block::SubAllocator;
use gpu_core::{MemoryType, NeedBlock, Piece, Prepared, Request};
use gpu_values::AllocationSizes;
use std::alloc::Global;
use std::marker::Model;
use std::num::NonZeroU64;

/// A memory type whose blocks have the driver's handles for numbers, and the block that is awaited from the driver.
#[derive(Drop)]
pub struct AwaitingType {
    memory_type: MemoryType<u64>,
    sizes: AllocationSizes,
    awaited: Option<NeedBlock>,
}

impl Model for AwaitingType {
    ghost use Rattle.gpu_c.specs.MemoryType.{AwaitingState, state_of, CanAwait};

    ghost Value = { AwaitingState };

    ghost view = { λ t. state_of t.memory_type t.sizes t.awaited };

    ghost invariant = { λ t. CanAwait t.memory_type t.awaited };
}

fn sizes_of(settings: &MemoryTypeSettings) -> AllocationSizes
    ensures { result ≡ sizes_of settings.now }
{
    AllocationSizes::new(settings.device_block_size, settings.host_block_size)
        .with_max_device_memblock_size(settings.largest_device_block_size)
        .with_max_host_memblock_size(settings.largest_host_block_size)
}

/// A number that counts only where there is one.
pub fn number_if(exists: bool, number: u64) -> Option<u64>
    ensures { result ≡ number_if exists number }
{
    if exists { Some(number) } else { None }
}

fn memory_piece(piece: &Piece<u64>) -> MemoryPiece
    ensures { result ≡ memory_piece piece.now }
{
    MemoryPiece {
        slot: piece.slot,
        number: piece.chunk_id.get(),
        offset: piece.offset,
        size: piece.size,
        block: piece.handle,
    }
}

/// The piece that a caller names; `None` where its number is 0.
fn named_piece(piece: &MemoryPiece) -> Option<Piece<u64>>
    ensures { MatchOption result (piece.now.number ≡ 0) (λ p. memory_piece p ≡ piece.now) }
{
    match NonZeroU64::new(piece.number) {
        None => None,
        Some(number) => Some(Piece {
            slot: piece.slot,
            chunk_id: number,
            offset: piece.offset,
            size: piece.size,
            handle: piece.block,
        }),
    }
}

/// A block as C sees it, or none.
pub fn memory_block(block: Option<u64>) -> MemoryBlock
    ensures { result ≡ memory_block block }
{
    match block {
        None => MemoryBlock {
            exists: false,
            block: 0,
        },
        Some(block) => MemoryBlock {
            exists: true,
            block,
        },
    }
}

/// Whether a new block of `size` bytes may be asked for: the sum of the blocks' sizes stays in 64 bits, else `OUT_OF_MEMORY`, and
/// within the budget, else `BUDGET_EXCEEDED`.
fn growth_status(memory_type: &MemoryType<u64>, size: u64) -> u32
    ensures within { result ≡ status.ok
        → (capacity_of memory_type.now.slots + size < 2 ^ 64)
        × (fits_budget memory_type.now.budget (capacity_of memory_type.now.slots + size) ≡ true) }
    ensures out_of_memory { result ≡ status.out_of_memory
        → 2 ^ 64 ≤ capacity_of memory_type.now.slots + size }
    ensures past_budget { result ≡ status.budget_exceeded
        → (capacity_of memory_type.now.slots + size < 2 ^ 64)
        × (fits_budget memory_type.now.budget (capacity_of memory_type.now.slots + size) ≡ false) }
    ensures statuses { IsOneOf result (status.ok ∷ status.out_of_memory ∷ status.budget_exceeded
        ∷ []) }
{
    if memory_type.capacity().checked_add(size).is_none() {
        return OUT_OF_MEMORY;
    }
    if memory_type.fits_budget(size) {
        OK
    } else {
        BUDGET_EXCEEDED
    }
}

impl AwaitingType {
    /// No blocks, none awaited. It takes no memory.
    pub fn new(alloc: Global, settings: &MemoryTypeSettings) -> AwaitingType
        requires { IsTrue (is_power_of_two settings.now.granularity) }
        ensures { result ≡ fresh_memory_type settings.now }
    {
        let mut memory_type = MemoryType::new(alloc, settings.is_host, settings.granularity);
        memory_type.set_budget(number_if(settings.has_budget, settings.budget));
        AwaitingType {
            memory_type,
            sizes: sizes_of(settings),
            awaited: None,
        }
    }

    /// Allocates a piece in a block that is there, or says which block is needed and awaits it.
    pub fn prepare(
        &mut self,
        request: &MemoryRequest,
        name: &[u8],
        prepared: &mut MemoryPrepared,
    ) -> u32
        ensures done { result ≡ status.ok
            → Prepares self.old request.now name.now prepared.new self.new }
        ensures awaits_block { (result ≡ status.awaits_block) ↔ IsSome self.old.awaited }
        ensures invalid { (result ≡ status.invalid)
            ↔ (self.old.awaited ≡ None)
            × (IsRequestServed request.now.size request.now.alignment request.now.kind name.now → ⊥) }
        ensures host_out_of_memory { result ≡ status.host_out_of_memory
            → IsIdleAndServed self.old request.now name.now }
        ensures out_of_memory { result ≡ status.out_of_memory
            → IsTooLarge self.old request.now name.now }
        ensures budget_exceeded { result ≡ status.budget_exceeded
            → IsPastBudget self.old request.now name.now }
        ensures statuses { IsOneOf result
            (status.ok ∷ status.awaits_block ∷ status.invalid ∷ status.host_out_of_memory
            ∷ status.out_of_memory ∷ status.budget_exceeded ∷ []) }
        ensures refused { result ≢ status.ok
            → (self.new ≡ self.old) × (prepared.new ≡ prepared.old) }
    {
        match &self.awaited {
            Some(_) => return AWAITS_BLOCK,
            None => {}
        }
        let Some((kind, name)) = served(request.size, request.alignment, request.kind, name) else {
            return INVALID;
        };
        let asked = Request {
            size: request.size,
            alignment: request.alignment,
            kind,
            dedicated: request.dedicated,
            name,
        };
        match self.memory_type.prepare(&asked, &self.sizes) {
            Err(_) => HOST_OUT_OF_MEMORY,
            Ok(Prepared::Taken(piece)) => {
                *prepared = MemoryPrepared {
                    needs_block: false,
                    dedicated: false,
                    block_size: 0,
                    piece: memory_piece(&piece),
                };
                OK
            }
            Ok(Prepared::NeedBlock(need)) => {
                let status = growth_status(&self.memory_type, need.size);
                if status == OK {
                    *prepared = needed(&need);
                    await_block(&mut self.awaited, need);
                }
                status
            }
        }
    }

    /// Puts in the block that is awaited, under the driver's handle of it, and reports the piece in it.
    pub fn install(&mut self, block: u64, piece: &mut MemoryPiece) -> u32
        ensures installed { result ≡ status.ok → InstallsAwaited self.old block piece.new self.new }
        ensures awaits_no_block { (result ≡ status.awaits_no_block) ↔ (self.old.awaited ≡ None) }
        ensures statuses { IsOneOf result (status.ok ∷ status.awaits_no_block ∷ []) }
        ensures refused { result ≢ status.ok → (self.new ≡ self.old) × (piece.new ≡ piece.old) }
    {
        match self.awaited.take() {
            None => AWAITS_NO_BLOCK,
            Some(need) => {
                *piece = memory_piece(&self.memory_type.install(need, block));
                OK
            }
        }
    }

    /// Forgets the block that is awaited.
    pub fn abandon(&mut self) -> u32
        ensures abandoned { result ≡ status.ok → Abandons self.old self.new }
        ensures awaits_no_block { (result ≡ status.awaits_no_block) ↔ (self.old.awaited ≡ None) }
        ensures statuses { IsOneOf result (status.ok ∷ status.awaits_no_block ∷ []) }
        ensures refused { result ≢ status.ok → self.new ≡ self.old }
    {
        match self.awaited.take() {
            None => AWAITS_NO_BLOCK,
            Some(_) => OK,
        }
    }

    /// Frees a piece, and reports the block that goes with it, if one does.
    pub fn free(&mut self, piece: &MemoryPiece, gone: &mut MemoryBlock) -> u32
        ensures freed { result ≡ status.ok → FreesPiece self.old piece.now gone.new self.new }
        ensures awaits_block { (result ≡ status.awaits_block) ↔ IsSome self.old.awaited }
        ensures not_live { (result ≡ status.not_live)
            ↔ (self.old.awaited ≡ None) × (IsLiveIn self.old piece.now → ⊥) }
        ensures statuses { IsOneOf result (status.ok ∷ status.awaits_block ∷ status.not_live ∷ []) }
        ensures refused { result ≢ status.ok → (self.new ≡ self.old) × (gone.new ≡ gone.old) }
    {
        match &self.awaited {
            Some(_) => return AWAITS_BLOCK,
            None => {}
        }
        match named_piece(piece) {
            None => NOT_LIVE,
            Some(piece) => match self.memory_type.free(&piece) {
                Err(_) => NOT_LIVE,
                Ok(block) => {
                    *gone = memory_block(block);
                    OK
                }
            },
        }
    }

    /// Renames a piece.
    pub fn rename(&mut self, piece: &MemoryPiece, name: &[u8]) -> u32
        ensures renamed { result ≡ status.ok
            → IsUtf8 name.now × NamesMemory self.old piece.now name.now self.new }
        ensures awaits_block { (result ≡ status.awaits_block) ↔ IsSome self.old.awaited }
        ensures invalid { (result ≡ status.invalid)
            ↔ (self.old.awaited ≡ None) × (IsUtf8 name.now → ⊥) }
        ensures not_live { (result ≡ status.not_live)
            ↔ (self.old.awaited ≡ None) × IsUtf8 name.now × (IsLiveIn self.old piece.now → ⊥) }
        ensures host_out_of_memory { result ≡ status.host_out_of_memory
            → (self.old.awaited ≡ None) × IsUtf8 name.now × IsLiveIn self.old piece.now }
        ensures statuses { IsOneOf result
            (status.ok ∷ status.awaits_block ∷ status.invalid ∷ status.not_live
            ∷ status.host_out_of_memory ∷ []) }
        ensures refused { result ≢ status.ok → self.new ≡ self.old }
    {
        match &self.awaited {
            Some(_) => return AWAITS_BLOCK,
            None => {}
        }
        let Ok(name) = str::from_utf8(name) else {
            return INVALID;
        };
        match named_piece(piece) {
            None => NOT_LIVE,
            Some(piece) => {
                if !self.memory_type.is_live(&piece) {
                    return NOT_LIVE;
                }
                match self.memory_type.rename(&piece, name) {
                    Err(_) => HOST_OUT_OF_MEMORY,
                    Ok(_) => OK,
                }
            }
        }
    }

    /// Keeps another word of the caller's with a piece.
    pub fn set_word(&mut self, piece: &MemoryPiece, word: u64) -> u32
        ensures set { result ≡ status.ok → SetsWord self.old piece.now word self.new }
        ensures awaits_block { (result ≡ status.awaits_block) ↔ IsSome self.old.awaited }
        ensures not_live { (result ≡ status.not_live)
            ↔ (self.old.awaited ≡ None) × (IsLiveIn self.old piece.now → ⊥) }
        ensures statuses { IsOneOf result (status.ok ∷ status.awaits_block ∷ status.not_live ∷ []) }
        ensures refused { result ≢ status.ok → self.new ≡ self.old }
    {
        match &self.awaited {
            Some(_) => return AWAITS_BLOCK,
            None => {}
        }
        let Some(piece) = named_piece(piece) else {
            return NOT_LIVE;
        };
        match self.memory_type.set_word(&piece, word) {
            Ok(()) => OK,
            Err(_error) => NOT_LIVE,
        }
    }

    /// Whether a piece is live.
    pub fn is_live(&self, piece: &MemoryPiece) -> bool
        ensures { IsTrue result ↔ IsLiveIn self.now piece.now }
    {
        match named_piece(piece) {
            None => false,
            Some(piece) => self.memory_type.is_live(&piece),
        }
    }

    /// Bounds the sum of the blocks' sizes, or takes the bound away.
    pub fn set_budget(&mut self, has_budget: bool, bytes: u64) -> u32
        ensures bounded { result ≡ status.ok
            → (self.old.awaited ≡ None)
            × (self.new ≡ record self.old { budget = number_if has_budget bytes }) }
        ensures awaits_block { (result ≡ status.awaits_block) ↔ IsSome self.old.awaited }
        ensures statuses { IsOneOf result (status.ok ∷ status.awaits_block ∷ []) }
        ensures refused { result ≢ status.ok → self.new ≡ self.old }
    {
        match &self.awaited {
            Some(_) => AWAITS_BLOCK,
            None => {
                self.memory_type.set_budget(number_if(has_budget, bytes));
                OK
            }
        }
    }

    /// The block in a slot, if one is there.
    pub fn block(&self, slot: usize) -> MemoryBlock
        ensures { result ≡ memory_block (block_number (slot_at self.now.slots slot)) }
    {
        memory_block(self.memory_type.block(slot))
    }

    /// What is counted of the block in a slot.
    pub fn block_statistics(&self, slot: usize) -> MemoryBlockStatistics
        ensures { result ≡ block_counts (block_in (slot_at self.now.slots slot)) }
    {
        block_counts(self.memory_type.sub_allocator(slot))
    }

    /// The first piece of the block in a slot whose own bytes begin at `from` or behind it.
    pub fn next_piece(&self, slot: usize, from: u64) -> PieceView
        ensures { result ≡ piece_view (piece_in_from from
            (pieces_in (slot_at self.now.slots slot))) }
    {
        match self.memory_type.pieces(slot) {
            None => no_piece(),
            Some(pieces) => first_from(pieces, from),
        }
    }

    /// Fills an array with the pieces of the block in a slot whose own bytes begin at `from` or behind it, as far as it has room, and
    /// returns how many it shows.
    pub fn pieces(&self, slot: usize, from: u64, views: &mut [PieceView]) -> usize
        ensures { ShowsPieces (pieces_in_from from (pieces_in (slot_at self.now.slots slot)))
            views.old views.new result }
    {
        match self.memory_type.pieces(slot) {
            None => 0,
            Some(pieces) => fill_from(pieces, from, views),
        }
    }

    /// Copies the name of the piece that `next_piece` shows, as much as there is room for, and returns its whole length.
    pub fn piece_name(&self, slot: usize, from: u64, name: &mut [u8]) -> usize
        ensures { ShowsName (piece_in_from from (pieces_in (slot_at self.now.slots slot))) name.old
            name.new result }
    {
        match self.memory_type.pieces(slot) {
            None => 0,
            Some(pieces) => name_from(pieces, from, name),
        }
    }

    /// Fills an array with the lengths of the names of the pieces that `pieces` shows, and a buffer with these names one after another, as
    /// far as each has room; returns how many lengths there are.
    pub fn piece_names(
        &self,
        slot: usize,
        from: u64,
        lengths: &mut [usize],
        names: &mut [u8],
    ) -> usize
        ensures { ShowsNames (pieces_in_from from (pieces_in (slot_at self.now.slots slot)))
            lengths.old lengths.new names.old names.new result }
    {
        match self.memory_type.pieces(slot) {
            None => 0,
            Some(pieces) => names_from(pieces, from, lengths, names),
        }
    }

    /// What is counted of the memory type.
    pub fn statistics(&self) -> MemoryStatistics
        ensures { result ≡ statistics_of self.now }
    {
        let budget = self.memory_type.budget();
        MemoryStatistics {
            capacity: self.memory_type.capacity(),
            slots: self.memory_type.slots(),
            shared_blocks: self.memory_type.active_general_blocks(),
            has_budget: budget.is_some(),
            budget: budget.unwrap_or(0),
            awaits_block: self.awaited.is_some(),
        }
    }
}

/// The size of a block, whether pieces share it, and what is counted of it; or that there is none.
pub fn block_counts(block: Option<&SubAllocator>) -> MemoryBlockStatistics
    ensures { result ≡ block_counts (option_map (λ b. block_of b.now) block.entry) }
{
    let Some(block) = block else {
        return MemoryBlockStatistics {
            exists: false,
            shared: false,
            size: 0,
            pieces: 0,
            piece_bytes: 0,
            gaps: 0,
            longest_gap: 0,
        };
    };
    let counted = block.statistics();
    MemoryBlockStatistics {
        exists: true,
        shared: block.supports_general_allocations(),
        size: block.size(),
        pieces: counted.pieces,
        piece_bytes: counted.piece_bytes,
        gaps: counted.gaps,
        longest_gap: counted.longest_gap,
    }
}

/// Awaits a block, in place of what was awaited.
fn await_block(awaited: &mut Option<NeedBlock>, need: NeedBlock)
    ensures { awaited.new ≡ Some need }
{
    *awaited = Some(need);
}

/// A request that needs a block.
fn needed(need: &NeedBlock) -> MemoryPrepared
    ensures asks { (result.needs_block ≡ true) × (result.piece ≡ no_memory_piece) }
    ensures size { (result.block_size ≡ need.now.size) × (result.dedicated ≡ need.now.dedicated) }
{
    MemoryPrepared {
        needs_block: true,
        dedicated: need.dedicated,
        block_size: need.size,
        piece: MemoryPiece {
            slot: 0,
            number: 0,
            offset: 0,
            size: 0,
            block: 0,
        },
    }
}
