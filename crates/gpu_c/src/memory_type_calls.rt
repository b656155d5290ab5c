//! Memory types for C. The caller asks its driver for each block, between prepare and install; while a block is awaited, each other call
//! that changes anything returns `AWAITS_BLOCK`. A handle begins zeroed; create fills it and destroy leaves it zeroed. Any status but
//! `OK` leaves everything as it was.

ghost use Rattle.std.specs.Prelude.{◌≡◌, ◌≢◌, ◌↔◌, [], ◌∷◌, Some, None, IsSome, IsSomeAnd, IsTrue, IsUtf8};
ghost use Rattle.std.specs.Int.{is_power_of_two};
ghost use Rattle.gpu_core.specs.TypeState.{slot_at, block_number};
ghost use Rattle.gpu_core.specs.TypeReport.{pieces_in, block_in};
ghost use Rattle.gpu_c.specs.Handle.{Changes};
ghost use Rattle.gpu_c.specs.Status as status;
ghost use Rattle.gpu_c.specs.Request.{IsRequestServed};
ghost use Rattle.gpu_c.specs.Status.{IsOneOf};
ghost use Rattle.gpu_c.specs.MemoryType.{fresh_memory_type, memory_block, number_if, IsLiveIn, Prepares, IsIdleAndServed, IsTooLarge, IsPastBudget, InstallsAwaited, Abandons, FreesPiece, NamesMemory, SetsWord, statistics_of, block_counts};
ghost use Rattle.gpu_c.specs.Visit.{piece_view, piece_in_from, pieces_in_from, ShowsPieces, ShowsNames, ShowsName};
ghost use Rattle.gpu_c.specs.declared.status.TheConstants.{OK, OUT_OF_MEMORY, INVALID, NOT_LIVE, HOST_OUT_OF_MEMORY, BUDGET_EXCEEDED, NO_HANDLE, IN_USE, AWAITS_BLOCK, AWAITS_NO_BLOCK};

use crate::memory_type::AwaitingType;
use crate::memory_type_handle::MemoryTypeHandle;
use crate::memory_type_values::{
    MemoryBlock, MemoryBlockStatistics, MemoryPiece, MemoryPrepared, MemoryRequest,
    MemoryStatistics, MemoryTypeSettings,
};
use crate::status::{HOST_OUT_OF_MEMORY, IN_USE, INVALID, NO_HANDLE, OK};
use crate::virtual_block_values::PieceView;
use std::alloc::Global;

/// Makes a memory type without blocks in an empty handle. `IN_USE` where the handle isn't empty, else `INVALID` where the page size is
/// no power of two, else `HOST_OUT_OF_MEMORY`.
#[unsafe(no_mangle)]
pub extern "C" fn pilhangko_raw_memory_type_create(
    memory_type: &mut MemoryTypeHandle,
    alloc: Global,
    settings: &MemoryTypeSettings,
) -> u32
    ensures created { result ≡ status.ok
        → (memory_type.old.value ≡ None) × IsTrue (is_power_of_two settings.now.granularity)
        × (memory_type.new.value ≡ Some (fresh_memory_type settings.now)) }
    ensures in_use { (result ≡ status.in_use) ↔ (memory_type.old.value ≢ None) }
    ensures invalid { (result ≡ status.invalid)
        ↔ (memory_type.old.value ≡ None) × (IsTrue (is_power_of_two settings.now.granularity) → ⊥) }
    ensures host_out_of_memory { result ≡ status.host_out_of_memory
        → (memory_type.old.value ≡ None) × IsTrue (is_power_of_two settings.now.granularity) }
    ensures statuses { IsOneOf result (status.ok ∷ status.in_use ∷ status.invalid
        ∷ status.host_out_of_memory ∷ []) }
    ensures refused { result ≢ status.ok → memory_type.new.value ≡ memory_type.old.value }
{
    if let Some(kept) = memory_type.take(alloc) {
        memory_type.put(kept);
        return IN_USE;
    }
    if !settings.granularity.is_power_of_two() {
        return INVALID;
    }
    match Box::new(alloc, AwaitingType::new(alloc, settings)) {
        Err(_) => HOST_OUT_OF_MEMORY,
        Ok(fresh) => {
            memory_type.put(fresh);
            OK
        }
    }
}

/// Allocates a piece in a block that is there, or reports which block is needed and awaits it, with all host memory for it at hand.
/// `AWAITS_BLOCK` where one is awaited, else `INVALID` where the request is none that is served, else `HOST_OUT_OF_MEMORY` where the host
/// refused memory, else, where a block is needed, `OUT_OF_MEMORY` where the sum of the blocks' sizes would pass 2^64 - 1, else
/// `BUDGET_EXCEEDED` where it would pass the budget.
#[unsafe(no_mangle)]
pub extern "C" fn pilhangko_raw_memory_type_prepare(
    memory_type: &mut MemoryTypeHandle,
    alloc: Global,
    request: &MemoryRequest,
    name: &[u8],
    prepared: &mut MemoryPrepared,
) -> u32
    ensures done { result ≡ status.ok → Changes memory_type.old.value memory_type.new.value
        (λ old new. Prepares old request.now name.now prepared.new new) }
    ensures no_handle { (result ≡ status.no_handle) ↔ (memory_type.old.value ≡ None) }
    ensures awaits_block { (result ≡ status.awaits_block)
        ↔ IsSomeAnd memory_type.old.value (λ t. IsSome t.awaited) }
    ensures invalid { (result ≡ status.invalid)
        ↔ IsSomeAnd memory_type.old.value
        (λ t. (t.awaited ≡ None) × (IsRequestServed request.now.size request.now.alignment request.now.kind
        name.now → ⊥)) }
    ensures host_out_of_memory { result ≡ status.host_out_of_memory
        → IsSomeAnd memory_type.old.value (λ t. IsIdleAndServed t request.now name.now) }
    ensures out_of_memory { result ≡ status.out_of_memory
        → IsSomeAnd memory_type.old.value (λ t. IsTooLarge t request.now name.now) }
    ensures budget_exceeded { result ≡ status.budget_exceeded
        → IsSomeAnd memory_type.old.value (λ t. IsPastBudget t request.now name.now) }
    ensures statuses { IsOneOf result (status.ok ∷ status.no_handle ∷ status.awaits_block
        ∷ status.invalid ∷ status.host_out_of_memory ∷ status.out_of_memory
        ∷ status.budget_exceeded ∷ []) }
    ensures refused { result ≢ status.ok
        → (memory_type.new.value ≡ memory_type.old.value) × (prepared.new ≡ prepared.old) }
{
    match memory_type.take(alloc) {
        None => NO_HANDLE,
        Some(mut kept) => {
            let status = kept.prepare(request, name, prepared);
            memory_type.put(kept);
            status
        }
    }
}

/// Puts in the block that is awaited, under the driver's handle of it, and reports the piece in it. It takes no host memory.
/// `AWAITS_NO_BLOCK` where none is awaited.
#[unsafe(no_mangle)]
pub extern "C" fn pilhangko_raw_memory_type_install(
    memory_type: &mut MemoryTypeHandle,
    alloc: Global,
    block: u64,
    piece: &mut MemoryPiece,
) -> u32
    ensures installed { result ≡ status.ok
        → Changes memory_type.old.value memory_type.new.value
        (λ old new. InstallsAwaited old block piece.new new) }
    ensures no_handle { (result ≡ status.no_handle) ↔ (memory_type.old.value ≡ None) }
    ensures awaits_no_block { (result ≡ status.awaits_no_block)
        ↔ IsSomeAnd memory_type.old.value (λ t. t.awaited ≡ None) }
    ensures statuses { IsOneOf result (status.ok ∷ status.no_handle ∷ status.awaits_no_block ∷ []) }
    ensures refused { result ≢ status.ok
        → (memory_type.new.value ≡ memory_type.old.value) × (piece.new ≡ piece.old) }
{
    match memory_type.take(alloc) {
        None => NO_HANDLE,
        Some(mut kept) => {
            let status = kept.install(block, piece);
            memory_type.put(kept);
            status
        }
    }
}

/// Forgets the block that is awaited, where the driver refused it. `AWAITS_NO_BLOCK` where none is awaited.
#[unsafe(no_mangle)]
pub extern "C" fn pilhangko_raw_memory_type_abandon(
    memory_type: &mut MemoryTypeHandle,
    alloc: Global,
) -> u32
    ensures abandoned { result ≡ status.ok
        → Changes memory_type.old.value memory_type.new.value Abandons }
    ensures no_handle { (result ≡ status.no_handle) ↔ (memory_type.old.value ≡ None) }
    ensures awaits_no_block { (result ≡ status.awaits_no_block)
        ↔ IsSomeAnd memory_type.old.value (λ t. t.awaited ≡ None) }
    ensures statuses { IsOneOf result (status.ok ∷ status.no_handle ∷ status.awaits_no_block ∷ []) }
    ensures refused { result ≢ status.ok → memory_type.new.value ≡ memory_type.old.value }
{
    match memory_type.take(alloc) {
        None => NO_HANDLE,
        Some(mut kept) => {
            let status = kept.abandon();
            memory_type.put(kept);
            status
        }
    }
}

/// Frees a live piece, and reports the block that goes with it, if one does: its memory goes back to the driver. It takes no host
/// memory. `AWAITS_BLOCK` where a block is awaited, else `NOT_LIVE`.
#[unsafe(no_mangle)]
pub extern "C" fn pilhangko_raw_memory_type_free(
    memory_type: &mut MemoryTypeHandle,
    alloc: Global,
    piece: &MemoryPiece,
    gone: &mut MemoryBlock,
) -> u32
    ensures freed { result ≡ status.ok → Changes memory_type.old.value memory_type.new.value
        (λ old new. FreesPiece old piece.now gone.new new) }
    ensures no_handle { (result ≡ status.no_handle) ↔ (memory_type.old.value ≡ None) }
    ensures awaits_block { (result ≡ status.awaits_block)
        ↔ IsSomeAnd memory_type.old.value (λ t. IsSome t.awaited) }
    ensures not_live { (result ≡ status.not_live)
        ↔ IsSomeAnd memory_type.old.value (λ t. (t.awaited ≡ None) × (IsLiveIn t piece.now → ⊥)) }
    ensures statuses { IsOneOf result (status.ok ∷ status.no_handle ∷ status.awaits_block
        ∷ status.not_live ∷ []) }
    ensures refused { result ≢ status.ok
        → (memory_type.new.value ≡ memory_type.old.value) × (gone.new ≡ gone.old) }
{
    match memory_type.take(alloc) {
        None => NO_HANDLE,
        Some(mut kept) => {
            let status = kept.free(piece, gone);
            memory_type.put(kept);
            status
        }
    }
}

/// Renames a live piece. `AWAITS_BLOCK` where a block is awaited, else `INVALID` where the name isn't UTF-8, else `NOT_LIVE`,
/// else `HOST_OUT_OF_MEMORY`.
#[unsafe(no_mangle)]
pub extern "C" fn pilhangko_raw_memory_type_rename(
    memory_type: &mut MemoryTypeHandle,
    alloc: Global,
    piece: &MemoryPiece,
    name: &[u8],
) -> u32
    ensures renamed { result ≡ status.ok
        → IsUtf8 name.now × Changes memory_type.old.value memory_type.new.value
        (λ old new. NamesMemory old piece.now name.now new) }
    ensures no_handle { (result ≡ status.no_handle) ↔ (memory_type.old.value ≡ None) }
    ensures awaits_block { (result ≡ status.awaits_block)
        ↔ IsSomeAnd memory_type.old.value (λ t. IsSome t.awaited) }
    ensures invalid { (result ≡ status.invalid)
        ↔ IsSomeAnd memory_type.old.value (λ t. (t.awaited ≡ None) × (IsUtf8 name.now → ⊥)) }
    ensures not_live { (result ≡ status.not_live) ↔ IsSomeAnd memory_type.old.value
        (λ t. (t.awaited ≡ None) × IsUtf8 name.now × (IsLiveIn t piece.now → ⊥)) }
    ensures host_out_of_memory { result ≡ status.host_out_of_memory
        → IsSomeAnd memory_type.old.value
        (λ t. (t.awaited ≡ None) × IsUtf8 name.now × IsLiveIn t piece.now) }
    ensures statuses { IsOneOf result (status.ok ∷ status.no_handle ∷ status.awaits_block
        ∷ status.invalid ∷ status.not_live ∷ status.host_out_of_memory ∷ []) }
    ensures refused { result ≢ status.ok → memory_type.new.value ≡ memory_type.old.value }
{
    match memory_type.take(alloc) {
        None => NO_HANDLE,
        Some(mut kept) => {
            let status = kept.rename(piece, name);
            memory_type.put(kept);
            status
        }
    }
}

/// Keeps another word of the caller's with a live piece, the address of an object, say, which visits show; a new piece has the word 0.
/// `AWAITS_BLOCK` where a block is awaited, else `NOT_LIVE`.
#[unsafe(no_mangle)]
pub extern "C" fn pilhangko_raw_memory_type_set_word(
    memory_type: &mut MemoryTypeHandle,
    alloc: Global,
    piece: &MemoryPiece,
    word: u64,
) -> u32
    ensures set { result ≡ status.ok → Changes memory_type.old.value memory_type.new.value
        (λ old new. SetsWord old piece.now word new) }
    ensures no_handle { (result ≡ status.no_handle) ↔ (memory_type.old.value ≡ None) }
    ensures awaits_block { (result ≡ status.awaits_block)
        ↔ IsSomeAnd memory_type.old.value (λ t. IsSome t.awaited) }
    ensures not_live { (result ≡ status.not_live) ↔ IsSomeAnd memory_type.old.value
        (λ t. (t.awaited ≡ None) × (IsLiveIn t piece.now → ⊥)) }
    ensures statuses { IsOneOf result (status.ok ∷ status.no_handle ∷ status.awaits_block ∷ status.not_live ∷ []) }
    ensures refused { result ≢ status.ok → memory_type.new.value ≡ memory_type.old.value }
{
    match memory_type.take(alloc) {
        None => NO_HANDLE,
        Some(mut kept) => {
            let status = kept.set_word(piece, word);
            memory_type.put(kept);
            status
        }
    }
}

/// Whether a piece is live.
#[unsafe(no_mangle)]
pub extern "C" fn pilhangko_raw_memory_type_is_live(
    memory_type: &mut MemoryTypeHandle,
    alloc: Global,
    piece: &MemoryPiece,
    is_live: &mut bool,
) -> u32
    ensures reported { result ≡ status.ok
        → IsSomeAnd memory_type.old.value (λ t. IsTrue is_live.new ↔ IsLiveIn t piece.now) }
    ensures no_handle { (result ≡ status.no_handle) ↔ (memory_type.old.value ≡ None) }
    ensures statuses { IsOneOf result (status.ok ∷ status.no_handle ∷ []) }
    ensures same { memory_type.new.value ≡ memory_type.old.value }
    ensures refused { result ≢ status.ok → is_live.new ≡ is_live.old }
{
    match memory_type.take(alloc) {
        None => NO_HANDLE,
        Some(kept) => {
            *is_live = kept.is_live(piece);
            memory_type.put(kept);
            OK
        }
    }
}

/// Bounds the sum of the blocks' sizes, in bytes, or takes the bound away. A bound below the present sum frees no block.
/// `AWAITS_BLOCK` where a block is awaited.
#[unsafe(no_mangle)]
pub extern "C" fn pilhangko_raw_memory_type_set_budget(
    memory_type: &mut MemoryTypeHandle,
    alloc: Global,
    has_budget: bool,
    bytes: u64,
) -> u32
    ensures bounded { result ≡ status.ok
        → Changes memory_type.old.value memory_type.new.value
        (λ old new. (old.awaited ≡ None)
        × (new ≡ record old { budget = number_if has_budget bytes })) }
    ensures no_handle { (result ≡ status.no_handle) ↔ (memory_type.old.value ≡ None) }
    ensures awaits_block { (result ≡ status.awaits_block)
        ↔ IsSomeAnd memory_type.old.value (λ t. IsSome t.awaited) }
    ensures statuses { IsOneOf result (status.ok ∷ status.no_handle ∷ status.awaits_block ∷ []) }
    ensures refused { result ≢ status.ok → memory_type.new.value ≡ memory_type.old.value }
{
    match memory_type.take(alloc) {
        None => NO_HANDLE,
        Some(mut kept) => {
            let status = kept.set_budget(has_budget, bytes);
            memory_type.put(kept);
            status
        }
    }
}

/// The block in a slot, for a visit of all blocks: slots are numbered from 0.
#[unsafe(no_mangle)]
pub extern "C" fn pilhangko_raw_memory_type_block(
    memory_type: &mut MemoryTypeHandle,
    alloc: Global,
    slot: usize,
    block: &mut MemoryBlock,
) -> u32
    ensures reported { result ≡ status.ok
        → IsSomeAnd memory_type.old.value
        (λ t. block.new ≡ memory_block (block_number (slot_at t.slots slot))) }
    ensures no_handle { (result ≡ status.no_handle) ↔ (memory_type.old.value ≡ None) }
    ensures statuses { IsOneOf result (status.ok ∷ status.no_handle ∷ []) }
    ensures same { memory_type.new.value ≡ memory_type.old.value }
    ensures refused { result ≢ status.ok → block.new ≡ block.old }
{
    match memory_type.take(alloc) {
        None => NO_HANDLE,
        Some(kept) => {
            *block = kept.block(slot);
            memory_type.put(kept);
            OK
        }
    }
}

/// Pieces and their bytes, gaps and the longest one of the block in a slot.
#[unsafe(no_mangle)]
pub extern "C" fn pilhangko_raw_memory_type_block_statistics(
    memory_type: &mut MemoryTypeHandle,
    alloc: Global,
    slot: usize,
    statistics: &mut MemoryBlockStatistics,
) -> u32
    ensures reported { result ≡ status.ok
        → IsSomeAnd memory_type.old.value
        (λ t. statistics.new ≡ block_counts (block_in (slot_at t.slots slot))) }
    ensures no_handle { (result ≡ status.no_handle) ↔ (memory_type.old.value ≡ None) }
    ensures statuses { IsOneOf result (status.ok ∷ status.no_handle ∷ []) }
    ensures same { memory_type.new.value ≡ memory_type.old.value }
    ensures refused { result ≢ status.ok → statistics.new ≡ statistics.old }
{
    match memory_type.take(alloc) {
        None => NO_HANDLE,
        Some(kept) => {
            *statistics = kept.block_statistics(slot);
            memory_type.put(kept);
            OK
        }
    }
}

/// The first live piece of the block in a slot whose own bytes begin at `from` or behind it, for a visit of all pieces in order of
/// offset.
#[unsafe(no_mangle)]
pub extern "C" fn pilhangko_raw_memory_type_next_piece(
    memory_type: &mut MemoryTypeHandle,
    alloc: Global,
    slot: usize,
    from: u64,
    piece: &mut PieceView,
) -> u32
    ensures reported { result ≡ status.ok → IsSomeAnd memory_type.old.value
        (λ t. piece.new ≡ piece_view (piece_in_from from (pieces_in (slot_at t.slots slot)))) }
    ensures no_handle { (result ≡ status.no_handle) ↔ (memory_type.old.value ≡ None) }
    ensures statuses { IsOneOf result (status.ok ∷ status.no_handle ∷ []) }
    ensures same { memory_type.new.value ≡ memory_type.old.value }
    ensures refused { result ≢ status.ok → piece.new ≡ piece.old }
{
    match memory_type.take(alloc) {
        None => NO_HANDLE,
        Some(kept) => {
            *piece = kept.next_piece(slot, from);
            memory_type.put(kept);
            OK
        }
    }
}

/// Fills an array with the live pieces of the block in a slot whose own bytes begin at `from` or behind it, in order of offset and as far
/// as it has room, and reports how many it shows: with an array for all of a block's pieces, one call visits them all, each once.
#[unsafe(no_mangle)]
pub extern "C" fn pilhangko_raw_memory_type_pieces(
    memory_type: &mut MemoryTypeHandle,
    alloc: Global,
    slot: usize,
    from: u64,
    pieces: &mut [PieceView],
    count: &mut usize,
) -> u32
    ensures reported { result ≡ status.ok
        → IsSomeAnd memory_type.old.value
        (λ t. ShowsPieces (pieces_in_from from (pieces_in (slot_at t.slots slot))) pieces.old
        pieces.new count.new) }
    ensures no_handle { (result ≡ status.no_handle) ↔ (memory_type.old.value ≡ None) }
    ensures statuses { IsOneOf result (status.ok ∷ status.no_handle ∷ []) }
    ensures same { memory_type.new.value ≡ memory_type.old.value }
    ensures refused { result ≢ status.ok → (pieces.new ≡ pieces.old) × (count.new ≡ count.old) }
{
    match memory_type.take(alloc) {
        None => NO_HANDLE,
        Some(kept) => {
            *count = kept.pieces(slot, from, pieces);
            memory_type.put(kept);
            OK
        }
    }
}

/// The name of the piece that the visit shows from there: copies as many bytes of it as there is room for, and reports how many it has, 0
/// where there is no piece.
#[unsafe(no_mangle)]
pub extern "C" fn pilhangko_raw_memory_type_piece_name(
    memory_type: &mut MemoryTypeHandle,
    alloc: Global,
    slot: usize,
    from: u64,
    name: &mut [u8],
    whole: &mut usize,
) -> u32
    ensures reported { result ≡ status.ok
        → IsSomeAnd memory_type.old.value
        (λ t. ShowsName (piece_in_from from (pieces_in (slot_at t.slots slot))) name.old name.new
        whole.new) }
    ensures no_handle { (result ≡ status.no_handle) ↔ (memory_type.old.value ≡ None) }
    ensures statuses { IsOneOf result (status.ok ∷ status.no_handle ∷ []) }
    ensures same { memory_type.new.value ≡ memory_type.old.value }
    ensures refused { result ≢ status.ok → (name.new ≡ name.old) × (whole.new ≡ whole.old) }
{
    match memory_type.take(alloc) {
        None => NO_HANDLE,
        Some(kept) => {
            *whole = kept.piece_name(slot, from, name);
            memory_type.put(kept);
            OK
        }
    }
}

/// The names of the live pieces that `pieces` shows of the block in a slot: fills an array with their lengths and a buffer with the names one after another,
/// as far as each has room, and reports how many lengths there are.
#[unsafe(no_mangle)]
pub extern "C" fn pilhangko_raw_memory_type_piece_names(
    memory_type: &mut MemoryTypeHandle,
    alloc: Global,
    slot: usize,
    from: u64,
    lengths: &mut [usize],
    names: &mut [u8],
    count: &mut usize,
) -> u32
    ensures reported { result ≡ status.ok
        → IsSomeAnd memory_type.old.value
        (λ t. ShowsNames (pieces_in_from from (pieces_in (slot_at t.slots slot))) lengths.old
        lengths.new names.old names.new count.new) }
    ensures no_handle { (result ≡ status.no_handle) ↔ (memory_type.old.value ≡ None) }
    ensures statuses { IsOneOf result (status.ok ∷ status.no_handle ∷ []) }
    ensures same { memory_type.new.value ≡ memory_type.old.value }
    ensures refused { result ≢ status.ok
        → (lengths.new ≡ lengths.old) × (names.new ≡ names.old) × (count.new ≡ count.old) }
{
    match memory_type.take(alloc) {
        None => NO_HANDLE,
        Some(kept) => {
            *count = kept.piece_names(slot, from, lengths, names);
            memory_type.put(kept);
            OK
        }
    }
}

/// Capacity, slots, shared blocks and budget, and whether a block is awaited.
#[unsafe(no_mangle)]
pub extern "C" fn pilhangko_raw_memory_type_statistics(
    memory_type: &mut MemoryTypeHandle,
    alloc: Global,
    statistics: &mut MemoryStatistics,
) -> u32
    ensures reported { result ≡ status.ok
        → IsSomeAnd memory_type.old.value (λ t. statistics.new ≡ statistics_of t) }
    ensures no_handle { (result ≡ status.no_handle) ↔ (memory_type.old.value ≡ None) }
    ensures statuses { IsOneOf result (status.ok ∷ status.no_handle ∷ []) }
    ensures same { memory_type.new.value ≡ memory_type.old.value }
    ensures refused { result ≢ status.ok → statistics.new ≡ statistics.old }
{
    match memory_type.take(alloc) {
        None => NO_HANDLE,
        Some(kept) => {
            *statistics = kept.statistics();
            memory_type.put(kept);
            OK
        }
    }
}

/// Ends a memory type, with the pieces that are still live, and leaves the handle zeroed. The blocks' memory is the caller's to free:
/// visit them first.
#[unsafe(no_mangle)]
pub extern "C" fn pilhangko_raw_memory_type_destroy(
    memory_type: &mut MemoryTypeHandle,
    alloc: Global,
) -> u32
    ensures gone { memory_type.new.value ≡ None }
    ensures no_handle { (result ≡ status.no_handle) ↔ (memory_type.old.value ≡ None) }
    ensures statuses { IsOneOf result (status.ok ∷ status.no_handle ∷ []) }
{
    match memory_type.take(alloc) {
        None => NO_HANDLE,
        Some(_) => OK,
    }
}
