//! Exports that look at an allocator of Metal's memory, also while a question is open, and change nothing.

ghost use Rattle.std.specs.Prelude.{◌≡◌, ◌≢◌, ◌≤◌, ◌↔◌, [], ◌∷◌, Some, None, IsSome, IsSomeAnd, length};
ghost use Rattle.std.specs.List.{slice_get};
ghost use Rattle.gpu_core.specs.TypeReport.{pieces_in, block_in};
ghost use Rattle.gpu_core.specs.TypeState.{slot_at, capacity_of};
ghost use Rattle.gpu_core.specs.Blocks.{slots_at};
ghost use Rattle.gpu_core.specs.Leaks.{all_leaks};
ghost use Rattle.gpu_core.specs.Reports.{whole_report};
ghost use Rattle.gpu_report.specs.ReportJson.{report_json};
ghost use Rattle.gpu_machine.specs.MetalCalls.{block_heap};
ghost use Rattle.gpu_c.specs.MetalHeaps.{block_told};
ghost use Rattle.gpu_c.specs.TypesVisit.{type_counts, ShowsText, ShowsLeak};
ghost use Rattle.gpu_c.specs.MemoryType.{block_counts};
ghost use Rattle.gpu_c.specs.Status as status;
ghost use Rattle.gpu_c.specs.Status.{IsOneOf};
ghost use Rattle.gpu_c.specs.Visit.{pieces_in_from, ShowsPieces, ShowsNames};
ghost use Rattle.gpu_c.specs.declared.status.TheConstants.{OK, NO_HANDLE, HOST_OUT_OF_MEMORY, NO_SUCH_TYPE};

use crate::allocator_values::TypeStatistics;
use crate::memory_type_values::MemoryBlockStatistics;
use crate::metal_heaps_answer::block_told;
use crate::metal_heaps_handle::MetalHeapsHandle;
use crate::metal_heaps_values::MetalHeapsBlock;
use crate::status::{NO_HANDLE, OK};
use crate::types_visit::{
    block_statistics, leak, piece_names, pieces, report, type_capacity, type_statistics,
};
use crate::virtual_block_values::PieceView;
use std::alloc::Global;

/// What is counted of a memory type and of all its blocks together. `NO_SUCH_TYPE` past the last memory type.
#[unsafe(no_mangle)]
pub extern "C" fn pilhangko_raw_metal_heaps_type_statistics(
    heaps: &mut MetalHeapsHandle,
    alloc: Global,
    index: usize,
    statistics: &mut TypeStatistics,
) -> u32
    ensures reported { result ≡ status.ok
        → IsSomeAnd heaps.old.value (λ s. statistics.new ≡ type_counts s.requests.slots s.requests.budgets index) }
    ensures no_handle { (result ≡ status.no_handle) ↔ (heaps.old.value ≡ None) }
    ensures no_such_type { (result ≡ status.no_such_type)
        ↔ IsSomeAnd heaps.old.value (λ s. length s.requests.slots ≤ index) }
    ensures statuses { IsOneOf result (status.ok ∷ status.no_handle ∷ status.no_such_type ∷ []) }
    ensures same { heaps.new.value ≡ heaps.old.value }
    ensures refused { result ≢ status.ok → statistics.new ≡ statistics.old }
{
    match heaps.take(alloc) {
        None => NO_HANDLE,
        Some(kept) => {
            let status = type_statistics(kept.memory_types(), index, statistics);
            heaps.put(kept);
            status
        }
    }
}

/// The sum of the sizes of a memory type's blocks, in bytes. `NO_SUCH_TYPE` past the last memory type.
#[unsafe(no_mangle)]
pub extern "C" fn pilhangko_raw_metal_heaps_type_capacity(
    heaps: &mut MetalHeapsHandle,
    alloc: Global,
    index: usize,
    bytes: &mut u64,
) -> u32
    ensures reported { result ≡ status.ok
        → IsSomeAnd heaps.old.value
        (λ s. bytes.new ≡ capacity_of (slots_at s.requests.slots index)) }
    ensures no_handle { (result ≡ status.no_handle) ↔ (heaps.old.value ≡ None) }
    ensures no_such_type { (result ≡ status.no_such_type)
        ↔ IsSomeAnd heaps.old.value (λ s. length s.requests.slots ≤ index) }
    ensures statuses { IsOneOf result (status.ok ∷ status.no_handle ∷ status.no_such_type
        ∷ []) }
    ensures same { heaps.new.value ≡ heaps.old.value }
    ensures refused { result ≢ status.ok → bytes.new ≡ bytes.old }
{
    match heaps.take(alloc) {
        None => NO_HANDLE,
        Some(kept) => {
            let status = type_capacity(kept.memory_types(), index, bytes);
            heaps.put(kept);
            status
        }
    }
}

/// The heap of the block in a slot of a memory type, and whether it leaves the residency set before it is released, for a visit of all
/// blocks: slots are numbered from 0.
#[unsafe(no_mangle)]
pub extern "C" fn pilhangko_raw_metal_heaps_block(
    heaps: &mut MetalHeapsHandle,
    alloc: Global,
    index: usize,
    slot: usize,
    shown: &mut MetalHeapsBlock,
) -> u32
    ensures reported { result ≡ status.ok
        → IsSomeAnd heaps.old.value
        (λ s. shown.new ≡ block_told (block_heap s index slot)) }
    ensures no_handle { (result ≡ status.no_handle) ↔ (heaps.old.value ≡ None) }
    ensures statuses { IsOneOf result (status.ok ∷ status.no_handle ∷ []) }
    ensures same { heaps.new.value ≡ heaps.old.value }
    ensures refused { result ≢ status.ok → shown.new ≡ shown.old }
{
    match heaps.take(alloc) {
        None => NO_HANDLE,
        Some(kept) => {
            *shown = block_told(kept.block(index, slot));
            heaps.put(kept);
            OK
        }
    }
}

/// Pieces and their bytes, gaps and the longest one of the block in a slot of a memory type.
#[unsafe(no_mangle)]
pub extern "C" fn pilhangko_raw_metal_heaps_block_statistics(
    heaps: &mut MetalHeapsHandle,
    alloc: Global,
    index: usize,
    slot: usize,
    statistics: &mut MemoryBlockStatistics,
) -> u32
    ensures reported { result ≡ status.ok
        → IsSomeAnd heaps.old.value
        (λ s. statistics.new ≡ block_counts
        (block_in (slot_at (slots_at s.requests.slots index) slot))) }
    ensures no_handle { (result ≡ status.no_handle) ↔ (heaps.old.value ≡ None) }
    ensures statuses { IsOneOf result (status.ok ∷ status.no_handle ∷ []) }
    ensures same { heaps.new.value ≡ heaps.old.value }
    ensures refused { result ≢ status.ok → statistics.new ≡ statistics.old }
{
    match heaps.take(alloc) {
        None => NO_HANDLE,
        Some(kept) => {
            *statistics = block_statistics(kept.memory_types(), index, slot);
            heaps.put(kept);
            OK
        }
    }
}

/// Fills an array with the live pieces of the block in a slot of a memory type whose own bytes begin at `from` or behind it, in order of
/// offset and as far as it has room, and reports how many it shows: with an array for all of a block's pieces, one call visits them all.
#[unsafe(no_mangle)]
pub extern "C" fn pilhangko_raw_metal_heaps_pieces(
    heaps: &mut MetalHeapsHandle,
    alloc: Global,
    index: usize,
    slot: usize,
    from: u64,
    views: &mut [PieceView],
    count: &mut usize,
) -> u32
    ensures reported { result ≡ status.ok
        → IsSomeAnd heaps.old.value
        (λ s. ShowsPieces (pieces_in_from from (pieces_in (slot_at (slots_at s.requests.slots index) slot)))
        views.old views.new count.new) }
    ensures no_handle { (result ≡ status.no_handle) ↔ (heaps.old.value ≡ None) }
    ensures statuses { IsOneOf result (status.ok ∷ status.no_handle ∷ []) }
    ensures same { heaps.new.value ≡ heaps.old.value }
    ensures refused { result ≢ status.ok → (views.new ≡ views.old) × (count.new ≡ count.old) }
{
    match heaps.take(alloc) {
        None => NO_HANDLE,
        Some(kept) => {
            *count = pieces(kept.memory_types(), index, slot, from, views);
            heaps.put(kept);
            OK
        }
    }
}

/// The names of the live pieces that `pieces` shows: fills an array with their lengths and a buffer with the names one after another, as
/// far as each has room, and reports how many lengths there are.
#[unsafe(no_mangle)]
pub extern "C" fn pilhangko_raw_metal_heaps_piece_names(
    heaps: &mut MetalHeapsHandle,
    alloc: Global,
    index: usize,
    slot: usize,
    from: u64,
    lengths: &mut [usize],
    names: &mut [u8],
    count: &mut usize,
) -> u32
    ensures reported { result ≡ status.ok
        → IsSomeAnd heaps.old.value
        (λ s. ShowsNames (pieces_in_from from (pieces_in (slot_at (slots_at s.requests.slots index) slot)))
        lengths.old lengths.new names.old names.new count.new) }
    ensures no_handle { (result ≡ status.no_handle) ↔ (heaps.old.value ≡ None) }
    ensures statuses { IsOneOf result (status.ok ∷ status.no_handle ∷ []) }
    ensures same { heaps.new.value ≡ heaps.old.value }
    ensures refused { result ≢ status.ok
        → (lengths.new ≡ lengths.old) × (names.new ≡ names.old) × (count.new ≡ count.old) }
{
    match heaps.take(alloc) {
        None => NO_HANDLE,
        Some(kept) => {
            *count = piece_names(kept.memory_types(), index, slot, from, lengths, names);
            heaps.put(kept);
            OK
        }
    }
}

/// The report of what is allocated as JSON: copies as many bytes of it as there is room for, and reports how many it has. It takes host
/// memory for the whole text: `HOST_OUT_OF_MEMORY`.
#[unsafe(no_mangle)]
pub extern "C" fn pilhangko_raw_metal_heaps_report(
    heaps: &mut MetalHeapsHandle,
    alloc: Global,
    text: &mut [u8],
    whole: &mut usize,
) -> u32
    ensures reported { result ≡ status.ok
        → IsSomeAnd heaps.old.value
        (λ s. ShowsText (report_json (whole_report s.requests.slots)) text.old text.new whole.new) }
    ensures host_out_of_memory { result ≡ status.host_out_of_memory → IsSome heaps.old.value }
    ensures no_handle { (result ≡ status.no_handle) ↔ (heaps.old.value ≡ None) }
    ensures statuses { IsOneOf result (status.ok ∷ status.no_handle ∷ status.host_out_of_memory
        ∷ []) }
    ensures same { heaps.new.value ≡ heaps.old.value }
    ensures refused { result ≢ status.ok → (text.new ≡ text.old) × (whole.new ≡ whole.old) }
{
    match heaps.take(alloc) {
        None => NO_HANDLE,
        Some(kept) => {
            let status = report(kept.memory_types(), alloc, text, whole);
            heaps.put(kept);
            status
        }
    }
}

/// The text of one live piece as a leak, by its number from 0 among all, by memory type, then by slot, then in order of offset: copies as
/// many bytes of it as there is room for, and reports how many it has, 0 past the last piece. It takes host memory for the text,
/// `HOST_OUT_OF_MEMORY`, but none past the last piece.
#[unsafe(no_mangle)]
pub extern "C" fn pilhangko_raw_metal_heaps_leak(
    heaps: &mut MetalHeapsHandle,
    alloc: Global,
    number: usize,
    text: &mut [u8],
    whole: &mut usize,
) -> u32
    ensures reported { result ≡ status.ok
        → IsSomeAnd heaps.old.value
        (λ s. ShowsLeak (slice_get (all_leaks s.requests.slots) number) text.old text.new whole.new) }
    ensures host_out_of_memory { result ≡ status.host_out_of_memory
        → IsSomeAnd heaps.old.value
        (λ s. IsSome (slice_get (all_leaks s.requests.slots) number)) }
    ensures no_handle { (result ≡ status.no_handle) ↔ (heaps.old.value ≡ None) }
    ensures statuses { IsOneOf result (status.ok ∷ status.no_handle ∷ status.host_out_of_memory
        ∷ []) }
    ensures same { heaps.new.value ≡ heaps.old.value }
    ensures refused { result ≢ status.ok → (text.new ≡ text.old) × (whole.new ≡ whole.old) }
{
    match heaps.take(alloc) {
        None => NO_HANDLE,
        Some(kept) => {
            let status = leak(kept.memory_types(), alloc, number, text, whole);
            heaps.put(kept);
            status
        }
    }
}
