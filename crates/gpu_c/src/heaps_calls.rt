//! An allocator of DirectX 12's memory for C: it calls no device, but asks its caller for heaps and committed resources, and is told the
//! answers. One question of each sort may be open: while one for a heap is, each call but the answers to it, those of committed resources
//! and those that only look returns `AWAITS_ANSWER`, and so it is with the calls of committed resources while one for such a resource is.
//! A handle begins zeroed; create fills it and destroy leaves it zeroed. Any status but `OK` leaves everything as it was.

ghost use Rattle.std.specs.Prelude.{◌≡◌, ◌≢◌, ◌≤◌, ◌↔◌, [], ◌∷◌, length, Some, None, Ok, IsSome, IsSomeAnd, IsTrue, IsUtf8};
ghost use Rattle.gpu_core.specs.Blocks.{total_capacity};
ghost use Rattle.gpu_core.specs.Budgets.{budget_at};
ghost use Rattle.gpu_d3d12.specs.MemoryKinds.{memory_kinds};
ghost use Rattle.gpu_pool.specs.Idle.{SetsBudgetIdle};
ghost use Rattle.gpu_c.specs.Handle.{Changes};
ghost use Rattle.gpu_c.specs.Status as status;
ghost use Rattle.gpu_c.specs.Status.{IsOneOf};
ghost use Rattle.gpu_c.specs.MemoryType.{number_if};
ghost use Rattle.gpu_c.specs.Allocator.{budget_told};
ghost use Rattle.gpu_c.specs.Heaps.{tier_named, IsFresh, AreNamed, IsAsked, IsBegun, IsDenied, IsGranted, IsDeclined, IsLive, IsFreed, IsRenamed, IsWorded, IsCommittedBegun, IsCommittedDenied, IsMade, IsNotMade, IsForgotten, HasNoRecord};
ghost use Rattle.gpu_c.specs.HeapsMoves.{IsOfPiece, IsProposed};
ghost use Rattle.gpu_c.specs.declared.status.TheConstants.{OK, OUT_OF_MEMORY, INVALID, INVALID_TIER, NOT_LIVE, HOST_OUT_OF_MEMORY, BUDGET_EXCEEDED, DRIVER_REFUSED, NO_SUCH_TYPE, NO_HANDLE, IN_USE, AWAITS_ANSWER, AWAITS_NO_ANSWER};

use crate::allocator_answer::budget_told;
use crate::allocator_values::AllocatorBudget;
use crate::heaps::{
    begin, begin_committed, forget_committed, free, fresh, granted, is_live, made, not_made,
    refused, rename, set_budget, set_word,
};
use crate::heaps_handle::HeapsHandle;
use crate::heaps_moves::propose_move;
use crate::heaps_request::tier_named;
use crate::heaps_values::{HeapsCommitted, HeapsPiece, HeapsProgress, HeapsRequest, HeapsSettings};
use crate::memory_type_values::MemoryBlock;
use crate::status::{HOST_OUT_OF_MEMORY, IN_USE, INVALID_TIER, NO_HANDLE, OK};
use std::alloc::Global;

/// Makes an allocator of a device of that resource heap tier, without blocks and committed resources, in an empty handle. `IN_USE` where
/// the handle isn't empty, else `INVALID_TIER` where the tier is 0, else `HOST_OUT_OF_MEMORY`.
#[unsafe(no_mangle)]
pub extern "C" fn pilhangko_raw_heaps_create(
    heaps: &mut HeapsHandle,
    alloc: Global,
    settings: &HeapsSettings,
) -> u32
    ensures created { result ≡ status.ok
        → (heaps.old.value ≡ None) × IsSomeAnd heaps.new.value (IsFresh settings.now) }
    ensures in_use { (result ≡ status.in_use) ↔ (heaps.old.value ≢ None) }
    ensures invalid_tier { (result ≡ status.invalid_tier)
        ↔ (heaps.old.value ≡ None) × (tier_named settings.now.heap_tier ≡ None) }
    ensures host_out_of_memory { result ≡ status.host_out_of_memory
        → (heaps.old.value ≡ None) × IsSome (tier_named settings.now.heap_tier) }
    ensures statuses { IsOneOf result (status.ok ∷ status.in_use ∷ status.invalid_tier
        ∷ status.host_out_of_memory ∷ []) }
    ensures refused { result ≢ status.ok → heaps.new.value ≡ heaps.old.value }
{
    if let Some(kept) = heaps.take(alloc) {
        heaps.put(kept);
        return IN_USE;
    }
    match tier_named(settings.heap_tier) {
        None => INVALID_TIER,
        Some(tier) => match fresh(alloc, tier, settings) {
            None => HOST_OUT_OF_MEMORY,
            Some(machine) => match Box::new(alloc, machine) {
                Err(_) => HOST_OUT_OF_MEMORY,
                Ok(boxed) => {
                    heaps.put(boxed);
                    OK
                }
            },
        },
    }
}

/// Begins a request, and reports the piece that is allocated, or the heap that the device is to be asked for: then all host memory for its
/// answer is at hand. `AWAITS_ANSWER` where a question for a heap is open, else `INVALID` where the request is none that is served, else what
/// the machine refuses: `HOST_OUT_OF_MEMORY`, and where a heap is needed `OUT_OF_MEMORY`, else `BUDGET_EXCEEDED`.
#[unsafe(no_mangle)]
pub extern "C" fn pilhangko_raw_heaps_begin(
    heaps: &mut HeapsHandle,
    alloc: Global,
    request: &HeapsRequest,
    name: &[u8],
    progress: &mut HeapsProgress,
) -> u32
    ensures begun { result ≡ status.ok → Changes heaps.old.value heaps.new.value
        (λ old new. IsBegun old request.now name.now progress.new new) }
    ensures no_handle { (result ≡ status.no_handle) ↔ (heaps.old.value ≡ None) }
    ensures awaits_answer { (result ≡ status.awaits_answer)
        ↔ IsSomeAnd heaps.old.value (λ s. IsSome s.requests.awaited) }
    ensures invalid { (result ≡ status.invalid)
        ↔ IsSomeAnd heaps.old.value
        (λ s. (s.requests.awaited ≡ None) × (IsAsked request.now name.now → ⊥)) }
    ensures denied { result ≢ status.ok → result ≢ status.no_handle → result ≢ status.awaits_answer
        → result ≢ status.invalid → IsSomeAnd heaps.old.value
        (λ s. IsDenied s request.now name.now result) }
    ensures statuses { IsOneOf result (status.ok ∷ status.no_handle ∷ status.awaits_answer
        ∷ status.invalid ∷ status.out_of_memory ∷ status.host_out_of_memory
        ∷ status.budget_exceeded ∷ []) }
    ensures refused { result ≢ status.ok
        → (heaps.new.value ≡ heaps.old.value) × (progress.new ≡ progress.old) }
{
    match heaps.take(alloc) {
        None => NO_HANDLE,
        Some(mut kept) => {
            let status = begin(&mut kept, request, name, progress);
            heaps.put(kept);
            status
        }
    }
}

/// The device made the heap that was asked for: reports the piece in it. It takes no host memory. `AWAITS_NO_ANSWER` where no question for a
/// heap is open.
#[unsafe(no_mangle)]
pub extern "C" fn pilhangko_raw_heaps_granted(
    heaps: &mut HeapsHandle,
    alloc: Global,
    heap: u64,
    piece: &mut HeapsPiece,
) -> u32
    ensures granted { result ≡ status.ok → Changes heaps.old.value heaps.new.value
        (λ old new. IsGranted old heap piece.new new) }
    ensures no_handle { (result ≡ status.no_handle) ↔ (heaps.old.value ≡ None) }
    ensures awaits_no_answer { (result ≡ status.awaits_no_answer)
        ↔ IsSomeAnd heaps.old.value (λ s. s.requests.awaited ≡ None) }
    ensures statuses { IsOneOf result (status.ok ∷ status.no_handle ∷ status.awaits_no_answer
        ∷ []) }
    ensures refused { result ≢ status.ok
        → (heaps.new.value ≡ heaps.old.value) × (piece.new ≡ piece.old) }
{
    match heaps.take(alloc) {
        None => NO_HANDLE,
        Some(mut kept) => {
            let status = granted(&mut kept, heap, piece);
            heaps.put(kept);
            status
        }
    }
}

/// The device made no heap, with this code, or with `S_OK`, 0, and gave null: reports why the request is refused, which then is over.
/// `AWAITS_NO_ANSWER` where no question for a heap is open.
#[unsafe(no_mangle)]
pub extern "C" fn pilhangko_raw_heaps_refused(
    heaps: &mut HeapsHandle,
    alloc: Global,
    code: i32,
    progress: &mut HeapsProgress,
) -> u32
    ensures declined { result ≡ status.ok → Changes heaps.old.value heaps.new.value
        (λ old new. IsDeclined old code progress.new new) }
    ensures no_handle { (result ≡ status.no_handle) ↔ (heaps.old.value ≡ None) }
    ensures awaits_no_answer { (result ≡ status.awaits_no_answer)
        ↔ IsSomeAnd heaps.old.value (λ s. s.requests.awaited ≡ None) }
    ensures statuses { IsOneOf result (status.ok ∷ status.no_handle ∷ status.awaits_no_answer
        ∷ []) }
    ensures refused { result ≢ status.ok
        → (heaps.new.value ≡ heaps.old.value) × (progress.new ≡ progress.old) }
{
    match heaps.take(alloc) {
        None => NO_HANDLE,
        Some(mut kept) => {
            let status = refused(&mut kept, code, progress);
            heaps.put(kept);
            status
        }
    }
}

/// Frees a live piece, and reports the heap that goes back to the device, if one does. It takes no host memory. `AWAITS_ANSWER` where a
/// question for a heap is open, else `NOT_LIVE`.
#[unsafe(no_mangle)]
pub extern "C" fn pilhangko_raw_heaps_free(
    heaps: &mut HeapsHandle,
    alloc: Global,
    piece: &HeapsPiece,
    back: &mut MemoryBlock,
) -> u32
    ensures freed { result ≡ status.ok → Changes heaps.old.value heaps.new.value
        (λ old new. IsFreed old piece.now back.new new) }
    ensures no_handle { (result ≡ status.no_handle) ↔ (heaps.old.value ≡ None) }
    ensures awaits_answer { (result ≡ status.awaits_answer)
        ↔ IsSomeAnd heaps.old.value (λ s. IsSome s.requests.awaited) }
    ensures not_live { (result ≡ status.not_live)
        ↔ IsSomeAnd heaps.old.value (λ s. (s.requests.awaited ≡ None) × (IsLive s piece.now → ⊥)) }
    ensures statuses { IsOneOf result (status.ok ∷ status.no_handle ∷ status.awaits_answer
        ∷ status.not_live ∷ []) }
    ensures refused { result ≢ status.ok
        → (heaps.new.value ≡ heaps.old.value) × (back.new ≡ back.old) }
{
    match heaps.take(alloc) {
        None => NO_HANDLE,
        Some(mut kept) => {
            let status = free(&mut kept, piece, back);
            heaps.put(kept);
            status
        }
    }
}

/// Looks for a second place for a live piece: the place that this request would get as a new piece now, if that lies in a block of a higher
/// slot. Reports whether there is one, and the piece there; then both are live until one is freed: the first once its bytes stand at the
/// second, or the second, which abandons the move. No heap is asked for. `AWAITS_ANSWER` where a question
/// is open, else `INVALID` where the request is none that is served or not of the piece's size, else
/// `NOT_LIVE`, else `HOST_OUT_OF_MEMORY`.
#[unsafe(no_mangle)]
pub extern "C" fn pilhangko_raw_heaps_propose_move(
    heaps: &mut HeapsHandle,
    alloc: Global,
    piece: &HeapsPiece,
    request: &HeapsRequest,
    name: &[u8],
    moves: &mut bool,
    to: &mut HeapsPiece,
) -> u32
    ensures proposed { result ≡ status.ok → Changes heaps.old.value heaps.new.value
        (λ old new. IsProposed old piece.now request.now name.now moves.new to.new new) }
    ensures no_handle { (result ≡ status.no_handle) ↔ (heaps.old.value ≡ None) }
    ensures awaits_answer { (result ≡ status.awaits_answer)
        ↔ IsSomeAnd heaps.old.value (λ s. IsSome s.requests.awaited) }
    ensures invalid { (result ≡ status.invalid) ↔ IsSomeAnd heaps.old.value
        (λ s. (s.requests.awaited ≡ None) × (IsOfPiece piece.now request.now name.now → ⊥)) }
    ensures not_live { (result ≡ status.not_live) ↔ IsSomeAnd heaps.old.value
        (λ s. (s.requests.awaited ≡ None) × IsOfPiece piece.now request.now name.now
        × (IsLive s piece.now → ⊥)) }
    ensures host_out_of_memory { result ≡ status.host_out_of_memory → IsSomeAnd heaps.old.value
        (λ s. (s.requests.awaited ≡ None) × IsOfPiece piece.now request.now name.now
        × IsLive s piece.now) }
    ensures statuses { IsOneOf result (status.ok ∷ status.no_handle ∷ status.awaits_answer
        ∷ status.invalid ∷ status.not_live ∷ status.host_out_of_memory ∷ []) }
    ensures refused { result ≢ status.ok → (heaps.new.value ≡ heaps.old.value)
        × (moves.new ≡ moves.old) × (to.new ≡ to.old) }
{
    match heaps.take(alloc) {
        None => NO_HANDLE,
        Some(mut kept) => {
            let status = propose_move(&mut kept, piece, request, name, moves, to);
            heaps.put(kept);
            status
        }
    }
}

/// Renames a live piece. `AWAITS_ANSWER` where a question for a heap is open, else `INVALID` where the name isn't UTF-8, else `NOT_LIVE`, else
/// `HOST_OUT_OF_MEMORY`.
#[unsafe(no_mangle)]
pub extern "C" fn pilhangko_raw_heaps_rename(
    heaps: &mut HeapsHandle,
    alloc: Global,
    piece: &HeapsPiece,
    name: &[u8],
) -> u32
    ensures renamed { result ≡ status.ok
        → IsUtf8 name.now × Changes heaps.old.value heaps.new.value
        (λ old new. IsRenamed old piece.now name.now new) }
    ensures no_handle { (result ≡ status.no_handle) ↔ (heaps.old.value ≡ None) }
    ensures awaits_answer { (result ≡ status.awaits_answer)
        ↔ IsSomeAnd heaps.old.value (λ s. IsSome s.requests.awaited) }
    ensures invalid { (result ≡ status.invalid)
        ↔ IsSomeAnd heaps.old.value (λ s. (s.requests.awaited ≡ None) × (IsUtf8 name.now → ⊥)) }
    ensures not_live { (result ≡ status.not_live) ↔ IsSomeAnd heaps.old.value
        (λ s. (s.requests.awaited ≡ None) × IsUtf8 name.now × (IsLive s piece.now → ⊥)) }
    ensures host_out_of_memory { result ≡ status.host_out_of_memory → IsSomeAnd heaps.old.value
        (λ s. (s.requests.awaited ≡ None) × IsUtf8 name.now × IsLive s piece.now) }
    ensures statuses { IsOneOf result (status.ok ∷ status.no_handle ∷ status.awaits_answer
        ∷ status.invalid ∷ status.not_live ∷ status.host_out_of_memory ∷ []) }
    ensures refused { result ≢ status.ok → heaps.new.value ≡ heaps.old.value }
{
    match heaps.take(alloc) {
        None => NO_HANDLE,
        Some(mut kept) => {
            let status = rename(&mut kept, piece, name);
            heaps.put(kept);
            status
        }
    }
}

/// Keeps another word of the caller's with a live piece, the address of an object, say, which visits show; a new piece has the word 0.
/// `AWAITS_ANSWER` where a question is open, else `NOT_LIVE`.
#[unsafe(no_mangle)]
pub extern "C" fn pilhangko_raw_heaps_set_word(
    heaps: &mut HeapsHandle,
    alloc: Global,
    piece: &HeapsPiece,
    word: u64,
) -> u32
    ensures set { result ≡ status.ok → Changes heaps.old.value heaps.new.value
        (λ old new. IsWorded old piece.now word new) }
    ensures no_handle { (result ≡ status.no_handle) ↔ (heaps.old.value ≡ None) }
    ensures awaits_answer { (result ≡ status.awaits_answer)
        ↔ IsSomeAnd heaps.old.value (λ s. IsSome s.requests.awaited) }
    ensures not_live { (result ≡ status.not_live) ↔ IsSomeAnd heaps.old.value
        (λ s. (s.requests.awaited ≡ None) × (IsLive s piece.now → ⊥)) }
    ensures statuses { IsOneOf result (status.ok ∷ status.no_handle ∷ status.awaits_answer ∷ status.not_live ∷ []) }
    ensures refused { result ≢ status.ok → heaps.new.value ≡ heaps.old.value }
{
    match heaps.take(alloc) {
        None => NO_HANDLE,
        Some(mut kept) => {
            let status = set_word(&mut kept, piece, word);
            heaps.put(kept);
            status
        }
    }
}

/// Whether a piece is live.
#[unsafe(no_mangle)]
pub extern "C" fn pilhangko_raw_heaps_is_live(
    heaps: &mut HeapsHandle,
    alloc: Global,
    piece: &HeapsPiece,
    answer: &mut bool,
) -> u32
    ensures reported { result ≡ status.ok
        → IsSomeAnd heaps.old.value (λ s. IsTrue answer.new ↔ IsLive s piece.now) }
    ensures no_handle { (result ≡ status.no_handle) ↔ (heaps.old.value ≡ None) }
    ensures statuses { IsOneOf result (status.ok ∷ status.no_handle ∷ []) }
    ensures same { heaps.new.value ≡ heaps.old.value }
    ensures refused { result ≢ status.ok → answer.new ≡ answer.old }
{
    match heaps.take(alloc) {
        None => NO_HANDLE,
        Some(kept) => {
            *answer = is_live(&kept, piece);
            heaps.put(kept);
            OK
        }
    }
}

/// Makes room for the record of a committed resource of this size, as the device tells it: the device is to be asked for it then.
/// `AWAITS_ANSWER` where one is asked for, else `INVALID` where location or category are unknown, else `OUT_OF_MEMORY` where the sum of its
/// memory type's sizes would pass 2^64 - 1, else `HOST_OUT_OF_MEMORY`.
#[unsafe(no_mangle)]
pub extern "C" fn pilhangko_raw_heaps_begin_committed(
    heaps: &mut HeapsHandle,
    alloc: Global,
    size: u64,
    location: u32,
    category: u32,
) -> u32
    ensures begun { result ≡ status.ok → Changes heaps.old.value heaps.new.value
        (λ old new. IsCommittedBegun old size location category new) }
    ensures no_handle { (result ≡ status.no_handle) ↔ (heaps.old.value ≡ None) }
    ensures awaits_answer { (result ≡ status.awaits_answer)
        ↔ IsSomeAnd heaps.old.value (λ s. IsSome s.committed.awaited) }
    ensures invalid { (result ≡ status.invalid)
        ↔ IsSomeAnd heaps.old.value
        (λ s. (s.committed.awaited ≡ None) × (AreNamed location category → ⊥)) }
    ensures denied { result ≢ status.ok → result ≢ status.no_handle → result ≢ status.awaits_answer
        → result ≢ status.invalid → IsSomeAnd heaps.old.value
        (λ s. IsCommittedDenied s size location category result) }
    ensures statuses { IsOneOf result (status.ok ∷ status.no_handle ∷ status.awaits_answer
        ∷ status.invalid ∷ status.out_of_memory ∷ status.host_out_of_memory ∷ []) }
    ensures refused { result ≢ status.ok → heaps.new.value ≡ heaps.old.value }
{
    match heaps.take(alloc) {
        None => NO_HANDLE,
        Some(mut kept) => {
            let status = begin_committed(&mut kept, size, location, category);
            heaps.put(kept);
            status
        }
    }
}

/// The device made the committed resource that was asked for: reports what is recorded of it. It takes no host memory. `AWAITS_NO_ANSWER`
/// where none is asked for.
#[unsafe(no_mangle)]
pub extern "C" fn pilhangko_raw_heaps_made(
    heaps: &mut HeapsHandle,
    alloc: Global,
    resource: u64,
    committed: &mut HeapsCommitted,
) -> u32
    ensures made { result ≡ status.ok → Changes heaps.old.value heaps.new.value
        (λ old new. IsMade old resource committed.new new) }
    ensures no_handle { (result ≡ status.no_handle) ↔ (heaps.old.value ≡ None) }
    ensures awaits_no_answer { (result ≡ status.awaits_no_answer)
        ↔ IsSomeAnd heaps.old.value (λ s. s.committed.awaited ≡ None) }
    ensures statuses { IsOneOf result (status.ok ∷ status.no_handle ∷ status.awaits_no_answer
        ∷ []) }
    ensures refused { result ≢ status.ok
        → (heaps.new.value ≡ heaps.old.value) × (committed.new ≡ committed.old) }
{
    match heaps.take(alloc) {
        None => NO_HANDLE,
        Some(mut kept) => {
            let status = made(&mut kept, resource, committed);
            heaps.put(kept);
            status
        }
    }
}

/// The device made no committed resource: nothing is left of the request. `AWAITS_NO_ANSWER` where none is asked for.
#[unsafe(no_mangle)]
pub extern "C" fn pilhangko_raw_heaps_not_made(heaps: &mut HeapsHandle, alloc: Global) -> u32
    ensures not_made { result ≡ status.ok → Changes heaps.old.value heaps.new.value
        (λ old new. IsNotMade old new) }
    ensures no_handle { (result ≡ status.no_handle) ↔ (heaps.old.value ≡ None) }
    ensures awaits_no_answer { (result ≡ status.awaits_no_answer)
        ↔ IsSomeAnd heaps.old.value (λ s. s.committed.awaited ≡ None) }
    ensures statuses { IsOneOf result (status.ok ∷ status.no_handle ∷ status.awaits_no_answer
        ∷ []) }
    ensures refused { result ≢ status.ok → heaps.new.value ≡ heaps.old.value }
{
    match heaps.take(alloc) {
        None => NO_HANDLE,
        Some(mut kept) => {
            let status = not_made(&mut kept);
            heaps.put(kept);
            status
        }
    }
}

/// Forgets a committed resource, which its owner releases. It takes no host memory. `AWAITS_ANSWER` where one is asked for, else `NOT_LIVE`
/// where no record is of this memory type, number and size.
#[unsafe(no_mangle)]
pub extern "C" fn pilhangko_raw_heaps_forget_committed(
    heaps: &mut HeapsHandle,
    alloc: Global,
    committed: &HeapsCommitted,
) -> u32
    ensures forgotten { result ≡ status.ok → Changes heaps.old.value heaps.new.value
        (λ old new. IsForgotten old committed.now new) }
    ensures no_handle { (result ≡ status.no_handle) ↔ (heaps.old.value ≡ None) }
    ensures awaits_answer { (result ≡ status.awaits_answer)
        ↔ IsSomeAnd heaps.old.value (λ s. IsSome s.committed.awaited) }
    ensures not_live { (result ≡ status.not_live)
        ↔ IsSomeAnd heaps.old.value (λ s. (s.committed.awaited ≡ None) × HasNoRecord s committed.now) }
    ensures statuses { IsOneOf result (status.ok ∷ status.no_handle ∷ status.awaits_answer
        ∷ status.not_live ∷ []) }
    ensures refused { result ≢ status.ok → heaps.new.value ≡ heaps.old.value }
{
    match heaps.take(alloc) {
        None => NO_HANDLE,
        Some(mut kept) => {
            let status = forget_committed(&mut kept, committed);
            heaps.put(kept);
            status
        }
    }
}

/// Bounds the sum of the sizes of a memory type's blocks, in bytes, or takes the bound away. A bound below the present sum gives no block back.
/// `AWAITS_ANSWER` where a question for a heap is open, else `NO_SUCH_TYPE`.
#[unsafe(no_mangle)]
pub extern "C" fn pilhangko_raw_heaps_set_budget(
    heaps: &mut HeapsHandle,
    alloc: Global,
    memory_type: usize,
    has_budget: bool,
    bytes: u64,
) -> u32
    ensures bounded { result ≡ status.ok → Changes heaps.old.value heaps.new.value
        (λ old new. (old.requests.awaited ≡ None)
        × SetsBudgetIdle old.requests memory_type (number_if has_budget bytes) (Ok tt) new.requests
        × (new ≡ record old { requests = new.requests })) }
    ensures no_handle { (result ≡ status.no_handle) ↔ (heaps.old.value ≡ None) }
    ensures awaits_answer { (result ≡ status.awaits_answer)
        ↔ IsSomeAnd heaps.old.value (λ s. IsSome s.requests.awaited) }
    ensures no_such_type { (result ≡ status.no_such_type)
        ↔ IsSomeAnd heaps.old.value
        (λ s. (s.requests.awaited ≡ None) × (length s.requests.budgets ≤ memory_type)) }
    ensures statuses { IsOneOf result (status.ok ∷ status.no_handle ∷ status.awaits_answer
        ∷ status.no_such_type ∷ []) }
    ensures refused { result ≢ status.ok → heaps.new.value ≡ heaps.old.value }
{
    match heaps.take(alloc) {
        None => NO_HANDLE,
        Some(mut kept) => {
            let status = set_budget(&mut kept, memory_type, has_budget, bytes);
            heaps.put(kept);
            status
        }
    }
}

/// The budget of a memory type; none where it has none, or isn't there.
#[unsafe(no_mangle)]
pub extern "C" fn pilhangko_raw_heaps_budget(
    heaps: &mut HeapsHandle,
    alloc: Global,
    memory_type: usize,
    budget: &mut AllocatorBudget,
) -> u32
    ensures reported { result ≡ status.ok
        → IsSomeAnd heaps.old.value
        (λ s. budget.new ≡ budget_told (budget_at s.requests.budgets memory_type)) }
    ensures no_handle { (result ≡ status.no_handle) ↔ (heaps.old.value ≡ None) }
    ensures statuses { IsOneOf result (status.ok ∷ status.no_handle ∷ []) }
    ensures same { heaps.new.value ≡ heaps.old.value }
    ensures refused { result ≢ status.ok → budget.new ≡ budget.old }
{
    match heaps.take(alloc) {
        None => NO_HANDLE,
        Some(kept) => {
            *budget = budget_told(kept.budget(memory_type));
            heaps.put(kept);
            OK
        }
    }
}

/// The sum of the sizes of the live blocks, in bytes. A block that is awaited isn't one, and a committed resource isn't either.
#[unsafe(no_mangle)]
pub extern "C" fn pilhangko_raw_heaps_capacity(
    heaps: &mut HeapsHandle,
    alloc: Global,
    bytes: &mut u64,
) -> u32
    ensures reported { result ≡ status.ok
        → IsSomeAnd heaps.old.value (λ s. bytes.new ≡ total_capacity s.requests.slots) }
    ensures no_handle { (result ≡ status.no_handle) ↔ (heaps.old.value ≡ None) }
    ensures statuses { IsOneOf result (status.ok ∷ status.no_handle ∷ []) }
    ensures same { heaps.new.value ≡ heaps.old.value }
    ensures refused { result ≢ status.ok → bytes.new ≡ bytes.old }
{
    match heaps.take(alloc) {
        None => NO_HANDLE,
        Some(kept) => {
            *bytes = kept.capacity();
            heaps.put(kept);
            OK
        }
    }
}

/// Ends an allocator, with the pieces that are still live, the records and the questions that are open, and leaves the handle zeroed. Heaps
/// and committed resources are the caller's to release.
#[unsafe(no_mangle)]
pub extern "C" fn pilhangko_raw_heaps_destroy(heaps: &mut HeapsHandle, alloc: Global) -> u32
    ensures gone { heaps.new.value ≡ None }
    ensures no_handle { (result ≡ status.no_handle) ↔ (heaps.old.value ≡ None) }
    ensures statuses { IsOneOf result (status.ok ∷ status.no_handle ∷ []) }
{
    match heaps.take(alloc) {
        None => NO_HANDLE,
        Some(_) => OK,
    }
}
