//! An allocator of Vulkan's memory for C: it calls no driver, but asks its caller for memory, and is told the answer. While a question is
//! open, each call but the answers to it and those that only look returns `AWAITS_ANSWER`. A handle begins zeroed; create fills it and
//! destroy leaves it zeroed. Any status but `OK` leaves everything as it was.

ghost use Rattle.std.specs.Prelude.{◌≡◌, ◌≢◌, ◌≤◌, ◌↔◌, [], ◌∷◌, length, Some, None, Ok, IsSome, IsSomeAnd, IsTrue, IsUtf8};
ghost use Rattle.std.specs.Option.{is_some, unwrap_or};
ghost use Rattle.gpu_core.specs.Blocks.{total_capacity};
ghost use Rattle.gpu_core.specs.Budgets.{budget_at};
ghost use Rattle.gpu_vulkan.specs.BlockAnswer.{memory_refusal, map_refusal};
ghost use Rattle.gpu_pool.specs.Idle.{SetsBudgetIdle};
ghost use Rattle.gpu_machine.specs.VulkanBound.{bound_at};
ghost use Rattle.gpu_machine.specs.VulkanCalls.{SetsHeapLimit, SetsMostBlocks, SetsSmallerBlocks};
ghost use Rattle.gpu_machine.specs.VulkanHeapLimit.{limit_at};
ghost use Rattle.gpu_machine.specs.VulkanState.{told_fault};
ghost use Rattle.gpu_c.specs.Handle.{Changes};
ghost use Rattle.gpu_c.specs.Status as status;
ghost use Rattle.gpu_c.specs.Status.{IsOneOf};
ghost use Rattle.gpu_c.specs.MemoryType.{number_if};
ghost use Rattle.gpu_c.specs.Allocator.{device_told, device_status, IsFresh, SaysNothing, IsBegun, IsDenied, IsGranted, IsDeclined, code_if, IsLive, IsFreed, IsRenamed, IsWorded, budget_told};
ghost use Rattle.gpu_c.specs.AllocatorFlags.{IsBegunByFlags, IsDeniedByFlags};
ghost use Rattle.gpu_c.specs.AllocatorLimits.{count_if};
ghost use Rattle.gpu_c.specs.AllocatorMoves.{IsOfPiece, IsProposed};
ghost use Rattle.gpu_c.specs.declared.status.TheConstants.{OK, OUT_OF_MEMORY, FAILED_TO_MAP, NO_MEMORY_TYPE, INVALID, INVALID_DEVICE, NOT_LIVE, HOST_OUT_OF_MEMORY, BUDGET_EXCEEDED, DRIVER_REFUSED, NO_SUCH_TYPE, TOO_MANY_TYPES, NO_SUCH_HEAP, NO_HANDLE, IN_USE, AWAITS_ANSWER, AWAITS_NO_ANSWER};

use crate::allocator::{
    begin, free, fresh, granted, is_live, mapping_refused, refused, rename, set_budget, set_word,
};
use crate::allocator_answer::budget_told;
use crate::allocator_flags::begin_by_flags;
use crate::allocator_handle::AllocatorHandle;
use crate::allocator_limits::{set_heap_limit, set_most_blocks, set_smaller_blocks};
use crate::allocator_moves::propose_move;
use crate::allocator_request::device_status;
use crate::allocator_values::{
    AllocatorBudget, AllocatorMemory, AllocatorPiece, AllocatorPreference, AllocatorProgress,
    AllocatorRequest, AllocatorSettings, DeviceHeap, DeviceMemoryType,
};
use crate::status::{HOST_OUT_OF_MEMORY, IN_USE, NO_HANDLE, OK};
use std::alloc::Global;

/// Makes an allocator without blocks in an empty handle, over a device that has these memory types and heaps. `IN_USE` where the handle isn't
/// empty, else `INVALID_DEVICE` where the page size is no power of two, else `TOO_MANY_TYPES` where there are more than 32 memory types, else
/// `NO_SUCH_HEAP` where one lies in a heap that isn't there, else `HOST_OUT_OF_MEMORY`.
#[unsafe(no_mangle)]
pub extern "C" fn pilhangko_raw_allocator_create(
    allocator: &mut AllocatorHandle,
    alloc: Global,
    types: &[DeviceMemoryType],
    heaps: &[DeviceHeap],
    settings: &AllocatorSettings,
) -> u32
    ensures created { result ≡ status.ok
        → (allocator.old.value ≡ None) × (told_fault (device_told types.now heaps.now settings.now)
        ≡ None) × IsSomeAnd allocator.new.value (IsFresh types.now heaps.now settings.now) }
    ensures in_use { (result ≡ status.in_use) ↔ (allocator.old.value ≢ None) }
    ensures invalid_device { (result ≡ status.invalid_device) ↔ (allocator.old.value ≡ None)
        × (device_status (device_told types.now heaps.now settings.now) ≡ status.invalid_device) }
    ensures too_many_types { (result ≡ status.too_many_types) ↔ (allocator.old.value ≡ None)
        × (device_status (device_told types.now heaps.now settings.now) ≡ status.too_many_types) }
    ensures no_such_heap { (result ≡ status.no_such_heap) ↔ (allocator.old.value ≡ None)
        × (device_status (device_told types.now heaps.now settings.now) ≡ status.no_such_heap) }
    ensures host_out_of_memory { result ≡ status.host_out_of_memory → (allocator.old.value ≡ None)
        × (told_fault (device_told types.now heaps.now settings.now) ≡ None) }
    ensures statuses { IsOneOf result (status.ok ∷ status.in_use ∷ status.invalid_device
        ∷ status.too_many_types ∷ status.no_such_heap ∷ status.host_out_of_memory ∷ []) }
    ensures refused { result ≢ status.ok → allocator.new.value ≡ allocator.old.value }
{
    if let Some(kept) = allocator.take(alloc) {
        allocator.put(kept);
        return IN_USE;
    }
    let status = device_status(types, heaps, settings);
    if status != OK {
        return status;
    }
    match fresh(alloc, types, heaps, settings) {
        None => HOST_OUT_OF_MEMORY,
        Some(machine) => match Box::new(alloc, machine) {
            Err(_) => HOST_OUT_OF_MEMORY,
            Ok(made) => {
                allocator.put(made);
                OK
            }
        },
    }
}

/// Begins a request, and reports the piece that is allocated, or the question that the driver is to be asked: then all host memory for its
/// answer is at hand. `AWAITS_ANSWER` where a question is open, else `INVALID` where the request is none that is served, else what the machine refuses:
/// `NO_MEMORY_TYPE`, and for the second attempt of an upload or else the first one `OUT_OF_MEMORY`, `HOST_OUT_OF_MEMORY`, `BUDGET_EXCEEDED`.
#[unsafe(no_mangle)]
pub extern "C" fn pilhangko_raw_allocator_begin(
    allocator: &mut AllocatorHandle,
    alloc: Global,
    request: &AllocatorRequest,
    name: &[u8],
    progress: &mut AllocatorProgress,
) -> u32
    ensures begun { result ≡ status.ok → Changes allocator.old.value allocator.new.value
        (λ old new. IsBegun old request.now name.now progress.new new) }
    ensures no_handle { (result ≡ status.no_handle) ↔ (allocator.old.value ≡ None) }
    ensures awaits_answer { (result ≡ status.awaits_answer)
        ↔ IsSomeAnd allocator.old.value (λ s. IsSome s.requests.awaited) }
    ensures invalid { (result ≡ status.invalid)
        ↔ IsSomeAnd allocator.old.value
        (λ s. (s.requests.awaited ≡ None) × SaysNothing request.now name.now) }
    ensures denied { result ≢ status.ok → result ≢ status.no_handle → result ≢ status.awaits_answer
        → result ≢ status.invalid → IsSomeAnd allocator.old.value
        (λ s. IsDenied s request.now name.now result) }
    ensures statuses { IsOneOf result (status.ok ∷ status.no_handle ∷ status.awaits_answer
        ∷ status.invalid ∷ status.no_memory_type ∷ status.out_of_memory
        ∷ status.host_out_of_memory ∷ status.budget_exceeded ∷ []) }
    ensures refused { result ≢ status.ok
        → (allocator.new.value ≡ allocator.old.value) × (progress.new ≡ progress.old) }
{
    match allocator.take(alloc) {
        None => NO_HANDLE,
        Some(mut kept) => {
            let status = begin(&mut kept, request, name, progress);
            allocator.put(kept);
            status
        }
    }
}

/// Begins a request whose memory is chosen by flags, and not by its location, which isn't looked at: memory types that have all that is
/// required are tried from the cheapest on, while one has no room. Else as with `pilhangko_raw_allocator_begin`: `NO_MEMORY_TYPE` where none
/// serves, else why the last one that was tried was refused.
#[unsafe(no_mangle)]
pub extern "C" fn pilhangko_raw_allocator_begin_by_flags(
    allocator: &mut AllocatorHandle,
    alloc: Global,
    request: &AllocatorRequest,
    name: &[u8],
    preference: &AllocatorPreference,
    progress: &mut AllocatorProgress,
) -> u32
    ensures begun { result ≡ status.ok → Changes allocator.old.value allocator.new.value
        (λ old new. IsBegunByFlags old request.now name.now preference.now progress.new new) }
    ensures no_handle { (result ≡ status.no_handle) ↔ (allocator.old.value ≡ None) }
    ensures awaits_answer { (result ≡ status.awaits_answer)
        ↔ IsSomeAnd allocator.old.value (λ s. IsSome s.requests.awaited) }
    ensures invalid { (result ≡ status.invalid)
        ↔ IsSomeAnd allocator.old.value
        (λ s. (s.requests.awaited ≡ None) × SaysNothing request.now name.now) }
    ensures denied { result ≢ status.ok → result ≢ status.no_handle → result ≢ status.awaits_answer
        → result ≢ status.invalid → IsSomeAnd allocator.old.value
        (λ s. IsDeniedByFlags s request.now name.now preference.now result) }
    ensures statuses { IsOneOf result (status.ok ∷ status.no_handle ∷ status.awaits_answer
        ∷ status.invalid ∷ status.no_memory_type ∷ status.out_of_memory
        ∷ status.host_out_of_memory ∷ status.budget_exceeded ∷ []) }
    ensures refused { result ≢ status.ok
        → (allocator.new.value ≡ allocator.old.value) × (progress.new ≡ progress.old) }
{
    match allocator.take(alloc) {
        None => NO_HANDLE,
        Some(mut kept) => {
            let status = begin_by_flags(&mut kept, request, name, preference, progress);
            allocator.put(kept);
            status
        }
    }
}

/// The driver granted the memory that was asked for, and mapped it at that address where it was to be mapped, 0 where it wasn't: reports the
/// piece in it. It takes no host memory. `AWAITS_NO_ANSWER` where no question is open.
#[unsafe(no_mangle)]
pub extern "C" fn pilhangko_raw_allocator_granted(
    allocator: &mut AllocatorHandle,
    alloc: Global,
    memory: u64,
    address: u64,
    piece: &mut AllocatorPiece,
) -> u32
    ensures granted { result ≡ status.ok
        → Changes allocator.old.value allocator.new.value
        (λ old new. IsGranted old memory address piece.new new) }
    ensures no_handle { (result ≡ status.no_handle) ↔ (allocator.old.value ≡ None) }
    ensures awaits_no_answer { (result ≡ status.awaits_no_answer)
        ↔ IsSomeAnd allocator.old.value (λ s. s.requests.awaited ≡ None) }
    ensures statuses { IsOneOf result (status.ok ∷ status.no_handle ∷ status.awaits_no_answer
        ∷ []) }
    ensures refused { result ≢ status.ok
        → (allocator.new.value ≡ allocator.old.value) × (piece.new ≡ piece.old) }
{
    match allocator.take(alloc) {
        None => NO_HANDLE,
        Some(mut kept) => {
            let status = granted(&mut kept, memory, address, piece);
            allocator.put(kept);
            status
        }
    }
}

/// The driver refused the memory that was asked for, with this code. Where the request has a second attempt, reports what that leads to; else
/// why the request is refused, which then is over. `AWAITS_NO_ANSWER` where no question is open.
#[unsafe(no_mangle)]
pub extern "C" fn pilhangko_raw_allocator_refused(
    allocator: &mut AllocatorHandle,
    alloc: Global,
    code: i32,
    progress: &mut AllocatorProgress,
) -> u32
    ensures declined { result ≡ status.ok → Changes allocator.old.value allocator.new.value
        (λ old new. IsDeclined old (memory_refusal code) progress.new new) }
    ensures no_handle { (result ≡ status.no_handle) ↔ (allocator.old.value ≡ None) }
    ensures awaits_no_answer { (result ≡ status.awaits_no_answer)
        ↔ IsSomeAnd allocator.old.value (λ s. s.requests.awaited ≡ None) }
    ensures statuses { IsOneOf result (status.ok ∷ status.no_handle ∷ status.awaits_no_answer
        ∷ []) }
    ensures refused { result ≢ status.ok
        → (allocator.new.value ≡ allocator.old.value) × (progress.new ≡ progress.old) }
{
    match allocator.take(alloc) {
        None => NO_HANDLE,
        Some(mut kept) => {
            let status = refused(&mut kept, code, progress);
            allocator.put(kept);
            status
        }
    }
}

/// The driver granted the memory, but refused to map it, with a code, or by a null pointer where there is none; the memory has gone back.
/// Then as with refused.
#[unsafe(no_mangle)]
pub extern "C" fn pilhangko_raw_allocator_mapping_refused(
    allocator: &mut AllocatorHandle,
    alloc: Global,
    has_code: bool,
    code: i32,
    progress: &mut AllocatorProgress,
) -> u32
    ensures declined { result ≡ status.ok → Changes allocator.old.value allocator.new.value
        (λ old new. IsDeclined old (map_refusal (code_if has_code code)) progress.new new) }
    ensures no_handle { (result ≡ status.no_handle) ↔ (allocator.old.value ≡ None) }
    ensures awaits_no_answer { (result ≡ status.awaits_no_answer)
        ↔ IsSomeAnd allocator.old.value (λ s. s.requests.awaited ≡ None) }
    ensures statuses { IsOneOf result (status.ok ∷ status.no_handle ∷ status.awaits_no_answer
        ∷ []) }
    ensures refused { result ≢ status.ok
        → (allocator.new.value ≡ allocator.old.value) × (progress.new ≡ progress.old) }
{
    match allocator.take(alloc) {
        None => NO_HANDLE,
        Some(mut kept) => {
            let status = mapping_refused(&mut kept, has_code, code, progress);
            allocator.put(kept);
            status
        }
    }
}

/// Frees a live piece, and reports the memory that goes back to the driver, if some does. It takes no host memory. `AWAITS_ANSWER` where a
/// question is open, else `NOT_LIVE`.
#[unsafe(no_mangle)]
pub extern "C" fn pilhangko_raw_allocator_free(
    allocator: &mut AllocatorHandle,
    alloc: Global,
    piece: &AllocatorPiece,
    back: &mut AllocatorMemory,
) -> u32
    ensures freed { result ≡ status.ok → Changes allocator.old.value allocator.new.value
        (λ old new. IsFreed old piece.now back.new new) }
    ensures no_handle { (result ≡ status.no_handle) ↔ (allocator.old.value ≡ None) }
    ensures awaits_answer { (result ≡ status.awaits_answer)
        ↔ IsSomeAnd allocator.old.value (λ s. IsSome s.requests.awaited) }
    ensures not_live { (result ≡ status.not_live)
        ↔ IsSomeAnd allocator.old.value (λ s. (s.requests.awaited ≡ None) × (IsLive s piece.now → ⊥)) }
    ensures statuses { IsOneOf result (status.ok ∷ status.no_handle ∷ status.awaits_answer
        ∷ status.not_live ∷ []) }
    ensures refused { result ≢ status.ok
        → (allocator.new.value ≡ allocator.old.value) × (back.new ≡ back.old) }
{
    match allocator.take(alloc) {
        None => NO_HANDLE,
        Some(mut kept) => {
            let status = free(&mut kept, piece, back);
            allocator.put(kept);
            status
        }
    }
}

/// Looks for a second place for a live piece: the place that this request would get as a new piece now, if that lies in a block of a higher
/// slot. Reports whether there is one, and the piece there; then both are live until one is freed: the first once its bytes stand at the
/// second, or the second, which abandons the move. No memory is asked for. `AWAITS_ANSWER` where a question
/// is open, else `INVALID` where the request is none that is served, not of the piece's size, or for a buffer or an image alone, else
/// `NOT_LIVE`, else `HOST_OUT_OF_MEMORY`.
#[unsafe(no_mangle)]
pub extern "C" fn pilhangko_raw_allocator_propose_move(
    allocator: &mut AllocatorHandle,
    alloc: Global,
    piece: &AllocatorPiece,
    request: &AllocatorRequest,
    name: &[u8],
    moves: &mut bool,
    to: &mut AllocatorPiece,
) -> u32
    ensures proposed { result ≡ status.ok → Changes allocator.old.value allocator.new.value
        (λ old new. IsProposed old piece.now request.now name.now moves.new to.new new) }
    ensures no_handle { (result ≡ status.no_handle) ↔ (allocator.old.value ≡ None) }
    ensures awaits_answer { (result ≡ status.awaits_answer)
        ↔ IsSomeAnd allocator.old.value (λ s. IsSome s.requests.awaited) }
    ensures invalid { (result ≡ status.invalid) ↔ IsSomeAnd allocator.old.value
        (λ s. (s.requests.awaited ≡ None) × (IsOfPiece piece.now request.now name.now → ⊥)) }
    ensures not_live { (result ≡ status.not_live) ↔ IsSomeAnd allocator.old.value
        (λ s. (s.requests.awaited ≡ None) × IsOfPiece piece.now request.now name.now
        × (IsLive s piece.now → ⊥)) }
    ensures host_out_of_memory { result ≡ status.host_out_of_memory → IsSomeAnd allocator.old.value
        (λ s. (s.requests.awaited ≡ None) × IsOfPiece piece.now request.now name.now
        × IsLive s piece.now) }
    ensures statuses { IsOneOf result (status.ok ∷ status.no_handle ∷ status.awaits_answer
        ∷ status.invalid ∷ status.not_live ∷ status.host_out_of_memory ∷ []) }
    ensures refused { result ≢ status.ok → (allocator.new.value ≡ allocator.old.value)
        × (moves.new ≡ moves.old) × (to.new ≡ to.old) }
{
    match allocator.take(alloc) {
        None => NO_HANDLE,
        Some(mut kept) => {
            let status = propose_move(&mut kept, piece, request, name, moves, to);
            allocator.put(kept);
            status
        }
    }
}

/// Renames a live piece. `AWAITS_ANSWER` where a question is open, else `INVALID` where the name isn't UTF-8, else `NOT_LIVE`, else
/// `HOST_OUT_OF_MEMORY`.
#[unsafe(no_mangle)]
pub extern "C" fn pilhangko_raw_allocator_rename(
    allocator: &mut AllocatorHandle,
    alloc: Global,
    piece: &AllocatorPiece,
    name: &[u8],
) -> u32
    ensures renamed { result ≡ status.ok
        → IsUtf8 name.now × Changes allocator.old.value allocator.new.value
        (λ old new. IsRenamed old piece.now name.now new) }
    ensures no_handle { (result ≡ status.no_handle) ↔ (allocator.old.value ≡ None) }
    ensures awaits_answer { (result ≡ status.awaits_answer)
        ↔ IsSomeAnd allocator.old.value (λ s. IsSome s.requests.awaited) }
    ensures invalid { (result ≡ status.invalid)
        ↔ IsSomeAnd allocator.old.value (λ s. (s.requests.awaited ≡ None) × (IsUtf8 name.now → ⊥)) }
    ensures not_live { (result ≡ status.not_live) ↔ IsSomeAnd allocator.old.value
        (λ s. (s.requests.awaited ≡ None) × IsUtf8 name.now × (IsLive s piece.now → ⊥)) }
    ensures host_out_of_memory { result ≡ status.host_out_of_memory → IsSomeAnd allocator.old.value
        (λ s. (s.requests.awaited ≡ None) × IsUtf8 name.now × IsLive s piece.now) }
    ensures statuses { IsOneOf result (status.ok ∷ status.no_handle ∷ status.awaits_answer
        ∷ status.invalid ∷ status.not_live ∷ status.host_out_of_memory ∷ []) }
    ensures refused { result ≢ status.ok → allocator.new.value ≡ allocator.old.value }
{
    match allocator.take(alloc) {
        None => NO_HANDLE,
        Some(mut kept) => {
            let status = rename(&mut kept, piece, name);
            allocator.put(kept);
            status
        }
    }
}

/// Keeps another word of the caller's with a live piece, the address of an object, say, which visits show; a new piece has the word 0.
/// `AWAITS_ANSWER` where a question is open, else `NOT_LIVE`.
#[unsafe(no_mangle)]
pub extern "C" fn pilhangko_raw_allocator_set_word(
    allocator: &mut AllocatorHandle,
    alloc: Global,
    piece: &AllocatorPiece,
    word: u64,
) -> u32
    ensures set { result ≡ status.ok → Changes allocator.old.value allocator.new.value
        (λ old new. IsWorded old piece.now word new) }
    ensures no_handle { (result ≡ status.no_handle) ↔ (allocator.old.value ≡ None) }
    ensures awaits_answer { (result ≡ status.awaits_answer)
        ↔ IsSomeAnd allocator.old.value (λ s. IsSome s.requests.awaited) }
    ensures not_live { (result ≡ status.not_live) ↔ IsSomeAnd allocator.old.value
        (λ s. (s.requests.awaited ≡ None) × (IsLive s piece.now → ⊥)) }
    ensures statuses { IsOneOf result (status.ok ∷ status.no_handle ∷ status.awaits_answer ∷ status.not_live ∷ []) }
    ensures refused { result ≢ status.ok → allocator.new.value ≡ allocator.old.value }
{
    match allocator.take(alloc) {
        None => NO_HANDLE,
        Some(mut kept) => {
            let status = set_word(&mut kept, piece, word);
            allocator.put(kept);
            status
        }
    }
}

/// Whether a piece is live.
#[unsafe(no_mangle)]
pub extern "C" fn pilhangko_raw_allocator_is_live(
    allocator: &mut AllocatorHandle,
    alloc: Global,
    piece: &AllocatorPiece,
    answer: &mut bool,
) -> u32
    ensures reported { result ≡ status.ok
        → IsSomeAnd allocator.old.value (λ s. IsTrue answer.new ↔ IsLive s piece.now) }
    ensures no_handle { (result ≡ status.no_handle) ↔ (allocator.old.value ≡ None) }
    ensures statuses { IsOneOf result (status.ok ∷ status.no_handle ∷ []) }
    ensures same { allocator.new.value ≡ allocator.old.value }
    ensures refused { result ≢ status.ok → answer.new ≡ answer.old }
{
    match allocator.take(alloc) {
        None => NO_HANDLE,
        Some(kept) => {
            *answer = is_live(&kept, piece);
            allocator.put(kept);
            OK
        }
    }
}

/// Bounds the sum of the sizes of a memory type's blocks, in bytes, or takes the bound away. A bound below the present sum gives no block back.
/// `AWAITS_ANSWER` where a question is open, else `NO_SUCH_TYPE`.
#[unsafe(no_mangle)]
pub extern "C" fn pilhangko_raw_allocator_set_budget(
    allocator: &mut AllocatorHandle,
    alloc: Global,
    memory_type: usize,
    has_budget: bool,
    bytes: u64,
) -> u32
    ensures bounded { result ≡ status.ok
        → Changes allocator.old.value allocator.new.value
        (λ old new. (old.requests.awaited ≡ None)
        × SetsBudgetIdle old.requests memory_type (number_if has_budget bytes) (Ok tt) new.requests
        × (new ≡ record old { requests = new.requests })) }
    ensures no_handle { (result ≡ status.no_handle) ↔ (allocator.old.value ≡ None) }
    ensures awaits_answer { (result ≡ status.awaits_answer)
        ↔ IsSomeAnd allocator.old.value (λ s. IsSome s.requests.awaited) }
    ensures no_such_type { (result ≡ status.no_such_type)
        ↔ IsSomeAnd allocator.old.value
        (λ s. (s.requests.awaited ≡ None) × (length s.requests.budgets ≤ memory_type)) }
    ensures statuses { IsOneOf result (status.ok ∷ status.no_handle ∷ status.awaits_answer
        ∷ status.no_such_type ∷ []) }
    ensures refused { result ≢ status.ok → allocator.new.value ≡ allocator.old.value }
{
    match allocator.take(alloc) {
        None => NO_HANDLE,
        Some(mut kept) => {
            let status = set_budget(&mut kept, memory_type, has_budget, bytes);
            allocator.put(kept);
            status
        }
    }
}

/// The budget of a memory type; none where it has none, or isn't there.
#[unsafe(no_mangle)]
pub extern "C" fn pilhangko_raw_allocator_budget(
    allocator: &mut AllocatorHandle,
    alloc: Global,
    memory_type: usize,
    budget: &mut AllocatorBudget,
) -> u32
    ensures reported { result ≡ status.ok
        → IsSomeAnd allocator.old.value
        (λ s. budget.new ≡ budget_told (budget_at s.requests.budgets memory_type)) }
    ensures no_handle { (result ≡ status.no_handle) ↔ (allocator.old.value ≡ None) }
    ensures statuses { IsOneOf result (status.ok ∷ status.no_handle ∷ []) }
    ensures same { allocator.new.value ≡ allocator.old.value }
    ensures refused { result ≢ status.ok → budget.new ≡ budget.old }
{
    match allocator.take(alloc) {
        None => NO_HANDLE,
        Some(kept) => {
            *budget = budget_told(kept.budget(memory_type));
            allocator.put(kept);
            OK
        }
    }
}

/// Bounds the sum of the sizes of the blocks that lie in a heap, of whichever memory type, in bytes, or takes the bound away. A bound below the
/// present sum gives no block back. `AWAITS_ANSWER` where a question is open, else `NO_SUCH_HEAP`.
#[unsafe(no_mangle)]
pub extern "C" fn pilhangko_raw_allocator_set_heap_limit(
    allocator: &mut AllocatorHandle,
    alloc: Global,
    heap: usize,
    has_limit: bool,
    bytes: u64,
) -> u32
    ensures bounded { result ≡ status.ok
        → Changes allocator.old.value allocator.new.value
        (λ old new. (old.requests.awaited ≡ None)
        × SetsHeapLimit old heap (number_if has_limit bytes) (Ok tt) new) }
    ensures no_handle { (result ≡ status.no_handle) ↔ (allocator.old.value ≡ None) }
    ensures awaits_answer { (result ≡ status.awaits_answer)
        ↔ IsSomeAnd allocator.old.value (λ s. IsSome s.requests.awaited) }
    ensures no_such_heap { (result ≡ status.no_such_heap)
        ↔ IsSomeAnd allocator.old.value
        (λ s. (s.requests.awaited ≡ None) × (length s.limits ≤ heap)) }
    ensures statuses { IsOneOf result (status.ok ∷ status.no_handle ∷ status.awaits_answer
        ∷ status.no_such_heap ∷ []) }
    ensures refused { result ≢ status.ok → allocator.new.value ≡ allocator.old.value }
{
    match allocator.take(alloc) {
        None => NO_HANDLE,
        Some(mut kept) => {
            let status = set_heap_limit(&mut kept, heap, has_limit, bytes);
            allocator.put(kept);
            status
        }
    }
}

/// The limit of a heap; none where it has none, or isn't there.
#[unsafe(no_mangle)]
pub extern "C" fn pilhangko_raw_allocator_heap_limit(
    allocator: &mut AllocatorHandle,
    alloc: Global,
    heap: usize,
    limit: &mut AllocatorBudget,
) -> u32
    ensures reported { result ≡ status.ok
        → IsSomeAnd allocator.old.value (λ s. limit.new ≡ budget_told (limit_at s.limits heap)) }
    ensures no_handle { (result ≡ status.no_handle) ↔ (allocator.old.value ≡ None) }
    ensures statuses { IsOneOf result (status.ok ∷ status.no_handle ∷ []) }
    ensures same { allocator.new.value ≡ allocator.old.value }
    ensures refused { result ≢ status.ok → limit.new ≡ limit.old }
{
    match allocator.take(alloc) {
        None => NO_HANDLE,
        Some(kept) => {
            *limit = budget_told(kept.heap_limit(heap));
            allocator.put(kept);
            OK
        }
    }
}

/// The greatest sum that the blocks of a memory type may have now: by its budget, by what its heap's other blocks leave of the heap's limit, and
/// by how many blocks there may be; none where nothing bounds it.
#[unsafe(no_mangle)]
pub extern "C" fn pilhangko_raw_allocator_bound(
    allocator: &mut AllocatorHandle,
    alloc: Global,
    memory_type: usize,
    bound: &mut AllocatorBudget,
) -> u32
    ensures reported { result ≡ status.ok
        → IsSomeAnd allocator.old.value (λ s. bound.new ≡ budget_told (bound_at s memory_type)) }
    ensures no_handle { (result ≡ status.no_handle) ↔ (allocator.old.value ≡ None) }
    ensures statuses { IsOneOf result (status.ok ∷ status.no_handle ∷ []) }
    ensures same { allocator.new.value ≡ allocator.old.value }
    ensures refused { result ≢ status.ok → bound.new ≡ bound.old }
{
    match allocator.take(alloc) {
        None => NO_HANDLE,
        Some(kept) => {
            *bound = budget_told(kept.bound(memory_type));
            allocator.put(kept);
            OK
        }
    }
}

/// Bounds how many blocks there may be, of all memory types together, or takes the bound away. A bound below their present number gives no
/// block back. `AWAITS_ANSWER` where a question is open.
#[unsafe(no_mangle)]
pub extern "C" fn pilhangko_raw_allocator_set_most_blocks(
    allocator: &mut AllocatorHandle,
    alloc: Global,
    has_most: bool,
    count: usize,
) -> u32
    ensures bounded { result ≡ status.ok
        → Changes allocator.old.value allocator.new.value
        (λ old new. (old.requests.awaited ≡ None)
        × SetsMostBlocks old (count_if has_most count) (Ok tt) new) }
    ensures no_handle { (result ≡ status.no_handle) ↔ (allocator.old.value ≡ None) }
    ensures awaits_answer { (result ≡ status.awaits_answer)
        ↔ IsSomeAnd allocator.old.value (λ s. IsSome s.requests.awaited) }
    ensures statuses { IsOneOf result (status.ok ∷ status.no_handle ∷ status.awaits_answer
        ∷ []) }
    ensures refused { result ≢ status.ok → allocator.new.value ≡ allocator.old.value }
{
    match allocator.take(alloc) {
        None => NO_HANDLE,
        Some(mut kept) => {
            let status = set_most_blocks(&mut kept, has_most, count);
            allocator.put(kept);
            status
        }
    }
}

/// How many blocks there may be, of all memory types together: whether that is bounded, and by how many, 0 where it isn't.
#[unsafe(no_mangle)]
pub extern "C" fn pilhangko_raw_allocator_most_blocks(
    allocator: &mut AllocatorHandle,
    alloc: Global,
    has_most: &mut bool,
    count: &mut usize,
) -> u32
    ensures reported { result ≡ status.ok → IsSomeAnd allocator.old.value
        (λ s. (has_most.new ≡ is_some s.most_blocks) × (count.new ≡ unwrap_or s.most_blocks 0)) }
    ensures no_handle { (result ≡ status.no_handle) ↔ (allocator.old.value ≡ None) }
    ensures statuses { IsOneOf result (status.ok ∷ status.no_handle ∷ []) }
    ensures same { allocator.new.value ≡ allocator.old.value }
    ensures refused { result ≢ status.ok → (has_most.new ≡ has_most.old)
        × (count.new ≡ count.old) }
{
    match allocator.take(alloc) {
        None => NO_HANDLE,
        Some(kept) => {
            let most = kept.most_blocks();
            *has_most = most.is_some();
            *count = most.unwrap_or(0);
            allocator.put(kept);
            OK
        }
    }
}

/// Says whether shared blocks are smaller where memory is short: in a heap of at most 1 GB none has more than an eighth of it, or 4 MB; where a
/// budget or a limit leaves no room for one, it is as large as they leave; and where the driver has none, half of it is asked for, then a
/// quarter, before another memory type. `AWAITS_ANSWER` where a question is open.
#[unsafe(no_mangle)]
pub extern "C" fn pilhangko_raw_allocator_set_smaller_blocks(
    allocator: &mut AllocatorHandle,
    alloc: Global,
    smaller_blocks: bool,
) -> u32
    ensures set { result ≡ status.ok
        → Changes allocator.old.value allocator.new.value
        (λ old new. (old.requests.awaited ≡ None) × SetsSmallerBlocks old smaller_blocks (Ok tt) new) }
    ensures no_handle { (result ≡ status.no_handle) ↔ (allocator.old.value ≡ None) }
    ensures awaits_answer { (result ≡ status.awaits_answer)
        ↔ IsSomeAnd allocator.old.value (λ s. IsSome s.requests.awaited) }
    ensures statuses { IsOneOf result (status.ok ∷ status.no_handle ∷ status.awaits_answer
        ∷ []) }
    ensures refused { result ≢ status.ok → allocator.new.value ≡ allocator.old.value }
{
    match allocator.take(alloc) {
        None => NO_HANDLE,
        Some(mut kept) => {
            let status = set_smaller_blocks(&mut kept, smaller_blocks);
            allocator.put(kept);
            status
        }
    }
}

/// Whether shared blocks are smaller where memory is short.
#[unsafe(no_mangle)]
pub extern "C" fn pilhangko_raw_allocator_smaller_blocks(
    allocator: &mut AllocatorHandle,
    alloc: Global,
    smaller_blocks: &mut bool,
) -> u32
    ensures reported { result ≡ status.ok
        → IsSomeAnd allocator.old.value (λ s. smaller_blocks.new ≡ s.smaller_blocks) }
    ensures no_handle { (result ≡ status.no_handle) ↔ (allocator.old.value ≡ None) }
    ensures statuses { IsOneOf result (status.ok ∷ status.no_handle ∷ []) }
    ensures same { allocator.new.value ≡ allocator.old.value }
    ensures refused { result ≢ status.ok → smaller_blocks.new ≡ smaller_blocks.old }
{
    match allocator.take(alloc) {
        None => NO_HANDLE,
        Some(kept) => {
            *smaller_blocks = kept.smaller_blocks();
            allocator.put(kept);
            OK
        }
    }
}

/// The sum of the sizes of the live blocks, in bytes. A block that is awaited isn't one.
#[unsafe(no_mangle)]
pub extern "C" fn pilhangko_raw_allocator_capacity(
    allocator: &mut AllocatorHandle,
    alloc: Global,
    bytes: &mut u64,
) -> u32
    ensures reported { result ≡ status.ok
        → IsSomeAnd allocator.old.value (λ s. bytes.new ≡ total_capacity s.requests.slots) }
    ensures no_handle { (result ≡ status.no_handle) ↔ (allocator.old.value ≡ None) }
    ensures statuses { IsOneOf result (status.ok ∷ status.no_handle ∷ []) }
    ensures same { allocator.new.value ≡ allocator.old.value }
    ensures refused { result ≢ status.ok → bytes.new ≡ bytes.old }
{
    match allocator.take(alloc) {
        None => NO_HANDLE,
        Some(kept) => {
            *bytes = kept.capacity();
            allocator.put(kept);
            OK
        }
    }
}

/// Ends an allocator, with the pieces that are still live and the question that is open, and leaves the handle zeroed. The blocks' memory is
/// the caller's to give back.
#[unsafe(no_mangle)]
pub extern "C" fn pilhangko_raw_allocator_destroy(
    allocator: &mut AllocatorHandle,
    alloc: Global,
) -> u32
    ensures gone { allocator.new.value ≡ None }
    ensures no_handle { (result ≡ status.no_handle) ↔ (allocator.old.value ≡ None) }
    ensures statuses { IsOneOf result (status.ok ∷ status.no_handle ∷ []) }
{
    match allocator.take(alloc) {
        None => NO_HANDLE,
        Some(_) => OK,
    }
}
