//! Exports that keep requests in a capture: what an allocator was asked for, and what the driver answered. A request that the host refused
//! memory for, and one that no allocator serves, changed nothing, and isn't to be kept. Any status but `OK` leaves everything as it was.

ghost use Rattle.std.specs.Prelude.{◌≡◌, ◌≢◌, ◌↔◌, [], ◌∷◌, Some, None, IsSomeAnd};
ghost use Rattle.std.specs.Option.{option_map};
ghost use Rattle.gpu_capture.specs.Words.{alloc_words, move_words};
ghost use Rattle.gpu_c.specs.Allocator.{SaysNothing};
ghost use Rattle.gpu_c.specs.Capture.{KeepsAsked, allocator_words, heaps_words, created_words, metal_heaps_words};
ghost use Rattle.gpu_c.specs.Handle.{Changes};
ghost use Rattle.gpu_c.specs.Heaps as heaps;
ghost use Rattle.gpu_c.specs.Heaps.{AreNamed};
ghost use Rattle.gpu_c.specs.MetalHeaps as metal_heaps;
ghost use Rattle.gpu_c.specs.Status as status;
ghost use Rattle.gpu_c.specs.Status.{IsOneOf};
ghost use Rattle.gpu_c.specs.declared.status.TheConstants.{OK, INVALID, NO_HANDLE};

use crate::allocator_values::AllocatorRequest;
use crate::capture::{allocated, committed, moved};
use crate::capture_handle::CaptureHandle;
use crate::capture_request::{
    allocator_request, committed_request, heaps_request, metal_heaps_request,
};
use crate::capture_values::CaptureAnswer;
use crate::heaps_values::HeapsRequest;
use crate::metal_heaps_values::MetalHeapsRequest;
use crate::status::NO_HANDLE;
use std::alloc::Global;

/// A Vulkan allocator was asked for an allocation, which is called by this number, and the driver answered its questions so. `INVALID` where no
/// allocator serves the request.
#[unsafe(no_mangle)]
pub extern "C" fn pilhangko_raw_capture_allocator_allocated(
    capture: &mut CaptureHandle,
    alloc: Global,
    number: u64,
    request: &AllocatorRequest,
    name: &[u8],
    answers: &[CaptureAnswer],
) -> u32
    ensures kept { result ≡ status.ok → Changes capture.old.value capture.new.value
        (λ old new. KeepsAsked old
        (option_map (alloc_words number) (allocator_words request.now name.now)) answers.now new) }
    ensures no_handle { (result ≡ status.no_handle) ↔ (capture.old.value ≡ None) }
    ensures invalid { (result ≡ status.invalid)
        ↔ IsSomeAnd capture.old.value (λ _. SaysNothing request.now name.now) }
    ensures statuses { IsOneOf result (status.ok ∷ status.no_handle ∷ status.invalid ∷ []) }
    ensures refused { result ≢ status.ok → capture.new.value ≡ capture.old.value }
{
    match capture.take(alloc) {
        None => NO_HANDLE,
        Some(mut kept) => {
            let asked = allocator_request(request, name);
            let status = allocated(&mut kept, alloc, number, asked, answers);
            capture.put(kept);
            status
        }
    }
}

/// The same of an allocator of DirectX 12's memory.
#[unsafe(no_mangle)]
pub extern "C" fn pilhangko_raw_capture_heaps_allocated(
    capture: &mut CaptureHandle,
    alloc: Global,
    number: u64,
    request: &HeapsRequest,
    name: &[u8],
    answers: &[CaptureAnswer],
) -> u32
    ensures kept { result ≡ status.ok → Changes capture.old.value capture.new.value
        (λ old new. KeepsAsked old
        (option_map (alloc_words number) (heaps_words request.now name.now)) answers.now new) }
    ensures no_handle { (result ≡ status.no_handle) ↔ (capture.old.value ≡ None) }
    ensures invalid { (result ≡ status.invalid)
        ↔ IsSomeAnd capture.old.value (λ _. heaps.IsAsked request.now name.now → ⊥) }
    ensures statuses { IsOneOf result (status.ok ∷ status.no_handle ∷ status.invalid ∷ []) }
    ensures refused { result ≢ status.ok → capture.new.value ≡ capture.old.value }
{
    match capture.take(alloc) {
        None => NO_HANDLE,
        Some(mut kept) => {
            let asked = heaps_request(request, name);
            let status = allocated(&mut kept, alloc, number, asked, answers);
            capture.put(kept);
            status
        }
    }
}

/// The same of an allocator of Metal's memory.
#[unsafe(no_mangle)]
pub extern "C" fn pilhangko_raw_capture_metal_heaps_allocated(
    capture: &mut CaptureHandle,
    alloc: Global,
    number: u64,
    request: &MetalHeapsRequest,
    name: &[u8],
    answers: &[CaptureAnswer],
) -> u32
    ensures kept { result ≡ status.ok → Changes capture.old.value capture.new.value
        (λ old new. KeepsAsked old
        (option_map (alloc_words number) (metal_heaps_words request.now name.now)) answers.now new) }
    ensures no_handle { (result ≡ status.no_handle) ↔ (capture.old.value ≡ None) }
    ensures invalid { (result ≡ status.invalid)
        ↔ IsSomeAnd capture.old.value (λ _. metal_heaps.IsAsked request.now name.now → ⊥) }
    ensures statuses { IsOneOf result (status.ok ∷ status.no_handle ∷ status.invalid ∷ []) }
    ensures refused { result ≢ status.ok → capture.new.value ≡ capture.old.value }
{
    match capture.take(alloc) {
        None => NO_HANDLE,
        Some(mut kept) => {
            let asked = metal_heaps_request(request, name);
            let status = allocated(&mut kept, alloc, number, asked, answers);
            capture.put(kept);
            status
        }
    }
}

/// A committed resource was asked for, which is called by this number, and the device answered its question so. A trace makes it as a buffer of
/// whole units of 65,536 bytes, where 64 bits hold them. Its alignment and its name may be any, since no allocator is told them. `INVALID` where
/// location or category isn't one.
#[unsafe(no_mangle)]
pub extern "C" fn pilhangko_raw_capture_heaps_committed(
    capture: &mut CaptureHandle,
    alloc: Global,
    number: u64,
    request: &HeapsRequest,
    name: &[u8],
    answers: &[CaptureAnswer],
) -> u32
    ensures kept { result ≡ status.ok → Changes capture.old.value capture.new.value
        (λ old new. KeepsAsked old
        (created_words number request.now name.now) answers.now new) }
    ensures no_handle { (result ≡ status.no_handle) ↔ (capture.old.value ≡ None) }
    ensures invalid { (result ≡ status.invalid)
        ↔ IsSomeAnd capture.old.value
        (λ _. AreNamed request.now.location request.now.category → ⊥) }
    ensures statuses { IsOneOf result (status.ok ∷ status.no_handle ∷ status.invalid ∷ []) }
    ensures refused { result ≢ status.ok → capture.new.value ≡ capture.old.value }
{
    match capture.take(alloc) {
        None => NO_HANDLE,
        Some(mut kept) => {
            let asked = committed_request(request, name);
            let status = committed(&mut kept, alloc, number, asked, answers);
            capture.put(kept);
            status
        }
    }
}

/// A Vulkan allocator was asked for a second place of the allocation `from`, which is called by the number `to` where there is one. `INVALID`
/// where no allocator serves the request.
#[unsafe(no_mangle)]
pub extern "C" fn pilhangko_raw_capture_allocator_moved(
    capture: &mut CaptureHandle,
    alloc: Global,
    from: u64,
    to: u64,
    request: &AllocatorRequest,
    name: &[u8],
) -> u32
    ensures kept { result ≡ status.ok → Changes capture.old.value capture.new.value
        (λ old new. KeepsAsked old
        (option_map (move_words from to) (allocator_words request.now name.now)) [] new) }
    ensures no_handle { (result ≡ status.no_handle) ↔ (capture.old.value ≡ None) }
    ensures invalid { (result ≡ status.invalid)
        ↔ IsSomeAnd capture.old.value (λ _. SaysNothing request.now name.now) }
    ensures statuses { IsOneOf result (status.ok ∷ status.no_handle ∷ status.invalid ∷ []) }
    ensures refused { result ≢ status.ok → capture.new.value ≡ capture.old.value }
{
    match capture.take(alloc) {
        None => NO_HANDLE,
        Some(mut kept) => {
            let status = moved(&mut kept, alloc, from, to, allocator_request(request, name));
            capture.put(kept);
            status
        }
    }
}

/// The same of an allocator of DirectX 12's memory.
#[unsafe(no_mangle)]
pub extern "C" fn pilhangko_raw_capture_heaps_moved(
    capture: &mut CaptureHandle,
    alloc: Global,
    from: u64,
    to: u64,
    request: &HeapsRequest,
    name: &[u8],
) -> u32
    ensures kept { result ≡ status.ok → Changes capture.old.value capture.new.value
        (λ old new. KeepsAsked old
        (option_map (move_words from to) (heaps_words request.now name.now)) [] new) }
    ensures no_handle { (result ≡ status.no_handle) ↔ (capture.old.value ≡ None) }
    ensures invalid { (result ≡ status.invalid)
        ↔ IsSomeAnd capture.old.value (λ _. heaps.IsAsked request.now name.now → ⊥) }
    ensures statuses { IsOneOf result (status.ok ∷ status.no_handle ∷ status.invalid ∷ []) }
    ensures refused { result ≢ status.ok → capture.new.value ≡ capture.old.value }
{
    match capture.take(alloc) {
        None => NO_HANDLE,
        Some(mut kept) => {
            let status = moved(&mut kept, alloc, from, to, heaps_request(request, name));
            capture.put(kept);
            status
        }
    }
}

/// The same of an allocator of Metal's memory.
#[unsafe(no_mangle)]
pub extern "C" fn pilhangko_raw_capture_metal_heaps_moved(
    capture: &mut CaptureHandle,
    alloc: Global,
    from: u64,
    to: u64,
    request: &MetalHeapsRequest,
    name: &[u8],
) -> u32
    ensures kept { result ≡ status.ok → Changes capture.old.value capture.new.value
        (λ old new. KeepsAsked old
        (option_map (move_words from to) (metal_heaps_words request.now name.now)) [] new) }
    ensures no_handle { (result ≡ status.no_handle) ↔ (capture.old.value ≡ None) }
    ensures invalid { (result ≡ status.invalid)
        ↔ IsSomeAnd capture.old.value (λ _. metal_heaps.IsAsked request.now name.now → ⊥) }
    ensures statuses { IsOneOf result (status.ok ∷ status.no_handle ∷ status.invalid ∷ []) }
    ensures refused { result ≢ status.ok → capture.new.value ≡ capture.old.value }
{
    match capture.take(alloc) {
        None => NO_HANDLE,
        Some(mut kept) => {
            let status = moved(
                &mut kept,
                alloc,
                from,
                to,
                metal_heaps_request(request, name),
            );
            capture.put(kept);
            status
        }
    }
}
