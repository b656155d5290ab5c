//! Exports that begin captures, each in an empty handle. Any status but `OK` leaves everything as it was.

ghost use Rattle.std.specs.Prelude.{◌≡◌, ◌≢◌, ◌↔◌, [], ◌∷◌, Ok, Err, None, Some, IsSome, IsSomeAnd, if◌then◌else◌};
ghost use Rattle.gpu_capture.specs.Devices.{d3d12_lines, metal_lines};
ghost use Rattle.gpu_c.specs.Capture.{BeginsWith, allocator_lines, heaps_sizes, metal_heaps_sizes};
ghost use Rattle.gpu_c.specs.Heaps.{tier_named};
ghost use Rattle.gpu_c.specs.Status as status;
ghost use Rattle.gpu_c.specs.Status.{IsOneOf};
ghost use Rattle.gpu_c.specs.declared.status.TheConstants.{OK, INVALID_TIER, HOST_OUT_OF_MEMORY, IN_USE};

use crate::allocator_values::{AllocatorSettings, DeviceHeap, DeviceMemoryType};
use crate::capture_handle::CaptureHandle;
use crate::capture_request::{heaps_sizes, metal_heaps_sizes, of_allocator};
use crate::heaps_request::tier_named;
use crate::heaps_values::HeapsSettings;
use crate::metal_heaps_values::MetalHeapsSettings;
use crate::status::{HOST_OUT_OF_MEMORY, IN_USE, INVALID_TIER, OK};
use gpu_capture::Capture;
use std::alloc::Global;

/// Puts a capture into an empty handle.
fn put(capture: &mut CaptureHandle, alloc: Global, fresh: Capture) -> u32
    requires empty { capture.old.value ≡ None }
    ensures begun { result ≡ status.ok → capture.new.value ≡ Some fresh }
    ensures statuses { IsOneOf result (status.ok ∷ status.host_out_of_memory ∷ []) }
    ensures refused { result ≢ status.ok → capture.new.value ≡ None }
{
    match Box::new(alloc, fresh) {
        Err(_) => HOST_OUT_OF_MEMORY,
        Ok(fresh) => {
            capture.put(fresh);
            OK
        }
    }
}

/// Begins the capture of an allocator that is made of these memory types, heaps and settings. `IN_USE` where the handle isn't empty, else
/// `HOST_OUT_OF_MEMORY`.
#[unsafe(no_mangle)]
pub extern "C" fn pilhangko_raw_capture_of_allocator(
    capture: &mut CaptureHandle,
    alloc: Global,
    types: &[DeviceMemoryType],
    heaps: &[DeviceHeap],
    settings: &AllocatorSettings,
) -> u32
    ensures begun { result ≡ status.ok → (capture.old.value ≡ None) × IsSomeAnd capture.new.value
        (BeginsWith (allocator_lines types.now heaps.now settings.now) 0) }
    ensures in_use { (result ≡ status.in_use) ↔ (capture.old.value ≢ None) }
    ensures host_out_of_memory { result ≡ status.host_out_of_memory → capture.old.value ≡ None }
    ensures statuses { IsOneOf result (status.ok ∷ status.in_use ∷ status.host_out_of_memory ∷ []) }
    ensures refused { result ≢ status.ok → capture.new.value ≡ capture.old.value }
{
    if let Some(kept) = capture.take(alloc) {
        capture.put(kept);
        return IN_USE;
    }
    match of_allocator(alloc, types, heaps, settings) {
        Err(_) => HOST_OUT_OF_MEMORY,
        Ok(fresh) => put(capture, alloc, fresh),
    }
}

/// Begins the capture of an allocator of DirectX 12's memory that is made with these settings. `IN_USE` where the handle isn't empty, else
/// `INVALID_TIER` where the tier is 0, else `HOST_OUT_OF_MEMORY`.
#[unsafe(no_mangle)]
pub extern "C" fn pilhangko_raw_capture_of_heaps(
    capture: &mut CaptureHandle,
    alloc: Global,
    settings: &HeapsSettings,
) -> u32
    ensures begun { result ≡ status.ok → (capture.old.value ≡ None)
        × IsSomeAnd (tier_named settings.now.heap_tier) (λ tier. IsSomeAnd capture.new.value
        (BeginsWith (d3d12_lines tier (heaps_sizes settings.now)) 0)) }
    ensures in_use { (result ≡ status.in_use) ↔ (capture.old.value ≢ None) }
    ensures invalid_tier { (result ≡ status.invalid_tier)
        ↔ (capture.old.value ≡ None) × (tier_named settings.now.heap_tier ≡ None) }
    ensures host_out_of_memory { result ≡ status.host_out_of_memory
        → (capture.old.value ≡ None) × IsSome (tier_named settings.now.heap_tier) }
    ensures statuses { IsOneOf result (status.ok ∷ status.in_use ∷ status.invalid_tier
        ∷ status.host_out_of_memory ∷ []) }
    ensures refused { result ≢ status.ok → capture.new.value ≡ capture.old.value }
{
    if let Some(kept) = capture.take(alloc) {
        capture.put(kept);
        return IN_USE;
    }
    match tier_named(settings.heap_tier) {
        None => INVALID_TIER,
        Some(tier) => {
            let fresh = Capture::of_d3d12(alloc, tier, heaps_sizes(settings));
            put(capture, alloc, fresh)
        }
    }
}

/// Begins the capture of an allocator of Metal's memory that is made with these settings; a residency set is question 1. `IN_USE` where the
/// handle isn't empty, else `HOST_OUT_OF_MEMORY`.
#[unsafe(no_mangle)]
pub extern "C" fn pilhangko_raw_capture_of_metal_heaps(
    capture: &mut CaptureHandle,
    alloc: Global,
    settings: &MetalHeapsSettings,
) -> u32
    ensures begun { result ≡ status.ok → (capture.old.value ≡ None) × IsSomeAnd capture.new.value
        (BeginsWith (metal_lines settings.now.has_residency_set (metal_heaps_sizes settings.now))
        (if settings.now.has_residency_set then 1 else 0)) }
    ensures in_use { (result ≡ status.in_use) ↔ (capture.old.value ≢ None) }
    ensures host_out_of_memory { result ≡ status.host_out_of_memory → capture.old.value ≡ None }
    ensures statuses { IsOneOf result (status.ok ∷ status.in_use ∷ status.host_out_of_memory ∷ []) }
    ensures refused { result ≢ status.ok → capture.new.value ≡ capture.old.value }
{
    if let Some(kept) = capture.take(alloc) {
        capture.put(kept);
        return IN_USE;
    }
    let sizes = metal_heaps_sizes(settings);
    let fresh = Capture::of_metal(alloc, settings.has_residency_set, sizes);
    put(capture, alloc, fresh)
}
