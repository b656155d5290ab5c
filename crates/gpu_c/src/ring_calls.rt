//! Rings for C. A handle begins zeroed; create fills it and destroy leaves it zeroed. Each call on an empty handle returns `NO_HANDLE`, and
//! any status but `OK` leaves everything as it was.

ghost use Rattle.std.specs.Prelude.{◌≡◌, ◌≢◌, ◌↔◌, [], ◌∷◌, Some, None, IsSomeAnd, true};
ghost use Rattle.gpu_ring.specs.Calls.{empty_ring, HasNoFrame, EndsFrame, Retires, IsInFlight};
ghost use Rattle.gpu_c.specs.Handle.{Changes};
ghost use Rattle.gpu_c.specs.Status as status;
ghost use Rattle.gpu_c.specs.Status.{IsOneOf};
ghost use Rattle.gpu_c.specs.Ring.{IsRingSize, IsPiece, GainsPiece, HasNoPlace, numbered, CountsFrame, counts_of_ring, current_stretch};
ghost use Rattle.gpu_c.specs.declared.status.TheConstants.{OK, OUT_OF_MEMORY, INVALID, NOT_LIVE, HOST_OUT_OF_MEMORY, NO_HANDLE, IN_USE, TOO_MANY_FRAMES};

use crate::ring::{allocate, current_stretch, end_frame, frame_statistics, retire, statistics};
use crate::ring_handle::RingHandle;
use crate::ring_values::{FrameCounts, RingCounts, RingStretch};
use crate::status::{HOST_OUT_OF_MEMORY, IN_USE, INVALID, NO_HANDLE, OK};
use gpu_ring::Ring;
use std::alloc::Global;

/// A new ring in an empty handle.
fn create(ring: &mut RingHandle, alloc: Global, size: u64, frames: usize) -> u32
    requires empty { ring.old.value ≡ None }
    requires valid { IsRingSize size }
    ensures created { result ≡ status.ok → ring.new.value ≡ Some (empty_ring size frames) }
    ensures statuses { IsOneOf result (status.ok ∷ status.host_out_of_memory ∷ []) }
    ensures refused { result ≢ status.ok → ring.new.value ≡ None }
{
    match Ring::new(alloc, size, frames) {
        Err(_) => HOST_OUT_OF_MEMORY,
        Ok(fresh) => match Box::new(alloc, fresh) {
            Err(_) => HOST_OUT_OF_MEMORY,
            Ok(fresh) => {
                ring.put(fresh);
                OK
            }
        },
    }
}

/// Makes a ring of `size` bytes, not 0 and below 2^63, in an empty handle, with room for `frames` frames in flight. No later call takes
/// host memory. `IN_USE` where the handle isn't empty, else `INVALID`, else `HOST_OUT_OF_MEMORY`.
#[unsafe(no_mangle)]
pub extern "C" fn pilhangko_raw_ring_create(
    ring: &mut RingHandle,
    alloc: Global,
    size: u64,
    frames: usize,
) -> u32
    ensures created { result ≡ status.ok → (ring.old.value ≡ None) × IsRingSize size
        × (ring.new.value ≡ Some (empty_ring size frames)) }
    ensures in_use { (result ≡ status.in_use) ↔ (ring.old.value ≢ None) }
    ensures invalid { (result ≡ status.invalid)
        ↔ (ring.old.value ≡ None) × (IsRingSize size → ⊥) }
    ensures host_out_of_memory { result ≡ status.host_out_of_memory
        → (ring.old.value ≡ None) × IsRingSize size }
    ensures statuses { IsOneOf result (status.ok ∷ status.in_use ∷ status.invalid
        ∷ status.host_out_of_memory ∷ []) }
    ensures refused { result ≢ status.ok → ring.new.value ≡ ring.old.value }
{
    if let Some(kept) = ring.take(alloc) {
        ring.put(kept);
        return IN_USE;
    }
    if size == 0 {
        return INVALID;
    }
    if size >= 1 << 63 {
        return INVALID;
    }
    create(ring, alloc, size, frames)
}

/// Allocates a piece of the open frame: its offset is a multiple of the alignment, which may be any but 0. `INVALID` where the size or the
/// alignment is 0, else `OUT_OF_MEMORY` where the ring has no place for it.
#[unsafe(no_mangle)]
pub extern "C" fn pilhangko_raw_ring_allocate(
    ring: &mut RingHandle,
    alloc: Global,
    size: u64,
    alignment: u64,
    offset: &mut u64,
) -> u32
    ensures allocated { result ≡ status.ok → Changes ring.old.value ring.new.value
        (λ old new. GainsPiece old size alignment offset.new new) }
    ensures no_handle { (result ≡ status.no_handle) ↔ (ring.old.value ≡ None) }
    ensures invalid { (result ≡ status.invalid)
        ↔ IsSomeAnd ring.old.value (λ _. IsPiece size alignment → ⊥) }
    ensures out_of_memory { (result ≡ status.out_of_memory)
        ↔ IsSomeAnd ring.old.value (λ r. HasNoPlace r size alignment) }
    ensures statuses { IsOneOf result (status.ok ∷ status.no_handle ∷ status.invalid
        ∷ status.out_of_memory ∷ []) }
    ensures refused { result ≢ status.ok
        → (ring.new.value ≡ ring.old.value) × (offset.new ≡ offset.old) }
{
    match ring.take(alloc) {
        None => NO_HANDLE,
        Some(mut kept) => {
            let status = allocate(&mut kept, size, alignment, offset);
            ring.put(kept);
            status
        }
    }
}

/// Closes the open frame, which is in flight from then on, and tells its number. `TOO_MANY_FRAMES` where create made no room for one more.
#[unsafe(no_mangle)]
pub extern "C" fn pilhangko_raw_ring_end_frame(
    ring: &mut RingHandle,
    alloc: Global,
    frame: &mut u64,
) -> u32
    ensures ended { result ≡ status.ok → Changes ring.old.value ring.new.value
        (λ old new. EndsFrame old (Some (numbered frame.new)) new) }
    ensures no_handle { (result ≡ status.no_handle) ↔ (ring.old.value ≡ None) }
    ensures too_many_frames { (result ≡ status.too_many_frames)
        ↔ IsSomeAnd ring.old.value HasNoFrame }
    ensures statuses { IsOneOf result (status.ok ∷ status.no_handle ∷ status.too_many_frames ∷ []) }
    ensures refused { result ≢ status.ok
        → (ring.new.value ≡ ring.old.value) × (frame.new ≡ frame.old) }
{
    match ring.take(alloc) {
        None => NO_HANDLE,
        Some(mut kept) => {
            let status = end_frame(&mut kept, frame);
            ring.put(kept);
            status
        }
    }
}

/// Frees the pieces of a frame in flight and of each older one. `NOT_LIVE` where the frame isn't in flight.
#[unsafe(no_mangle)]
pub extern "C" fn pilhangko_raw_ring_retire(ring: &mut RingHandle, alloc: Global, frame: u64) -> u32
    ensures retired { result ≡ status.ok → Changes ring.old.value ring.new.value
        (λ old new. Retires old (numbered frame) true new) }
    ensures no_handle { (result ≡ status.no_handle) ↔ (ring.old.value ≡ None) }
    ensures not_live { (result ≡ status.not_live)
        ↔ IsSomeAnd ring.old.value (λ r. IsInFlight r (numbered frame) → ⊥) }
    ensures statuses { IsOneOf result (status.ok ∷ status.no_handle ∷ status.not_live ∷ []) }
    ensures refused { result ≢ status.ok → ring.new.value ≡ ring.old.value }
{
    match ring.take(alloc) {
        None => NO_HANDLE,
        Some(mut kept) => {
            let status = retire(&mut kept, frame);
            ring.put(kept);
            status
        }
    }
}

/// The ring's size, its taken bytes and its frames in flight, and what the open frame holds.
#[unsafe(no_mangle)]
pub extern "C" fn pilhangko_raw_ring_statistics(
    ring: &mut RingHandle,
    alloc: Global,
    counts: &mut RingCounts,
) -> u32
    ensures reported { result ≡ status.ok
        → IsSomeAnd ring.old.value (λ r. counts.new ≡ counts_of_ring r) }
    ensures no_handle { (result ≡ status.no_handle) ↔ (ring.old.value ≡ None) }
    ensures statuses { IsOneOf result (status.ok ∷ status.no_handle ∷ []) }
    ensures same { ring.new.value ≡ ring.old.value }
    ensures refused { result ≢ status.ok → counts.new ≡ counts.old }
{
    match ring.take(alloc) {
        None => NO_HANDLE,
        Some(kept) => {
            *counts = statistics(&kept);
            ring.put(kept);
            OK
        }
    }
}

/// Where the bytes of the open frame lie: what has to be flushed before the device reads them.
#[unsafe(no_mangle)]
pub extern "C" fn pilhangko_raw_ring_current_stretch(
    ring: &mut RingHandle,
    alloc: Global,
    stretch: &mut RingStretch,
) -> u32
    ensures reported { result ≡ status.ok
        → IsSomeAnd ring.old.value (λ r. stretch.new ≡ current_stretch r) }
    ensures no_handle { (result ≡ status.no_handle) ↔ (ring.old.value ≡ None) }
    ensures statuses { IsOneOf result (status.ok ∷ status.no_handle ∷ []) }
    ensures same { ring.new.value ≡ ring.old.value }
    ensures refused { result ≢ status.ok → stretch.new ≡ stretch.old }
{
    match ring.take(alloc) {
        None => NO_HANDLE,
        Some(kept) => {
            *stretch = current_stretch(&kept);
            ring.put(kept);
            OK
        }
    }
}

/// What a frame in flight holds. `NOT_LIVE` where it isn't in flight.
#[unsafe(no_mangle)]
pub extern "C" fn pilhangko_raw_ring_frame_statistics(
    ring: &mut RingHandle,
    alloc: Global,
    frame: u64,
    counts: &mut FrameCounts,
) -> u32
    ensures reported { result ≡ status.ok
        → IsSomeAnd ring.old.value (λ r. CountsFrame r frame counts.new) }
    ensures no_handle { (result ≡ status.no_handle) ↔ (ring.old.value ≡ None) }
    ensures not_live { (result ≡ status.not_live)
        ↔ IsSomeAnd ring.old.value (λ r. IsInFlight r (numbered frame) → ⊥) }
    ensures statuses { IsOneOf result (status.ok ∷ status.no_handle ∷ status.not_live ∷ []) }
    ensures same { ring.new.value ≡ ring.old.value }
    ensures refused { result ≢ status.ok → counts.new ≡ counts.old }
{
    match ring.take(alloc) {
        None => NO_HANDLE,
        Some(kept) => {
            let status = frame_statistics(&kept, frame, counts);
            ring.put(kept);
            status
        }
    }
}

/// Ends a ring, with the pieces that are in it, and leaves the handle zeroed.
#[unsafe(no_mangle)]
pub extern "C" fn pilhangko_raw_ring_destroy(ring: &mut RingHandle, alloc: Global) -> u32
    ensures gone { ring.new.value ≡ None }
    ensures no_handle { (result ≡ status.no_handle) ↔ (ring.old.value ≡ None) }
    ensures statuses { IsOneOf result (status.ok ∷ status.no_handle ∷ []) }
{
    match ring.take(alloc) {
        None => NO_HANDLE,
        Some(_) => OK,
    }
}
