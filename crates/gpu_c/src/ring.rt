//! What the calls answer of the ring that lies behind a handle.

ghost use Rattle.std.specs.Prelude.{◌≡◌, ◌≢◌, ◌↔◌, [], ◌∷◌, Some, true};
ghost use Rattle.gpu_ring.specs.Calls.{HasNoFrame, EndsFrame, Retires, IsInFlight};
ghost use Rattle.gpu_c.specs.Status as status;
ghost use Rattle.gpu_c.specs.Status.{IsOneOf};
ghost use Rattle.gpu_c.specs.Ring.{IsPiece, GainsPiece, HasNoPlace, numbered, CountsFrame, counts_of_frame, counts_of_ring, current_stretch};
ghost use Rattle.gpu_c.specs.declared.status.TheConstants.{OK, OUT_OF_MEMORY, INVALID, NOT_LIVE, TOO_MANY_FRAMES};

use crate::ring_values::{FrameCounts, RingCounts, RingStretch};
use crate::status::{INVALID, NOT_LIVE, OK, OUT_OF_MEMORY, TOO_MANY_FRAMES};
use gpu_ring::{Frame, FrameStatistics, Ring};

/// Allocates a piece of the open frame.
pub fn allocate(ring: &mut Ring, size: u64, alignment: u64, offset: &mut u64) -> u32
    ensures allocated { result ≡ status.ok
        → GainsPiece ring.old size alignment offset.new ring.new }
    ensures invalid { (result ≡ status.invalid) ↔ (IsPiece size alignment → ⊥) }
    ensures out_of_memory { (result ≡ status.out_of_memory)
        ↔ HasNoPlace ring.old size alignment }
    ensures statuses { IsOneOf result (status.ok ∷ status.invalid ∷ status.out_of_memory ∷ []) }
    ensures refused { result ≢ status.ok
        → (ring.new ≡ ring.old) × (offset.new ≡ offset.old) }
{
    if size == 0 {
        return INVALID;
    }
    if alignment == 0 {
        return INVALID;
    }
    match ring.allocate(size, alignment) {
        None => OUT_OF_MEMORY,
        Some(place) => {
            *offset = place;
            OK
        }
    }
}

/// Closes the open frame, and tells its number.
pub fn end_frame(ring: &mut Ring, frame: &mut u64) -> u32
    ensures ended { result ≡ status.ok
        → EndsFrame ring.old (Some (numbered frame.new)) ring.new }
    ensures too_many_frames { (result ≡ status.too_many_frames) ↔ HasNoFrame ring.old }
    ensures statuses { IsOneOf result (status.ok ∷ status.too_many_frames ∷ []) }
    ensures refused { result ≢ status.ok → (ring.new ≡ ring.old) × (frame.new ≡ frame.old) }
{
    match ring.end_frame() {
        None => TOO_MANY_FRAMES,
        Some(ended) => {
            *frame = ended.number;
            OK
        }
    }
}

/// Frees the pieces of a frame in flight and of each older one.
pub fn retire(ring: &mut Ring, frame: u64) -> u32
    ensures retired { result ≡ status.ok → Retires ring.old (numbered frame) true ring.new }
    ensures not_live { (result ≡ status.not_live) ↔ (IsInFlight ring.old (numbered frame) → ⊥) }
    ensures statuses { IsOneOf result (status.ok ∷ status.not_live ∷ []) }
    ensures refused { result ≢ status.ok → ring.new ≡ ring.old }
{
    if ring.retire(Frame { number: frame }) {
        OK
    } else {
        NOT_LIVE
    }
}

/// What is counted of a frame.
fn counts_of_frame(held: &FrameStatistics) -> FrameCounts
    ensures { result ≡ counts_of_frame held.now }
{
    FrameCounts {
        pieces: held.pieces,
        bytes: held.bytes,
    }
}

/// What is counted of the ring.
pub fn statistics(ring: &Ring) -> RingCounts
    ensures { result ≡ counts_of_ring ring.now }
{
    let counted = ring.statistics();
    RingCounts {
        size: counted.size,
        taken: counted.taken,
        frames: counted.frames,
        oldest: counted.oldest,
        current: counts_of_frame(&counted.current),
    }
}

/// Where the bytes of the open frame lie.
pub fn current_stretch(ring: &Ring) -> RingStretch
    ensures { result ≡ current_stretch ring.now }
{
    let told = ring.current_stretch();
    RingStretch {
        offset: told.offset,
        size: told.size,
        rest: told.rest,
    }
}

/// What is counted of a frame in flight.
pub fn frame_statistics(ring: &Ring, frame: u64, counts: &mut FrameCounts) -> u32
    ensures told { result ≡ status.ok → CountsFrame ring.now frame counts.new }
    ensures not_live { (result ≡ status.not_live) ↔ (IsInFlight ring.now (numbered frame) → ⊥) }
    ensures statuses { IsOneOf result (status.ok ∷ status.not_live ∷ []) }
    ensures refused { result ≢ status.ok → counts.new ≡ counts.old }
{
    match ring.frame_statistics(Frame { number: frame }) {
        None => NOT_LIVE,
        Some(held) => {
            *counts = counts_of_frame(&held);
            OK
        }
    }
}
