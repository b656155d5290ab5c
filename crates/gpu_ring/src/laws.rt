//! The laws that a ring is sized by: a call at a time, and over all lists of calls.

ghost use Rattle.std.specs.Prelude.{ℕ, ◌+◌, ◌-◌, ◌*◌, ◌<◌, ◌≤◌, List, []};
ghost use Rattle.gpu_ring.specs.Calls.{empty_ring};
ghost use Rattle.gpu_ring.specs.Line.{IsRingServed, IsFull, IsFed};
ghost use Rattle.gpu_ring.specs.Runs.{Call, ServesAll};

/// A ring that never refuses: where no request counts more than `most` (its size and its alignment, less 1), those of a frame no more than
/// `most_a_frame`, and at most `most_frames` are in flight, a ring of (`most_frames` + 1) * `most_a_frame` + `most` - 1 bytes serves each
/// request of each list of calls.
pub fn large_ring_never_refuses(size: u64, most: u64, most_a_frame: u64, most_frames: u64)
    requires some { 0 < most }
    requires sized { 0 < size }
    requires large { most_frames * most_a_frame + most_a_frame + most ≤ size + 1 }
    ensures { (room : ℕ) (calls : List Call) → ServesAll most most_a_frame most_frames calls
        (record { ring = empty_ring size room; frames = []; current = 0 }) }
{}

/// A ring of the total of all live frames and the open one, and one request's cost less a byte, serves the next request.
pub fn large_ring_serves(ring: u64, tail: u64, taken: u64, size: u64, alignment: u64)
    requires rolled { tail < ring }
    requires within { taken ≤ ring }
    requires sized { 0 < size }
    requires aligned { 0 < alignment }
    ensures { (most total cost : ℕ) → IsFed ring most tail taken cost → size + alignment ≤ most + 1
        → cost + size + alignment ≤ total + 1 → total + most ≤ ring + 1
        → IsFull ring tail taken alignment size → ⊥ }
{}

/// What was asked for goes on bounding the taken bytes, from the tail and from where each later frame starts.
pub fn served_request_counts(ring: u64, tail: u64, taken: u64, size: u64, alignment: u64)
    requires rolled { tail < ring }
    requires within { taken ≤ ring }
    requires sized { 0 < size }
    requires aligned { 0 < alignment }
    ensures { (most start cost place : ℕ) → tail ≤ start → start ≤ tail + taken → size + alignment ≤ most + 1
        → IsRingServed ring tail taken alignment size place → IsFed ring most start (tail + taken - start) cost
        → IsFed ring most start (place + size - start) (cost + size + alignment - 1) }
{}
