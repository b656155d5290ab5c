//! The ring: frames in flight, oldest first, and the open one.

ghost use Rattle.std.specs.Prelude.{◌≡◌, ℕ, ◌+◌, ◌-◌, ◌*◌, ◌%◌, ◌^◌, ◌<◌, ◌≤◌, ◌↔◌, Some, length, take, drop, slice_get, IfOk, IfSome, IsSome, IsTrue, MatchOption};
ghost use Rattle.gpu_ring.specs.Calls.{empty_ring, RingAllocates, EndsFrame, Retires, IsInFlight, bytes_up_to};
ghost use Rattle.gpu_ring.specs.Line.{IsTaken, IsTakenAt, Apart};
ghost use Rattle.gpu_ring.specs.RingState.{bytes_of};
ghost use Rattle.gpu_ring.specs.Stretch.{stretch_of};

use crate::place::next_place;
use std::alloc::{AllocError, Global};
use std::collections::VecDeque;
use std::marker::Model;

/// A frame that was ended: the pieces since the frame before it.
#[derive(Clone, Copy, Debug, PartialEq, Eq)]
pub struct Frame {
    /// Frames are numbered from 0, as they end.
    pub number: u64,
}

/// What a frame holds.
#[derive(Clone, Copy, Debug, PartialEq, Eq)]
pub struct FrameStatistics {
    /// How many pieces there are in it.
    pub pieces: u64,
    /// Their bytes, those of their padding, and those at the ring's end that they skipped.
    pub bytes: u64,
}

/// A frame before its first piece.
const EMPTY: FrameStatistics = FrameStatistics {
    pieces: 0,
    bytes: 0,
};

/// What a ring holds.
#[derive(Clone, Copy, Debug, PartialEq, Eq)]
pub struct RingStatistics {
    /// The ring's size in bytes.
    pub size: u64,
    /// The bytes that aren't free: those of pieces, of their padding, and those at the ring's end that a piece skipped.
    pub taken: u64,
    /// How many frames are in flight: ended and not yet retired.
    pub frames: usize,
    /// The number of the oldest of these, from which on they are numbered; where there is none, that of the open frame.
    pub oldest: u64,
    /// What the open frame holds.
    pub current: FrameStatistics,
}

/// Where bytes of a ring lie that go on from one another, round its end.
#[derive(Clone, Copy, Debug, PartialEq, Eq)]
pub struct Stretch {
    /// Where they begin, an offset in the ring.
    pub offset: u64,
    /// How many there are from there on, up to the ring's end at most.
    pub size: u64,
    /// How many more there are, from the ring's start on.
    pub rest: u64,
}

/// A ring of so many bytes. A frame takes the bytes from where the frame before it ended, so what a piece skips is freed with it.
#[derive(Drop)]
pub struct Ring {
    size: u64,
    tail: u64,
    taken: u64,
    first: u64,
    frames: VecDeque<FrameStatistics>,
    current: FrameStatistics,
}

impl Model for Ring {
    ghost use Rattle.std.specs.VecDeque.{deque_capacity};
    ghost use Rattle.gpu_ring.specs.RingState.{RingState, IsRing};

    ghost Value = { RingState };

    ghost view = { λ r. record {
      size = r.size;
      tail = r.tail;
      taken = r.taken;
      first = r.first;
      frames = r.frames.items;
      current = r.current;
      room = deque_capacity r.frames;
    } };

    ghost invariant = { λ r. IsRing r.size r.tail r.taken r.first r.frames.items r.current
        (deque_capacity r.frames) };
}

impl Ring {
    /// An empty ring of so many bytes, with room for so many frames in flight. It takes the memory for them; no later call takes any.
    pub fn new(alloc: Global, size: u64, frames: usize) -> Result<Ring, AllocError>
        requires some { 0 < size }
        requires bounded { size < 2 ^ 63 }
        ensures { IfOk result (λ r. r ≡ empty_ring size frames) }
    {
        Ok(Ring {
            size,
            tail: 0,
            taken: 0,
            first: 0,
            frames: VecDeque::with_capacity(alloc, frames)?,
            current: EMPTY,
        })
    }

    /// Allocates a piece of the open frame: its offset, a multiple of the alignment, at which it lies in one part of the ring. `None`
    /// where the taken bytes leave no such place.
    pub fn allocate(&mut self, size: u64, alignment: u64) -> Option<u64>
        requires sized { 0 < size }
        requires aligned { 0 < alignment }
        ensures allocates { RingAllocates self.old size alignment result self.new }
        // the law that a ring is sized by
        ensures enough { self.old.taken + 2 * size + alignment ≤ self.old.size + 2
            → IsSome result }
        // the piece shares no byte with any that lies in the taken ones
        ensures apart { IfSome result (λ o. (q m : ℕ) → 0 < m
            → IsTaken self.old.size self.old.tail self.old.taken q m
            → Apart (q % self.old.size) m o size) }
    {
        let end = self.tail + self.taken;
        let place = next_place(self.size, self.tail, self.taken, size, alignment)?;
        let more = place + size - end;
        self.taken += more;
        self.current.pieces += 1;
        self.current.bytes += more;
        Some(if place < self.size {
            place
        } else {
            place - self.size
        })
    }

    /// Closes the open frame, which is in flight from then on; `None` where there is room for no more, or numbers of 64 bits are used
    /// up, and then nothing changes. It takes no memory.
    pub fn end_frame(&mut self) -> Option<Frame>
        ensures { EndsFrame self.old result self.new }
    {
        let count = self.frames.len();
        if count == self.frames.capacity() {
            return None;
        }
        let number = self.first + count as u64;
        if number == u64::MAX {
            return None;
        }
        self.frames.push_back_reserved(self.current);
        self.current = EMPTY;
        Some(Frame { number })
    }

    // Frees the oldest frame in flight.
    fn retire_oldest(&mut self)
        requires { 0 < length self.old.frames }
        ensures frames { self.new.frames ≡ drop 1 self.old.frames }
        ensures taken { self.new.taken + bytes_of (take 1 self.old.frames) ≡ self.old.taken }
        // the tail goes on by the frame's bytes, round the ring, or back to its start
        ensures tail { 0 < self.new.taken → self.new.tail
            ≡ (self.old.tail + bytes_of (take 1 self.old.frames)) % self.old.size }
        ensures emptied { self.new.taken ≡ 0 → self.new.tail ≡ 0 }
        ensures others { (self.new.first ≡ self.old.first + 1)
            × (self.new.size ≡ self.old.size) × (self.new.current ≡ self.old.current)
            × (self.new.room ≡ self.old.room) }
    {
        let Some(frame) = self.frames.pop_front() else {
            unreachable!()
        };
        self.taken -= frame.bytes;
        self.first += 1;
        let tail = self.tail + frame.bytes;
        self.tail = if self.taken == 0 {
            0
        } else if tail < self.size {
            tail
        } else {
            tail - self.size
        };
    }

    // Whether a frame was ended and not yet retired.
    fn is_in_flight(&self, frame: Frame) -> bool
        ensures { IsTrue result ↔ IsInFlight self.now frame }
    {
        self.first <= frame.number && frame.number < self.first + self.frames.len() as u64
    }

    /// Frees the pieces of that frame and of each older one. Where it isn't in flight, nothing changes. It takes no memory.
    pub fn retire(&mut self, frame: Frame) -> bool
        ensures retires { Retires self.old frame result self.new }
        // a piece past the freed bytes stays taken, at its offset
        ensures kept { IsTrue result → (q m : ℕ) → 0 < m
            → IsTaken self.old.size self.old.tail self.old.taken q m
            → self.old.tail + bytes_up_to self.old frame ≤ q
            → IsTakenAt self.new.size self.new.tail self.new.taken (q % self.old.size) m }
    {
        if !self.is_in_flight(frame) {
            return false;
        }
        for _ in 0..frame.number - self.first + 1 {
            self.retire_oldest();
        }
        true
    }

    /// What it holds.
    pub fn statistics(&self) -> RingStatistics
        ensures { result ≡ record {
          size = self.now.size;
          taken = self.now.taken;
          frames = length self.now.frames;
          oldest = self.now.first;
          current = self.now.current;
        } }
    {
        RingStatistics {
            size: self.size,
            taken: self.taken,
            frames: self.frames.len(),
            oldest: self.first,
            current: self.current,
        }
    }

    /// Where the bytes of the open frame lie: those that have to be flushed before it is handed to the device.
    pub fn current_stretch(&self) -> Stretch
        ensures { result ≡ stretch_of self.now.size
            (self.now.tail + self.now.taken - self.now.current.bytes) self.now.current.bytes }
    {
        let begin = self.tail + (self.taken - self.current.bytes);
        let offset = if begin < self.size {
            begin
        } else {
            begin - self.size
        };
        let size = self.current.bytes.min(self.size - offset);
        Stretch {
            offset,
            size,
            rest: self.current.bytes - size,
        }
    }

    /// What a frame in flight holds; `None` where it isn't in flight.
    pub fn frame_statistics(&self, frame: Frame) -> Option<FrameStatistics>
        ensures { MatchOption result (IsInFlight self.now frame → ⊥)
            (λ held. IsInFlight self.now frame
            × (slice_get self.now.frames (frame.number - self.now.first) ≡ Some held)) }
    {
        if !self.is_in_flight(frame) {
            return None;
        }
        self.frames
            .get((frame.number - self.first) as usize)
            .copied()
    }
}
