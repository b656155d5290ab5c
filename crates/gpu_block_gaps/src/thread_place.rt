//! A place in the order of a thread.

ghost use Rattle.std.specs.Prelude.{◌≡◌, ℕ, ◌≤◌, length, slice_index};
ghost use Rattle.gpu_block_gaps.specs.Ordered.{gaps_of};
ghost use Rattle.gpu_block_gaps.specs.Scan.{StandsIn};

use crate::thread::Thread;
use std::marker::Model;

/// A place among the gaps of a thread, by the slot of the gap there.
#[derive(Drop)]
pub struct ThreadPlace<'a> {
    pub(crate) thread: &'a Thread,
    // The slot of the gap, 0 behind the last one.
    pub(crate) slot: u32,
}

impl<'a> Model for ThreadPlace<'a> {
    ghost use Rattle.gpu_block_gaps.specs.Ordered.{gaps_of};
    ghost use Rattle.gpu_block_gaps.specs.Scan.{Scanned, StandsIn, place_in};

    ghost Value = { Scanned };

    ghost view = { λ s. record {
      gaps = gaps_of s.thread.now;
      place = place_in s.slot
          s.thread.now.order;
    } };

    ghost invariant = { λ s. StandsIn s.slot s.thread.now.order };
}

impl<'a> ThreadPlace<'a> {
    /// The place of the gap in a slot; behind all gaps where that is 0.
    pub fn new(thread: &'a Thread, slot: u32) -> ThreadPlace<'a>
        requires { StandsIn slot thread.now.order }
        ensures gaps { result.gaps ≡ gaps_of thread.now }
        ensures place { (k : ℕ) → k ≤ length thread.now.order
            → slot ≡ slice_index thread.now.order k → result.place ≡ k }
    {
        thread.sound();
        ThreadPlace { thread, slot }
    }
}
