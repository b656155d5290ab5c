//! The block that is measured.

ghost use Rattle.std.specs.Prelude.{◌≡◌};

use gpu_core::{AllocationType, FreeListAllocator};
use std::alloc::Global;
use std::num::NonZeroU64;

/// A free list, and its page size.
#[derive(Drop)]
pub struct Block {
    list: FreeListAllocator,
    granularity: u64,
    ghost paged: { granularity ≡ list.block.granularity },
}

impl Block {
    /// A free list of that size, where it can be made.
    pub fn new(alloc: Global, size: u64, granularity: u64) -> Option<Block> {
        if size == 0 || !granularity.is_power_of_two() {
            return None;
        }
        match FreeListAllocator::new(alloc, size, granularity) {
            Ok(list) => Some(Block { list, granularity }),
            Err(_) => None,
        }
    }

    /// The number of a new piece, where it is granted.
    pub fn allocate(&mut self, size: u64, alignment: u64, non_linear: bool) -> Option<NonZeroU64> {
        if size == 0 || !alignment.is_power_of_two() {
            return None;
        }
        let kind = if non_linear {
            AllocationType::NonLinear
        } else {
            AllocationType::Linear
        };
        match self
            .list
            .allocate(size, alignment, kind, self.granularity, "w")
        {
            Ok((_, number)) => Some(number),
            Err(_) => None,
        }
    }

    /// Frees a piece.
    pub fn free(&mut self, number: Option<NonZeroU64>) {
        let _ = self.list.free(number);
    }

    /// Bytes of all pieces with their padding.
    pub fn allocated(&self) -> u64 {
        self.list.allocated()
    }
}
