//! The block that is timed, and a count of what came of the calls on it.

ghost use Rattle.std.specs.Prelude.{◌≢◌};

use crate::draw::Asked;
use gpu_block::FreeListAllocator;
use gpu_values::{AllocationType, Result, internal_fault};
use std::alloc::Global;
use std::marker::Model;
use std::num::NonZeroU64;

/// What came of the calls so far.
#[derive(Clone, Copy)]
pub struct Tally {
    pub granted: u64,
    pub refused: u64,
    /// Of the offsets that were granted.
    pub sum: u64,
}

/// A block with pages of that size.
#[derive(Drop)]
pub struct Field {
    block: FreeListAllocator,
    pages: u64,
    tally: Tally,
}

impl Model for Field {
    ghost use Rattle.std.specs.Prelude.{◌≡◌, ℕ, ◌<◌};

    ghost Value = { ℕ };

    ghost view = { λ f. f.pages };

    ghost invariant = { λ f. f.pages ≡ f.block.block.granularity };
}

impl Field {
    pub fn new(alloc: Global, size: u64, pages: u64) -> Result<Field> {
        if size == 0 || !pages.is_power_of_two() {
            return Err(internal_fault("a block has bytes, and pages of a power of two"));
        }
        let block = FreeListAllocator::new(alloc, size, pages)?;
        Ok(Field {
            block,
            pages,
            tally: Tally {
                granted: 0,
                refused: 0,
                sum: 0,
            },
        })
    }

    /// Allocates a piece, and tells its number; nothing where it is refused.
    pub fn take(&mut self, asked: Asked) -> Option<NonZeroU64>
        requires { asked.kind ≢ AllocationType.Free }
    {
        if asked.size == 0 || !asked.alignment.is_power_of_two() {
            return None;
        }
        let answer = self.block.allocate(
            asked.size,
            asked.alignment,
            asked.kind,
            self.pages,
            "piece",
        );
        match answer {
            Ok((offset, number)) => {
                self.tally.granted = self.tally.granted.wrapping_add(1);
                self.tally.sum = self.tally.sum.wrapping_add(offset);
                Some(number)
            }
            Err(_) => {
                self.tally.refused = self.tally.refused.wrapping_add(1);
                None
            }
        }
    }

    /// Frees a piece.
    pub fn give_back(&mut self, number: Option<NonZeroU64>) {
        if self.block.free(number).is_err() {
            self.tally.refused = self.tally.refused.wrapping_add(1);
        }
    }

    /// Gives pieces back, in that order.
    pub fn give_all_back(&mut self, numbers: &[Option<NonZeroU64>]) {
        for number in numbers {
            self.give_back(*number);
        }
    }

    /// How many pieces a report shows.
    pub fn report(&self) -> Result<usize> {
        Ok(self.block.report_allocations()?.len())
    }

    pub fn tally(&self) -> Tally {
        self.tally
    }

    /// The bytes of all pieces.
    pub fn held(&self) -> u64 {
        self.block.allocated()
    }
}
