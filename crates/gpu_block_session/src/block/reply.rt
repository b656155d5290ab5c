//! What a session of one block answers.

use crate::error_number::ErrorNumber;
use gpu_values::AllocationReport;
use std::num::NonZeroU64;

/// What a session of one block answers. Sizes and offsets are bytes.
#[derive(Drop)]
pub enum Reply {
    /// The block was made.
    Block { size: u64 },
    /// The piece lies at `offset`, under the block's number `chunk`.
    Allocated { offset: u64, chunk: NonZeroU64 },
    /// The piece was given back.
    Freed,
    Refused(ErrorNumber),
    /// The caller's number stands for a piece already.
    Busy,
    /// The caller's number stands for no piece.
    Unbound,
    Report(Report),
}

/// The live pieces by offset, and the sums. Sizes and offsets are bytes.
#[derive(Drop)]
pub struct Report {
    pub pieces: Vec<AllocationReport>,
    /// What the pieces take, with their padding.
    pub total: u64,
    /// The size of the block.
    pub capacity: u64,
}
