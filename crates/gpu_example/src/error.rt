//! Why the tour ends early.

use gpu_allocator::AllocationError;
use std::alloc::AllocError;
use std::io;
use thiserror::Error;

/// Why the tour ends early.
#[derive(Debug, Drop, Error)]
pub enum TourError {
    #[error("{0}")]
    Allocation(#[from] AllocationError),
    #[error("memory was refused")]
    Memory(#[from(alloc)] AllocError),
    #[error("output failed: {0}")]
    Output(#[from] io::Error),
    #[error("the allocation isn't mapped")]
    NotMapped,
}

pub type Result<T> = std::result::Result<T, TourError>;
