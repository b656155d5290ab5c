//! Why a run ends early.

use gpu_values::AllocationError;
use std::alloc::AllocError;
use std::io;
use thiserror::Error;

/// Why a run ends early.
#[derive(Debug, Drop, Error)]
pub enum BenchError {
    #[error("input or output failed: {0}")]
    Io(#[from] io::Error),
    #[error("memory was refused")]
    Memory(#[from(alloc)] AllocError),
    #[error("the block was refused: {0}")]
    Block(#[from] AllocationError),
}

pub type Result<T> = std::result::Result<T, BenchError>;
