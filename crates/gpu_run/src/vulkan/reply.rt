//! What a session answers.

use gpu_values::{AllocationError, AllocatorReport};
use std::num::NonZeroU64;

/// What is told of a new allocation. Offset and size are bytes.
#[derive(Clone, Copy, Debug, PartialEq, Eq)]
pub struct Allocated {
    pub memory_type: usize,
    pub slot: usize,
    pub offset: u64,
    pub size: u64,
    /// Its number in its block.
    pub chunk: NonZeroU64,
    /// Whether memory of its own was asked for.
    pub dedicated: bool,
    /// Whether the host can read and write its bytes.
    pub mapped: bool,
}

/// The reply to a command. Any but `Done` of `Free`, `Write` and `SetBudget`, `Capacity`, `Busy`, `Unbound`, `Unmapped` and
/// `OutOfRange` may in its place be `Error(HostOutOfMemory)`; then the command changed nothing but what the device counts of questions that it
/// was asked before.
#[derive(Drop)]
pub enum Reply {
    /// The number stands for a new allocation.
    Allocated(Allocated),
    Done,
    /// The bytes that were read.
    Bytes(Vec<u8>),
    Report(AllocatorReport),
    /// The texts of all live pieces.
    Leaks(Vec<String>),
    /// The sum of the sizes of the live blocks, in bytes.
    Capacity(u64),
    /// The number that was to be bound stands for an allocation already.
    Busy,
    /// The number stands for nothing.
    Unbound,
    /// No block ahead of the allocation's has a second place.
    NoPlace,
    /// The allocation is null, or the host can't see its memory.
    Unmapped,
    /// The range ends past the allocation.
    OutOfRange,
    Error(AllocationError),
}
