//! What a session answers.

use gpu_device::metal::MTLHeap;
use gpu_values::{AllocationError, AllocatorReport};

/// What is told of a piece.
pub type Allocated = crate::Allocated<MTLHeap>;

/// The reply to a command. `Allocated`, `Heaps` and `Report` may in their place be `Error(HostOutOfMemory)`; then the command changed
/// nothing but what the device counts of questions that it was asked before.
#[derive(Drop)]
pub enum Reply {
    /// The number stands for a new allocation.
    Allocated(Allocated),
    Done,
    /// The heaps of the live blocks by memory type, then by slot.
    Heaps(Vec<MTLHeap>),
    Report(AllocatorReport),
    /// The sum of the sizes of the live blocks, in bytes.
    Capacity(u64),
    /// No block ahead of the allocation's has a second place.
    NoPlace,
    /// The number that was to be bound stands for an allocation already.
    Busy,
    /// The number stands for nothing.
    Unbound,
    Error(AllocationError),
}
