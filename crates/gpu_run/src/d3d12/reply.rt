//! What a session answers.

use gpu_d3d12::CommittedAllocationStatistics;
use gpu_device::d3d12::{ID3D12Heap, ID3D12Resource};
use gpu_values::{AllocationError, AllocatorReport};

/// What is told of a piece.
pub type Allocated = crate::Allocated<ID3D12Heap>;

/// What is told of a new resource.
#[derive(Clone, Copy, Debug, PartialEq, Eq)]
pub struct Made {
    /// The device's number of it.
    pub resource: ID3D12Resource,
    /// In bytes, as the device tells it.
    pub size: u64,
    /// The piece that it is placed in; `None` where it is committed.
    pub piece: Option<Allocated>,
}

/// The reply to a command. `Allocated`, `Made`, `Done` of `Rename`, `Leaks` and `Report` may in their place be
/// `Error(HostOutOfMemory)`; then the command changed nothing but what the device counts of questions that it was asked before.
#[derive(Drop)]
pub enum Reply {
    /// The number stands for a new allocation.
    Allocated(Allocated),
    /// The number stands for a new resource.
    Made(Made),
    Done,
    /// The texts of the live pieces by memory type, then by slot, then by offset.
    Leaks(Vec<String>),
    Report(AllocatorReport),
    /// The sum of the sizes of the live blocks, in bytes.
    Capacity(u64),
    /// How many committed resources there are, and their sizes' sum in bytes; `None` where there is no such memory type.
    Committed(Option<CommittedAllocationStatistics>),
    /// No block ahead of the allocation's has a second place.
    NoPlace,
    /// The number that was to be bound stands for something already.
    Busy,
    /// The number stands for nothing.
    Unbound,
    Error(AllocationError),
}
