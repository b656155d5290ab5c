//! The Metal allocator: pieces of heaps for buffers, textures and acceleration structures.
#![tactic(auto)]

mod allocator;
mod describe;
mod heap;
pub mod laws;
mod logging;
mod memory_kind;
mod residency;
mod setup;
mod source;

pub use allocator::{Allocator, Heaps};
pub use describe::{
    AllocationCreateDesc, AllocatorCreateDesc, CommittedAllocationStatistics, is_again, request_of,
};
pub use heap::heap_refusal;
use heap::{create_block_heap, release_block_heap};
pub use memory_kind::{heap_descriptor, heap_label, location_at, type_for};
use memory_kind::{TYPE_COUNT, is_host};
use residency::{commit_set, create_residency_set};
pub use setup::empty_types;

/// A piece of a heap, as its owner holds it. Make a resource there.
pub type Allocation = gpu_pool::Allocation<gpu_device::metal::MTLHeap>;
