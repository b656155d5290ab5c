//! The DirectX 12 allocator: pieces of heaps for buffers and textures, and resources placed in them or committed.
#![tactic(auto)]

mod allocate;
mod allocator;
mod category;
mod committed;
mod committed_record;
mod committed_requests;
mod create_resource;
mod describe;
mod device_version;
mod free_resource;
mod heap;
mod journal;
pub mod laws;
mod logging;
mod memory_kind;
mod question;
mod resource;
mod resource_answer;
mod setup;
mod source;

pub use allocator::Allocator;
pub use category::ResourceCategory;
use committed::{CommittedMemory, CommittedResources};
pub use committed_record::CommittedRecord;
pub use committed_requests::{AwaitedResource, Committed, CommittedRequests};
pub use describe::{AllocationCreateDesc, AllocatorCreateDesc, is_again, request_of};
pub use device_version::ID3D12DeviceVersion;
pub use heap::{heap_desc, heap_properties, refusal_of_answer};
use heap::{create_block_heap, release_block_heap};
pub use memory_kind::{MemoryKind, kind_at, type_count, type_for};
pub use question::{
    CommittedAllocationStatistics, CreateCall, ResourceCreateDesc, ResourceStateOrBarrierLayout,
    ResourceType, allocation_info_of, question_for,
};
pub use resource::Resource;
pub use resource_answer::{create_committed, create_placed};
pub use setup::empty_types;
use setup::{parts_of, tier_of};

/// A piece of a heap, as its owner holds it. Place a resource there.
pub type Allocation = gpu_pool::Allocation<gpu_device::d3d12::ID3D12Heap>;
