//! Metal: heaps for buffers, textures and acceleration structures.

pub use gpu_device::metal::{
    CpuCacheMode, HeapDescriptor, MTLHeap, MTLResidencySet, MetalDevice, SizeAndAlign, StorageMode,
    TextureDescriptor,
};
pub use gpu_metal::{
    Allocation, AllocationCreateDesc, Allocator, AllocatorCreateDesc,
    CommittedAllocationStatistics, Heaps, laws,
};
