//! DirectX 12: heaps for buffers and textures, and resources.

pub use gpu_d3d12::{
    Allocation, AllocationCreateDesc, Allocator, AllocatorCreateDesc,
    CommittedAllocationStatistics, ID3D12DeviceVersion, Resource, ResourceCategory,
    ResourceCreateDesc, ResourceStateOrBarrierLayout, ResourceType, laws,
};
pub use gpu_device::d3d12::{
    ClearValue, CpuPageProperty, D3D12Device, Format, HeapContent, HeapDesc, HeapFlags,
    HeapProperties, HeapType, ID3D12Heap, ID3D12Resource, MemoryPool, ResourceAllocationInfo,
    ResourceDesc, ResourceDesc1, ResourceDimension, ResourceHeapTier,
};
