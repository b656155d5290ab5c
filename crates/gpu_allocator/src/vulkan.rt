//! Vulkan: device memory for buffers and images.

pub use gpu_device::vulkan::{
    AllocationScheme, Buffer, DeviceMemory, Image, MemoryAllocateInfo, MemoryHeap,
    MemoryPropertyFlags, MemoryRequirements, MemoryTypeInfo, PhysicalDevice, VulkanDevice,
};
pub use gpu_vulkan::{
    Allocation, AllocationCreateDesc, Allocator, AllocatorCreateDesc, MappedAllocationSlab, laws,
};
