//! Handles and descriptions, in place of Vulkan's own.

use crate::vulkan::flags::MemoryPropertyFlags;

/// The number of a memory (`VkDeviceMemory`); 0 is null.
#[derive(Clone, Copy, Debug, PartialEq, Eq)]
pub struct DeviceMemory(pub u64);

/// The number of a buffer (`VkBuffer`); 0 is null.
#[derive(Clone, Copy, Debug, PartialEq, Eq)]
pub struct Buffer(pub u64);

/// The number of an image (`VkImage`); 0 is null.
#[derive(Clone, Copy, Debug, PartialEq, Eq)]
pub struct Image(pub u64);

/// The number of a physical device (`VkPhysicalDevice`); 0 is null.
#[derive(Clone, Copy, Debug, PartialEq, Eq)]
pub struct PhysicalDevice(pub u64);

/// What a buffer or image needs of its memory (`VkMemoryRequirements`).
#[derive(Clone, Copy, Debug, PartialEq, Eq)]
pub struct MemoryRequirements {
    /// In bytes.
    pub size: u64,
    /// In bytes; the offset is a multiple of it.
    pub alignment: u64,
    /// Bit `i` says that memory type `i` serves.
    pub memory_type_bits: u32,
}

/// A memory type (`VkMemoryType`).
#[derive(Clone, Copy, Debug, PartialEq, Eq)]
pub struct MemoryTypeInfo {
    /// What memory of this type is like.
    pub property_flags: MemoryPropertyFlags,
    /// The heap that it lies in.
    pub heap_index: u32,
}

/// A heap (`VkMemoryHeap`).
#[derive(Clone, Copy, Debug, PartialEq, Eq)]
pub struct MemoryHeap {
    /// In bytes.
    pub size: u64,
    /// The heap's own flags (`VkMemoryHeapFlags`).
    pub flags: u32,
}

/// What a memory is made for (`VkMemoryDedicatedAllocateInfo`).
#[derive(Clone, Copy, Debug, PartialEq, Eq)]
pub enum AllocationScheme {
    /// For this buffer alone.
    DedicatedBuffer(Buffer),
    /// For this image alone.
    DedicatedImage(Image),
    /// For whatever its owner puts there.
    GpuAllocatorManaged,
}

/// What memory is asked for (`VkMemoryAllocateInfo` and the structures chained to it).
#[derive(Clone, Copy, Debug, PartialEq, Eq)]
pub struct MemoryAllocateInfo {
    /// In bytes.
    pub size: u64,
    /// The memory type.
    pub memory_type_index: u32,
    /// Whether shaders may read its address (`VK_MEMORY_ALLOCATE_DEVICE_ADDRESS_BIT`).
    pub device_address: bool,
    /// Whether it is for one resource alone.
    pub scheme: AllocationScheme,
}
