//! A Vulkan device: what it is asked, and what it promises.

mod device;
mod event;
mod flags;
mod journal;
pub mod laws;
mod types;

pub use device::VulkanDevice;
pub use event::Event;
pub use flags::MemoryPropertyFlags;
pub use journal::Journal;
pub use types::{
    AllocationScheme, Buffer, DeviceMemory, Image, MemoryAllocateInfo, MemoryHeap,
    MemoryRequirements, MemoryTypeInfo, PhysicalDevice,
};
