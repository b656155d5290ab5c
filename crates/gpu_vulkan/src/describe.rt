//! What an allocator and an allocation are made from.

ghost use Rattle.std.specs.Prelude.{◌≡◌};
ghost use Rattle.gpu_vulkan.specs.Describe.{kind_of, requests_dedicated, request_of};
ghost use Rattle.gpu_core.specs.TypeTake.{asked};

use gpu_core::Request;
use gpu_device::vulkan::{AllocationScheme, MemoryRequirements, PhysicalDevice};
use gpu_values::{AllocationSizes, AllocationType, AllocatorDebugSettings, MemoryLocation};

/// What an allocation is asked for. Sizes and alignments are bytes.
#[derive(Clone, Debug, Drop)]
pub struct AllocationCreateDesc<'a> {
    /// Names the allocation in reports, leaks and log lines.
    pub name: &'a str,
    /// What the buffer or image needs of its memory (`vkGetBufferMemoryRequirements`, `vkGetImageMemoryRequirements`).
    pub requirements: MemoryRequirements,
    /// Who reads and writes it.
    pub location: MemoryLocation,
    /// Whether it is a buffer or a linear image. Others keep to pages of their own (`bufferImageGranularity`).
    pub linear: bool,
    /// Whether it shares a block, or has memory for itself. One above the next shared block's size has a block of its own in
    /// either case.
    pub allocation_scheme: AllocationScheme,
}

/// What an allocator is made from. It owns the device until `destroy` gives it back.
pub struct AllocatorCreateDesc<D> {
    /// What memory is asked of: your implementation of `VulkanDevice`.
    pub device: D,
    /// Must not be null.
    pub physical_device: PhysicalDevice,
    /// Which lines are logged.
    pub debug_settings: AllocatorDebugSettings,
    /// Whether memory is made so that shaders may read its address (`bufferDeviceAddress`).
    pub buffer_device_address: bool,
    /// How large the shared blocks are, in bytes.
    pub allocation_sizes: AllocationSizes,
}

/// The kind of a piece.
pub fn kind_of(linear: bool) -> AllocationType
    ensures { result ≡ kind_of linear }
{
    if linear {
        AllocationType::Linear
    } else {
        AllocationType::NonLinear
    }
}

/// Whether a scheme asks for memory of its own.
pub fn requests_dedicated(scheme: AllocationScheme) -> bool
    ensures { result ≡ requests_dedicated scheme }
{
    match scheme {
        AllocationScheme::DedicatedBuffer(_) | AllocationScheme::DedicatedImage(_) => true,
        AllocationScheme::GpuAllocatorManaged => false,
    }
}

/// What a memory type is asked for.
pub fn request_of<'a>(desc: &AllocationCreateDesc<'a>) -> Request<'a>
    ensures asks { asked result ≡ request_of desc.now }
    ensures own { result.dedicated ≡ requests_dedicated desc.now.allocation_scheme }
{
    Request {
        size: desc.requirements.size,
        alignment: desc.requirements.alignment,
        kind: kind_of(desc.linear),
        dedicated: requests_dedicated(desc.allocation_scheme),
        name: desc.name,
    }
}
