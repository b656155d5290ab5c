//! What an allocator and an allocation are made from.

ghost use Rattle.std.specs.Prelude.{◌≡◌, false};
ghost use Rattle.gpu_core.specs.TypeTake.{asked};
ghost use Rattle.gpu_d3d12.specs.Category.{category_of};
ghost use Rattle.gpu_d3d12.specs.Describe.{request_of};
ghost use Rattle.gpu_d3d12.specs.Step.{is_again};

use crate::{Allocation, ID3D12DeviceVersion, ResourceCategory};
use gpu_core::Request;
use gpu_device::d3d12::{D3D12Device, ResourceDesc};
use gpu_values::{AllocationSizes, AllocationType, AllocatorDebugSettings, MemoryLocation};

/// What an allocator is made from. It owns the device until `destroy` gives it back.
pub struct AllocatorCreateDesc<D> {
    /// The device by the newest interface that it has.
    pub device: ID3D12DeviceVersion<D>,
    /// Which lines are logged.
    pub debug_settings: AllocatorDebugSettings,
    /// How large the shared blocks are, in bytes.
    pub allocation_sizes: AllocationSizes,
}

/// What an allocation is asked for. Sizes and alignments are bytes.
#[derive(Clone, Debug, Drop)]
pub struct AllocationCreateDesc<'a> {
    /// Names the allocation in reports, leaks and log lines.
    pub name: &'a str,
    /// Who reads and writes it.
    pub location: MemoryLocation,
    /// What the resource takes of a heap (`ID3D12Device::GetResourceAllocationInfo`).
    pub size: u64,
    /// Its offset is a multiple of this, a power of two.
    pub alignment: u64,
    /// Of which category the resource is; it matters at resource heap tier 1 alone.
    pub resource_category: ResourceCategory,
}

impl<'a> AllocationCreateDesc<'a> {
    /// What an allocation for this resource is asked for: its size and alignment are what the device tells, and its category
    /// follows from the description. It takes no memory.
    pub fn from_d3d12_resource_desc<D: D3D12Device>(
        device: &D,
        desc: &ResourceDesc,
        name: &'a str,
        location: MemoryLocation,
    ) -> Self
        ensures size { result.size ≡ ((D.properties device.now).allocation_info
            desc.now).size_in_bytes }
        ensures alignment { result.alignment
            ≡ ((D.properties device.now).allocation_info desc.now).alignment }
        ensures category { result.resource_category ≡ category_of desc.now }
        ensures name { result.name.now ≡ name.now }
        ensures location { result.location ≡ location }
    {
        let info = device.resource_allocation_info(desc);
        AllocationCreateDesc {
            name,
            location,
            size: info.size_in_bytes,
            alignment: info.alignment,
            resource_category: ResourceCategory::from(desc),
        }
    }
}

/// What a memory type is asked for: all pieces are linear, and none asks for a block of its own.
pub fn request_of<'a>(desc: &AllocationCreateDesc<'a>) -> Request<'a>
    ensures asks { asked result ≡ request_of desc.now }
    ensures shared { result.dedicated ≡ false }
{
    Request {
        size: desc.size,
        alignment: desc.alignment,
        kind: AllocationType::Linear,
        dedicated: false,
        name: desc.name,
    }
}

/// Whether the description is the request again that a piece of this size was made for: valid, and of that size.
pub fn is_again(size: u64, desc: &AllocationCreateDesc) -> bool
    ensures { result ≡ is_again size desc.now }
{
    desc.size != 0 && desc.alignment.is_power_of_two() && desc.size == size
}
