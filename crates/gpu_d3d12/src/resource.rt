//! A resource, as its owner holds it.

ghost use Rattle.std.specs.Prelude.{◌≡◌};
ghost use Rattle.std.specs.Option.{option_copied};

use crate::Allocation;
use gpu_device::d3d12::ID3D12Resource;
use gpu_values::MemoryLocation;

/// A buffer or a texture: in a piece of a heap, or in memory of its own. Give it back by the allocator's `free_resource`. One
/// that is dropped otherwise stays with the device, and its memory with it.
#[derive(Debug, Drop)]
pub struct Resource {
    pub(crate) resource: ID3D12Resource,
    pub(crate) allocation: Option<Allocation>,
    pub(crate) memory_location: MemoryLocation,
    pub(crate) memory_type_index: usize,
    pub(crate) size: u64,
}

impl Resource {
    /// The device's number of it.
    pub fn resource(&self) -> &ID3D12Resource
        ensures { result.now ≡ self.now.resource }
    {
        &self.resource
    }

    /// The piece of a heap that it is placed in; `None` where it is committed.
    pub fn allocation(&self) -> Option<&Allocation>
        ensures { option_copied result ≡ self.now.allocation }
    {
        self.allocation.as_ref()
    }

    /// Who reads and writes it, as it was asked for.
    pub fn memory_location(&self) -> MemoryLocation
        ensures { result ≡ self.now.memory_location }
    {
        self.memory_location
    }

    /// Its size in bytes, as the device told it when it was asked for.
    pub fn size(&self) -> u64
        ensures { result ≡ self.now.size }
    {
        self.size
    }
}
