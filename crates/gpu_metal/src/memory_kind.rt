//! The memory types of a Metal device, and which of them serves a location.

ghost use Rattle.std.specs.Prelude.{◌≡◌, ◌<◌, length, slice_get, Some, codes};
ghost use Rattle.gpu_metal.specs.MemoryKinds.{locations, IsFirstServing, heap_descriptor, heap_label, is_host};

use gpu_device::metal::{CpuCacheMode, HeapDescriptor, StorageMode};
use gpu_values::MemoryLocation;

/// How many memory types there are: one for each location that isn't unknown.
pub const TYPE_COUNT: usize = 3;

/// The memory type that a location takes: the first that serves it. Any serves an unknown one, so the first does.
pub fn type_for(location: MemoryLocation) -> usize
    ensures first { IsFirstServing location result }
    ensures there { result < length locations }
{
    match location {
        MemoryLocation::Unknown | MemoryLocation::GpuOnly => 0,
        MemoryLocation::CpuToGpu => 1,
        MemoryLocation::GpuToCpu => 2,
    }
}

/// The location of the memory type at `index`.
pub fn location_at(index: usize) -> MemoryLocation
    requires { index < length locations }
    ensures { slice_get locations index ≡ Some result }
{
    match index {
        0 => MemoryLocation::GpuOnly,
        1 => MemoryLocation::CpuToGpu,
        _ => MemoryLocation::GpuToCpu,
    }
}

/// The heaps of a location: the GPU's own memory, or memory that it shares with the CPU, where writes are gathered for
/// uploads and cached for reading back.
pub fn heap_descriptor(location: MemoryLocation) -> HeapDescriptor
    ensures { result ≡ heap_descriptor location }
{
    let (storage_mode, cpu_cache_mode) = match location {
        MemoryLocation::Unknown | MemoryLocation::GpuOnly => {
            (StorageMode::Private, CpuCacheMode::DefaultCache)
        }
        MemoryLocation::CpuToGpu => (StorageMode::Shared, CpuCacheMode::WriteCombined),
        MemoryLocation::GpuToCpu => (StorageMode::Shared, CpuCacheMode::DefaultCache),
    };
    HeapDescriptor {
        storage_mode,
        cpu_cache_mode,
    }
}

/// The label of the heaps of a location.
pub fn heap_label(location: MemoryLocation) -> &'static str
    ensures { result.now ≡ heap_label location }
{
    match location {
        MemoryLocation::Unknown => "MemoryBlock Unknown",
        MemoryLocation::GpuOnly => "MemoryBlock GpuOnly",
        MemoryLocation::CpuToGpu => "MemoryBlock CpuToGpu",
        MemoryLocation::GpuToCpu => "MemoryBlock GpuToCpu",
    }
}

/// Whether blocks of a location have the sizes of memory that the host can see: where the GPU alone doesn't.
pub fn is_host(location: MemoryLocation) -> bool
    ensures { result ≡ is_host location }
{
    heap_descriptor(location).storage_mode != StorageMode::Private
}
