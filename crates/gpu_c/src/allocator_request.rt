//! Requests of an allocator and its device's description, as C makes them.

ghost use Rattle.std.specs.Prelude.{◌≡◌, ◌==◌, map, length, nat_le, nat_lt, not, MatchOption, IfOk, Some, false};
ghost use Rattle.std.specs.List.{list_any};
ghost use Rattle.std.specs.Int.{is_power_of_two};
ghost use Rattle.gpu_vulkan.specs.Setup.{lacks_heap};
ghost use Rattle.gpu_machine.specs.VulkanDescription.{description_of};
ghost use Rattle.gpu_c.specs.declared.allocator_values.AllocatorSettings.{AllocatorSettings};
ghost use Rattle.gpu_c.specs.Allocator.{memory_type_told, heap_told, device_told, device_status, block_sizes, scheme_named, Says, SaysNothing, no_lines};
ghost use Rattle.gpu_c.specs.declared.request.TheConstants.{LINEAR};
ghost use Rattle.gpu_c.specs.declared.status.TheConstants.{OK, INVALID_DEVICE, TOO_MANY_TYPES, NO_SUCH_HEAP};

use crate::allocator_values::{AllocatorRequest, AllocatorSettings, DeviceHeap, DeviceMemoryType};
use crate::request::{LINEAR, location_named, served};
use crate::status::{INVALID_DEVICE, NO_SUCH_HEAP, OK, TOO_MANY_TYPES};
use gpu_device::vulkan::{
    AllocationScheme, Buffer, Image, MemoryHeap, MemoryPropertyFlags, MemoryRequirements,
    MemoryTypeInfo,
};
use gpu_values::{AllocationSizes, AllocatorDebugSettings};
use gpu_vulkan::{AllocationCreateDesc, Settings};
use std::alloc::{AllocError, Global};

/// Memory that is shared: whatever its owner puts there.
pub const MANAGED: u32 = 1;

/// How many memory types a device may have (`VK_MAX_MEMORY_TYPES`).
const MAX_MEMORY_TYPES: usize = 32;

/// What memory is made for, by its number; `None` where nothing has it.
fn scheme_named(scheme: u32, resource: u64) -> Option<AllocationScheme>
    ensures { result ≡ scheme_named scheme resource }
{
    match scheme {
        1 => Some(AllocationScheme::GpuAllocatorManaged),
        2 => Some(AllocationScheme::DedicatedBuffer(Buffer(resource))),
        3 => Some(AllocationScheme::DedicatedImage(Image(resource))),
        _ => None,
    }
}

/// What an allocator is asked, if the request is one that is served.
pub fn described<'a>(request: &AllocatorRequest, name: &'a [u8]) -> Option<AllocationCreateDesc<'a>>
    ensures { MatchOption result (SaysNothing request.now name.now)
        (λ d. Says request.now name.now (description_of d)) }
{
    match served(request.size, request.alignment, request.kind, name) {
        None => None,
        Some((_, name)) => match location_named(request.location) {
            None => None,
            Some(location) => match scheme_named(request.scheme, request.resource) {
                None => None,
                Some(allocation_scheme) => Some(AllocationCreateDesc {
                    name,
                    requirements: MemoryRequirements {
                        size: request.size,
                        alignment: request.alignment,
                        memory_type_bits: request.memory_type_bits,
                    },
                    location,
                    linear: request.kind == LINEAR,
                    allocation_scheme,
                }),
            },
        },
    }
}

/// Whether a memory type lies in a heap that isn't there.
fn lacks_heap(types: &[DeviceMemoryType], heaps: &[DeviceHeap]) -> bool
    ensures { (settings : AllocatorSettings)
        → result ≡ list_any (lacks_heap (device_told types.now heaps.now settings))
        (map memory_type_told types.now) }
{
    for info in types {
        if heaps.len() <= info.heap as usize {
            return true;
        }
    }
    false
}

/// Why no allocator is made of what is told of a device, or `OK`.
pub fn device_status(
    types: &[DeviceMemoryType],
    heaps: &[DeviceHeap],
    settings: &AllocatorSettings,
) -> u32
    ensures { result ≡ device_status (device_told types.now heaps.now settings.now) }
{
    if !settings.granularity.is_power_of_two() {
        return INVALID_DEVICE;
    }
    if types.len() > MAX_MEMORY_TYPES {
        return TOO_MANY_TYPES;
    }
    if lacks_heap(types, heaps) {
        return NO_SUCH_HEAP;
    }
    OK
}

/// The memory types that are told, as an allocator's.
pub fn memory_types_of(
    alloc: Global,
    told: &[DeviceMemoryType],
) -> Result<Vec<MemoryTypeInfo>, AllocError>
    ensures { IfOk result (λ v. v.items ≡ map memory_type_told told.now) }
{
    let mut types = Vec::with_capacity(alloc, told.len())?;
    for info in told {
        types.push_reserved(MemoryTypeInfo {
            property_flags: MemoryPropertyFlags(info.flags),
            heap_index: info.heap,
        });
    }
    Ok(types)
}

/// The heaps that are told, as an allocator's.
pub fn heaps_of(alloc: Global, told: &[DeviceHeap]) -> Result<Vec<MemoryHeap>, AllocError>
    ensures { IfOk result (λ v. v.items ≡ map heap_told told.now) }
{
    let mut heaps = Vec::with_capacity(alloc, told.len())?;
    for heap in told {
        heaps.push_reserved(MemoryHeap {
            size: heap.size,
            flags: heap.flags,
        });
    }
    Ok(heaps)
}

/// What an allocator's maker chose; nothing is logged, and what else memory is made for, its caller tells the driver.
pub fn settings_of(settings: &AllocatorSettings) -> Settings
    ensures sizes { result.sizes ≡ block_sizes settings.now }
    ensures debug { result.debug ≡ no_lines }
    ensures address { result.buffer_device_address ≡ false }
{
    Settings {
        sizes: AllocationSizes::new(settings.device_block_size, settings.host_block_size)
            .with_max_device_memblock_size(settings.largest_device_block_size)
            .with_max_host_memblock_size(settings.largest_host_block_size),
        debug: AllocatorDebugSettings {
            log_memory_information: false,
            log_leaks_on_shutdown: false,
            log_allocations: false,
            log_frees: false,
        },
        buffer_device_address: false,
    }
}
