//! A ring over an allocation of 16 bytes.

mod refused;

use gpu_device::vulkan::{
    AllocationScheme, MemoryHeap, MemoryPropertyFlags, MemoryRequirements, MemoryTypeInfo,
    PhysicalDevice,
};
use gpu_sim::SimVulkan;
use gpu_upload::UploadRing;
use gpu_values::{AllocationSizes, AllocatorDebugSettings, MemoryLocation};
use gpu_vulkan::{Allocation, AllocationCreateDesc, Allocator, AllocatorCreateDesc};
use log::sink::Discard;
use std::alloc::{AllocError, Global};

/// A device with one memory type, which the host sees.
fn simulated(alloc: Global) -> Result<SimVulkan, AllocError> {
    let heaps = Vec::from_slice(
        alloc,
        &[MemoryHeap {
            size: 1 << 30,
            flags: 0,
        }],
    )?;
    let types = Vec::from_slice(
        alloc,
        &[MemoryTypeInfo {
            property_flags: MemoryPropertyFlags(6),
            heap_index: 0,
        }],
    )?;
    let refusals = Vec::new(alloc);
    Ok(SimVulkan::new(alloc, heaps, types, 1, u64::MAX, refusals))
}

/// An allocator over it.
fn made(alloc: Global) -> Option<Allocator<SimVulkan>> {
    let desc = AllocatorCreateDesc {
        device: simulated(alloc).ok()?,
        physical_device: PhysicalDevice(1),
        debug_settings: AllocatorDebugSettings::default(),
        buffer_device_address: false,
        allocation_sizes: AllocationSizes::default(),
    };
    match Allocator::new(&Discard, alloc, desc) {
        Ok(allocator) => Some(allocator),
        Err((_, _)) => None,
    }
}

/// Memory of 16 bytes, at a location that is asked for once: an upload's is asked for again where the device lacks host memory.
fn take(a: &mut Allocator<SimVulkan>) -> Option<Allocation> {
    let desc = AllocationCreateDesc {
        name: "uploads",
        requirements: MemoryRequirements {
            size: 16,
            alignment: 1,
            memory_type_bits: u32::MAX,
        },
        location: MemoryLocation::GpuToCpu,
        linear: true,
        allocation_scheme: AllocationScheme::GpuAllocatorManaged,
    };
    match a.allocate(&Discard, &desc) {
        Ok(allocation) => Some(allocation),
        Err(_) => None,
    }
}

/// Uploads bytes, where the ring's memory is mapped.
fn put(
    a: &mut Allocator<SimVulkan>,
    ring: &mut UploadRing,
    bytes: &[u8],
    alignment: u64,
) -> Option<u64> {
    if bytes.is_empty() || alignment == 0 || a.mapped_slice(ring.allocation()).is_none() {
        return None;
    }
    ring.upload(a, bytes, alignment)
}

/// Whether the ring's memory reads as these bytes.
fn reads(a: &Allocator<SimVulkan>, ring: &UploadRing, bytes: &[u8]) -> bool {
    match a.mapped_slice(ring.allocation()) {
        Some(slice) => slice == bytes,
        None => false,
    }
}
