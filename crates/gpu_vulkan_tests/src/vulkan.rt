//! Worked rows of the Vulkan allocator. What the tests look at is told by a `bool`: a proof of a call that may abort costs more
//! than the call itself.

mod bytes;
mod counting;
mod defragmentation;
mod log_lines;
mod moves;
mod refused;
mod reports;
mod rows;
mod setups;

use gpu_allocator::vulkan::*;
use gpu_sim::SimVulkan;
use gpu_sim_base::Refusal;
use gpu_values::{AllocationSizes, AllocatorDebugSettings, MemoryLocation};
use log::sink::Discard;
use std::alloc::{AllocError, Global};
use std::process::Abort;

/// Bytes in a megabyte.
const MB: u64 = 1_048_576;

/// Blocks of 4 MB.
fn small() -> AllocationSizes {
    AllocationSizes::new(4 * MB, 4 * MB)
}

/// Looks that each step of a test went as it should; a failed one is told by its place.
fn check(rt: &impl Abort, steps: &[bool]) {
    for (place, step) in steps.iter().enumerate() {
        assert!(rt; *step, "step {place}");
    }
}

/// Memory that the host can see.
const HOST: MemoryTypeInfo = MemoryTypeInfo {
    property_flags: MemoryPropertyFlags(6),
    heap_index: 0,
};

/// Memory that it can't see.
const DEVICE: MemoryTypeInfo = MemoryTypeInfo {
    property_flags: MemoryPropertyFlags(1),
    heap_index: 0,
};

const GIGABYTE: MemoryHeap = MemoryHeap {
    size: 1024 * MB,
    flags: 0,
};

/// A device's properties, and what it refuses.
#[derive(Clone, Copy)]
struct Properties<'a> {
    heaps: &'a [MemoryHeap],
    types: &'a [MemoryTypeInfo],
    granularity: u64,
    /// The largest memory in bytes.
    limit: u64,
    /// Questions by their number.
    refusals: &'a [(u64, Refusal)],
}

/// These memory types, on a heap of a gigabyte, of a device that grants all.
fn with_types(types: &[MemoryTypeInfo]) -> Properties<'_> {
    Properties {
        heaps: &[GIGABYTE],
        types,
        granularity: 1,
        limit: u64::MAX,
        refusals: &[],
    }
}

/// The simulated device of these properties.
fn simulated(alloc: Global, properties: &Properties) -> std::result::Result<SimVulkan, AllocError> {
    let heaps = Vec::from_slice(alloc, properties.heaps)?;
    let types = Vec::from_slice(alloc, properties.types)?;
    let refusals = Vec::from_slice(alloc, properties.refusals)?;
    Ok(SimVulkan::new(
        alloc,
        heaps,
        types,
        properties.granularity,
        properties.limit,
        refusals,
    ))
}

/// What an allocator is made from, with these block sizes.
fn described(device: SimVulkan, sizes: AllocationSizes) -> AllocatorCreateDesc<SimVulkan> {
    AllocatorCreateDesc {
        device,
        physical_device: PhysicalDevice(1),
        debug_settings: AllocatorDebugSettings::default(),
        buffer_device_address: true,
        allocation_sizes: sizes,
    }
}

/// An allocator over a simulated device.
fn made(
    alloc: Global,
    properties: &Properties,
    sizes: AllocationSizes,
) -> Option<Allocator<SimVulkan>> {
    let device = simulated(alloc, properties).ok()?;
    match Allocator::new(&Discard, alloc, described(device, sizes)) {
        Ok(allocator) => Some(allocator),
        Err((_, _)) => None,
    }
}

/// A linear piece of a shared block.
fn managed(size: u64, alignment: u64, location: MemoryLocation) -> AllocationCreateDesc<'static> {
    AllocationCreateDesc {
        name: "piece",
        requirements: MemoryRequirements {
            size,
            alignment,
            memory_type_bits: u32::MAX,
        },
        location,
        linear: true,
        allocation_scheme: AllocationScheme::GpuAllocatorManaged,
    }
}

/// A piece, where it is given.
fn take(a: &mut Allocator<SimVulkan>, desc: &AllocationCreateDesc) -> Option<Allocation> {
    match a.allocate(&Discard, desc) {
        Ok(allocation) => Some(allocation),
        Err(_) => None,
    }
}

/// Gives an allocation back: whether it was live.
fn give(a: &mut Allocator<SimVulkan>, allocation: Allocation) -> bool {
    match a.free(&Discard, allocation) {
        Ok(()) => true,
        Err((_, _)) => false,
    }
}

/// The slot, offset and number of an allocation.
fn place(allocation: &Allocation) -> (usize, u64, Option<u64>) {
    let number = match allocation.chunk_id() {
        Some(number) => Some(number.get()),
        None => None,
    };
    (allocation.memory_block_index(), allocation.offset(), number)
}
