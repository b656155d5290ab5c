//! The Vulkan allocator over a simulated device.

use crate::caller::fill_one_of_two;
use crate::error::{Result, TourError};
use gpu_allocator::vulkan::*;
use gpu_allocator::{AllocationError, AllocationSizes, AllocatorDebugSettings, MemoryLocation};
use gpu_sim::SimVulkan;
use log::sink::Discard;
use std::alloc::Global;

/// Bytes in a megabyte.
const MB: u64 = 1_048_576;

/// A device with a heap of 1 GB of its own, and one of 512 MB that the host sees. Yours implements `VulkanDevice` in its place.
fn simulated_device(alloc: Global) -> Result<SimVulkan> {
    let mut heaps = Vec::with_capacity(alloc, 2)?;
    for size in [1024 * MB, 512 * MB] {
        heaps.push(MemoryHeap { size, flags: 0 })?;
    }
    let mut types = Vec::with_capacity(alloc, 2)?;
    types.push(MemoryTypeInfo {
        property_flags: MemoryPropertyFlags::DEVICE_LOCAL,
        heap_index: 0,
    })?;
    types.push(MemoryTypeInfo {
        property_flags: MemoryPropertyFlags::HOST_VISIBLE | MemoryPropertyFlags::HOST_COHERENT,
        heap_index: 1,
    })?;
    Ok(SimVulkan::new(alloc, heaps, types, 1024, u64::MAX, Vec::new(alloc)))
}

/// An allocator, which owns the device. A real one keeps the default block sizes: 256 MB, and 64 MB where the host sees them.
fn allocator(
    alloc: Global,
    device: SimVulkan,
) -> std::result::Result<Allocator<SimVulkan>, AllocationError> {
    let desc = AllocatorCreateDesc {
        device,
        physical_device: PhysicalDevice(1),
        debug_settings: AllocatorDebugSettings::default(),
        buffer_device_address: false,
        allocation_sizes: AllocationSizes::new(4 * MB, 4 * MB),
    };
    Ok(Allocator::new(&Discard, alloc, desc)?)
}

/// A buffer that the host writes and the GPU reads.
fn upload_buffer(size: u64) -> AllocationCreateDesc<'static> {
    AllocationCreateDesc {
        name: "upload buffer",
        requirements: MemoryRequirements {
            size,
            alignment: 256,
            memory_type_bits: u32::MAX,
        },
        location: MemoryLocation::CpuToGpu,
        linear: true,
        allocation_scheme: AllocationScheme::GpuAllocatorManaged,
    }
}

/// A texture in a block of its own.
fn texture(image: Image) -> AllocationCreateDesc<'static> {
    AllocationCreateDesc {
        name: "texture",
        requirements: MemoryRequirements {
            size: 4 * MB,
            alignment: 1024,
            memory_type_bits: u32::MAX,
        },
        location: MemoryLocation::GpuOnly,
        linear: false,
        allocation_scheme: AllocationScheme::DedicatedImage(image),
    }
}

/// Writes a byte all over an allocation, and reads the first one back.
fn write_and_read(a: &mut Allocator<SimVulkan>, buffer: &Allocation, byte: u8) -> Result<u8> {
    let bytes = a.mapped_slice_mut(buffer).ok_or(TourError::NotMapped)?;
    bytes.fill(byte);
    let bytes = a.mapped_slice(buffer).ok_or(TourError::NotMapped)?;
    bytes.first().copied().ok_or(TourError::NotMapped)
}

/// Lets a second party write into memory beside the first one's, in the same block: what the first one reads is proved to be
/// what it wrote.
fn share_a_block(a: &mut Allocator<SimVulkan>, first: &Allocation) -> Result<Allocation> {
    let second = a.allocate(&Discard, &upload_buffer(1000))?;
    if a.is_live(first)
        && first.chunk_id() != second.chunk_id()
        && a.mapped_slice(&second).is_some()
    {
        fill_one_of_two(a, &second, first, 9);
    }
    Ok(second)
}

/// Asks for more than the heap has, and for more than a budget allows.
fn handle_refusals(rt: &HostRuntime, a: &mut Allocator<SimVulkan>) -> Result<()> {
    for size in [1024 * MB, 8 * MB] {
        a.set_budget(1, Some(8 * MB))?;
        match a.allocate(&Discard, &upload_buffer(size)) {
            Ok(buffer) => a.free(&Discard, buffer).map_err(AllocationError::from)?,
            Err(AllocationError::BudgetExceeded) => println!(rt; "{size} bytes: over budget")?,
            Err(error) => println!(rt; "{size} bytes: {error}")?,
        }
    }
    Ok(())
}

/// Gives back what isn't needed any more. It takes no memory, and can't fail for a live allocation.
fn give_back(
    a: &mut Allocator<SimVulkan>,
    allocations: [Allocation; 3],
) -> std::result::Result<(), AllocationError> {
    let [buffer, second, texture] = allocations;
    a.free(&Discard, buffer)?;
    a.free(&Discard, second)?;
    a.free(&Discard, texture)?;
    Ok(())
}

/// Makes, uses and gives back two buffers and a texture.
fn use_memory(rt: &HostRuntime, a: &mut Allocator<SimVulkan>) -> Result<()> {
    let buffer = a.allocate(&Discard, &upload_buffer(65536))?;
    let byte = write_and_read(a, &buffer, 7)?;
    let (size, offset) = (buffer.size(), buffer.offset());
    println!(rt; "buffer: {size} bytes at offset {offset} of its block, reads {byte}")?;
    let second = share_a_block(a, &buffer)?;
    let mut texture = a.allocate(&Discard, &texture(Image(1)))?;
    a.rename_allocation(&mut texture, "shadow map")?;
    let report = a.generate_report()?.text(None)?;
    println!(rt; "{report}")?;
    handle_refusals(rt, a)?;
    give_back(a, [buffer, second, texture])?;
    let capacity = a.capacity();
    println!(rt; "all given back: {capacity} bytes stay in the last shared block")?;
    Ok(())
}

/// From the device to the device.
pub fn tour(rt: &HostRuntime) -> Result<()> {
    let mut a = allocator(rt.alloc(), simulated_device(rt.alloc())?)?;
    let done = use_memory(rt, &mut a);
    let device = a.destroy(&Discard);
    let held = device.held();
    println!(rt; "destroyed: the device holds {held} memories")?;
    done
}
