//! The DirectX 12 allocator over a simulated device.

use crate::error::Result;
use gpu_allocator::d3d12::*;
use gpu_allocator::{AllocationError, AllocationSizes, AllocatorDebugSettings, MemoryLocation};
use gpu_sim::SimD3D12;
use log::sink::Discard;
use std::alloc::Global;

/// An allocator over a device of resource heap tier 2, by its newest interface. Yours implements `D3D12Device`.
fn allocator(alloc: Global) -> std::result::Result<Allocator<SimD3D12>, AllocationError> {
    let device = SimD3D12::new(alloc, Ok(ResourceHeapTier::Tier2), Vec::new(alloc));
    let desc = AllocatorCreateDesc {
        device: ID3D12DeviceVersion::Device12(device),
        debug_settings: AllocatorDebugSettings::default(),
        allocation_sizes: AllocationSizes::default(),
    };
    Ok(Allocator::new(alloc, desc)?)
}

/// A buffer of this many bytes.
fn buffer(width: u64) -> ResourceDesc {
    ResourceDesc {
        dimension: ResourceDimension::Buffer,
        alignment: 0,
        width,
        height: 1,
        depth_or_array_size: 1,
        mip_levels: 1,
        format: Format(0),
        sample_count: 1,
        sample_quality: 0,
        layout: 1,
        flags: 0,
    }
}

/// Properties of a heap of the device's own.
const DEFAULT_HEAP: HeapProperties = HeapProperties {
    heap_type: HeapType::Default,
    cpu_page_property: CpuPageProperty::Unknown,
    memory_pool_preference: MemoryPool::Unknown,
    creation_node_mask: 0,
    visible_node_mask: 0,
};

/// Asks for a buffer in the GPU's memory.
fn asked<'a>(
    name: &'a str,
    resource_desc: &'a ResourceDesc,
    resource_type: &'a ResourceType<'a>,
) -> ResourceCreateDesc<'a> {
    ResourceCreateDesc {
        name,
        memory_location: MemoryLocation::GpuOnly,
        resource_category: ResourceCategory::Buffer,
        resource_desc,
        castable_formats: &[],
        clear_value: None,
        initial_state_or_layout: ResourceStateOrBarrierLayout::ResourceState(0),
        resource_type,
    }
}

/// Memory of a resource's own, which the allocator only counts.
fn own_memory() -> ResourceType<'static> {
    ResourceType::Committed {
        heap_properties: &DEFAULT_HEAP,
        heap_flags: HeapFlags(0),
    }
}

/// Makes a placed and a committed buffer, and gives both back.
fn use_memory(rt: &HostRuntime, a: &mut Allocator<SimD3D12>) -> Result<()> {
    let desc = buffer(70_000);
    let own = own_memory();
    let in_a_heap = asked("vertices", &desc, &ResourceType::Placed);
    let placed = a.create_resource(&Discard, &in_a_heap)?;
    let committed = a.create_resource(&Discard, &asked("indices", &desc, &own))?;
    let (size, capacity) = (placed.size(), a.capacity());
    println!(rt; "d3d12: a placed buffer of {size} bytes in heaps of {capacity}")?;
    if let Some(statistics) = a.committed(0) {
        let (count, total) = (statistics.num_allocations, statistics.total_size);
        println!(rt; "d3d12: {count} committed resource of {total} bytes")?;
    }
    a.free_resource(&Discard, committed)
        .map_err(AllocationError::from)?;
    a.free_resource(&Discard, placed)
        .map_err(AllocationError::from)?;
    Ok(())
}

/// From the device to the device.
pub fn tour(rt: &HostRuntime) -> Result<()> {
    let mut a = allocator(rt.alloc())?;
    let done = use_memory(rt, &mut a);
    let version = a.destroy(&Discard);
    let held = version.device().held();
    println!(rt; "d3d12: destroyed: the device holds {held} heaps and resources")?;
    done
}
