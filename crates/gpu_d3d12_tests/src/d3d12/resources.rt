//! Resources of another allocator.

use super::*;
use gpu_d3d12::{Resource, ResourceCreateDesc, ResourceStateOrBarrierLayout, ResourceType};
use gpu_device::d3d12::{
    ClearValue, CpuPageProperty, HeapFlags, HeapProperties, HeapType, MemoryPool,
};
use gpu_values::AllocationError;

/// The properties of a committed resource in the GPU's memory.
pub const PROPERTIES: HeapProperties = HeapProperties {
    heap_type: HeapType::Default,
    cpu_page_property: CpuPageProperty::Unknown,
    memory_pool_preference: MemoryPool::Unknown,
    creation_node_mask: 0,
    visible_node_mask: 0,
};

const CLEAR: ClearValue = ClearValue {
    format: Format(28),
    value: [1, 2, 3, 4],
};

pub const IN_STATE: ResourceStateOrBarrierLayout = ResourceStateOrBarrierLayout::ResourceState(1);

/// The memory of a committed resource.
pub fn own_memory() -> ResourceType<'static> {
    ResourceType::Committed {
        heap_properties: &PROPERTIES,
        heap_flags: HeapFlags(0),
    }
}

/// A resource in the GPU's memory.
pub fn asked<'a>(
    resource_desc: &'a ResourceDesc,
    castable_formats: &'a [Format],
    initial_state_or_layout: ResourceStateOrBarrierLayout,
    resource_type: &'a ResourceType<'a>,
) -> ResourceCreateDesc<'a> {
    ResourceCreateDesc {
        name: "buffer",
        memory_location: MemoryLocation::GpuOnly,
        resource_category: ResourceCategory::Buffer,
        resource_desc,
        castable_formats,
        clear_value: Some(&CLEAR),
        initial_state_or_layout,
        resource_type,
    }
}

/// Whether `b` refuses a resource of `a` for the cause of this text, and `a` takes it back.
fn comes_back(
    a: &mut Allocator<SimD3D12>,
    b: &mut Allocator<SimD3D12>,
    resource: Resource,
    told: &str,
) -> bool {
    match b.free_resource(&Discard, resource) {
        Err((AllocationError::Internal(fault), back)) => {
            fault.text == told && a.free_resource(&Discard, back).is_ok()
        }
        _ => false,
    }
}

/// A resource of `a` that is offered to `b`.
fn offered(
    a: &mut Allocator<SimD3D12>,
    b: &mut Allocator<SimD3D12>,
    memory: &ResourceType,
    told: &str,
) -> bool {
    let made = a.create_resource(&Discard, &asked(&buffer(512), &[], IN_STATE, memory));
    match made {
        Ok(resource) => comes_back(a, b, resource, told),
        Err(_) => false,
    }
}

/// What another allocator does with resources of `a`.
fn with_another(alloc: Global, a: &mut Allocator<SimD3D12>) -> bool {
    match made(alloc, &[]) {
        Some(mut b) => {
            let committed = offered(a, &mut b, &own_memory(), "Resource was already freed.");
            let placed = offered(
                a,
                &mut b,
                &ResourceType::Placed,
                "Memory block must be Some.",
            );
            let held = destroyed(b).held();
            committed && placed && held == 0
        }
        None => false,
    }
}

#[test]
fn resources_that_are_not_live_come_back(rt: HostRuntime) {
    let came_back = match made(rt.alloc(), &[]) {
        Some(mut a) => {
            let came_back = with_another(rt.alloc(), &mut a);
            let held = destroyed(a).held();
            came_back && held == 0
        }
        None => false,
    };
    check(&rt, &[came_back]);
}
