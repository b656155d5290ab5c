//! What is told of a refused resource.

use super::resources::{IN_STATE, PROPERTIES};
use super::*;
use gpu_d3d12::{CreateCall, ResourceCreateDesc, ResourceType, create_committed, create_placed};
use gpu_device::d3d12::{D3D12Device, HeapFlags, ID3D12Heap, ID3D12Resource};
use gpu_values::Result;

/// A placed buffer.
fn asked<'a>(resource_desc: &'a ResourceDesc) -> ResourceCreateDesc<'a> {
    ResourceCreateDesc {
        name: "buffer",
        memory_location: MemoryLocation::GpuOnly,
        resource_category: ResourceCategory::Buffer,
        resource_desc,
        castable_formats: &[],
        clear_value: None,
        initial_state_or_layout: IN_STATE,
        resource_type: &ResourceType::Placed,
    }
}

/// Whether a resource is refused with this text.
fn is_told(alloc: Global, made: Result<ID3D12Resource>, told: &str) -> bool {
    match made {
        Ok(_) => false,
        Err(error) => prints(alloc, &error, told),
    }
}

/// Whether the device refuses a placed buffer with this text.
fn refuses_placed(alloc: Global, device: &mut SimD3D12, told: &str) -> bool {
    let desc = buffer(512);
    let state = CreateCall::InState(1);
    let placed = create_placed(device, state, &asked(&desc), ID3D12Heap(9), 0);
    is_told(alloc, placed, told)
}

/// Whether the device refuses a committed buffer with this text.
fn refuses_committed(alloc: Global, device: &mut SimD3D12, told: &str) -> bool {
    let desc = buffer(512);
    let state = CreateCall::InState(1);
    let committed = create_committed(device, state, &asked(&desc), &PROPERTIES, HeapFlags(0));
    is_told(alloc, committed, told)
}

const PLACED_REMOVED: &str =
    "Internal error: ID3D12Device::CreatePlacedResource DEVICE_REMOVED (code -2005270523)";

const COMMITTED_REMOVED: &str =
    "Internal error: ID3D12Device::CreateCommittedResource DEVICE_REMOVED (code -2005270523)";

const NULL: &str = "Internal error: Allocation succeeded but no resource was returned?";

const FAILED: &str = "Internal error: ID3D12Device::CreatePlacedResource failed (code -5)";

/// Four questions, each of them refused.
fn four_refused(alloc: Global, device: &mut SimD3D12) -> bool {
    refuses_placed(alloc, device, PLACED_REMOVED)
        && refuses_committed(alloc, device, COMMITTED_REMOVED)
        && refuses_placed(alloc, device, NULL)
        && refuses_placed(alloc, device, FAILED)
        && (device.refusals(), device.held()) == (4, 0)
}

#[test]
fn refused_resources(rt: HostRuntime) {
    let script = [
        (1, Refusal::Code(-2005270523)),
        (2, Refusal::Code(-2005270523)),
        (3, Refusal::Null),
        (4, Refusal::Code(-5)),
    ];
    let told = match simulated(rt.alloc(), Ok(ResourceHeapTier::Tier2), &script) {
        Some(mut device) => four_refused(rt.alloc(), &mut device),
        None => false,
    };
    check(&rt, &[told]);
}
