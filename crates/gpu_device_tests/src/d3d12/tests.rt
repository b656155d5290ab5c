//! The answers of the simulated DirectX 12 device, with ample memory and with memory refused.

use super::laws::make_and_release;
use crate::steps::check;
use gpu_device::d3d12::{
    ClearValue, CpuPageProperty, D3D12Device, Format, HeapContent, HeapDesc, HeapFlags,
    HeapProperties, HeapType, ID3D12Heap, ID3D12Resource, MemoryPool, ResourceDesc,
    ResourceDimension, ResourceHeapTier,
};
use gpu_sim::SimD3D12;
use gpu_sim_base::Refusal;
use std::alloc::{AllocError, Global};
use std::test::Fail;

const PROPERTIES: HeapProperties = HeapProperties {
    heap_type: HeapType::Custom,
    cpu_page_property: CpuPageProperty::WriteCombine,
    memory_pool_preference: MemoryPool::L0,
    creation_node_mask: 0,
    visible_node_mask: 0,
};

pub(super) const HEAP: HeapDesc = HeapDesc {
    size: 4 << 20,
    properties: PROPERTIES,
    alignment: 4 << 20,
    content: HeapContent::Buffers,
};

const CLEAR: ClearValue = ClearValue {
    format: Format(28),
    value: [1, 2, 3, 4],
};

/// A buffer of this many bytes.
fn buffer(width: u64) -> ResourceDesc {
    ResourceDesc {
        dimension: ResourceDimension::Buffer,
        alignment: 0,
        width,
        height: 1,
        depth_or_array_size: 1,
        mip_levels: 1,
        format: Format(0),
        sample_count: 1,
        sample_quality: 0,
        layout: 1,
        flags: 0,
    }
}

/// A device of this tier, with these refusals.
fn device(
    alloc: Global,
    tier: Result<ResourceHeapTier, i32>,
    refusals: &[(u64, Refusal)],
) -> Result<SimD3D12, AllocError> {
    Ok(SimD3D12::new(alloc, tier, Vec::from_slice(alloc, refusals)?))
}

/// Whether the device holds so much, was asked so many questions, and refused so many.
pub(super) fn counts(sim: &SimD3D12, want: (usize, u64, u64)) -> bool {
    (sim.held(), sim.questions(), sim.refusals()) == want
}

/// Whether a device tells this tier, and was asked for nothing.
fn is_new(sim: &SimD3D12, tier: Result<ResourceHeapTier, i32>) -> bool {
    sim.resource_heap_tier() == tier
        && sim.device_removed_reason() == -2005270523
        && counts(sim, (0, 0, 0))
        && sim.last_heap().is_none()
        && sim.last_resource().is_none()
        && sim.last_formats().is_none()
        && sim.last_clear().is_none()
        && sim.last_memory().is_none()
}

/// Asks for a heap of this size, which the device remembers.
pub(super) fn heap(sim: &mut SimD3D12, size: u64, want: Result<Option<ID3D12Heap>, i32>) -> bool {
    let desc = HeapDesc { size, ..HEAP };
    sim.create_heap(&desc) == want && sim.last_heap() == Some(desc)
}

/// Asks for a resource in the first heap.
fn placed(sim: &mut SimD3D12) -> bool {
    let placed = sim.create_placed_resource(ID3D12Heap(1), 0, &buffer(1), 0, Some(&CLEAR));
    placed == Ok(Some(ID3D12Resource(2))) && sim.last_clear() == Some(CLEAR)
}

/// Gives back what isn't there, and then the heap, twice, and the resource.
fn release_all(sim: &mut SimD3D12) -> bool {
    sim.release_heap(ID3D12Heap(2));
    sim.release_resource(ID3D12Resource(1));
    sim.release_resource(ID3D12Resource(9));
    let both = sim.held();
    sim.release_resource(ID3D12Resource(2));
    sim.release_heap(ID3D12Heap(1));
    sim.release_heap(ID3D12Heap(1));
    both == 2 && counts(sim, (0, 4, 2))
}

const SIZE: u64 = 4 << 20;

#[test]
fn numbers_after_a_refusal(rt: HostRuntime) -> Result<(), Fail> {
    let refusals = [
        (2, Refusal::Code(-7)),
        (2, Refusal::Null),
        (4, Refusal::Null),
    ];
    let mut sim = device(rt.alloc(), Ok(ResourceHeapTier::Tier2), &refusals)?;
    let steps = [
        heap(&mut sim, SIZE, Ok(Some(ID3D12Heap(1)))),
        heap(&mut sim, 65536, Err(-7)),
        placed(&mut sim),
        heap(&mut sim, SIZE, Ok(None)),
        counts(&sim, (2, 4, 2)),
        release_all(&mut sim),
        heap(&mut sim, SIZE, Ok(Some(ID3D12Heap(3)))),
    ];
    check(&rt, &steps);
    Ok(())
}

/// Asks for a committed resource without formats.
fn committed(sim: &mut SimD3D12) -> bool {
    let flags = HeapFlags(0xc0);
    let committed = sim.create_committed_resource(&PROPERTIES, flags, &buffer(1), 0, Some(&CLEAR));
    committed == Ok(Some(ID3D12Resource(1)))
        && sim.last_formats().is_none()
        && sim.last_clear() == Some(CLEAR)
        && sim.last_memory() == Some((PROPERTIES, flags))
        && sim.last_heap().is_none()
}

#[test]
fn tells_what_it_was_given_and_a_committed_resource_whole(rt: HostRuntime) -> Result<(), Fail> {
    let tier = Ok(ResourceHeapTier::Tier1);
    let mut sim = device(rt.alloc(), tier, &[])?;
    let steps = [
        is_new(&sim, tier),
        committed(&mut sim),
        counts(&sim, (1, 1, 0)),
    ];
    check(&rt, &steps);
    Ok(())
}

/// Makes a heap and a resource in it, and gives both back: whether that answers so, and leaves these counts.
fn made(sim: &mut SimD3D12, granted: bool, questions: u64, refusals: u64) -> bool {
    make_and_release(sim, &HEAP, &buffer(512)) == granted && counts(sim, (0, questions, refusals))
}

#[test]
fn made_and_released_without_a_tier(rt: HostRuntime) -> Result<(), Fail> {
    let refusals = [(4, Refusal::Null), (5, Refusal::Code(-1))];
    let mut sim = device(rt.alloc(), Err(-5), &refusals)?;
    let steps = [
        is_new(&sim, Err(-5)),
        made(&mut sim, true, 2, 0),
        made(&mut sim, false, 4, 1),
        made(&mut sim, false, 5, 2),
        made(&mut sim, true, 7, 2),
    ];
    check(&rt, &steps);
    Ok(())
}
