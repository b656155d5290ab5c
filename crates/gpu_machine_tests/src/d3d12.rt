//! DirectX 12's machine.

mod beside;
mod refused;
mod rows;

use gpu_d3d12::{AllocationCreateDesc, ResourceCategory};
use gpu_device::d3d12::{D3D12Device, ID3D12Heap, ID3D12Resource, ResourceHeapTier};
use gpu_machine::d3d12::{Allocated, Machine, Progress};
use gpu_sim_base::Refusal;
use gpu_sim_d3d12::SimD3D12;
use gpu_values::{AllocationSizes, MemoryLocation, Result};
use std::alloc::Global;
use std::process::Abort;

/// Looks that each step of a test went as it should; a failed one is told by its place.
fn check(rt: &impl Abort, steps: &[bool]) {
    for (place, step) in steps.iter().enumerate() {
        assert!(rt; *step, "step {place}");
    }
}

/// A simulated device of this tier that refuses these questions.
fn simulated(alloc: Global, tier: ResourceHeapTier, script: &[(u64, Refusal)]) -> Option<SimD3D12> {
    match Vec::from_slice(alloc, script) {
        Ok(refusals) => Some(SimD3D12::new(alloc, Ok(tier), refusals)),
        Err(_) => None,
    }
}

/// A piece of so many bytes for a resource of this category.
fn piece(
    size: u64,
    location: MemoryLocation,
    resource_category: ResourceCategory,
) -> AllocationCreateDesc<'static> {
    AllocationCreateDesc {
        name: "piece",
        location,
        size,
        alignment: 256,
        resource_category,
    }
}

/// Puts the machine's questions to the device.
fn allocate(
    machine: &mut Machine,
    device: &mut SimD3D12,
    desc: &AllocationCreateDesc,
) -> Result<Allocated> {
    let question = match machine.begin(desc) {
        Err(error) => return Err(error),
        Ok(Progress::Piece(allocated)) => return Ok(allocated),
        Ok(Progress::Question(question)) => question,
    };
    match device.create_heap(&question.desc) {
        Err(code) => Err(machine.refused(Some(code))),
        Ok(None) => Err(machine.refused(None)),
        Ok(Some(heap)) => machine.granted(heap),
    }
}
