//! Metal's machine.

mod beside;
mod refused;
mod rows;

use gpu_device::metal::{MTLHeap, MetalDevice};
use gpu_machine::metal::{Allocated, Machine, Progress};
use gpu_metal::{AllocationCreateDesc, heap_label};
use gpu_sim_base::Refusal;
use gpu_sim_metal::SimMetal;
use gpu_values::{AllocationSizes, MemoryLocation, Result};
use std::alloc::Global;
use std::process::Abort;

/// Looks that each step of a test went as it should; a failed one is told by its place.
fn check(rt: &impl Abort, steps: &[bool]) {
    for (place, step) in steps.iter().enumerate() {
        assert!(rt; *step, "step {place}");
    }
}

/// A simulated device that refuses these questions.
fn simulated(alloc: Global, script: &[(u64, Refusal)]) -> Option<SimMetal> {
    match Vec::from_slice(alloc, script) {
        Ok(refusals) => Some(SimMetal::new(alloc, true, refusals)),
        Err(_) => None,
    }
}

/// A piece of so many bytes.
fn piece(size: u64, location: MemoryLocation) -> AllocationCreateDesc<'static> {
    AllocationCreateDesc {
        name: "piece",
        location,
        size,
        alignment: 256,
    }
}

/// Puts the machine's questions to the device.
fn allocate(
    machine: &mut Machine,
    device: &mut SimMetal,
    desc: &AllocationCreateDesc,
) -> Result<Allocated> {
    let question = match machine.begin(desc) {
        Err(error) => return Err(error),
        Ok(Progress::Piece(allocated)) => return Ok(allocated),
        Ok(Progress::Question(question)) => question,
    };
    match device.new_heap(
        &question.descriptor,
        question.block.size,
        heap_label(question.location),
    ) {
        None => Err(machine.refused()),
        Some(heap) => match machine.granted(heap) {
            Err(error) => Err(error),
            Ok(granted) => Ok(granted.allocated),
        },
    }
}
