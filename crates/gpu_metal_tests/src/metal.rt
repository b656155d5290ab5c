//! The Metal allocator.

mod defragmentation;
mod log_lines;
mod moves;
mod refusals;
mod refused;
mod sessions;

use gpu_metal::{AllocationCreateDesc, Allocator, AllocatorCreateDesc};
use gpu_sim_base::Refusal;
use gpu_sim_metal::SimMetal;
use gpu_values::{AllocationSizes, AllocatorDebugSettings, MemoryLocation};
use log::sink::Discard;
use std::alloc::Global;
use std::process::Abort;

/// Looks that each step of a test went as it should; a failed one is told by its place. What the tests look at is told by a
/// `bool`: a proof of a call that may abort costs more than the call itself.
fn check(rt: &impl Abort, steps: &[bool]) {
    for (place, step) in steps.iter().enumerate() {
        assert!(rt; *step, "step {place}");
    }
}

/// A simulated device with residency sets, that refuses these questions.
fn simulated(alloc: Global, script: &[(u64, Refusal)]) -> Option<SimMetal> {
    match Vec::from_slice(alloc, script) {
        Ok(refusals) => Some(SimMetal::new(alloc, true, refusals)),
        Err(_) => None,
    }
}

/// What an allocator is made from.
fn described(
    device: SimMetal,
    allocation_sizes: AllocationSizes,
    create_residency_set: bool,
) -> AllocatorCreateDesc<SimMetal> {
    AllocatorCreateDesc {
        device,
        debug_settings: AllocatorDebugSettings::default(),
        allocation_sizes,
        create_residency_set,
    }
}

/// An allocator over such a device, with the default sizes of blocks.
fn made(alloc: Global, residency: bool, script: &[(u64, Refusal)]) -> Option<Allocator<SimMetal>> {
    let device = simulated(alloc, script)?;
    match Allocator::new(
        alloc,
        described(device, AllocationSizes::default(), residency),
    ) {
        Ok(allocator) => Some(allocator),
        Err((_, _)) => None,
    }
}

/// A piece of so many bytes.
fn piece(size: u64, location: MemoryLocation) -> AllocationCreateDesc<'static> {
    AllocationCreateDesc {
        name: "piece",
        location,
        size,
        alignment: 256,
    }
}
