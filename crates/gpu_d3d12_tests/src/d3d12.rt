//! Worked rows of the DirectX 12 allocator.

mod defragmentation;
mod log_lines;
mod moves;
mod pieces;
mod questions;
mod refusals;
mod refused;
mod resources;
mod sessions;

use gpu_d3d12::{
    AllocationCreateDesc, Allocator, AllocatorCreateDesc, ID3D12DeviceVersion, ResourceCategory,
};
use gpu_device::d3d12::{Format, ResourceDesc, ResourceDimension, ResourceHeapTier};
use gpu_sim_base::Refusal;
use gpu_sim_d3d12::SimD3D12;
use gpu_values::{AllocationSizes, AllocatorDebugSettings, MemoryLocation};
use log::sink::Discard;
use std::alloc::Global;
use std::fmt::Display;
use std::process::Abort;

/// Looks that each step of a test went as it should; a failed one is told by its place. What the tests look at is told by a
/// `bool`: a proof of a call that may abort costs more than the call itself.
fn check(rt: &impl Abort, steps: &[bool]) {
    for (place, step) in steps.iter().enumerate() {
        assert!(rt; *step, "step {place}");
    }
}

/// Whether the value prints this text.
fn prints<D: Display>(alloc: Global, value: &D, want: &str) -> bool {
    match value.to_string(alloc) {
        Ok(text) => text.as_str() == want,
        Err(_) => false,
    }
}

/// A simulated device of this tier, that refuses these questions.
fn simulated(
    alloc: Global,
    tier: std::result::Result<ResourceHeapTier, i32>,
    script: &[(u64, Refusal)],
) -> Option<SimD3D12> {
    match Vec::from_slice(alloc, script) {
        Ok(refusals) => Some(SimD3D12::new(alloc, tier, refusals)),
        Err(_) => None,
    }
}

/// What an allocator is made from, with the default settings.
fn described(device: SimD3D12) -> AllocatorCreateDesc<SimD3D12> {
    AllocatorCreateDesc {
        device: ID3D12DeviceVersion::Device12(device),
        debug_settings: AllocatorDebugSettings::default(),
        allocation_sizes: AllocationSizes::default(),
    }
}

/// An allocator over a simulated device that refuses these questions, and logs under these settings.
fn made_with(
    alloc: Global,
    debug_settings: AllocatorDebugSettings,
    script: &[(u64, Refusal)],
) -> Option<Allocator<SimD3D12>> {
    let device = simulated(alloc, Ok(ResourceHeapTier::Tier2), script)?;
    let mut desc = described(device);
    desc.debug_settings = debug_settings;
    match Allocator::new(alloc, desc) {
        Ok(allocator) => Some(allocator),
        Err((_, _)) => None,
    }
}

/// The same, with the default settings.
fn made(alloc: Global, script: &[(u64, Refusal)]) -> Option<Allocator<SimD3D12>> {
    made_with(alloc, AllocatorDebugSettings::default(), script)
}

/// A buffer of this width in bytes.
fn buffer(width: u64) -> ResourceDesc {
    ResourceDesc {
        dimension: ResourceDimension::Buffer,
        alignment: 0,
        width,
        height: 1,
        depth_or_array_size: 1,
        mip_levels: 1,
        format: Format(0),
        sample_count: 1,
        sample_quality: 0,
        layout: 1,
        flags: 0,
    }
}

/// A piece of 512 bytes for a resource of this category.
fn piece_for(
    location: MemoryLocation,
    resource_category: ResourceCategory,
) -> AllocationCreateDesc<'static> {
    AllocationCreateDesc {
        name: "piece",
        location,
        size: 512,
        alignment: 256,
        resource_category,
    }
}

/// The device of an allocator that is gone.
fn destroyed(a: Allocator<SimD3D12>) -> SimD3D12 {
    a.destroy(&Discard).into_device()
}
