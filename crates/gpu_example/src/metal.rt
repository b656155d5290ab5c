//! The Metal allocator over a simulated device.

use crate::error::Result;
use gpu_allocator::metal::*;
use gpu_allocator::{AllocationError, AllocationSizes, AllocatorDebugSettings, MemoryLocation};
use gpu_sim::SimMetal;
use log::sink::Discard;
use std::alloc::Global;

/// An allocator with a residency set, over a device that has them. Yours implements `MetalDevice`.
fn allocator(alloc: Global) -> std::result::Result<Allocator<SimMetal>, AllocationError> {
    let desc = AllocatorCreateDesc {
        device: SimMetal::new(alloc, true, Vec::new(alloc)),
        debug_settings: AllocatorDebugSettings::default(),
        allocation_sizes: AllocationSizes::default(),
        create_residency_set: true,
    };
    Ok(Allocator::new(alloc, desc)?)
}

/// Makes a buffer of each kind, makes their heaps resident, and gives both back.
fn use_memory(rt: &HostRuntime, a: &mut Allocator<SimMetal>) -> Result<()> {
    let desc = AllocationCreateDesc::buffer(
        a.device(),
        "vertices",
        70_000,
        MemoryLocation::GpuOnly,
    );
    let vertices = a.allocate(&Discard, &desc)?;
    let desc = AllocationCreateDesc::buffer(a.device(), "uniforms", 512, MemoryLocation::CpuToGpu);
    let uniforms = a.allocate(&Discard, &desc)?;
    // once for a frame, before its command buffers are committed
    a.commit_residency_set();
    let mut count: usize = 0;
    for _ in a.heaps() {
        count = count.saturating_add(1);
    }
    let capacity = a.capacity();
    println!(rt; "metal: {count} heaps of {capacity} bytes, all resident")?;
    a.free(&Discard, vertices).map_err(AllocationError::from)?;
    a.free(&Discard, uniforms).map_err(AllocationError::from)?;
    Ok(())
}

/// From the device to the device.
pub fn tour(rt: &HostRuntime) -> Result<()> {
    let mut a = allocator(rt.alloc())?;
    let done = use_memory(rt, &mut a);
    let device = a.destroy();
    let held = device.held();
    println!(rt; "metal: destroyed: the device holds {held} object, the empty residency set")?;
    done
}
