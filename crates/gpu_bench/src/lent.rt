//! What is timed of live allocations: their bytes being lent, the test whether they are live, and new names.

use crate::error::Result;
use crate::show::show_time;
use gpu_allocator::vulkan::*;
use gpu_allocator::{AllocationError, AllocationSizes, AllocatorDebugSettings, MemoryLocation};
use gpu_sim::SimVulkan;
use log::sink::Discard;
use std::alloc::Global;
use std::time::Instant;

const MB: u64 = 1_048_576;

/// So many allocations are live.
const LIVE: u64 = 1_000;

/// A device with one heap, which the host sees.
fn device(alloc: Global) -> Result<SimVulkan> {
    let mut heaps = Vec::with_capacity(alloc, 1)?;
    heaps.push(MemoryHeap {
        size: 64 * MB,
        flags: 0,
    })?;
    let mut types = Vec::with_capacity(alloc, 1)?;
    types.push(MemoryTypeInfo {
        property_flags: MemoryPropertyFlags::HOST_VISIBLE | MemoryPropertyFlags::HOST_COHERENT,
        heap_index: 0,
    })?;
    Ok(SimVulkan::new(alloc, heaps, types, 1, u64::MAX, Vec::new(alloc)))
}

fn allocator(
    alloc: Global,
    device: SimVulkan,
) -> std::result::Result<Allocator<SimVulkan>, AllocationError> {
    let desc = AllocatorCreateDesc {
        device,
        physical_device: PhysicalDevice(1),
        debug_settings: AllocatorDebugSettings::default(),
        buffer_device_address: false,
        allocation_sizes: AllocationSizes::new(4 * MB, 4 * MB),
    };
    Ok(Allocator::new(&Discard, alloc, desc)?)
}

fn buffer() -> AllocationCreateDesc<'static> {
    AllocationCreateDesc {
        name: "buffer",
        requirements: MemoryRequirements {
            size: 1_024,
            alignment: 256,
            memory_type_bits: u32::MAX,
        },
        location: MemoryLocation::CpuToGpu,
        linear: true,
        allocation_scheme: AllocationScheme::GpuAllocatorManaged,
    }
}

fn fill(a: &mut Allocator<SimVulkan>, live: &mut Vec<Allocation>) -> Result<()> {
    for _ in 0..LIVE {
        live.push(a.allocate(&Discard, &buffer())?)?;
    }
    Ok(())
}

/// How many bytes all of them lend, one after another.
fn lend_all(a: &Allocator<SimVulkan>, live: &[Allocation]) -> u64 {
    let mut bytes: u64 = 0;
    for allocation in live {
        if let Some(lent) = a.mapped_slice(allocation) {
            bytes = bytes.wrapping_add(lent.len() as u64);
        }
    }
    bytes
}

/// How many of them are live.
fn count_live(a: &Allocator<SimVulkan>, live: &[Allocation]) -> u64 {
    let mut count: u64 = 0;
    for allocation in live {
        if a.is_live(allocation) {
            count = count.wrapping_add(1);
        }
    }
    count
}

fn rename_all(a: &mut Allocator<SimVulkan>, live: &mut [Allocation]) -> Result<()> {
    for allocation in live {
        a.rename_allocation(allocation, "renamed buffer")?;
    }
    Ok(())
}

fn time_lending(
    rt: &HostRuntime,
    a: &Allocator<SimVulkan>,
    live: &[Allocation],
    rounds: u64,
) -> Result<()> {
    let mut bytes: u64 = 0;
    let start = Instant::now(rt)?;
    for _ in 0..rounds {
        bytes = bytes.wrapping_add(lend_all(a, live));
    }
    let taken = start.elapsed(rt)?;
    println!(rt; "mapped_slice beside {LIVE} pieces: {bytes} bytes lent")?;
    Ok(show_time(rt, "mapped_slice", taken, rounds.wrapping_mul(LIVE))?)
}

fn time_tests(
    rt: &HostRuntime,
    a: &Allocator<SimVulkan>,
    live: &[Allocation],
    rounds: u64,
) -> Result<()> {
    let mut count: u64 = 0;
    let start = Instant::now(rt)?;
    for _ in 0..rounds {
        count = count.wrapping_add(count_live(a, live));
    }
    let taken = start.elapsed(rt)?;
    println!(rt; "is_live beside {LIVE} pieces: {count} live")?;
    Ok(show_time(rt, "is_live", taken, rounds.wrapping_mul(LIVE))?)
}

fn time_names(
    rt: &HostRuntime,
    a: &mut Allocator<SimVulkan>,
    live: &mut [Allocation],
    rounds: u64,
) -> Result<()> {
    let start = Instant::now(rt)?;
    for _ in 0..rounds {
        rename_all(a, live)?;
    }
    let taken = start.elapsed(rt)?;
    Ok(show_time(rt, "rename_allocation", taken, rounds.wrapping_mul(LIVE))?)
}

fn time_all(rt: &HostRuntime, a: &mut Allocator<SimVulkan>, rounds: u64) -> Result<()> {
    let mut live = Vec::new(rt.alloc());
    fill(a, &mut live)?;
    time_lending(rt, a, &live, rounds)?;
    time_tests(rt, a, &live, rounds)?;
    time_names(rt, a, &mut live, rounds)
}

/// Calls on live allocations that find each by its number.
pub fn live_allocations(rt: &HostRuntime, rounds: u64) -> Result<()> {
    let mut a = allocator(rt.alloc(), device(rt.alloc())?)?;
    let timed = time_all(rt, &mut a, rounds);
    let _device = a.destroy(&Discard);
    timed
}
