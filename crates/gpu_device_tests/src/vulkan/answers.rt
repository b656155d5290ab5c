//! The answers of the simulated device, with ample memory and with memory that the host can't back.

use super::{Answers, ask_both, counts, device, has_bytes, memory, no_bytes};
use crate::steps::check;
use gpu_device::vulkan::{
    AllocationScheme, Buffer, DeviceMemory, MemoryAllocateInfo, MemoryPropertyFlags, VulkanDevice,
};
use gpu_sim::{Refusal, SimVulkan};
use std::test::Fail;

const FIRST: DeviceMemory = DeviceMemory(1);

const SECOND: DeviceMemory = DeviceMemory(2);

const THIRD: DeviceMemory = DeviceMemory(3);

/// Asks for a memory and then for its bytes.
fn both(sim: &mut SimVulkan, size: u64, want: Answers) -> bool {
    ask_both(sim, size) == want
}

/// Whether a device tells what it was given, and was asked for nothing.
fn is_new(sim: &SimVulkan) -> bool {
    sim.heap_count() == 1
        && sim.heap(0).size == 1024
        && sim.memory_type_count() == 2
        && sim.memory_type(0).property_flags == MemoryPropertyFlags::DEVICE_LOCAL
        && sim.memory_type(1).property_flags.0 == 6
        && sim.buffer_image_granularity() == 64
        && counts(sim, (0, 0, 0))
        && sim.last_info().is_none()
}

/// Looks which bytes are there and which aren't.
fn look(sim: &mut SimVulkan) -> bool {
    no_bytes(sim, FIRST, 0, 0)
        && no_bytes(sim, SECOND, 0, 5)
        && no_bytes(sim, SECOND, u64::MAX, 2)
        && no_bytes(sim, DeviceMemory(0), 0, 0)
        && has_bytes(sim, SECOND, 4, &[])
        && sim.bytes_mut(SECOND, 0, 4).is_some()
}

/// Writes some bytes.
fn write(sim: &mut SimVulkan) -> bool {
    match sim.bytes_mut(SECOND, 1, 2) {
        Some(bytes) => bytes.fill(7),
        None => return false,
    }
    has_bytes(sim, SECOND, 0, &[0, 7, 7, 0])
}

/// Gives bytes and memories back that are there, and some that aren't.
fn give_back(sim: &mut SimVulkan) -> bool {
    sim.unmap_memory(SECOND);
    let gone = no_bytes(sim, SECOND, 0, 0);
    sim.free_memory(SECOND);
    sim.free_memory(SECOND);
    sim.unmap_memory(DeviceMemory(9));
    gone && sim.held() == 1
}

#[test]
fn numbers_and_bytes(rt: HostRuntime) -> Result<(), Fail> {
    let mut sim = device(rt.alloc(), u64::MAX, &[])?;
    let steps = [
        is_new(&sim),
        memory(&mut sim, 4, Ok(FIRST)),
        both(&mut sim, 4, (Ok(SECOND), Some(Ok(true)))),
        look(&mut sim),
        write(&mut sim),
        look(&mut sim),
        has_bytes(&sim, SECOND, 0, &[0, 7, 7, 0]),
        counts(&sim, (2, 3, 0)),
        give_back(&mut sim),
        memory(&mut sim, 0, Ok(THIRD)),
        counts(&sim, (2, 4, 0)),
    ];
    check(&rt, &steps);
    Ok(())
}

/// Asks for the memory of a buffer, which is refused.
fn dedicated(sim: &mut SimVulkan) -> bool {
    let dedicated = MemoryAllocateInfo {
        size: 5,
        memory_type_index: 7,
        device_address: false,
        scheme: AllocationScheme::DedicatedBuffer(Buffer(8)),
    };
    sim.allocate_memory(&dedicated) == Err(-1000001004) && sim.last_info() == Some(dedicated)
}

/// Of the memories one is granted without bytes, and one with a code for them.
#[test]
fn scripted_refusals(rt: HostRuntime) -> Result<(), Fail> {
    let script = [
        (1, Refusal::Code(-9)),
        (2, Refusal::Null),
        (4, Refusal::Null),
        (6, Refusal::Code(-3)),
        (6, Refusal::Null),
        (7, Refusal::Code(-1000001004)),
    ];
    let mut sim = device(rt.alloc(), 100, &script)?;
    let steps = [
        both(&mut sim, 1, (Err(-9), None)),
        both(&mut sim, 2, (Err(-2), None)),
        counts(&sim, (0, 2, 2)),
        both(&mut sim, 3, (Ok(FIRST), Some(Ok(false)))),
        no_bytes(&mut sim, FIRST, 0, 0),
        both(&mut sim, 4, (Ok(SECOND), Some(Err(-3)))),
        dedicated(&mut sim),
        counts(&sim, (2, 7, 5)),
        // sizes about the limit
        memory(&mut sim, 101, Err(-2)),
        memory(&mut sim, 100, Ok(THIRD)),
    ];
    check(&rt, &steps);
    Ok(())
}

#[test]
fn sizes_that_the_host_cannot_back(rt: HostRuntime) -> Result<(), Fail> {
    let mut sim = device(rt.alloc(), u64::MAX, &[])?;
    let steps = [
        both(&mut sim, 1 << 63, (Ok(FIRST), Some(Err(-5)))),
        both(&mut sim, u64::MAX, (Ok(SECOND), Some(Err(-5)))),
        both(&mut sim, (1 << 63) - 1, (Ok(THIRD), Some(Err(-1)))),
        counts(&sim, (3, 6, 3)),
    ];
    check(&rt, &steps);
    Ok(())
}
