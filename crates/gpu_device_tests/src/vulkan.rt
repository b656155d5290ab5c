//! Vulkan: its flags, the laws in use, and the answers of the simulated device.

mod answers;
mod flags;
mod laws;
mod limited;
mod refused;

use gpu_device::vulkan::{
    AllocationScheme, DeviceMemory, MemoryAllocateInfo, MemoryHeap, MemoryPropertyFlags,
    MemoryTypeInfo, VulkanDevice,
};
use gpu_sim::{Refusal, SimVulkan};
use std::alloc::{AllocError, Global};

/// A question for memory of this size.
fn info(size: u64) -> MemoryAllocateInfo {
    MemoryAllocateInfo {
        size,
        memory_type_index: 1,
        device_address: true,
        scheme: AllocationScheme::GpuAllocatorManaged,
    }
}

const HEAPS: &[MemoryHeap] = &[MemoryHeap {
    size: 1024,
    flags: 1,
}];

const TYPES: &[MemoryTypeInfo] = &[
    MemoryTypeInfo {
        property_flags: MemoryPropertyFlags::DEVICE_LOCAL,
        heap_index: 0,
    },
    MemoryTypeInfo {
        property_flags: MemoryPropertyFlags(6),
        heap_index: 0,
    },
];

/// A device with one heap and two memory types.
fn device(alloc: Global, limit: u64, refusals: &[(u64, Refusal)]) -> Result<SimVulkan, AllocError> {
    let heaps = Vec::from_slice(alloc, HEAPS)?;
    let types = Vec::from_slice(alloc, TYPES)?;
    let refusals = Vec::from_slice(alloc, refusals)?;
    Ok(SimVulkan::new(alloc, heaps, types, 64, limit, refusals))
}

/// Whether the device holds so many memories, was asked so many questions, and refused so many.
fn counts(sim: &SimVulkan, want: (usize, u64, u64)) -> bool {
    (sim.held(), sim.questions(), sim.refusals()) == want
}

/// Asks for a memory of this size.
fn memory<D: VulkanDevice>(device: &mut D, size: u64, want: Result<DeviceMemory, i32>) -> bool {
    device.allocate_memory(&info(size)) == want
}

/// What a memory is answered with, and its bytes where they are asked for.
type Answers = (Result<DeviceMemory, i32>, Option<Result<bool, i32>>);

/// Asks for a memory and then for its bytes, and gives both answers.
#[tactic(auto, using(gpu_device::proofs::Changes::changes))]
fn ask_both(device: &mut SimVulkan, size: u64) -> Answers {
    let answer = device.allocate_memory(&info(size));
    let mapping = match answer {
        Ok(memory) => Some(device.map_memory(memory)),
        Err(_) => None,
    };
    (answer, mapping)
}

/// Whether a range can neither be read nor lent.
fn no_bytes(sim: &mut SimVulkan, memory: DeviceMemory, start: u64, len: u64) -> bool {
    sim.bytes(memory, start, len).is_none() && sim.bytes_mut(memory, start, len).is_none()
}

/// Whether a range has these bytes.
fn has_bytes(sim: &SimVulkan, memory: DeviceMemory, start: u64, want: &[u8]) -> bool {
    sim.bytes(memory, start, want.len() as u64) == Some(want)
}
