//! The laws in use, at any device, and each run on the simulated one.

ghost use Rattle.std.specs.Prelude.{◌≡◌, ◌≢◌, ◌+◌, ◌≤◌, ◌<◌, ◌⊎◌, length, Some, None, IsSome, IfSome, true, option_copied, slice_get};
ghost use Rattle.std.specs.FinMap.{get};
ghost use Rattle.gpu_device.specs.Held.{range_of, bytes_of, size_of, with_range, HasRange, raised};

use super::{counts, device, has_bytes, info};
use crate::steps::check;
use gpu_device::vulkan::{DeviceMemory, MemoryAllocateInfo, MemoryTypeInfo, VulkanDevice};
use gpu_sim::{Refusal, SimVulkan};
use std::test::Fail;

/// Writes bytes into a memory.
fn write<D: VulkanDevice>(device: &mut D, memory: DeviceMemory, start: u64, content: &[u8])
    requires { IsSome (range_of (D.held device.old) memory.0 start (length content.now)) }
    ensures held { D.held device.new ≡ with_range (D.held device.old) memory.0 start content.now }
    ensures refused { D.refused device.new ≡ D.refused device.old }
    ensures latest { D.latest device.new ≡ D.latest device.old }
    ensures properties { D.properties device.new ≡ D.properties device.old }
{
    device
        .range_mut(memory, start, content.len() as u64)
        .copy_from_slice(content);
}

/// What was written into a range is read there.
#[tactic(auto, using(gpu_device::proofs::Writes::writes))]
fn write_then_read<'a, D: VulkanDevice>(
    device: &'a mut D,
    memory: DeviceMemory,
    start: u64,
    content: &[u8],
) -> Option<&'a [u8]>
    requires { IsSome (range_of (D.held device.old) memory.0 start (length content.now)) }
    ensures { option_copied result ≡ Some content.now }
{
    write(device, memory, start, content);
    device.bytes(memory, start, content.len() as u64)
}

/// A write to one memory leaves another.
#[tactic(auto, using(gpu_device::proofs::Writes::writes))]
fn write_leaves_another<D: VulkanDevice>(
    device: &mut D,
    memory: DeviceMemory,
    other: DeviceMemory,
    start: u64,
    content: &[u8],
)
    requires there { IsSome (range_of (D.held device.old) memory.0 start (length content.now)) }
    requires another { other.0 ≢ memory.0 }
    ensures { get (D.held device.new) other.0 ≡ get (D.held device.old) other.0 }
{
    write(device, memory, start, content);
}

/// A write to a range leaves the bytes beside it.
#[tactic(auto, using(gpu_device::proofs::Writes::writes))]
fn write_leaves_the_rest<D: VulkanDevice>(
    device: &mut D,
    memory: DeviceMemory,
    start: u64,
    content: &[u8],
    place: u64,
    count: u64,
)
    requires there { IsSome (range_of (D.held device.old) memory.0 start (length content.now)) }
    requires apart { (place + count ≤ start) ⊎ (start + length content.now ≤ place) }
    ensures { range_of (D.held device.new) memory.0 place count
        ≡ range_of (D.held device.old) memory.0 place count }
{
    write(device, memory, start, content);
}

/// A new memory that is mapped; where the device refuses either, it holds what it held, and counts one refusal.
#[tactic(auto, using(gpu_device::proofs::Changes::changes))]
fn allocate_mapped<D: VulkanDevice>(
    device: &mut D,
    info: &MemoryAllocateInfo,
) -> Option<DeviceMemory>
    ensures mapped { IfSome result (λ memory. HasRange (bytes_of (D.held device.new) memory.0) 0
        info.now.size) }
    ensures size { IfSome result (λ memory. size_of (D.held device.new) memory.0 ≡ info.now.size) }
    ensures new { IfSome result (λ memory. get (D.held device.old) memory.0 ≡ None) }
    ensures no_refusal { IfSome result (λ memory. D.refused device.new ≡ D.refused device.old) }
    ensures refused { result ≡ None → D.held device.new ≡ D.held device.old }
    ensures one_refusal { result ≡ None → D.refused device.new ≡ raised (D.refused device.old) }
    ensures question { D.latest device.new ≡ Some info.now }
{
    let memory = device.allocate_memory(info).ok()?;
    match device.map_memory(memory) {
        Ok(true) => Some(memory),
        _ => {
            device.free_memory(memory);
            None
        }
    }
}

/// A memory type is after a question what it was before.
fn type_after_question<D: VulkanDevice>(
    device: &mut D,
    info: &MemoryAllocateInfo,
    index: usize,
) -> MemoryTypeInfo
    requires { index < length (D.properties device.old).types }
    ensures { slice_get (D.properties device.old).types index ≡ Some result }
{
    let _answer = device.allocate_memory(info);
    device.memory_type(index)
}

/// All bytes of a mapped memory are there, and no more.
fn all_bytes<D: VulkanDevice>(device: &D, memory: DeviceMemory, size: u64) -> Option<&[u8]>
    requires mapped { IsSome (bytes_of (D.held device.now) memory.0) }
    requires size { size ≡ size_of (D.held device.now) memory.0 }
    ensures { option_copied result ≡ bytes_of (D.held device.now) memory.0 }
{
    device.bytes(memory, 0, size)
}

/// A new memory's bytes are as many as were asked for.
fn new_bytes<'a, D: VulkanDevice>(device: &'a mut D, info: &MemoryAllocateInfo) -> Option<&'a [u8]>
    ensures { IfSome result (λ bytes. length bytes.now ≡ info.now.size) }
{
    let memory = allocate_mapped(device, info)?;
    all_bytes(device, memory, info.size)
}

/// The null memory has no bytes.
fn null_bytes<D: VulkanDevice>(device: &D) -> Option<&[u8]>
    ensures { option_copied result ≡ None }
{
    device.bytes(DeviceMemory(0), 0, 0)
}

/// Writes bytes, which are then read.
fn read_back(sim: &mut SimVulkan, memory: DeviceMemory) -> bool {
    sim.bytes(memory, 2, 3).is_some()
        && write_then_read(sim, memory, 2, &[1, 2, 3]) == Some([1u8, 2, 3].as_slice())
}

/// Writes to another memory, and beside what was written.
fn write_beside(sim: &mut SimVulkan, first: DeviceMemory, second: DeviceMemory) -> bool {
    if first == second || sim.bytes(second, 0, 8).is_none() {
        return false;
    }
    write_leaves_another(sim, second, first, 0, &[9, 9, 9, 9, 9, 9, 9, 9]);
    if sim.bytes(first, 5, 1).is_none() {
        return false;
    }
    write_leaves_the_rest(sim, first, 5, &[4], 0, 5);
    has_bytes(sim, first, 0, &[0, 0, 1, 2, 3, 4, 0, 0])
}

/// Writes to two mapped memories of a device.
fn write_to_two(sim: &mut SimVulkan) -> bool {
    let Some(first) = allocate_mapped(sim, &info(8)) else {
        return false;
    };
    match allocate_mapped(sim, &info(8)) {
        Some(second) => read_back(sim, first) && write_beside(sim, first, second),
        None => false,
    }
}

/// The bytes of a new memory, and of the null memory.
fn new_and_null(sim: &mut SimVulkan) -> bool {
    new_bytes(sim, &info(3)) == Some([0u8, 0, 0].as_slice()) && null_bytes(sim).is_none()
}

#[test]
fn two_memories(rt: HostRuntime) -> Result<(), Fail> {
    let mut sim = device(rt.alloc(), u64::MAX, &[])?;
    let steps = [write_to_two(&mut sim), new_and_null(&mut sim)];
    check(&rt, &steps);
    Ok(())
}

/// Asks for two mapped memories, of which the mapping and the memory are refused, and for a memory type.
fn refused(sim: &mut SimVulkan) -> bool {
    allocate_mapped(sim, &info(8)).is_none()
        && allocate_mapped(sim, &info(9)).is_none()
        && counts(sim, (0, 3, 2))
        && sim.memory_type_count() == 2
        && type_after_question(sim, &info(1), 1).property_flags.0 == 6
}

#[test]
fn refused_mapping(rt: HostRuntime) -> Result<(), Fail> {
    let script = [(2, Refusal::Null), (3, Refusal::Code(-2))];
    let mut sim = device(rt.alloc(), u64::MAX, &script)?;
    check(&rt, &[refused(&mut sim)]);
    Ok(())
}
